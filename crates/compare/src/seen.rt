// What can be seen of a machine by its answers: which processes and pages are there.
ghost use Rattle.std.specs.Prelude.{◌≡◌, ◌<◌, IfSome, None, count_by, is_some, slice_get, true, unwrap_or, vec_len};

use requests::request::Call;
use requests::sizes::Sizes;
use std::alloc::{AllocError, Global};

// As many as a process may have.
const PAGES: usize = 64;

#[derive(Clone, Copy, PartialEq, Eq, Debug)]
pub enum Page {
    Own,
    Segment,
}

// The pages of a process, by number.
type Pages = [Option<Page>; PAGES];

#[derive(Drop)]
pub struct Seen {
    // how many pages a process may have
    pages: usize,
    // those of each process that is there
    processes: Vec<Option<Pages>>,
}

impl Seen {
    // Process 0 is there, with no page.
    pub fn start(heap: Global, sizes: Sizes) -> Result<Seen, AllocError> {
        let mut processes = vec![in heap; None; sizes.processes]?;
        if let Some(first) = processes.get_mut(0) {
            *first = Some([None; PAGES]);
        }
        Ok(Seen {
            pages: sizes.pages,
            processes,
        })
    }

    pub fn is_alive(&self, process: usize) -> bool
        ensures { result ≡ is_some (unwrap_or (slice_get self.now.processes.items process) None) }
    {
        self.processes.get(process).is_some_and(|p| p.is_some())
    }

    pub fn page(&self, process: usize, page: usize) -> Option<Page> {
        let pages = self.processes.get(process)?.as_ref()?;
        pages.get(page).copied().flatten()
    }

    fn slot(&mut self, process: usize, page: usize) -> Option<&mut Option<Page>> {
        self.processes.get_mut(process)?.as_mut()?.get_mut(page)
    }

    fn put(&mut self, process: usize, page: usize, new: Option<Page>) {
        if let Some(slot) = self.slot(process, page) {
            *slot = new;
        }
    }

    pub fn living(&self) -> usize
        ensures { result ≡ count_by is_some self.now.processes.items }
    {
        self.processes.iter().filter(|p| p.is_some()).count()
    }

    // The next process from `start` on, round and round, that is there.
    pub fn next_process(&self, start: usize) -> Option<usize>
        ensures within { IfSome result (λ process. process < vec_len self.now.processes) }
        ensures there { IfSome result (λ process. is_some (unwrap_or (slice_get self.now.processes.items process) None) ≡ true) }
    {
        first_from(
            start,
            self.processes.len(),
            |process| self.is_alive(process),
        )
    }

    // The next page of a process from `start` on, round and round below `span`, that is absent or that is not.
    pub fn next_page(
        &self,
        process: usize,
        start: usize,
        span: usize,
        absent: bool,
    ) -> Option<usize>
        ensures { IfSome result (λ page. page < span) }
    {
        first_from(start, span, |page| {
            self.page(process, page).is_none() == absent
        })
    }

    // The next process and page, counted through all from `start` on, round and round, that is a segment.
    pub fn next_segment(&self, start: usize) -> Option<(usize, usize)> {
        let pages = self.pages;
        if pages == 0 {
            return None;
        }
        let spot = |place: usize| (place / pages, place % pages);
        first_from(start, self.processes.len().saturating_mul(pages), |place| {
            let (process, page) = spot(place);
            self.page(process, page) == Some(Page::Segment)
        })
        .map(spot)
    }

    // A call was done with this number.
    pub fn note(&mut self, call: Call, number: u64) {
        match call {
            Call::Fork { process } => self.fork(process, number as usize),
            Call::Leave { process } => self.leave(process),
            Call::Map { process, page } => self.put(process, page, Some(Page::Own)),
            Call::Drop { process, page } => self.put(process, page, None),
            Call::Make { process, page } | Call::Look { process, page, .. } => {
                self.put(process, page, Some(Page::Segment))
            }
            Call::Load { .. } | Call::Store { .. } | Call::Counts => {}
        }
    }

    fn fork(&mut self, parent: usize, child: usize) {
        let pages = self.processes.get(parent).copied().flatten();
        if let Some(there) = self.processes.get_mut(child) {
            *there = pages;
        }
    }

    fn leave(&mut self, process: usize) {
        if let Some(there) = self.processes.get_mut(process) {
            *there = None;
        }
    }
}

// The first number below `count`, from `start` on, round and round, that passes.
fn first_from<P: Fn(usize) -> bool>(start: usize, count: usize, passes: P) -> Option<usize>
    requires { P.IsAlwaysCallable passes }
    ensures within { IfSome result (λ n. n < count) }
    ensures passing { IfSome result (λ n. P.post passes n true) }
{
    let start = start.checked_rem(count)?;
    (start..count).chain(0..start).find(|n| passes(*n))
}
