// The memory of all processes.
ghost use Rattle.std.specs.Prelude.{◌≡◌, true, false, MatchOption, length, nat_le, slice_set};
ghost use Rattle.fold.specs.Fold.{absent, with_page, with_process};
ghost use Rattle.private.specs.SeePage.{see_page, see_process};
ghost use Rattle.private.specs.See.{FoundAt, see, alive_at, process_seen, page_at, found, free_process, free_segment, with_byte, with_segment, segment_at, emptied};

use super::page::{Address, Page, Sought, put_at};
use super::process::Process;
use std::alloc::Global;

// `next` is a label that no page has had.
#[derive(Drop)]
pub struct Memory {
    pub heap: Global,
    pub processes: Vec<Process>,
    pub segments: Vec<Vec<u8>>,
    pub next: u64,
}

impl Memory {
    pub(crate) fn living(&self, process: usize) -> Option<&Process>
        ensures { MatchOption result (alive_at (see self.now) process ≡ false) (λ q. (see_process q.now ≡ process_seen (see self.now) process) × (alive_at (see self.now) process ≡ true)) }
    {
        self.processes.get(process).filter(|process| process.alive)
    }

    pub(crate) fn is_alive(&self, process: usize) -> bool
        ensures { result ≡ alive_at (see self.now) process }
    {
        self.living(process).is_some()
    }

    // None for what no process has; a page may also be there and absent.
    pub(crate) fn page(&self, place: Address) -> Option<&Page>
        ensures { MatchOption result (page_at (see self.now) place.process place.page ≡ absent) (λ x. page_at (see self.now) place.process place.page ≡ see_page x.now) }
    {
        self.living(place.process)?.pages.get(place.page)
    }

    // Whether at least so many pages are sought.
    pub(crate) fn has(&self, wanted: usize, sought: Sought) -> bool
        ensures { result ≡ nat_le wanted (found sought (see self.now)) }
    {
        let count = self.processes.iter().fold(
            0usize,
            |count, process| count.saturating_add(process.count(sought)),
        );
        wanted <= count
    }

    // The lowest process that is not there.
    pub(crate) fn free_process(&self) -> Option<usize>
        ensures { FoundAt (free_process (see self.now)) (length (see self.now).processes) result }
    {
        self.processes.iter().position(|process| !process.alive)
    }

    // The lowest segment that nobody looks at.
    pub(crate) fn free_segment(&self) -> Option<usize>
        ensures { FoundAt (free_segment (see self.now)) (length (see self.now).segments) result }
    {
        (0..self.segments.len()).position(|segment| !self.has(1, Sought::Looking(segment)))
    }

    pub(crate) fn put_page(&mut self, place: Address, new: Page)
        ensures { see self.new ≡ with_page (see self.old) place.process place.page (see_page new) }
    {
        if let Some(process) = self.processes.get_mut(place.process) {
            process.put(place.page, new);
        }
    }

    pub(crate) fn put_process(&mut self, process: usize, new: Process)
        ensures { see self.new ≡ with_process (see self.old) process (see_process new) }
    {
        put_at(&mut self.processes, process, new);
    }

    pub(crate) fn put_segment(&mut self, segment: usize, new: Vec<u8>)
        ensures { see self.new ≡ with_segment (see self.old) segment new.items }
    {
        put_at(&mut self.segments, segment, new);
    }

    // A process leaves, and its pages with it.
    pub(crate) fn leave(&mut self, process: usize)
        ensures { see self.new ≡ with_process (see self.old) process (emptied (see self.old) process) }
    {
        if let Some(process) = self.processes.get_mut(process) {
            process.leave();
        }
    }

    // An own page gets a byte and, it may be, another label.
    pub(crate) fn put_byte(&mut self, place: Address, label: u64, offset: usize, byte: u8)
        ensures { see self.new ≡ with_byte (see self.old) place.process place.page label offset byte }
    {
        if let Some(process) = self.processes.get_mut(place.process) {
            process.store(place.page, label, offset, byte);
        }
    }

    pub(crate) fn put_segment_byte(&mut self, segment: usize, offset: usize, byte: u8)
        ensures { see self.new ≡ with_segment (see self.old) segment (slice_set (segment_at (see self.old) segment) offset byte) }
    {
        if let Some(bytes) = self.segments.get_mut(segment) {
            put_at(bytes, offset, byte);
        }
    }
}
