// Chooses the calls of a row.
ghost use Rattle.std.specs.Prelude.{◌<◌};
ghost use Rattle.requests.specs.Ranges.{InRange, ranged};

use crate::draws::Draws;
use crate::mix::Mix;
use crate::seen::Seen;
use requests::answer::Answer;
use requests::request::{Call, Kind};
use requests::sizes::Sizes;
use std::alloc::{AllocError, Global};

// Few, so that loads come to what was stored.
const OFFSETS: [usize; 8] = [0, 1, 2, 3, 127, 128, 254, 255];

#[derive(Drop)]
pub struct Chooser {
    draws: Draws,
    mix: Mix,
    sizes: Sizes,
    // the first so many pages of each process are those that the row works on
    span: usize,
    seen: Seen,
    ghost populated: { 0 < sizes.processes },
    ghost spanned: { 0 < span },
}

impl Chooser {
    pub fn new(heap: Global, seed: u64, mix: Mix, sizes: Sizes) -> Result<Chooser, AllocError>
        requires { InRange (ranged sizes) }
    {
        let seen = Seen::start(heap, sizes)?;
        Ok(Chooser {
            draws: Draws::new(seed),
            mix,
            sizes,
            span: mix.span(sizes),
            seen,
        })
    }

    // What a call was answered is seen by the choice of the next.
    pub fn note(&mut self, call: Call, answer: Answer) {
        if let Answer::Done(number) = answer {
            self.seen.note(call, number);
        }
    }

    pub fn next_call(&mut self) -> Call {
        let kind = self.mix.kind(self.draws.below(16));
        let process = self.process();
        match kind {
            Kind::Fork => Call::Fork { process },
            Kind::Leave => self.leave(process),
            Kind::Map => self.map(process),
            Kind::Drop => Call::Drop {
                process,
                page: self.page_or_first(process, false),
            },
            Kind::Make => Call::Make {
                process,
                page: self.page_or_first(process, true),
            },
            Kind::Look => self.look(process),
            Kind::Load => self.load(process),
            Kind::Store => self.store(process),
            Kind::Counts => Call::Counts,
        }
    }

    // The last process stays, and forks.
    fn leave(&mut self, process: usize) -> Call {
        if self.seen.living() <= 1 {
            Call::Fork { process }
        } else {
            Call::Leave { process }
        }
    }

    fn map(&mut self, process: usize) -> Call {
        match self.page(process, true) {
            Some(page) => Call::Map { process, page },
            None => self.load(process),
        }
    }

    // At a segment, if there is one.
    fn look(&mut self, process: usize) -> Call {
        let page = self.page_or_first(process, true);
        let start = self.draws.below(1024);
        let (from_process, from_page) = self.seen.next_segment(start).unwrap_or((process, 0));
        Call::Look {
            process,
            page,
            from_process,
            from_page,
        }
    }

    fn load(&mut self, process: usize) -> Call {
        let Some((page, offset)) = self.spot(process) else {
            return Call::Map { process, page: 0 };
        };
        Call::Load {
            process,
            page,
            offset,
        }
    }

    fn store(&mut self, process: usize) -> Call {
        let Some((page, offset)) = self.spot(process) else {
            return Call::Map { process, page: 0 };
        };
        Call::Store {
            process,
            page,
            offset,
            byte: self.draws.byte(),
        }
    }

    // Where to load or store. A process with no page gets one first.
    fn spot(&mut self, process: usize) -> Option<(usize, usize)> {
        let page = self.page(process, false)?;
        Some((page, self.offset()))
    }

    fn process(&mut self) -> usize {
        if self.is_astray() {
            return self.beyond(self.sizes.processes);
        }
        let start = self.draws.below(self.sizes.processes);
        self.seen.next_process(start).unwrap_or(start)
    }

    // A page that is absent, or one that is not.
    fn page(&mut self, process: usize, absent: bool) -> Option<usize> {
        if self.is_astray() {
            return Some(self.beyond(self.sizes.pages));
        }
        let start = self.draws.below(self.span);
        self.seen.next_page(process, start, self.span, absent)
    }

    fn page_or_first(&mut self, process: usize, absent: bool) -> usize {
        self.page(process, absent).unwrap_or(0)
    }

    fn offset(&mut self) -> usize {
        if self.is_astray() {
            return self.beyond(256);
        }
        if self.draws.one_in(16) {
            self.draws.below(256)
        } else {
            OFFSETS[self.draws.below(8)]
        }
    }

    fn is_astray(&mut self) -> bool {
        self.mix
            .astray()
            .is_some_and(|often| self.draws.one_in(often))
    }

    // The first number that is out of range, or one of those after it, or the last of all.
    fn beyond(&mut self, range: usize) -> usize {
        match self.draws.below(4) {
            0 => usize::MAX,
            more => range.saturating_add(more - 1),
        }
    }
}
