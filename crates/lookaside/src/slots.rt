// The sixteen slots, by value.
ghost use Rattle.std.specs.Prelude.{◌≡◌, ◌<◌, length, replicate, IfSome, Some, None};
ghost use Rattle.lookaside.specs.Laws.{OthersStay, PurgedIsTrue, PutIsFound, TrueIsKept};
ghost use Rattle.lookaside.specs.Slots.{find_slot, hits, put_slot, slot_of};

const SLOTS: usize = 16;

// Page `page` of `process` lies in this frame, and a store needs no copy if `free`.
#[derive(Clone, Copy, PartialEq, Eq)]
pub struct Slot {
    pub process: usize,
    pub page: usize,
    pub frame: usize,
    pub free: bool,
}

#[derive(Clone, Copy)]
pub struct Lookaside {
    pub slots: [Option<Slot>; SLOTS],
}

// The slot where a page is looked for: five times the process and the page, modulo sixteen. Written so that no number is too large.
fn slot_of(process: usize, page: usize) -> usize
    ensures value { result ≡ slot_of process page }
    ensures bound { result < 16 }
{
    (5 * (process % SLOTS) + page % SLOTS) % SLOTS
}

impl Slot {
    // Whether the slot is this page's. A slot whose frame is not one of the machine's answers nothing.
    fn hits(self, frames: usize, process: usize, page: usize) -> bool
        ensures { result ≡ hits frames process page self }
    {
        self.process == process && self.page == page && self.frame < frames
    }
}

impl Lookaside {
    // All slots empty.
    pub fn new() -> Lookaside
        ensures { result.slots ≡ replicate 16 None }
    {
        Lookaside {
            slots: [None; SLOTS],
        }
    }

    // The slot of a page, if it is there.
    pub fn find(self, frames: usize, process: usize, page: usize) -> Option<Slot>
        ensures value { result ≡ find_slot self.slots frames process page }
        ensures within { IfSome result (λ s. s.frame < frames) }
    {
        self.slots[slot_of(process, page)].filter(|slot| slot.hits(frames, process, page))
    }

    // Remembers where a page lies, in the place of whatever was in its slot.
    pub fn put(self, slot: Slot) -> Lookaside
        ensures { result.slots ≡ put_slot self.slots slot }
    {
        let mut slots = self.slots;
        slots[slot_of(slot.process, slot.page)] = Some(slot);
        Lookaside { slots }
    }
}

// Why the table may be believed: after a purge every slot is what a walk answers, and no such slot is lost; what was put is found.
pub fn slot_laws()
    ensures purged { PurgedIsTrue }
    ensures kept { TrueIsKept }
    ensures found { PutIsFound }
    ensures others { OthersStay }
{}
