// What the manager keeps besides lent memory while it moves pages: the hand, the counts of reads and writes, the look-aside table.
ghost use Rattle.std.specs.Prelude.{◌≡◌};
ghost use Rattle.disk.specs.Counted.{counted};

use frames::hand::Hand;
use lookaside::slots::Lookaside;

// How many pages were read from the disk and written to it. Each stops at 65535.
#[derive(Clone, Copy)]
pub struct Transfers {
    pub reads: u16,
    pub writes: u16,
}

impl Transfers {
    pub fn new() -> Transfers
        ensures { result ≡ record { reads = 0; writes = 0 } }
    {
        Transfers {
            reads: 0,
            writes: 0,
        }
    }

    // One page more was read.
    pub fn read(self) -> Transfers
        ensures { result ≡ record { reads = counted self.reads; writes = self.writes } }
    {
        Transfers {
            reads: self.reads.saturating_add(1),
            ..self
        }
    }

    // One page more was written.
    pub fn wrote(self) -> Transfers
        ensures { result ≡ record { reads = self.reads; writes = counted self.writes } }
    {
        Transfers {
            writes: self.writes.saturating_add(1),
            ..self
        }
    }
}

#[derive(Clone, Copy)]
pub struct Registers {
    pub hand: Hand,
    pub transfers: Transfers,
    pub lookaside: Lookaside,
}

// A frame for whoever needs one, and how many frames the hand looked at for it: 0 if it was not asked.
#[derive(Clone, Copy)]
pub struct Taken {
    pub frame: usize,
    pub looks: usize,
}
