// After a change of entries, counts or locations: exactly those slots go that a walk would no longer answer so.
ghost use Rattle.std.specs.Prelude.{◌≡◌, ◌*◌, length};
ghost use Rattle.tables.specs.Found.{LiesWithin};
ghost use Rattle.tables.specs.Lent.{counts_of, rows_of, segments_of};
ghost use Rattle.tables.specs.State.{found};
ghost use Rattle.lookaside.specs.Purge.{answered_so, kept_slot, purged, true_slot};

use crate::slots::{Lookaside, Slot};
use tables::entry::Limits;
use tables::lent::Tables;
use tables::walk::{Found, Lies};

impl Slot {
    // Whether what a walk found is what the slot says.
    fn answered_so(self, walked: Found, limits: Limits) -> bool
        requires { LiesWithin limits walked.lies }
        ensures { result ≡ answered_so limits.frames self (found limits.frames walked) }
    {
        walked
            == Found {
                lies: Lies::Frame(self.frame),
                free: self.free,
            }
    }

    // Whether a walk answers as the slot says.
    fn is_true(self, tables: &Tables<'_>) -> bool
        requires { length tables.now.table.now ≡ tables.now.processes * tables.now.pages }
        ensures { result ≡ true_slot (rows_of tables.now) (segments_of tables.now) (counts_of tables.now) tables.now.limits.frames self }
    {
        if self.process >= tables.processes || self.page >= tables.pages {
            return false;
        }
        self.answered_so(tables.walk(self.process, self.page), tables.limits)
    }
}

// A slot stays if it is true.
fn keep(slot: Option<Slot>, tables: &Tables<'_>) -> Option<Slot>
    requires { length tables.now.table.now ≡ tables.now.processes * tables.now.pages }
    ensures { result ≡ kept_slot (rows_of tables.now) (segments_of tables.now) (counts_of tables.now) tables.now.limits.frames slot }
{
    // With `filter` the proof didn't close: the check learns nothing of a closure that reads tables.
    let slot = slot?;
    slot.is_true(tables).then_some(slot)
}

impl Lookaside {
    // Takes away the slots that a walk would not answer so.
    pub fn purge(self, tables: &Tables<'_>) -> Lookaside
        requires { length tables.now.table.now ≡ tables.now.processes * tables.now.pages }
        ensures { result.slots ≡ purged (rows_of tables.now) (segments_of tables.now) (counts_of tables.now) tables.now.limits.frames self.slots }
    {
        let mut slots = self.slots;
        // By an index: over `iter_mut`, a mistake that leaves all slots but the first is refused for its form, before what it means.
        for i in 0..16 {
            slots[i] = keep(slots[i], tables);
        }
        Lookaside { slots }
    }
}
