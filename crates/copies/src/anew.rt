// A store to a page of its own, in a frame that was just taken for it.
ghost use Rattle.std.specs.Prelude.{◌≡◌, ◌<◌};
ghost use Rattle.tables.specs.Cells.{held_of, Within};
ghost use Rattle.disk.specs.Memory.{fixed, state_of, whole_of};
ghost use Rattle.copies.specs.Anew.{filled_anew, filled_by, holds_of, read_by};
ghost use Rattle.copies.specs.Asked.{Inside};

use crate::stores::{Store, copy_from_frame, copy_from_place, first_store};
use disk::memory::Memory;
use disk::registers::{Registers, Transfers};
use tables::entry::Target;

// Where a store wrote: the frame, whether it copied, and how many frames the hand looked at.
#[derive(Clone, Copy)]
pub struct Written {
    pub frame: usize,
    pub copied: bool,
    pub looks: usize,
}

// Fills a frame that was just taken with the page that the entry names, and stores to it.
fn fill(
    memory: &mut Memory<'_>,
    transfers: Transfers,
    store: Store,
    target: Target,
    frame: usize,
) -> Transfers
    requires inside { Inside memory.old.processes memory.old.pages store }
    requires named { held_of memory.old.limits.frames target ≡ holds_of (state_of memory.old) store.process store.page }
    requires target_within { Within memory.old.limits target }
    requires frame_within { frame < memory.old.limits.frames }
    ensures fixed { fixed memory.new ≡ fixed memory.old }
    ensures state { state_of memory.new ≡ filled_by (state_of memory.old) store.process store.page frame store.offset store.byte (holds_of (state_of memory.old) store.process store.page) }
    ensures reads { result.reads ≡ read_by memory.old.limits.frames (holds_of (state_of memory.old) store.process store.page) transfers.reads }
    ensures writes { result.writes ≡ transfers.writes }
{
    let limits = memory.limits;
    let pages = memory.pages;
    match target {
        Target::Zero => {
            first_store(&mut memory.lent, limits, pages, store, frame);
            transfers
        }
        Target::Frame(source) => {
            copy_from_frame(&mut memory.lent, limits, pages, store, source, frame);
            transfers
        }
        Target::Place(source) => {
            copy_from_place(&mut memory.lent, limits, pages, store, source, frame);
            transfers.read()
        }
        Target::Absent | Target::Segment(_) => transfers,
    }
}

// The same, with the registers: a page that lies on the disk is read, and the slots go that are no longer true.
pub(crate) fn store_anew(
    memory: &mut Memory<'_>,
    registers: Registers,
    store: Store,
    target: Target,
    frame: usize,
) -> Registers
    requires inside { Inside memory.old.processes memory.old.pages store }
    requires named { held_of memory.old.limits.frames target ≡ holds_of (state_of memory.old) store.process store.page }
    requires target_within { Within memory.old.limits target }
    requires frame_within { frame < memory.old.limits.frames }
    ensures fixed { fixed memory.new ≡ fixed memory.old }
    ensures value { whole_of result memory.new ≡ filled_anew memory.old.limits.frames (whole_of registers memory.old) store.process store.page frame store.offset store.byte }
{
    let transfers = fill(memory, registers.transfers, store, target, frame);
    Registers {
        transfers,
        lookaside: memory.purged(registers.lookaside),
        ..registers
    }
}
