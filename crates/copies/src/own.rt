// A store to an own page of a process.
ghost use Rattle.std.specs.Prelude.{◌≡◌, ◌<◌, IfSome, Option};
ghost use Rattle.frames.specs.Turn.{turn};
ghost use Rattle.tables.specs.Cells.{held_of, Within};
ghost use Rattle.disk.specs.Memory.{fixed, state_of, whole_of};
ghost use Rattle.disk.specs.Whole.{Whole};
ghost use Rattle.copies.specs.declared.anew.Written.{Written};
ghost use Rattle.copies.specs.Anew.{holds_of};
ghost use Rattle.copies.specs.Asked.{Inside};
ghost use Rattle.copies.specs.Laws.{FullWhenUsedUp, SaysCopied};
ghost use Rattle.copies.specs.Own.{alone_by, must_copy, stored_own};

use crate::anew::{Written, store_anew};
use crate::stores::{Store, store_in_place};
use disk::memory::Memory;
use disk::registers::Registers;
use tables::entry::Target;

// Whether a store to what an entry names has to copy first.
fn must_copy(memory: &Memory<'_>, target: Target) -> bool
    requires { Within memory.now.limits target }
    ensures { result ≡ must_copy (state_of memory.now).counts (held_of memory.now.limits.frames target) }
{
    match target {
        Target::Zero => true,
        Target::Frame(frame) => 1 < memory.lent.frame_counts[frame],
        Target::Place(place) => 1 < memory.lent.place_counts[place],
        Target::Absent | Target::Segment(_) => false,
    }
}

// A store where nobody else has the page, which comes in first if it lies on the disk.
fn store_alone(
    memory: &mut Memory<'_>,
    registers: Registers,
    store: Store,
) -> (Registers, Option<Written>)
    requires { Inside memory.old.processes memory.old.pages store }
    ensures fixed { fixed memory.new ≡ fixed memory.old }
    ensures value { ◌≡◌ {A = Whole × Option Written} (whole_of result.0 memory.new, result.1) (alone_by turn memory.old.limits.frames (whole_of registers memory.old) store.process store.page store.offset store.byte (holds_of (state_of memory.old) store.process store.page)) }
    ensures within { IfSome result.1 (λ t. t.frame < memory.old.limits.frames) }
{
    let limits = memory.limits;
    let pages = memory.pages;
    match memory.entry(store.process, store.page).target {
        Target::Frame(frame) => {
            store_in_place(&mut memory.lent, limits, pages, store, frame);
            let written = Written {
                frame,
                copied: false,
                looks: 0,
            };
            (registers, Some(written))
        }
        Target::Place(place) => {
            let (registers, taken) = memory.bring_in(registers, place);
            store_in_place(&mut memory.lent, limits, pages, store, taken.frame);
            let written = Written {
                frame: taken.frame,
                copied: false,
                looks: taken.looks,
            };
            (registers, Some(written))
        }
        Target::Absent | Target::Zero | Target::Segment(_) => (registers, None),
    }
}

// Stores a byte to an own page. Answers where it wrote and whether it copied, or None where a copy is needed and no frame can be had; then nothing has
// changed.
pub fn store(
    memory: &mut Memory<'_>,
    registers: Registers,
    store: Store,
) -> (Registers, Option<Written>)
    requires { Inside memory.old.processes memory.old.pages store }
    ensures fixed { fixed memory.new ≡ fixed memory.old }
    ensures value { ◌≡◌ {A = Whole × Option Written} (whole_of result.0 memory.new, result.1) (stored_own turn memory.old.limits.frames (whole_of registers memory.old) store.process store.page store.offset store.byte) }
    ensures within { IfSome result.1 (λ t. t.frame < memory.old.limits.frames) }
{
    let seen = memory.entry(store.process, store.page).target;
    if !must_copy(memory, seen) {
        return store_alone(memory, registers, store);
    }
    let (registers, taken) = memory.take_frame(registers);
    let Some(taken) = taken else {
        return (registers, None);
    };
    // The hand may have sent the very page to the disk: the entry is looked at again.
    let target = memory.entry(store.process, store.page).target;
    let registers = store_anew(memory, registers, store, target, taken.frame);
    let written = Written {
        frame: taken.frame,
        copied: true,
        looks: taken.looks,
    };
    (registers, Some(written))
}

// Of every store to an own page, whatever the choice of the frame: one that has to copy is full exactly where no frame and no place is free, and then nothing
// has changed; one that is done says whether it copied.
pub fn store_laws()
    ensures full { FullWhenUsedUp }
    ensures says { SaysCopied }
{}
