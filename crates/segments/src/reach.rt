// A page that is loaded, or a segment that is stored to, is reached in a frame.
ghost use Rattle.std.specs.Prelude.{◌≡◌, ◌<◌, IfSome, Option};
ghost use Rattle.frames.specs.Turn.{turn};
ghost use Rattle.disk.specs.declared.registers.Taken.{Taken};
ghost use Rattle.disk.specs.Memory.{fixed, whole_of};
ghost use Rattle.disk.specs.Whole.{Whole};
ghost use Rattle.copies.specs.Asked.{Inside};
ghost use Rattle.segments.specs.Reach.{reach_page, stored_to_segment};

use copies::stores::Store;
use disk::memory::Memory;
use disk::registers::{Registers, Taken};
use tables::walk::Lies;

// The frame of a page, which comes in first if it lies on the disk. None for a page that is not there and for the page of zeros.
pub fn reach(
    memory: &mut Memory<'_>,
    registers: Registers,
    process: usize,
    page: usize,
) -> (Registers, Option<Taken>)
    requires process_within { process < memory.old.processes }
    requires page_within { page < memory.old.pages }
    ensures fixed { fixed memory.new ≡ fixed memory.old }
    ensures value { ◌≡◌ {A = Whole × Option Taken} (whole_of result.0 memory.new, result.1) (reach_page turn memory.old.limits.frames (whole_of registers memory.old) process page) }
    ensures within { IfSome result.1 (λ t. t.frame < memory.old.limits.frames) }
{
    match memory.walk(process, page).lies {
        Lies::Frame(frame) => (registers, Some(Taken { frame, looks: 0 })),
        Lies::Place(place) => {
            let (registers, taken) = memory.bring_in(registers, place);
            (registers, Some(taken))
        }
        Lies::Nowhere | Lies::Zeros => (registers, None),
    }
}

// Stores a byte to a segment, for all who look at it.
pub fn store_to_segment(
    memory: &mut Memory<'_>,
    registers: Registers,
    store: Store,
) -> (Registers, Option<Taken>)
    requires { Inside memory.old.processes memory.old.pages store }
    ensures fixed { fixed memory.new ≡ fixed memory.old }
    ensures value { ◌≡◌ {A = Whole × Option Taken} (whole_of result.0 memory.new, result.1) (stored_to_segment turn memory.old.limits.frames (whole_of registers memory.old) store.process store.page store.offset store.byte) }
    ensures within { IfSome result.1 (λ t. t.frame < memory.old.limits.frames) }
{
    let (registers, reached) = reach(memory, registers, store.process, store.page);
    let Some(taken) = reached else {
        return (registers, None);
    };
    memory.store(taken.frame, store.offset, store.byte);
    (registers, Some(taken))
}
