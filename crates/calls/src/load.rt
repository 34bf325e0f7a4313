// The call that loads a byte.
ghost use Rattle.std.specs.Prelude.{◌≡◌, ℕ, ◌<◌};
ghost use Rattle.fold.specs.Fold as fold;
ghost use Rattle.frames.specs.Turn.{turn};
ghost use Rattle.requests.specs.Meaning.{answered};
ghost use Rattle.disk.specs.Memory.{fixed};
ghost use Rattle.calls.specs.Calls.{load_hit, load_reached, walked_load};
ghost use Rattle.calls.specs.Machine.{Machine};
ghost use Rattle.calls.specs.Memory.{Fits, machine_of, Serves};

use crate::manager::Manager;
use disk::memory::Memory;
use lookaside::slots::Slot;
use requests::answer::Answer;
use tables::walk::{Found, Lies};

// Loads a byte of a page that was found in a frame, and remembers where it lies.
fn load_here(
    manager: Manager,
    memory: &mut Memory<'_>,
    slot: Slot,
    offset: usize,
) -> (Manager, Answer)
    requires frame_within { slot.frame < memory.old.limits.frames }
    requires offset_within { offset < 256 }
    ensures same { result.0.sizes ≡ manager.sizes }
    ensures fixed { fixed memory.new ≡ fixed memory.old }
    ensures value { (looks : ℕ) → ◌≡◌ {A = Machine × fold.Answer} (machine_of result.0 memory.new, answered result.1) (load_reached (machine_of manager memory.old) slot.process slot.page offset slot.free ((machine_of manager memory.old).whole, record { frame = slot.frame; looks = looks })) }
{
    let (manager, answer) = load_hit(manager, memory, slot, offset);
    (manager.remember(slot), answer)
}

// Loads by the page table, the page coming in first where it lies on the disk.
fn load_walked(
    manager: Manager,
    memory: &mut Memory<'_>,
    process: usize,
    page: usize,
    offset: usize,
) -> (Manager, Answer)
    requires process_within { process < memory.old.processes }
    requires page_within { page < memory.old.pages }
    requires offset_within { offset < 256 }
    ensures same { result.0.sizes ≡ manager.sizes }
    ensures fixed { fixed memory.new ≡ fixed memory.old }
    ensures value { ◌≡◌ {A = Machine × fold.Answer} (machine_of result.0 memory.new, answered result.1) (walked_load turn (machine_of manager memory.old) process page offset) }
{
    let Found { lies, free } = memory.walk(process, page);
    match lies {
        Lies::Nowhere => (manager, Answer::Fault),
        Lies::Zeros => (manager, Answer::Done(0)),
        Lies::Frame(frame) => {
            let slot = Slot {
                process,
                page,
                frame,
                free,
            };
            load_here(manager, memory, slot, offset)
        }
        Lies::Place(place) => {
            let (registers, taken) = memory.bring_in(manager.registers, place);
            let manager = Manager {
                registers,
                ..manager
            };
            let slot = Slot {
                process,
                page,
                frame: taken.frame,
                free,
            };
            load_here(manager, memory, slot, offset)
        }
    }
}

// Loads where the look-aside table says: no page table is read.
fn load_hit(
    manager: Manager,
    memory: &mut Memory<'_>,
    slot: Slot,
    offset: usize,
) -> (Manager, Answer)
    requires frame_within { slot.frame < memory.old.limits.frames }
    requires offset_within { offset < 256 }
    ensures same { result.0 ≡ manager }
    ensures fixed { fixed memory.new ≡ fixed memory.old }
    ensures value { ◌≡◌ {A = Machine × fold.Answer} (machine_of result.0 memory.new, answered result.1) (load_hit (machine_of manager memory.old) offset slot) }
{
    memory.mark(slot.frame);
    let byte = memory.load(slot.frame, offset);
    (manager, Answer::Done(u64::from(byte)))
}

// The byte of a page.
pub(crate) fn load(
    manager: Manager,
    memory: &mut Memory<'_>,
    process: usize,
    page: usize,
    offset: usize,
) -> (Manager, Answer)
    requires { Fits manager.sizes memory.old }
    ensures { Serves manager memory.old (fold.load process page offset) result memory.new }
{
    if !manager.has(process, page) {
        return (manager, Answer::Fault);
    }
    if offset >= 256 {
        return (manager, Answer::Fault);
    }
    match manager.slot_of(process, page) {
        Some(slot) => load_hit(manager, memory, slot, offset),
        None => load_walked(manager, memory, process, page, offset),
    }
}
