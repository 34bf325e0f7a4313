// The call that stores a byte.
ghost use Rattle.std.specs.Prelude.{◌≡◌, ◌<◌};
ghost use Rattle.fold.specs.Fold as fold;
ghost use Rattle.frames.specs.Turn.{turn};
ghost use Rattle.requests.specs.Meaning.{answered};
ghost use Rattle.disk.specs.Memory.{fixed};
ghost use Rattle.copies.specs.Asked.{Inside};
ghost use Rattle.calls.specs.Calls.{own_store, segment_store, store_hit, stored_in, walked_store};
ghost use Rattle.calls.specs.Machine.{Machine};
ghost use Rattle.calls.specs.Memory.{Fits, machine_of, Serves};

use crate::manager::Manager;
use copies::own;
use copies::stores::Store;
use disk::memory::Memory;
use lookaside::slots::Slot;
use requests::answer::Answer;
use segments::reach::store_to_segment;
use tables::entry::Target;

// Stores where the look-aside table says: no page table is read.
fn store_hit(
    manager: Manager,
    memory: &mut Memory<'_>,
    slot: Slot,
    store: Store,
) -> (Manager, Answer)
    requires frame_within { slot.frame < memory.old.limits.frames }
    requires offset_within { store.offset < 256 }
    ensures same { result.0 ≡ manager }
    ensures fixed { fixed memory.new ≡ fixed memory.old }
    ensures value { ◌≡◌ {A = Machine × fold.Answer} (machine_of result.0 memory.new, answered result.1) (store_hit (machine_of manager memory.old) store.offset store.byte slot) }
{
    memory.store(slot.frame, store.offset, store.byte);
    memory.mark(slot.frame);
    (manager, Answer::Done(0))
}

// A byte was stored in a frame: the frame was used, and the next store there needs no copy.
fn wrote(manager: Manager, memory: &mut Memory<'_>, store: Store, frame: usize) -> (Manager, Answer)
    requires { frame < memory.old.limits.frames }
    ensures same { result.0.sizes ≡ manager.sizes }
    ensures fixed { fixed memory.new ≡ fixed memory.old }
    ensures value { ◌≡◌ {A = Machine × fold.Answer} (machine_of result.0 memory.new, answered result.1) (stored_in (machine_of manager memory.old) store.process store.page (machine_of manager memory.old).whole frame) }
{
    memory.mark(frame);
    let slot = Slot {
        process: store.process,
        page: store.page,
        frame,
        free: true,
    };
    (manager.remember(slot), Answer::Done(0))
}

// Stores to an own page: in place where nobody else has it, else in a page of its own.
fn store_own(manager: Manager, memory: &mut Memory<'_>, store: Store) -> (Manager, Answer)
    requires { Inside memory.old.processes memory.old.pages store }
    ensures same { result.0.sizes ≡ manager.sizes }
    ensures fixed { fixed memory.new ≡ fixed memory.old }
    ensures value { ◌≡◌ {A = Machine × fold.Answer} (machine_of result.0 memory.new, answered result.1) (own_store turn (machine_of manager memory.old) store.process store.page store.offset store.byte) }
{
    let (registers, written) = own::store(memory, manager.registers, store);
    let manager = Manager {
        registers,
        ..manager
    };
    match written {
        Some(written) => wrote(manager, memory, store, written.frame),
        None => (manager, Answer::Full),
    }
}

// Stores to a segment, for all who look at it. What it shares with a store to an own page is `wrote`; the rest differs in what is called and in
// what a None means.
fn store_segment(manager: Manager, memory: &mut Memory<'_>, store: Store) -> (Manager, Answer)
    requires { Inside memory.old.processes memory.old.pages store }
    ensures same { result.0.sizes ≡ manager.sizes }
    ensures fixed { fixed memory.new ≡ fixed memory.old }
    ensures value { ◌≡◌ {A = Machine × fold.Answer} (machine_of result.0 memory.new, answered result.1) (segment_store turn (machine_of manager memory.old) store.process store.page store.offset store.byte) }
{
    let (registers, reached) = store_to_segment(memory, manager.registers, store);
    let manager = Manager {
        registers,
        ..manager
    };
    match reached {
        Some(taken) => wrote(manager, memory, store, taken.frame),
        None => (manager, Answer::Fault),
    }
}

// Stores by the page table.
fn store_walked(manager: Manager, memory: &mut Memory<'_>, store: Store) -> (Manager, Answer)
    requires { Inside memory.old.processes memory.old.pages store }
    ensures same { result.0.sizes ≡ manager.sizes }
    ensures fixed { fixed memory.new ≡ fixed memory.old }
    ensures value { ◌≡◌ {A = Machine × fold.Answer} (machine_of result.0 memory.new, answered result.1) (walked_store turn (machine_of manager memory.old) store.process store.page store.offset store.byte) }
{
    match memory.entry(store.process, store.page).target {
        Target::Absent => (manager, Answer::Fault),
        Target::Segment(_) => store_segment(manager, memory, store),
        Target::Zero | Target::Frame(_) | Target::Place(_) => store_own(manager, memory, store),
    }
}

// Stores a byte to a page.
pub(crate) fn store(manager: Manager, memory: &mut Memory<'_>, store: Store) -> (Manager, Answer)
    requires { Fits manager.sizes memory.old }
    ensures { Serves manager memory.old (fold.store store.process store.page store.offset store.byte) result memory.new }
{
    if !manager.has(store.process, store.page) {
        return (manager, Answer::Fault);
    }
    if store.offset >= 256 {
        return (manager, Answer::Fault);
    }
    match manager.free_slot_of(store.process, store.page) {
        Some(slot) => store_hit(manager, memory, slot, store),
        None => store_walked(manager, memory, store),
    }
}
