// Processes come and go: fork and leave.
ghost use Rattle.std.specs.Prelude.{◌≡◌, ℕ, ◌<◌, length};
ghost use Rattle.fold.specs.Fold as fold;
ghost use Rattle.tables.specs.Cells.{held_of, Within};
ghost use Rattle.tables.specs.Lent.{lists, shape};
ghost use Rattle.tables.specs.State.{view};
ghost use Rattle.disk.specs.Memory.{fixed, state_of};
ghost use Rattle.copies.specs.Anew.{holds_of};
ghost use Rattle.segments.specs.Asked.{Named};
ghost use Rattle.calls.specs.Memory.{Fits, Serves};
ghost use Rattle.calls.specs.Pages.{dropped_row, raised, raised_row};

use crate::entries::drop_at;
use crate::manager::Manager;
use disk::memory::Memory;
use frames::counts::count_up;
use requests::answer::Answer;
use tables::entry::{Limits, Target};
use tables::lent::Lent;

// What an entry names has one name more.
fn raise(lent: &mut Lent<'_>, limits: Limits, target: Target)
    requires target_within { Within limits target }
    requires named { Named limits lent.old }
    ensures kept { shape lent.new ≡ shape lent.old }
    ensures raised { (pages processes : ℕ) → view limits pages processes (lists lent.new) ≡ raised (view limits pages processes (lists lent.old)) (held_of limits.frames target) }
{
    match target {
        Target::Frame(frame) => count_up(lent.frame_counts, frame),
        Target::Place(place) => count_up(lent.place_counts, place),
        Target::Segment(segment) => count_up(lent.lookers, segment),
        Target::Absent | Target::Zero => {}
    }
}

// What a page names has one name more.
fn raise_at(memory: &mut Memory<'_>, process: usize, page: usize)
    requires process_within { process < memory.old.processes }
    requires page_within { page < memory.old.pages }
    requires lookers { length memory.old.lent.lookers.now ≡ memory.old.limits.segments }
    ensures fixed { fixed memory.new ≡ fixed memory.old }
    ensures raised { state_of memory.new ≡ raised (state_of memory.old) (holds_of (state_of memory.old) process page) }
{
    let limits = memory.limits;
    let target = memory.entry(process, page).target;
    raise(&mut memory.lent, limits, target);
}

// What each page of a process names has one name more, for the child that will have it too.
fn raise_row(memory: &mut Memory<'_>, process: usize)
    requires process_within { process < memory.old.processes }
    requires lookers { length memory.old.lent.lookers.now ≡ memory.old.limits.segments }
    ensures fixed { fixed memory.new ≡ fixed memory.old }
    ensures raised { state_of memory.new ≡ raised_row (state_of memory.old) process memory.old.pages }
{
    let pages = memory.pages;
    for page in 0..pages {
        raise_at(memory, process, page);
    }
}

// A child with the same pages, under the lowest number that is free. No page is copied: each has one user more.
pub(crate) fn fork(manager: Manager, memory: &mut Memory<'_>, process: usize) -> (Manager, Answer)
    requires { Fits manager.sizes memory.old }
    ensures { Serves manager memory.old (fold.fork process) result memory.new }
{
    if !manager.is_alive(process) {
        return (manager, Answer::Fault);
    }
    let Some(child) = manager.lowest_absent() else {
        return (manager, Answer::Full);
    };
    raise_row(memory, process);
    memory.share_row(process, child);
    let manager = manager.settled(memory).with_alive(child, true);
    (manager, Answer::Done(child as u64))
}

// Drops the pages of a process, one after the other. It is `raise_row` with another step: a step as a parameter would need its law as a clause, which
// is longer than the loop.
fn drop_row(memory: &mut Memory<'_>, process: usize)
    requires process_within { process < memory.old.processes }
    requires lookers { length memory.old.lent.lookers.now ≡ memory.old.limits.segments }
    ensures fixed { fixed memory.new ≡ fixed memory.old }
    ensures dropped { state_of memory.new ≡ dropped_row (state_of memory.old) process memory.old.pages }
{
    let pages = memory.pages;
    for page in 0..pages {
        drop_at(memory, process, page);
    }
}

// The process is there no more. Each of its pages, in a frame or on the disk, has one user less.
pub(crate) fn leave(manager: Manager, memory: &mut Memory<'_>, process: usize) -> (Manager, Answer)
    requires { Fits manager.sizes memory.old }
    ensures { Serves manager memory.old (fold.leave process) result memory.new }
{
    if !manager.is_alive(process) {
        return (manager, Answer::Fault);
    }
    drop_row(memory, process);
    let manager = manager.settled(memory).with_alive(process, false);
    (manager, Answer::Done(0))
}
