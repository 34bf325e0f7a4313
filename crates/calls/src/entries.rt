// The calls that change one entry: map, drop, look.
ghost use Rattle.std.specs.Prelude.{◌≡◌, ◌<◌, length};
ghost use Rattle.fold.specs.Fold as fold;
ghost use Rattle.disk.specs.Memory.{fixed, state_of};
ghost use Rattle.segments.specs.Release.{dropped, looked};
ghost use Rattle.calls.specs.Memory.{Fits, Serves};

use crate::manager::Manager;
use disk::memory::Memory;
use requests::answer::Answer;
use segments::release;
use tables::entry::{Entry, Target};

// The page becomes the process's own, all zeros. The page of zeros is not held, and marked from the start: a store gives it a page of its own.
pub(crate) fn map(
    manager: Manager,
    memory: &mut Memory<'_>,
    process: usize,
    page: usize,
) -> (Manager, Answer)
    requires { Fits manager.sizes memory.old }
    ensures { Serves manager memory.old (fold.map process page) result memory.new }
{
    if !manager.lacks_page(memory, process, page) {
        return (manager, Answer::Fault);
    }
    let entry = Entry {
        target: Target::Zero,
        copy: true,
    };
    memory.set_entry(process, page, entry);
    (manager.settled(memory), Answer::Done(0))
}

// The page is dropped, whatever it is.
pub(crate) fn drop_at(memory: &mut Memory<'_>, process: usize, page: usize)
    requires process_within { process < memory.old.processes }
    requires page_within { page < memory.old.pages }
    requires lookers { length memory.old.lent.lookers.now ≡ memory.old.limits.segments }
    ensures fixed { fixed memory.new ≡ fixed memory.old }
    ensures dropped { state_of memory.new ≡ dropped (state_of memory.old) process page }
{
    let limits = memory.limits;
    let pages = memory.pages;
    release::drop_page_lent(&mut memory.lent, limits, pages, process, page);
}

// The page looks at a segment.
fn look_at(memory: &mut Memory<'_>, process: usize, page: usize, segment: usize)
    requires process_within { process < memory.old.processes }
    requires page_within { page < memory.old.pages }
    requires segment_within { segment < memory.old.limits.segments }
    requires lookers { length memory.old.lent.lookers.now ≡ memory.old.limits.segments }
    ensures fixed { fixed memory.new ≡ fixed memory.old }
    ensures looked { state_of memory.new ≡ looked (state_of memory.old) process page segment }
{
    let limits = memory.limits;
    let pages = memory.pages;
    release::look_lent(&mut memory.lent, limits, pages, process, page, segment);
}

// The page is absent, and what it was has one user less.
pub(crate) fn drop_page(
    manager: Manager,
    memory: &mut Memory<'_>,
    process: usize,
    page: usize,
) -> (Manager, Answer)
    requires { Fits manager.sizes memory.old }
    ensures { Serves manager memory.old (fold.drop process page) result memory.new }
{
    if !manager.has_page(memory, process, page) {
        return (manager, Answer::Fault);
    }
    drop_at(memory, process, page);
    (manager.settled(memory), Answer::Done(0))
}

// The page becomes the segment that page `from_page` of `from_process` is.
pub(crate) fn look(
    manager: Manager,
    memory: &mut Memory<'_>,
    process: usize,
    page: usize,
    from_process: usize,
    from_page: usize,
) -> (Manager, Answer)
    requires { Fits manager.sizes memory.old }
    ensures { Serves manager memory.old (fold.look process page from_process from_page) result memory.new }
{
    if !manager.lacks_page(memory, process, page) {
        return (manager, Answer::Fault);
    }
    if !manager.has(from_process, from_page) {
        return (manager, Answer::Fault);
    }
    let Target::Segment(segment) = memory.entry(from_process, from_page).target else {
        return (manager, Answer::Fault);
    };
    look_at(memory, process, page, segment);
    (manager.settled(memory), Answer::Done(segment as u64))
}
