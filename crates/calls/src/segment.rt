// The call that makes a segment.
ghost use Rattle.fold.specs.Fold as fold;
ghost use Rattle.calls.specs.Memory.{Fits, Serves};

use crate::manager::Manager;
use disk::memory::Memory;
use requests::answer::Answer;
use segments::make;

// The page becomes the lowest segment that nobody looks at, all zeros.
pub(crate) fn make_segment(
    manager: Manager,
    memory: &mut Memory<'_>,
    process: usize,
    page: usize,
) -> (Manager, Answer)
    requires { Fits manager.sizes memory.old }
    ensures { Serves manager memory.old (fold.make process page) result memory.new }
{
    if !manager.lacks_page(memory, process, page) {
        return (manager, Answer::Fault);
    }
    let (registers, made) = make::make(memory, manager.registers, process, page);
    let manager = Manager {
        registers,
        ..manager
    };
    match made {
        Some(made) => (manager, Answer::Done(made.segment as u64)),
        None => (manager, Answer::Full),
    }
}
