// Calls on a machine of one frame and one place.
use crate::machine::Machine;
use requests::answer::*;
use requests::request::*;
use requests::sizes::Sizes;
use std::test::Fail;

// A page is stored to, shared by a fork and stored to again: it goes to the disk and is copied from there. Numbers that are too large are faults. Once its
// parent has left, a page is its child's alone.
#[test]
fn a_fork_shares_until_a_store(rt: HostRuntime) -> Result<(), Fail> {
    let sizes = Sizes {
        processes: 2,
        pages: 1,
        segments: 1,
        frames: 1,
        places: 1,
    };
    let Ok(mut machine) = Machine::open(rt.alloc(), sizes) else {
        return Err(Fail::new("not opened"));
    };
    let calls = [
        ([3, 0, 0, 0, 0], Answer::Done(0)),
        ([8, 0, 0, 5, 7], Answer::Done(0)),
        ([1, 0, 0, 0, 0], Answer::Done(1)),
        ([8, 1, 0, 5, 9], Answer::Done(0)),
        ([7, 1, 0, 5, 0], Answer::Done(9)),
        ([7, 0, 0, 5, 0], Answer::Done(7)),
        ([9, 0, 0, 0, 0], Answer::Done(2 * 65536 + 2)),
        ([8, 0, 0, 5, 256], Answer::Fault),
        ([7, usize::MAX, usize::MAX, 0, 0], Answer::Fault),
        ([2, 0, 0, 0, 0], Answer::Done(0)),
        ([1, 1, 0, 0, 0], Answer::Done(0)),
        ([5, 1, 0, 0, 0], Answer::Fault),
    ];
    for ([kind, process, page, third, fourth], answer) in calls {
        let Some(call) = Call::from_numbers(kind, process, page, third, fourth) else {
            return Err(Fail::new("no call"));
        };
        assert_eq!(rt; machine.call(call), answer);
    }
    Ok(())
}
