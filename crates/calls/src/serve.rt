// The core: every call, on the record by value and memory of exactly the machine's size.
ghost use Rattle.std.specs.Prelude.{◌≡◌, ◌+◌, ◌*◌};
ghost use Rattle.requests.specs.Meaning.{asked};
ghost use Rattle.calls.specs.Memory.{Fits, ServesAsked};

use crate::load::load;
use crate::manager::Manager;
use crate::segment::make_segment;
use crate::store::store;
use crate::{entries, family};
use copies::stores::Store;
use disk::memory::Memory;
use requests::answer::Answer;
use requests::request::Call;

// The reads of the disk times 65536, and the writes.
fn counts(manager: Manager) -> Answer
    ensures { result ≡ Answer.Done (manager.registers.transfers.reads * 65536 + manager.registers.transfers.writes) }
{
    let transfers = manager.registers.transfers;
    Answer::Done(u64::from(transfers.reads) * 65536 + u64::from(transfers.writes))
}

// Answers each kind of call. The record goes by value through the core and memory by reference, as this project passes them, so no type holds both and
// says that they fit.
pub(crate) fn serve(manager: Manager, memory: &mut Memory<'_>, call: Call) -> (Manager, Answer)
    requires { Fits manager.sizes memory.old }
    ensures { ServesAsked manager memory.old (asked call) result memory.new }
{
    match call {
        Call::Fork { process } => family::fork(manager, memory, process),
        Call::Leave { process } => family::leave(manager, memory, process),
        Call::Map { process, page } => entries::map(manager, memory, process, page),
        Call::Drop { process, page } => entries::drop_page(manager, memory, process, page),
        Call::Make { process, page } => make_segment(manager, memory, process, page),
        Call::Look {
            process,
            page,
            from_process,
            from_page,
        } => entries::look(manager, memory, process, page, from_process, from_page),
        Call::Load {
            process,
            page,
            offset,
        } => load(manager, memory, process, page, offset),
        Call::Store {
            process,
            page,
            offset,
            byte,
        } => {
            // no `From`: neither type is of this crate
            let asked = Store {
                process,
                page,
                offset,
                byte,
            };
            store(manager, memory, asked)
        }
        Call::Counts => (manager, counts(manager)),
    }
}
