// How a machine is opened and called.
ghost use Rattle.std.specs.Prelude.{◌≡◌, ◌-◌, true, [], ◌∷◌, map, replicate, IfOk, vec_items};
ghost use Rattle.fold.specs.Fold.{others};
ghost use Rattle.private.specs.SeePage.{see_process, blank};
ghost use Rattle.private.specs.Called.{Opened, Called};

use super::machine::Machine;
use super::memory::Memory;
use super::page::Address;
use super::process::Process;
use super::want::Want;
use requests::answer::Answer;
use requests::request::Call;
use requests::sizes::Sizes;
use std::alloc::{AllocError, Global};

impl Machine {
    // Process 0 is there, with no page. Any sizes will do, as far as there is memory for them.
    pub fn open(heap: Global, sizes: Sizes) -> Result<Machine, AllocError>
        ensures { IfOk result (λ m. Opened sizes m) }
    {
        let processes = first_processes(heap, sizes)?;
        let segments = free_segments(heap, sizes.segments)?;
        let memory = Memory {
            heap,
            processes,
            segments,
            next: 1,
        };
        Ok(Machine { sizes, memory })
    }

    // After an error the machine is as it was.
    pub fn call(&mut self, call: Call) -> Result<Answer, Want>
        ensures { Called self.old call result self.new }
    {
        match call {
            Call::Fork { process } => self.fork(process),
            Call::Leave { process } => Ok(self.go(process)),
            Call::Map { process, page } => self.map(Address { process, page }),
            Call::Drop { process, page } => Ok(self.drop_page(Address { process, page })),
            Call::Make { process, page } => self.make(Address { process, page }),
            Call::Look {
                process,
                page,
                from_process,
                from_page,
            } => {
                let from = Address {
                    process: from_process,
                    page: from_page,
                };
                Ok(self.look(Address { process, page }, from))
            }
            Call::Load {
                process,
                page,
                offset,
            } => Ok(self.load(Address { process, page }, offset)),
            Call::Store {
                process,
                page,
                offset,
                byte,
            } => self.store(Address { process, page }, offset, byte),
            Call::Counts => Ok(Answer::Done(0)),
        }
    }
}

fn first_processes(heap: Global, sizes: Sizes) -> Result<Vec<Process>, AllocError>
    ensures { IfOk result (λ v. map see_process v.items ≡ blank true sizes.pages ∷ others sizes.pages (sizes.processes - 1)) }
{
    let mut processes = Vec::with_capacity(heap, sizes.processes)?;
    processes.push(Process::empty(heap, true, sizes.pages)?)?;
    for _ in 1..sizes.processes {
        processes.push(Process::empty(heap, false, sizes.pages)?)?;
    }
    Ok(processes)
}

fn free_segments(heap: Global, count: usize) -> Result<Vec<Vec<u8>>, AllocError>
    ensures { IfOk result (λ v. map vec_items v.items ≡ replicate count []) }
{
    let mut segments = Vec::with_capacity(heap, count)?;
    for _ in 0..count {
        segments.push(Vec::new(heap))?;
    }
    Ok(segments)
}
