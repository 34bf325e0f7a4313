// Answers calls.
ghost use Rattle.requests.specs.Meaning.{asked};
ghost use Rattle.machine.specs.Owned.{Answered};

use crate::machine::Machine;
use calls::entry;
use requests::answer::Answer;
use requests::request::Call;

impl Machine {
    // Answers a call. Memory is long enough, so that none is refused.
    pub fn call(&mut self, call: Call) -> Answer
        ensures { Answered self.old (asked call) result self.new }
    {
        let Machine {
            manager,
            table,
            segments,
            lookers,
            frame_counts,
            used,
            place_counts,
            frames,
            disk,
        } = self;
        let answer = entry::call(
            manager,
            table.as_mut_slice(),
            segments.as_mut_slice(),
            lookers.as_mut_slice(),
            frame_counts.as_mut_slice(),
            used.as_mut_slice(),
            place_counts.as_mut_slice(),
            frames.as_mut_slice(),
            disk.as_mut_slice(),
            call,
        );
        answer.unwrap_or(Answer::Fault)
    }
}
