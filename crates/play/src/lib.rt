// A whole row of calls, as the machine of private memories answers it.
#![tactic(auto)]

ghost use Rattle.std.specs.Prelude.{◌≡◌, IfOk, string_bytes};
ghost use Rattle.play.specs.Seen.{seen_text};

use std::alloc::{AllocError, Global};

// A line for each call, or the one line of a refusal. It is played on the manager, with frames, tables and disk, and yet each line is the answer of the machine
// of private memories; only the counts of reads and writes are the manager's.
pub fn played(heap: Global, input: &[u8]) -> Result<String, AllocError>
    ensures { IfOk result (λ s. string_bytes s ≡ seen_text input.now) }
{
    rows::played(heap, input)
}
