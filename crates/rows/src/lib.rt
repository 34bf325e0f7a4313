// A whole row of calls, from the bytes that say it to the lines that it prints.
#![tactic(auto)]

ghost use Rattle.std.specs.Prelude.{◌≡◌, ◌/◌, ◌++◌, length, drop, IfOk, string_bytes, codes, OnOk};
ghost use Rattle.requests.specs.Meaning.{answered, seen_sizes};
ghost use Rattle.requests.specs.Ranges.{sizes_refusal};
ghost use Rattle.requests.specs.Refusals.{either_refusal, unless_refused};
ghost use Rattle.requests.specs.Row.{row_refusal};
ghost use Rattle.requests.specs.Text.{refusal_text};
ghost use Rattle.calls.specs.Memory.{serve};
ghost use Rattle.machine.specs.Owned.{model};
ghost use Rattle.rows.specs.Played.{played_text, row_text, line, lines_from, unless};

use machine::machine::Machine;
use machine::trouble::Trouble;
use requests::answer::{Answer, Refusal};
use requests::row;
use requests::sizes::Sizes;
use std::alloc::{AllocError, Global};

// The ten bytes of the sizes stand before the calls.
const HEAD: usize = 10;

// A line for each call, or the one line of a refusal.
pub fn played(heap: Global, input: &[u8]) -> Result<String, AllocError>
    ensures { IfOk result (λ s. string_bytes s ≡ played_text input.now) }
{
    let sizes = Sizes::from_bytes(input);
    let calls = after_head(input);
    match admitted(sizes, calls) {
        Ok(count) => lines(heap, sizes, calls, count),
        Err(refusal) => refusal_line(heap, refusal),
    }
}

fn after_head(input: &[u8]) -> &[u8]
    ensures { result.now ≡ drop 10 input.now }
{
    input.get(HEAD..).unwrap_or(&[])
}

// How many calls there are, if nothing is refused.
fn admitted(sizes: Sizes, calls: &[u8]) -> Result<usize, Refusal>
    ensures { result ≡ unless_refused (either_refusal (sizes_refusal sizes) (row_refusal calls.now)) (length calls.now / 8) }
{
    sizes.check()?;
    row::count(calls)
}

fn refusal_line(heap: Global, refusal: Refusal) -> Result<String, AllocError>
    ensures { IfOk result (λ s. string_bytes s ≡ refusal_text refusal ++ codes "\n") }
{
    format!(in heap; "{refusal}\n")
}

// A line for each call, from the opening of a machine on.
fn lines(heap: Global, sizes: Sizes, calls: &[u8], count: usize) -> Result<String, AllocError>
    ensures { IfOk result (λ s. string_bytes s ≡ unless (sizes_refusal sizes) (row_text sizes calls.now count)) }
{
    match Machine::open(heap, sizes) {
        Ok(machine) => served(heap, machine, calls, count),
        Err(Trouble::Refused(refusal)) => refusal_line(heap, refusal),
        Err(Trouble::Memory) => Err(AllocError),
    }
}

// A line for each call, as the machine answers it.
fn served(
    heap: Global,
    mut machine: Machine,
    calls: &[u8],
    count: usize,
) -> Result<String, AllocError>
    ensures { IfOk result (λ s. string_bytes s ≡ lines_from (serve (seen_sizes machine.manager.sizes)) calls.now (model machine) count 0) }
{
    let mut text = String::new(heap);
    // By index and not `chunks_exact`: `call_at` of requests alone reads the bytes of a call.
    for i in 0..count {
        if let Some(call) = row::call_at(calls, i) {
            let answer = machine.call(call);
            add_line(&mut text, i, answer)?;
        }
    }
    Ok(text)
}

fn add_line(text: &mut String, i: usize, answer: Answer) -> Result<(), AllocError>
    ensures { OnOk result (string_bytes text.new ≡ string_bytes text.old ++ line i (answered answer)) }
{
    writeln!(text, "{i} {answer}")
}
