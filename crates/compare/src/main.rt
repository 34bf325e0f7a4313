// Plays random rows on the manager and on the machine of private memories, and compares what they answer, call by call.
#![tactic(auto)]

ghost use Rattle.requests.specs.Ranges.{InRange, ranged};

mod chooser;
mod difference;
mod draws;
mod mix;
mod pair;
mod row;
mod seen;
mod totals;

use chooser::Chooser;
use difference::Difference;
use pair::Pair;
use row::Row;
use std::alloc::Global;
use totals::Totals;

const ROWS: usize = row::LEVELS * row::ROWS_OF_LEVEL;

// Standard error hears of each so many rows.
const STEP: usize = 8000;

fn main(rt: HostRuntime) -> anyhow::Result<()> {
    let mut totals = Totals::default();
    let difference = first_difference(&rt, &mut totals)?;
    println!(rt; "{totals}")?;
    match difference {
        Some(difference) => println!(rt; "{difference}")?,
        None => println!(rt; "no difference")?,
    }
    Ok(())
}

fn first_difference(rt: &HostRuntime, totals: &mut Totals) -> anyhow::Result<Option<Difference>> {
    for number in 0..ROWS {
        if number % STEP == 0 {
            eprintln!(rt; "{number} of {ROWS} rows")?;
        }
        let difference = play(rt.alloc(), Row::new(number), totals)?;
        if difference.is_some() {
            return Ok(difference);
        }
    }
    Ok(None)
}

// The first call of the row that the two answer otherwise.
fn play(heap: Global, row: Row, totals: &mut Totals) -> anyhow::Result<Option<Difference>>
    requires { InRange (ranged row.sizes) }
{
    let mut pair = Pair::open(heap, row.sizes)?;
    let mut chooser = Chooser::new(heap, !row.seed, row.mix, row.sizes)?;
    for number in 0..row.calls {
        let call = chooser.next_call();
        let before = pair.in_use();
        let answers = pair.call(call)?;
        if answers.manager != answers.private {
            return Ok(Some(Difference {
                row,
                number,
                call,
                answers,
            }));
        }
        chooser.note(call, answers.manager);
        totals.add_call(call, answers.manager, pair.in_use() > before);
    }
    totals.add_row(pair.disk());
    Ok(None)
}
