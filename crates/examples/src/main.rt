// Plays each example that is named on the command line, and says whether it came out as expected.
#![tactic(auto)]

use anyhow::anyhow;
use std::{env, fs};

fn main(rt: HostRuntime) -> anyhow::Result<()> {
    let mut names = env::args(&rt)?;
    let _program = names.next();
    for name in names {
        play(&rt, name.as_str())?;
    }
    Ok(())
}

fn play(rt: &HostRuntime, name: &str) -> anyhow::Result<()> {
    let input = fs::read(rt, format!(in rt.alloc(); "{name}.row")?)?;
    let expected = fs::read_to_string(rt, format!(in rt.alloc(); "{name}.out")?)?;
    let text = play::played(rt.alloc(), input.as_slice()).map_err(|_| anyhow!("no memory"))?;
    compare(rt, name, text.as_str(), expected.as_str())
}

// Says how many lines came, or from which line on they are not those that were expected.
fn compare(rt: &HostRuntime, name: &str, text: &str, expected: &str) -> anyhow::Result<()> {
    let same = same_lines(text, expected);
    if text == expected {
        println!(rt; "{name}: as expected ({same} lines)")?;
    } else {
        println!(rt; "{name}: line {same} is not as expected:")?;
        rt.print(text)?;
    }
    Ok(())
}

// How many lines are the same in both before one differs or is missing.
fn same_lines(text: &str, expected: &str) -> usize {
    text.lines()
        .zip(expected.lines())
        .take_while(|(line, wanted)| line == wanted)
        .count()
}
