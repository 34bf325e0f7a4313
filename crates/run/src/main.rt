// Plays the row of calls on standard input, and prints what each is answered.
#![tactic(auto)]

use anyhow::anyhow;
use std::io::{Read, Write};

fn main(rt: HostRuntime) -> anyhow::Result<()> {
    let mut input = Vec::new(rt.alloc());
    rt.stdin().read_to_end(&mut input)?;
    let text = play::played(rt.alloc(), input.as_slice()).map_err(|_| anyhow!("no memory"))?;
    rt.stdout().write_all(text.as_bytes())?;
    Ok(())
}
