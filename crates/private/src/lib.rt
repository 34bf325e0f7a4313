// The slow machine, written straight from the rules: every process has memory of its own, a fork copies it, and labels only
// count what has to be held.
#![tactic(auto)]

mod asked;
mod held;
pub mod machine;
mod memory;
mod page;
mod process;
mod serve;
mod steps;
pub mod want;
