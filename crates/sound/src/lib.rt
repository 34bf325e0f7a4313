// What it takes to say whether a manager's state is sound, and what is wrong with it if it is not. Nothing decides it yet.
#![tactic(auto)]

mod checks;
mod entries;
pub mod finding;
mod seek;
pub mod snapshot;
mod take;
