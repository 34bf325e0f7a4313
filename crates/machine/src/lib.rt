// A machine with memory of its own on the heap: the manager, and all that is lent to it.
#![tactic(auto)]

pub mod machine;
mod open;
mod serve;
#[cfg(test)]
mod tests;
pub mod trouble;
