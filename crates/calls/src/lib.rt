// The memory manager: it is opened over lent memory, and answers calls.
#![tactic(auto)]

mod entries;
pub mod entry;
mod family;
mod lent;
mod load;
pub mod manager;
pub mod open;
mod page;
mod segment;
mod serve;
mod slot;
mod store;
#[cfg(test)]
mod tests;
