// Page tables: what an entry names, entries as numbers in the lent table, the row of a process, and the walk from a page to where it lies.
#![tactic(auto)]

pub mod entry;
pub mod lent;
pub mod table;
#[cfg(test)]
mod tests;
pub mod walk;
