// Frames: pages as parts of lent bytes, tables of counts, used marks, and the hand that chooses a frame.
#![tactic(auto)]

pub mod counts;
pub mod hand;
pub mod memory;
#[cfg(test)]
mod tests;
