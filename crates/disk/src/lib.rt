// The disk: pages go out to places and come in again, and a frame is found for whoever needs one.
#![tactic(auto)]

pub mod change;
pub mod find;
pub mod memory;
pub mod moves;
pub mod read;
pub mod registers;
#[cfg(test)]
mod tests;
