// Segments: pages that several processes look at on purpose; and the dropping of a page of any kind.
#![tactic(auto)]

pub mod make;
pub mod reach;
pub mod release;
#[cfg(test)]
mod tests;
