// Copies at a store: where a page is shared, or is the page of zeros that nobody holds, a store makes a page of its own first.
#![tactic(auto)]

pub mod anew;
pub mod own;
pub mod stores;
#[cfg(test)]
mod tests;
