// The look-aside table: sixteen slots, each of which remembers where a page lies, so that a load or a store need not walk.
#![tactic(auto)]

pub mod purge;
pub mod slots;
#[cfg(test)]
mod tests;
