// What can be asked of the manager and what it answers: sizes, calls, answers, refusals, and rows of calls as bytes.
#![tactic(auto)]

pub mod answer;
pub mod request;
pub mod row;
pub mod sizes;
#[cfg(test)]
mod tests;
