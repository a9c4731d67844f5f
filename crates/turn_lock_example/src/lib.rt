//! A caller of the lock: numbers that workers draw and give back, each kept in one list behind the turn.
#![tactic(auto)]

mod tally;
mod workers;

pub use tally::{Mark, Tally};
pub use workers::{draw, give_back, round, work, work_by_two};

#[cfg(test)]
mod tests;
