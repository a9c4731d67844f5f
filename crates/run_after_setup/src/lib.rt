//! A script's run after a transaction that runs first and alone.
#![tactic(auto)]

mod alone;
mod first;

pub use alone::{AloneRan, Setup, run_alone};
pub use first::run_behind_first;
