//! Workloads made from a seed, whose sessions insert documents into one table, and what a history of one adds up to.
#![tactic(auto)]

mod amounts;
mod jobs;
mod laws;
mod totals;

pub use jobs::{made_first, made_sessions};
pub use laws::made_histories_add_up;
pub use totals::{Totals, summary_text, totals_of};
