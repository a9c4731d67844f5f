//! What stands between a script and the ledger: the digest that a commit sends, and the retries of a job.
#![tactic(auto)]

mod digest;
mod retries;

pub use digest::{fold_statement, start_digest};
pub use retries::{Link, run_job};
