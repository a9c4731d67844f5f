//! What is so of the run of a made workload by its definitions: the transaction that runs first and alone and the
//! sessions after it are one run, and what the history of that run adds up to.
#![tactic(auto)]

mod laws;

pub use laws::{first_is_over, made_runs_add_up, workers_join};
