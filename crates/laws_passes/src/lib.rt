//! What is so of the transactions of a pass of the shared ledger: a law over definitions alone.
#![tactic(auto)]

mod laws;

pub use laws::statements_keep_open;
