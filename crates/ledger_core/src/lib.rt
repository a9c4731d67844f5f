//! The ledger on one thread: the tail of a journal over the store that keeps it, and its transactions.
#![tactic(auto)]

mod appending;
mod begin;
mod commit;
mod hashed_drafts;
mod laws;
mod outcomes;
mod prepared;
mod reload;
mod sealing;
mod settle;
mod tail;

pub use appending::Receipt;
pub use begin::BeginFault;
pub use commit::{CommitFault, Uncommitted, own_digest};
pub use journal_keeper::SettleFault;
pub use journal_reader::LoadCause;
pub use laws::{
    begins_are_steps, commits_are_steps, spent_numbers_are_steps, statements_are_steps,
    statements_keep_open,
};
pub use laws_machine::{commits_stand_once, conflict_comes_exactly, history_stays_legal};
pub use outcomes::outcome_of;
pub use prepared::{Prepared, prepare};
pub use reload::{LoadFault, Loaders};
pub use tail::Tail;
