//! The journal that a store holds, read by pieces: its blocks, its digests and the proofs of its revisions.
#![tactic(auto)]

mod cause;
mod chain;
mod journal;
mod reading;

pub use cause::LoadCause;
pub use chain::Chain;
pub use journal::Journal;
