//! Postings: which positions have a key.
#![tactic(auto)]

mod filed;
mod positions;
mod postings;

pub use filed::Filed;
pub use positions::Positions;
pub use postings::Postings;
