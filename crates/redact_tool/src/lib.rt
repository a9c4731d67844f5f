//! A journal without the bytes of what its blocks redact: the same blocks by all their hashes, with hashes in place of
//! the redacted data and of the statements up to the last redaction.
#![tactic(auto)]

mod blocks;
mod compacting;
mod redactions;

pub use blocks::{compact, compacted_block};
pub use compacting::shown_revision;
pub use redactions::{Redactions, front};
