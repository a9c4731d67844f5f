//! Blocks and revisions as Ion values, and their hashes.
#![tactic(auto)]

mod checked;
mod contents;
mod hash_checks;
mod part_hashes;
mod read_blocks;
mod read_info;
mod read_revisions;
mod revisions;
mod said;
mod seals;
mod told;
mod values;

pub use checked::{CheckedBlock, checked_from_ion};
pub use contents::{HashedContent, hash_content};
pub use read_blocks::{from_ion, header_with, is_shallow, values_tell_blocks};
pub use read_info::place_in;
pub use read_revisions::revision_in;
pub use revisions::{metadata_value, revision_value};
pub use seals::{
    Telling, Valued, header_hash, info_form, revision_hash, seal, seal_revision, seal_with_value,
    strand_hash,
};
pub use told::{HashedField, hash_said, told_hash};
pub use values::{header_value, to_ion};
