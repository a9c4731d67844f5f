//! Copies of the parts of blocks, whole or with another part.
#![tactic(auto)]

mod copies;

pub use copies::{
    block_with, copy_content, copy_info, copy_revision, copy_told, info_with, revision_with,
};
