//! What a list of blocks stands for: its revisions, its tables and its indexes, as one version that is never changed. A
//! version with one block more is a new one, which shares with the earlier one what they have in common.
#![tactic(auto)]

mod by_table;
mod documents;
mod histories;
mod indexes;
mod kept;
mod keys;
mod latest;
mod live;
mod recorded;
mod redactions;
mod shelf;
mod tables;
mod versions;

pub use recorded::{Recorded, copy_content};
pub use redactions::redacts;
pub use tables::{
    Indexed, Table, active_count, active_table, change_all, copy_indexes, copy_tables, has_index,
    index_all, index_count, is_active,
};
pub use versions::Versions;
