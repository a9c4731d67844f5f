//! From the root of a padded hash tree down to a leaf, by a path that leads to the root: two different byte strings of
//! equal SHA-256 are found wherever the path leaves the tree.
#![tactic(auto)]

mod collision;
mod pairs;
mod walk;

pub use collision::{Stop, stop_if_different};
pub use pairs::{hash_is_long, not_a_pad, one_pair, pair_form, pair_forms_determine_pairs};
pub use walk::descend;
