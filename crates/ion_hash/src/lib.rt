//! The serialization of values by the Ion Hash specification, and their hashes.
#![tactic(auto)]

mod fields;
mod scalars;
mod values;

pub use values::{field_hash, hash, serialize, struct_form, struct_hash};
