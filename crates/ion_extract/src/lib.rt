//! Two values compared by their hashes: if the hashes are equal, the values are equivalent, or two different byte
//! strings of equal SHA-256 are found.
#![tactic(auto)]

mod compare;
mod find;
mod laws;

pub use compare::{Compared, compare_hashed};
pub use find::field_form;
pub use laws::{
    annotated_is_injective, bytes_determine_bodies, equivalent_serialize_alike,
    escape_is_injective, field_form_is_injective, frame_is_injective, hashes_determine_fields,
    int_is_injective, joined_hashes_are_injective, joined_is_injective,
    null_qualifier_is_injective, serialize_is_prefix_free,
};
