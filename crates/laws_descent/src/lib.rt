//! What tells a wrong turn on the way from a digest down to a revision, by the definitions: how long what is hashed is,
//! and what equivalent headers agree in.
#![tactic(auto)]

mod laws;

pub use laws::{
    field_hashes_are_long, four_fields_are_long, four_hashes_are_long, headers_agree, ids_are_short,
};
