//! The definitions of pair hashes, of the serialization of values and of padded hash trees, which the contracts of what
//! hashes cite, and what holds of them.
#![tactic(auto)]

mod laws;

pub use laws::{digits_tell_numbers, utc_dates_tell_instants};
