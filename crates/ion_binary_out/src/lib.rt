//! Values in the binary encoding of Ion 1.0, with the law that bytes denote at most one list of values.
#![tactic(auto)]

mod laws;
mod occurrences;
mod sources;
mod stream;
mod symbols;
mod values;

pub use laws::denoted_values_are_unique;
pub use sources::{ValueSource, write_each};
pub use stream::{are_top, write_binary};
