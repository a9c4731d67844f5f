//! The order of Ion scalars, the keys by which they are looked up, and the sums and products of
//! decimals.
#![tactic(auto)]

mod arithmetic;
mod keys;
mod laws;
mod numbers;
mod order;

pub use arithmetic::{add, multiply, subtract};
pub use keys::key;
pub use laws::{keys_tell_equal, numbers_are_ordered, values_are_ordered};
pub use order::compare;
