//! A persistent vector: a list whose versions share what they have in common.
#![tactic(auto)]

mod rows;
mod shared;
mod vector;

pub use rows::{FULL, Row, copied, member, single, spliced};
pub use shared::Shared;
pub use vector::PVec;

#[cfg(test)]
mod tests;
