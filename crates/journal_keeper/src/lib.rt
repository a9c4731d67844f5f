//! Cutting a journal's store and appending lines to it, and what a stop leaves.
#![tactic(auto)]

mod keeping;

pub use keeping::{Keeper, SettleFault};
