//! What the claim of a run says of the answers in its blocks and of what its conflicts name, and the wrong answers and
//! wrong conflicts that it so refuses: definitions and laws of them.
#![tactic(auto)]

mod laws;

pub use laws::{blocks_are_answered, conflicts_are_first};
