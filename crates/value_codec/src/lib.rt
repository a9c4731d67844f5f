//! The parts of which the values of blocks, revisions and proofs are made, and of which those of scripts are: `parts`
//! writes them, `read_parts` reads them, and `takes` hands over what stands in them.
#![tactic(auto)]

pub mod parts;
pub mod read_parts;
pub mod takes;
