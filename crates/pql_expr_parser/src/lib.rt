//! The parser's small steps, and expressions: from tokens to the tree, with the first fault.
#![tactic(auto)]

pub mod answer;
mod constants;
pub mod expressions;
pub mod parser;
pub mod paths;
mod predicates;
mod primaries;
mod words;
