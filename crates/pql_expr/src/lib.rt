//! What expressions mean under one row and the parameters of a statement.
#![tactic(auto)]

mod arithmetic;
mod comparisons;
mod context;
mod elements;
mod evaluation;
mod logic;
mod made;
mod operators;
mod paths;
mod patterns;
mod texts;
mod words;

pub use evaluation::{eval, eval_source_path};
pub use made::is_unknown;
pub use operators::operate;
pub use pql_model::Evaluated;
