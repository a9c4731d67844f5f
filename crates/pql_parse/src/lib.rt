//! The parser of PartiQL statements: from the text to the tree, with the first fault.
#![tactic(auto)]

mod changes;
mod parsing;
mod rules;
mod selection;
mod sources;
mod statements;

pub use parsing::parse;
pub use pql_expr_parser::answer::ParseAnswer;
