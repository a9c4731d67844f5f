//! What the expressions of a change are read from.

use ion_values::Value;
use pql_model::Scope;
use std::alloc::Global;

/// A row of the statement, the parameters, and where memory is taken.
#[derive(Clone, Copy)]
pub struct Context<'a> {
    pub alloc: Global,
    pub scope: &'a Scope,
    pub params: &'a [Value],
}
