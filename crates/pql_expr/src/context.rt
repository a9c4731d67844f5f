//! What an expression sees.

use ion_values::Value;
use pql_model::Bound;

/// The sources of a row, whether these are all sources of the statement, and the parameters.
#[derive(Clone, Copy)]
pub struct Context<'a> {
    pub scope: &'a [Bound],
    pub is_whole: bool,
    pub params: &'a [Value],
}
