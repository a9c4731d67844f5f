use containers::{Sequence, Text};
use ion_values::Value;
use ql_types::DocId;

/// What an expression means under a row.
#[derive(Drop)]
pub enum Evaluated {
    Missing,
    Found(Value),
}

/// One row: what each source gives, in the order of the sources.
pub type Scope = Sequence<Bound>;

/// Rows in order.
pub type Bindings = Sequence<Scope>;

/// What a source gives in one row. The id is that of the document for a table source or a history,
/// and None for a path source.
#[derive(Drop)]
pub struct Bound {
    pub variable: Text,
    pub value: Value,
    pub id_name: Option<Text>,
    pub id: Option<DocId>,
}
