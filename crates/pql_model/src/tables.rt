//! Where the rows of a statement come from.
ghost use Rattle.std.specs.Prelude.{◌≡◌, ℕ, List, IfOk};
ghost use Rattle.pql_model.specs.Tables.{meeting};
ghost use Rattle.pql_model.specs.declared.tables.Row.{Row};
ghost use Rattle.pql_model.specs.declared.tables.View.{View};

use containers::{Sequence, Text};
use ion_values::{Key, OutOfMemory, Value, Values};
use ql_types::DocId;
use std::alloc::Global;

/// What of a table is seen: its documents, their latest committed revisions, or all committed revisions that were
/// active between two moments. A bound of a history that isn't given is None; one that is no timestamp shows nothing.
#[derive(Drop)]
pub enum View {
    User,
    Committed,
    History {
        start: Option<Value>,
        end: Option<Value>,
    },
}

/// Keys in order.
pub type Keys = Sequence<Key>;

/// Which rows of a view are asked for: all, those of one document or of several, or those whose field of that name has
/// that key or one of several.
#[derive(Drop)]
pub enum Probe {
    All,
    Id(DocId),
    Key { field: Text, key: Key },
    Ids { ids: DocIds },
    Keys { field: Text, keys: Keys },
}

/// A row of a view, and whose document it is.
#[derive(Drop)]
pub struct Row {
    pub id: DocId,
    pub value: Value,
}

/// Rows in order.
pub type Rows = Sequence<Row>;

/// Ids of documents in order.
pub type DocIds = Sequence<DocId>;

/// What a statement answers, row by row.
#[derive(Drop)]
pub struct Answer {
    pub rows: Values,
}

/// The tables that statements read.
pub trait Tables {
    /// The rows of each view of each table, by the table's name. A table that isn't there has none.
    ghost view_rows: { Self → List ℕ → View → List Row };

    /// The rows of the view that meet the probe, in the view's order.
    fn rows(
        &self,
        alloc: Global,
        table: &Text,
        view: &View,
        probe: &Probe,
    ) -> Result<Rows, OutOfMemory>
        ensures { IfOk result (λ rows. rows ≡ meeting probe.now (view_rows self.now table.now view.now)) };
}
