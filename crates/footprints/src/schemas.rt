//! The tables and the fields with an index, as a transaction has changed them so far.
ghost use Rattle.std.specs.Prelude.{◌≡◌};
ghost use Rattle.std.specs.List.{list_any};
ghost use Rattle.ledger_model.specs.Follows.{has_index};
ghost use Rattle.footprints.specs.Lent.{makes_index, schemas_of};

use containers::Text;
use ledger_model::Schema;
use ql_types::TableId;
use versions::{Table, Versions};

/// What a transaction sees of the schema: all tables, its own changes counted; the version that it stands on; and its
/// changes, in order.
#[derive(Clone, Copy)]
pub struct Schemas<'a> {
    pub tables: &'a [Table],
    pub base: &'a Versions,
    pub changes: &'a [Schema],
}

impl Schemas<'_> {
    /// Whether the field of the table has an index, the changes counted.
    #[tactic(auto, using(crate::proofs::Indexes::index_now))]
    pub(crate) fn has_index(&self, table: TableId, field: &Text) -> bool
        ensures { result ≡ has_index (schemas_of self.now).indexes table field.now }
    {
        self.base.has_index(table, field) || make_index(self.changes, table, field.as_str())
    }
}

/// Whether one of the changes makes an index on the field of the table.
fn make_index(changes: &[Schema], table: TableId, field: &str) -> bool
    ensures { result ≡ list_any (makes_index table field.now) changes.now }
{
    'changes: for change in changes {
        if makes_index(change, table, field) {
            return true;
        }
    }
    false
}

fn makes_index(change: &Schema, table: TableId, field: &str) -> bool
    ensures { result ≡ makes_index table field.now change.now }
{
    match change {
        Schema::Index {
            field: name,
            table: id,
        } => id.raw == table.raw && name.as_str() == field,
        Schema::Create { .. } | Schema::Drop { .. } | Schema::Redact { .. } => false,
    }
}
