//! CREATE INDEX.
ghost use Rattle.std.specs.Prelude.{◌≡◌, map, IfOk};
ghost use Rattle.ledger_model.specs.Run.{indexed};
ghost use Rattle.ledger_model.specs.SchemaChanges.{indexes_now};
ghost use Rattle.versions.specs.Held.{indexed_of};
ghost use Rattle.txn_core.specs.Stops.{Does};
ghost use Rattle.txn_core.specs.Transactions.{not_indexed};

use crate::effect::Effect;
use crate::schema_changes::schema_change;
use crate::stopped::ExecuteFault;
use crate::transaction::Txn;
use ion_values::{OutOfMemory, Text};
use ledger_model::{Refusal, Schema};
use ql_types::TableId;
use std::alloc::Global;
use versions::{Indexed, copy_indexes, has_index, index_all, index_count};

/// The most fields of a table that have an index.
const MOST_INDEXES: u64 = 5;

impl Txn {
    /// What makes an index on the field of the table of this name. It stops with `ReservedName` where the name is the
    /// ledger's own, with `NoSuchTable` where no active table has it, with `IndexExists` where the field has an index,
    /// and with `TooManyIndexes` where the table has as many as it may have.
    pub(crate) fn create_index(
        &self,
        alloc: Global,
        name: &Text,
        field: &Text,
    ) -> Result<Effect, ExecuteFault>
        ensures { Does result (indexed self.now.base self.now.done name.now field.now) }
    {
        let table = self.table_changed(alloc, name)?;
        if let Some(cause) = self.not_indexed(alloc, name, field, table)? {
            return Err(ExecuteFault::Refused(cause));
        }
        let change = Schema::Index {
            field: field.copy(alloc)?,
            table,
        };
        Ok(schema_change(alloc, table, change)?)
    }

    /// Why no index on the field is made, where none is.
    fn not_indexed(
        &self,
        alloc: Global,
        name: &Text,
        field: &Text,
        table: TableId,
    ) -> Result<Option<Refusal>, OutOfMemory>
        ensures { IfOk result (λ cause.
            cause ≡ not_indexed (indexes_now self.now.base self.now.done) name.now field.now table) }
    {
        let indexes = self.indexes_now(alloc)?;
        if has_index(indexes.as_slice(), table, field.as_str()) {
            return Ok(Some(Refusal::IndexExists {
                name: name.copy(alloc)?,
                field: field.copy(alloc)?,
            }));
        }
        let count = index_count(indexes.as_slice(), table);
        if count >= MOST_INDEXES {
            return Ok(Some(Refusal::TooManyIndexes { count }));
        }
        Ok(None)
    }

    /// The fields with an index, the transaction's own changes counted.
    fn indexes_now(&self, alloc: Global) -> Result<Vec<Indexed>, OutOfMemory>
        ensures { IfOk result (λ indexes. map indexed_of indexes.items ≡ indexes_now self.now.base self.now.done) }
    {
        let mut indexes = copy_indexes(alloc, self.base.all_indexes())?;
        index_all(alloc, &mut indexes, self.done.schema.as_slice())?;
        Ok(indexes)
    }
}
