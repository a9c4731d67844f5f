//! DROP TABLE.
ghost use Rattle.ledger_model.specs.Run.{dropped};
ghost use Rattle.txn_core.specs.Stops.{Does};

use crate::effect::Effect;
use crate::schema_changes::schema_change;
use crate::stopped::ExecuteFault;
use crate::transaction::Txn;
use ion_values::Text;
use ledger_model::Schema;
use std::alloc::Global;

impl Txn {
    /// What drops the table of this name. It stops with `ReservedName` where the name is the ledger's own, and with
    /// `NoSuchTable` where no active table has it.
    pub(crate) fn drop_table(&self, alloc: Global, name: &Text) -> Result<Effect, ExecuteFault>
        ensures { Does result (dropped self.now.base self.now.done name.now) }
    {
        let table = self.table_changed(alloc, name)?;
        let change = Schema::Drop {
            name: name.copy(alloc)?,
            table,
        };
        Ok(schema_change(alloc, table, change)?)
    }
}
