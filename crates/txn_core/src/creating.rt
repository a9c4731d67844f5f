//! CREATE TABLE.
ghost use Rattle.std.specs.Prelude.{◌≡◌, IfOk};
ghost use Rattle.ledger_model.specs.Run.{created, new_table, tables_now};
ghost use Rattle.txn_core.specs.Effects.{effect_of};
ghost use Rattle.txn_core.specs.Stops.{Does};
ghost use Rattle.txn_core.specs.Transactions.{not_created};

use crate::answers::named_id;
use crate::effect::Effect;
use crate::limits::{no_table_more, reserved};
use crate::stopped::ExecuteFault;
use crate::transaction::Txn;
use ion_values::{OutOfMemory, Text};
use ledger_model::{Refusal, Schema};
use ql_types::TableId;
use std::alloc::Global;
use versions::active_table;

impl Txn {
    /// What creates a table of this name. It stops with `ReservedName` where the name is the ledger's own, with
    /// `TableExists` where an active table has it, and with `TooManyTables` where there are as many as there may be.
    pub(crate) fn create(&self, alloc: Global, name: &Text) -> Result<Effect, ExecuteFault>
        ensures { Does result (created self.now.begun self.now.base self.now.done name.now) }
    {
        if let Some(cause) = self.not_created(alloc, name)? {
            return Err(ExecuteFault::Refused(cause));
        }
        let raw = self.next_id(0)?;
        Ok(new_table(alloc, raw, name)?)
    }

    /// Why no table of this name is created, where none is.
    fn not_created(&self, alloc: Global, name: &Text) -> Result<Option<Refusal>, OutOfMemory>
        ensures { IfOk result (λ cause.
            cause ≡ not_created (tables_now self.now.base self.now.done) self.now.done.schema name.now) }
    {
        if let Some(cause) = reserved(alloc, name)? {
            return Ok(Some(cause));
        }
        let tables = self.tables_now(alloc)?;
        if active_table(tables.as_slice(), name.as_str()).is_some() {
            return Ok(Some(Refusal::TableExists {
                name: name.copy(alloc)?,
            }));
        }
        Ok(no_table_more(tables.as_slice(), self.done.schema.as_slice()))
    }
}

/// What creates the table of this id.
#[tactic(auto, using(crate::proofs::Effects::table_created))]
fn new_table(alloc: Global, raw: u128, name: &Text) -> Result<Effect, OutOfMemory>
    ensures { IfOk result (λ e. effect_of e ≡ new_table raw name.now) }
{
    let mut effect = Effect::new(alloc);
    effect.rows.push(named_id(alloc, "tableId", raw)?)?;
    effect.schema.push(Schema::Create {
        name: name.copy(alloc)?,
        table: TableId { raw },
    })?;
    effect.made = 1;
    Ok(effect)
}
