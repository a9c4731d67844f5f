//! Statements that change the schema of a table that is there.
ghost use Rattle.std.specs.Prelude.{◌≡◌, IfOk};
ghost use Rattle.ledger_model.specs.SchemaChanges.{schema_change};
ghost use Rattle.txn_core.specs.Effects.{effect_of};

use crate::answers::named_id;
use crate::effect::Effect;
use ion_values::OutOfMemory;
use ledger_model::Schema;
use ql_types::TableId;
use std::alloc::Global;

/// What changes the schema of this table, whose id is the answer.
#[tactic(auto, using(crate::proofs::Schemas::schema_changed))]
pub(crate) fn schema_change(
    alloc: Global,
    table: TableId,
    change: Schema,
) -> Result<Effect, OutOfMemory>
    ensures { IfOk result (λ e. effect_of e ≡ schema_change table change) }
{
    let mut effect = Effect::new(alloc);
    effect.rows.push(named_id(alloc, "tableId", table.raw)?)?;
    effect.schema.push(change)?;
    Ok(effect)
}
