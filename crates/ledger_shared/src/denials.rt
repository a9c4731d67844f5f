//! The outcome of a transaction of which the rules deny something.
ghost use Rattle.std.specs.Prelude.{◌≡◌, IfOk};
ghost use Rattle.ledger_shared.specs.Workers.{TellsDenial, denied_as};

use containers::Text;
use ion_values::OutOfMemory;
use ledger_model::{Denial, Outcome};
use std::alloc::Global;

/// The outcome of a transaction of which this is denied.
pub(crate) fn denied(alloc: Global, denial: &Denial) -> Outcome
    ensures { TellsDenial denial.now result }
{
    match told(alloc, denial) {
        Ok(outcome) => outcome,
        Err(OutOfMemory) => Outcome::OutOfMemory,
    }
}

fn told(alloc: Global, denial: &Denial) -> Result<Outcome, OutOfMemory>
    ensures { IfOk result (λ outcome. outcome ≡ denied_as denial.now) }
{
    let action = denial.action.copy(alloc)?;
    let table = denial.table.copy(alloc)?;
    let rule = copied(alloc, &denial.rule)?;
    Ok(Outcome::Denied {
        statement: denial.statement,
        action,
        table,
        rule,
    })
}

fn copied(alloc: Global, name: &Option<Text>) -> Result<Option<Text>, OutOfMemory>
    ensures { IfOk result (λ copy. copy ≡ name.now) }
{
    match name {
        Some(name) => Ok(Some(name.copy(alloc)?)),
        None => Ok(None),
    }
}
