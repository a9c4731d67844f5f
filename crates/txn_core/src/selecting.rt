//! SELECT.
ghost use Rattle.std.specs.Prelude.{◌++◌, map};
ghost use Rattle.ledger_model.specs.State.{draft_of};
ghost use Rattle.ledger_model.specs.Run.{selected, tables_now};
ghost use Rattle.ledger_model.specs.Views.{latest};
ghost use Rattle.txn_core.specs.Reading.{AreGiven};
ghost use Rattle.txn_core.specs.Selects.{answer_in};
ghost use Rattle.txn_core.specs.Stops.{Comes, Does};

use crate::effect::Effect;
use crate::reading::Over;
use crate::stopped::ExecuteFault;
use crate::transaction::Txn;
use ion_values::{Value, Values};
use pql_model::Select;
use std::alloc::Global;

impl Txn {
    /// What selects from the sources. It stops with `NoSuchTable` of the first table in the text that isn't active.
    pub(crate) fn select(
        &self,
        alloc: Global,
        select: &Select,
        over: Over<'_>,
        params: &[Value],
    ) -> Result<Effect, ExecuteFault>
        requires { AreGiven self.now params.now over.from.now over.given.items }
        ensures { Does result (selected self.now.base self.now.done params.now select.now over.entry.from.now) }
    {
        let rows = self.rows_selected(alloc, select, over, params)?;
        let mut effect = Effect::new(alloc);
        effect.rows = rows;
        Ok(effect)
    }

    /// What the SELECT answers of the rows of its sources, with `NoSuchTable` as `select`.
    fn rows_selected(
        &self,
        alloc: Global,
        select: &Select,
        over: Over<'_>,
        params: &[Value],
    ) -> Result<Values, ExecuteFault>
        requires { AreGiven self.now params.now over.from.now over.given.items }
        ensures { Comes result (answer_in (tables_now self.now.base self.now.done) self.now.base
            (latest (map draft_of self.now.base.revisions ++ self.now.done.log)) params.now select.now
            over.entry.from.now) }
    {
        if let Some(cause) = self.absent_now(alloc, over.from)? {
            return Err(ExecuteFault::Refused(cause));
        }
        let rows = over.answered(alloc, select, params)?;
        Ok(rows)
    }
}
