//! One statement of a transaction, from its text on.
ghost use Rattle.ledger_model.specs.Run as run;
ghost use Rattle.ledger_model.specs.Run.{done_by_statement};
ghost use Rattle.txn_core.specs.Effects.{asked_effect, done_as};
ghost use Rattle.txn_core.specs.Opened.{Executed, Performed, Told, asked};
ghost use Rattle.txn_core.specs.Reading.{IfFrom, from_of};
ghost use Rattle.txn_core.specs.Stops.{Does};

use crate::effect::Effect;
use crate::limits::first_deep;
use crate::reading::{Over, Reading};
use crate::redaction_arguments::Arguments;
use crate::statements::{Statements, miscounted, read_statement};
use crate::stopped::ExecuteFault;
use crate::transaction::Txn;
use ion_values::{Value, Values, copy_values};
use ledger_model::{Answer, Refusal};
use pql_from::Given;
use pql_model::Statement;
use std::alloc::Global;

impl Txn {
    /// Does one statement on the transaction's version and what its statements have done so far. After a refusal the
    /// transaction is ended; after `Ended`, which comes to every statement from then on, and after `OutOfMemory` it is
    /// as before.
    #[tactic(auto, using(crate::proofs::Effects::executed_ended, crate::proofs::Effects::executed_done, crate::proofs::Effects::executed_refused, crate::proofs::Effects::executed_wanting))]
    pub fn execute(
        &mut self,
        alloc: Global,
        text: &str,
        params: &[Value],
    ) -> Result<Answer, Refusal>
        ensures { Executed self.old (asked text.now params.now) result self.new }
    {
        if self.ended {
            return Err(Refusal::Ended);
        }
        match self.answered(alloc, text, params) {
            Ok(rows) => Ok(Answer { rows }),
            Err(ExecuteFault::Refused(cause)) => {
                self.ended = true;
                Err(cause)
            }
            Err(ExecuteFault::OutOfMemory) => Err(Refusal::OutOfMemory),
        }
    }

    /// Does one statement and answers its rows. Where it isn't done, the transaction is as before.
    #[tactic(auto, using(crate::proofs::Effects::added_told, crate::proofs::Effects::stops))]
    fn answered(
        &mut self,
        alloc: Global,
        text: &str,
        params: &[Value],
    ) -> Result<Values, ExecuteFault>
        ensures { Told self.old (asked text.now params.now) result self.new }
    {
        let effect = match self.effect(alloc, text, params) {
            Ok(effect) => effect,
            Err(stopped) => return Err(stopped),
        };
        let rows = copy_values(alloc, effect.rows.as_slice())?;
        self.add(alloc, text, params, effect)?;
        Ok(rows)
    }

    /// Does one statement as `execute` does, and leaves its answer with the transaction alone. Where it isn't done, the
    /// transaction is as before; a refusal doesn't end it. The statement is found among those that are kept, or read
    /// and kept.
    #[tactic(auto, using(crate::proofs::Effects::added_steps, crate::proofs::Effects::stops))]
    pub fn perform(
        &mut self,
        alloc: Global,
        statements: &mut Statements,
        text: &str,
        params: &[Value],
    ) -> Result<(), ExecuteFault>
        ensures { Performed self.old (asked text.now params.now) result self.new }
    {
        let effect = match self.effect_kept(alloc, statements, text, params) {
            Ok(effect) => effect,
            Err(stopped) => return Err(stopped),
        };
        self.add(alloc, text, params, effect)?;
        Ok(())
    }

    /// What the statement of this text does with these parameters.
    fn effect(&self, alloc: Global, text: &str, params: &[Value]) -> Result<Effect, ExecuteFault>
        ensures { Does result (asked_effect self.now (asked text.now params.now)) }
    {
        let statement = read_statement(alloc, text)?;
        let effect = self.effect_of(alloc, &statement, params);
        drop(statement);
        effect
    }

    /// What the statement of this text does with these parameters. It is found among those that are kept, or read and
    /// kept.
    fn effect_kept(
        &self,
        alloc: Global,
        statements: &mut Statements,
        text: &str,
        params: &[Value],
    ) -> Result<Effect, ExecuteFault>
        ensures { Does result (asked_effect self.now (asked text.now params.now)) }
    {
        if let Some(statement) = statements.find(text) {
            return self.effect_of(alloc, statement, params);
        }
        let statement = read_statement(alloc, text)?;
        let effect = self.effect_of(alloc, &statement, params);
        statements.keep(alloc, text, statement);
        effect
    }

    /// What the statement does with these parameters. It stops with `ParameterCount` where they are too few or too
    /// many, and with `TooDeep` where one of them is.
    fn effect_of(
        &self,
        alloc: Global,
        statement: &Statement,
        params: &[Value],
    ) -> Result<Effect, ExecuteFault>
        ensures { Does result (done_as self.now params.now statement.now) }
    {
        if let Some(cause) = miscounted(statement, params) {
            return Err(ExecuteFault::Refused(cause));
        }
        if let Some(depth) = first_deep(params) {
            return Err(ExecuteFault::Refused(Refusal::TooDeep { depth }));
        }
        self.whole_effect(alloc, statement, params)
    }

    /// What the statement does with parameters that it takes, and what it reads.
    #[tactic(auto, using(crate::proofs::Effects::read_besides))]
    fn whole_effect(
        &self,
        alloc: Global,
        statement: &Statement,
        params: &[Value],
    ) -> Result<Effect, ExecuteFault>
        ensures { Does result (run.effect_of self.now.begun self.now.base self.now.done params.now statement.now) }
    {
        let Reading { items, given } = self.read_by(alloc, statement, params)?;
        let mut effect = match self.done_by(alloc, statement, params, given) {
            Ok(effect) => effect,
            Err(stopped) => return Err(stopped),
        };
        effect.footprint = items;
        Ok(effect)
    }

    /// What it does over these rows of its sources.
    fn done_by<'a>(
        &self,
        alloc: Global,
        statement: &'a Statement,
        params: &'a [Value],
        given: Vec<Given<'a>>,
    ) -> Result<Effect, ExecuteFault>
        requires { IfFrom self.now params.now (from_of statement.now) given.items }
        ensures { Does result (done_by_statement self.now.begun self.now.base self.now.done params.now statement.now) }
    {
        match statement {
            Statement::Create { table } => self.create(alloc, table),
            Statement::Index { table, field } => self.create_index(alloc, table, field),
            Statement::Drop { table } => self.drop_table(alloc, table),
            Statement::Insert { table, value } => self.insert(alloc, table, value, params),
            Statement::Select { select, from } => {
                self.select(alloc, select, Over { from, given }, params)
            }
            Statement::Update { from, change } => {
                self.change(alloc, Over { from, given }, change, params)
            }
            Statement::From { from, change } => {
                self.change(alloc, Over { from, given }, change, params)
            }
            Statement::Delete { from } => self.delete(alloc, Over { from, given }, params),
            Statement::Redact {
                address,
                table,
                document,
            } => self.redact(
                alloc,
                Arguments {
                    address,
                    table,
                    document,
                },
                params,
            ),
        }
    }
}
