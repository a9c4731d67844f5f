//! UPDATE, and FROM with a change.
ghost use Rattle.std.specs.Prelude.{◌≡◌, ◌++◌, map, IfOk};
ghost use Rattle.ledger_model.specs.Run.{tables_now};
ghost use Rattle.ledger_model.specs.State.{draft_of};
ghost use Rattle.ledger_model.specs.Views.{latest};
ghost use Rattle.ledger_model.specs.Writing.{changed, stored_changes};
ghost use Rattle.txn_core.specs.Reading.{AreGiven};
ghost use Rattle.txn_core.specs.Selects.{first_absent_in};
ghost use Rattle.txn_core.specs.Stops.{Comes, Does};
ghost use Rattle.txn_core.specs.Writes.{Changes, Stands, rows_seen};

use crate::effect::Effect;
use crate::limits::not_kept;
use crate::reading::Over;
use crate::roots::{first_own, written_by};
use crate::sources::first_absent;
use crate::stopped::ExecuteFault;
use crate::touching::Touching;
use crate::transaction::Txn;
use ion_values::{OutOfMemory, Value};
use ledger_model::{Content, Refusal, Row};
use pql_change::changed_documents;
use pql_model::{Bindings, Change, FromClause, Rows};
use std::alloc::Global;

impl Txn {
    /// What changes the documents that the rows of the sources name. It stops with `ReservedName` of the first table in
    /// the text that it writes and that is the ledger's own, with `NoSuchTable` of the first one that isn't active, and
    /// where what a document becomes isn't stored.
    pub(crate) fn change(
        &self,
        alloc: Global,
        over: Over<'_>,
        change: &Change,
        params: &[Value],
    ) -> Result<Effect, ExecuteFault>
        requires { AreGiven self.now params.now over.from.now over.given.items }
        ensures { Does result (changed self.now.base self.now.done params.now over.entry.from.now change.now) }
    {
        let sources = over.from.sources.as_slice();
        let written = written_by(alloc, sources, change)?;
        if let Some(cause) = first_own(alloc, sources, &written)? {
            return Err(ExecuteFault::Refused(cause));
        }
        let rows = self.rows_now(alloc, over, params)?;
        let documents = changed_documents(alloc, change, &rows, params)?;
        self.keep_all(alloc, documents)
    }

    /// The rows of the sources. It stops with `NoSuchTable` of the first table in the text that isn't active.
    pub(crate) fn rows_now(
        &self,
        alloc: Global,
        over: Over<'_>,
        params: &[Value],
    ) -> Result<Bindings, ExecuteFault>
        requires { AreGiven self.now params.now over.from.now over.given.items }
        ensures { Comes result (rows_seen (tables_now self.now.base self.now.done) self.now.base
            (latest (map draft_of self.now.base.revisions ++ self.now.done.log)) params.now over.entry.from.now) }
    {
        if let Some(cause) = self.absent_now(alloc, over.from)? {
            return Err(ExecuteFault::Refused(cause));
        }
        let rows = over.bindings(alloc, params)?;
        Ok(rows)
    }

    /// `NoSuchTable` of the first table in the text that isn't active.
    pub(crate) fn absent_now(
        &self,
        alloc: Global,
        from: &FromClause,
    ) -> Result<Option<Refusal>, OutOfMemory>
        ensures { IfOk result (λ cause.
            cause ≡ first_absent_in (tables_now self.now.base self.now.done) from.now.sources) }
    {
        let sources = from.sources.as_slice();
        if self.done.schema.is_empty() {
            let cause = first_absent(alloc, self.base.tables(), sources)?;
            return Ok(cause);
        }
        let tables = self.tables_now(alloc)?;
        let cause = first_absent(alloc, tables.as_slice(), sources)?;
        Ok(cause)
    }

    /// What gives each document its content, one after another. It stops at the first one whose content isn't stored.
    fn keep_all(&self, alloc: Global, documents: Rows) -> Result<Effect, ExecuteFault>
        ensures { Does result (stored_changes self.now.base self.now.done documents) }
    {
        let mut touching = self.touching(alloc)?;
        'documents: for document in documents.into_vec() {
            match self.keep(alloc, &mut touching, document) {
                Ok(()) => {}
                Err(stopped) => return Err(stopped),
            }
        }
        Ok(touching.effect)
    }

    /// Gives the document its content, behind those that were touched before.
    fn keep(
        &self,
        alloc: Global,
        touching: &mut Touching,
        document: Row,
    ) -> Result<(), ExecuteFault>
        requires { Stands self.now touching.old }
        ensures { Changes self.now document touching.old result touching.new }
    {
        let has_room = touching.has_room_for(document.id);
        if let Some(cause) = not_kept(alloc, has_room, &document.value)? {
            return Err(ExecuteFault::Refused(cause));
        }
        self.touch(alloc, touching, document.id, Content::Kept(document.value))?;
        Ok(())
    }
}
