//! DELETE.
ghost use Rattle.ledger_model.specs.Writing.{deleted, stored_deletes};
ghost use Rattle.txn_core.specs.Reading.{AreGiven};
ghost use Rattle.txn_core.specs.Stops.{Does};
ghost use Rattle.txn_core.specs.Writes.{Deletes, Stands};

use crate::effect::Effect;
use crate::reading::Over;
use crate::roots::{Written, first_own};
use crate::stopped::ExecuteFault;
use crate::touching::Touching;
use crate::transaction::Txn;
use ion_values::Value;
use ledger_model::{Content, Refusal};
use pql_change::deleted_documents;
use pql_model::DocIds;
use ql_types::DocId;
use std::alloc::Global;

impl Txn {
    /// What deletes the documents that the rows of the source name. It stops with `ReservedName` where the table's name
    /// is the ledger's own, with `NoSuchTable` where no active table has it, and where there is no room for one
    /// document more.
    pub(crate) fn delete(
        &self,
        alloc: Global,
        over: Over<'_>,
        params: &[Value],
    ) -> Result<Effect, ExecuteFault>
        requires { AreGiven self.now params.now over.from.now over.given.items }
        ensures { Does result (deleted self.now.base self.now.done params.now over.entry.from.now) }
    {
        let sources = over.from.sources.as_slice();
        if let Some(cause) = first_own(alloc, sources, &Written::All)? {
            return Err(ExecuteFault::Refused(cause));
        }
        let rows = self.rows_now(alloc, over, params)?;
        let documents = deleted_documents(alloc, &rows)?;
        self.end_all(alloc, documents)
    }

    /// What deletes each document, one after another. It stops at the first one for which there is no room.
    fn end_all(&self, alloc: Global, documents: DocIds) -> Result<Effect, ExecuteFault>
        ensures { Does result (stored_deletes self.now.base self.now.done documents) }
    {
        let mut touching = self.touching(alloc)?;
        'documents: for id in documents.into_vec() {
            match self.end(alloc, &mut touching, id) {
                Ok(()) => {}
                Err(stopped) => return Err(stopped),
            }
        }
        Ok(touching.effect)
    }

    /// Deletes the document, behind those that were touched before.
    fn end(&self, alloc: Global, touching: &mut Touching, id: DocId) -> Result<(), ExecuteFault>
        requires { Stands self.now touching.old }
        ensures { Deletes self.now id touching.old result touching.new }
    {
        if !touching.has_room_for(id) {
            return Err(ExecuteFault::Refused(Refusal::TooManyRevisions { count: 41 }));
        }
        self.touch(alloc, touching, id, Content::Deleted)?;
        Ok(())
    }
}
