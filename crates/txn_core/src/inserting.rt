//! INSERT INTO a table.
ghost use Rattle.std.specs.Prelude.{◌≡◌, ◌+◌, ◌<◌, ◌^◌, [], ◌∷◌, OnOk};
ghost use Rattle.ion_values.specs.declared.value.Body.{out-Body};
ghost use Rattle.ledger_model.specs.Run.{documents_in, if_documents, inserted, members_or, new_document, stored};
ghost use Rattle.txn_core.specs.Effects.{both, effect_of};
ghost use Rattle.txn_core.specs.Inserts.{Stores};
ghost use Rattle.txn_core.specs.Stops.{Does};

use crate::answers::named_id;
use crate::effect::Effect;
use crate::limits::{not_stored, reserved};
use crate::stopped::ExecuteFault;
use crate::transaction::Txn;
use containers::Sequence;
use ion_values::{Body, Kind, OutOfMemory, Text, Value, Values};
use ledger_model::{Content, Draft, Refusal};
use pql_expr::eval;
use pql_model::{Evaluated, Expr};
use ql_types::{DocId, TableId};
use std::alloc::Global;

impl Txn {
    /// What inserts what the expression means into the table of this name. It stops with `ReservedName` where the
    /// name is the ledger's own, with `NoSuchTable` where no active table has it, and where a document isn't stored.
    pub(crate) fn insert(
        &self,
        alloc: Global,
        name: &Text,
        value: &Expr,
        params: &[Value],
    ) -> Result<Effect, ExecuteFault>
        ensures { Does result (inserted self.now.begun self.now.base self.now.done params.now name.now value.now) }
    {
        if let Some(cause) = reserved(alloc, name)? {
            return Err(ExecuteFault::Refused(cause));
        }
        let table = self.table_named(alloc, name)?;
        let found = eval(alloc, value, &Sequence::new(alloc), params)?;
        self.insert_found(alloc, table, found)
    }

    /// What inserts what an expression means into the table of this id. MISSING is no document.
    fn insert_found(
        &self,
        alloc: Global,
        table: TableId,
        found: Evaluated,
    ) -> Result<Effect, ExecuteFault>
        ensures { Does result (if_documents (documents_in found) (stored self.now.begun table self.now.done)) }
    {
        match found {
            Evaluated::Missing => Err(ExecuteFault::Refused(Refusal::NotADocument {
                kind: Kind::Null,
            })),
            Evaluated::Found(value) => self.store_members(alloc, table, value),
        }
    }

    /// What stores a list's elements, or the value alone.
    fn store_members(
        &self,
        alloc: Global,
        table: TableId,
        value: Value,
    ) -> Result<Effect, ExecuteFault>
        ensures { Does result (stored self.now.begun table self.now.done (members_or value (out-Body value.body))) }
    {
        let Value { annotations, body } = value;
        match body {
            Body::List(values) => self.store_all(alloc, table, values),
            body => self.store_one(alloc, table, Value { annotations, body }),
        }
    }

    /// What stores the value as a document.
    fn store_one(
        &self,
        alloc: Global,
        table: TableId,
        document: Value,
    ) -> Result<Effect, ExecuteFault>
        ensures { Does result (stored self.now.begun table self.now.done (document ∷ [])) }
    {
        let mut effect = Effect::new(alloc);
        self.store(alloc, table, document, &mut effect)?;
        Ok(effect)
    }

    /// What stores the values as documents, one after another. It stops at the first one that isn't stored.
    fn store_all(
        &self,
        alloc: Global,
        table: TableId,
        documents: Values,
    ) -> Result<Effect, ExecuteFault>
        ensures { Does result (stored self.now.begun table self.now.done documents) }
    {
        let mut effect = Effect::new(alloc);
        'documents: for document in documents.into_vec() {
            self.store(alloc, table, document, &mut effect)?;
        }
        Ok(effect)
    }

    /// Stores the value as a document more, behind what is stored already.
    fn store(
        &self,
        alloc: Global,
        table: TableId,
        value: Value,
        effect: &mut Effect,
    ) -> Result<(), ExecuteFault>
        ensures { Stores self.now table value (effect_of effect.old) result (effect_of effect.new) }
    {
        if let Some(cause) = not_stored(alloc, &self.done.log, effect.log.as_slice(), &value)? {
            return Err(ExecuteFault::Refused(cause));
        }
        let raw = self.next_id(effect.made)?;
        add_document(alloc, effect, raw, table, value)?;
        Ok(())
    }
}

/// Adds the new document of this id.
fn add_document(
    alloc: Global,
    effect: &mut Effect,
    raw: u128,
    table: TableId,
    value: Value,
) -> Result<(), OutOfMemory>
    requires { effect.old.made + 1 < 2 ^ 24 }
    ensures { OnOk result (effect_of effect.new ≡ both (effect_of effect.old) (new_document raw table value)) }
{
    effect.rows.push(named_id(alloc, "documentId", raw)?)?;
    effect.log.push(Draft {
        table,
        id: DocId { raw },
        version: 0,
        content: Content::Kept(value),
    })?;
    effect.made += 1;
    Ok(())
}
