//! The ids that a block gives to what it makes.
ghost use Rattle.std.specs.Prelude.{◌≡◌, ◌++◌, ◌<◌, ◌^◌, IfOk, OnOk};
ghost use Rattle.ql_types.specs.Ids.{transaction_in};
ghost use Rattle.std.specs.BTreeSet.{IsFromIterResult};
ghost use Rattle.std.specs.List.{list_all};
ghost use Rattle.std.specs.Ordering.{nat_cmp};
ghost use Rattle.ledger_model.specs.Follows as spec;

use ion_values::OutOfMemory;
use ledger_model::{Revision, Schema};
use ql_types::{IdMask, StrandId, TxId, id_parts};
use std::alloc::Global;
use std::collections::BTreeSet;

/// Puts the id of the table that the change creates, if it creates one, behind the ids.
fn add_created(ids: &mut Vec<u128>, change: &Schema) -> Result<(), OutOfMemory>
    ensures { OnOk result (ids.new.items ≡ ids.old.items ++ spec.created_id change.now) }
{
    match change {
        Schema::Create { table, .. } => ids.push(table.raw)?,
        Schema::Index { .. } | Schema::Drop { .. } | Schema::Redact { .. } => {}
    }
    Ok(())
}

/// The ids of the tables that the changes create.
pub(super) fn created(alloc: Global, schema: &[Schema]) -> Result<Vec<u128>, OutOfMemory>
    ensures { IfOk result (λ ids. ids.items ≡ spec.created_ids schema.now) }
{
    let mut ids = Vec::new(alloc);
    'changes: for change in schema {
        add_created(&mut ids, change)?;
    }
    Ok(ids)
}

/// The ids of the documents of which these are revisions.
pub(super) fn of_documents(alloc: Global, revisions: &[Revision]) -> Result<Vec<u128>, OutOfMemory>
    ensures { IfOk result (λ ids. ids.items ≡ spec.document_ids revisions.now) }
{
    let mut ids = Vec::new(alloc);
    'revisions: for revision in revisions {
        ids.push(revision.metadata.id.raw)?;
    }
    Ok(ids)
}

/// The ids as a set.
pub(super) fn set_of(alloc: Global, ids: &[u128]) -> Result<BTreeSet<u128>, OutOfMemory>
    ensures { IfOk result (λ set. IsFromIterResult nat_cmp ids.now set) }
{
    let set = ids.iter().copied().collect(alloc)?;
    Ok(set)
}

/// Whether no two ids are equal.
pub(super) fn all_differ(alloc: Global, ids: &[u128]) -> Result<bool, OutOfMemory>
    ensures { IfOk result (λ b. b ≡ spec.all_differ ids.now) }
{
    let mut seen = BTreeSet::new(alloc);
    'ids: for id in ids {
        if !seen.insert(*id)? {
            return Ok(false);
        }
    }
    Ok(true)
}

/// Whether the transaction of this number made the thing of this id.
fn is_made_by(strand: StrandId, number: u64, id: u128) -> bool
    ensures { result ≡ spec.is_made_by strand.raw number id }
{
    match id_parts(IdMask { bits: strand.raw }, id) {
        Some((made_by, thing)) => made_by == number && 1 <= thing,
        None => false,
    }
}

/// Whether the transaction of this number made each thing of these ids.
fn all_made_by(strand: StrandId, number: u64, ids: &[u128]) -> bool
    ensures { result ≡ list_all (spec.is_made_by strand.raw number) ids.now }
{
    ids.iter().all(|id| is_made_by(strand, number, *id))
}

/// Whether the transaction, whose number fits 64 bits, made each thing of these ids.
pub(super) fn are_made_by(strand: StrandId, tx: TxId, ids: &[u128]) -> bool
    ensures { transaction_in strand.raw tx.raw < 2 ^ 64
        → result ≡ list_all (spec.is_made_by strand.raw (transaction_in strand.raw tx.raw)) ids.now }
{
    match id_parts(IdMask { bits: strand.raw }, tx.raw) {
        Some((number, _)) => all_made_by(strand, number, ids),
        None => false,
    }
}
