//! The documents that a probe needs of a table.
ghost use Rattle.std.specs.Prelude.{◌≡◌, ◌<◌, ◌^◌, [], ◌∷◌, ◌++◌, map, IfOk, OnOk};
ghost use Rattle.std.specs.Option.{IfSome};
ghost use Rattle.ledger_model.specs.Views.{latest};
ghost use Rattle.txn_core.specs.Narrow.{DraftsFit, HaveKeys, IsNarrow, MeetAlone};

use crate::log::{Log, Touched};
use containers::{Sequence, Text};
use ion_values::{Key, OutOfMemory};
use ledger_model::Draft;
use pql_model::{DocIds, Probe};
use ql_types::{DocId, TableId};
use std::alloc::Global;
use std::slice;
use versions::Versions;
use view_rows::with_keys;

/// The documents of the table that may meet the probe where nothing pends, or None if all may.
///
/// All may if it asks for all, or for keys of a field without an index.
fn meeting(
    alloc: Global,
    base: &Versions,
    table: TableId,
    probe: &Probe,
) -> Result<Option<DocIds>, OutOfMemory>
    ensures { IfOk result (λ found. IfSome found (MeetAlone base.now table probe.now)) }
{
    match probe {
        Probe::All => Ok(None),
        Probe::Id(id) => {
            let ids = copied(alloc, slice::from_ref(id))?;
            Ok(Some(ids))
        }
        Probe::Ids { ids } => {
            let ids = copied(alloc, ids.as_slice())?;
            Ok(Some(ids))
        }
        Probe::Key { field, key } => {
            let ids = by_keys(alloc, base, table, field, slice::from_ref(key))?;
            Ok(ids)
        }
        Probe::Keys { field, keys } => {
            let ids = by_keys(alloc, base, table, field, keys.as_slice())?;
            Ok(ids)
        }
    }
}

/// The documents of the table whose field has one of the keys, or None if the field has no index.
pub(crate) fn by_keys(
    alloc: Global,
    base: &Versions,
    table: TableId,
    field: &Text,
    keys: &[Key],
) -> Result<Option<DocIds>, OutOfMemory>
    ensures { IfOk result (λ found. IfSome found (HaveKeys base.now table field.now keys.now)) }
{
    if !base.has_index(table, field) {
        return Ok(None);
    }
    let ids = with_keys(alloc, base, table, field, keys)?;
    Ok(Some(ids))
}

/// The ids once more.
fn copied(alloc: Global, ids: &[DocId]) -> Result<DocIds, OutOfMemory>
    ensures { IfOk result (λ new. new ≡ ids.now) }
{
    let mut new = Sequence::new(alloc);
    'ids: for id in ids {
        new.push(*id)?;
    }
    Ok(new)
}

/// The ids, and those of the documents that pend.
fn with_pending(ids: DocIds, log: &Log) -> Result<DocIds, OutOfMemory>
    ensures { IfOk result (λ all. all ≡ ids ++ map (λ d. d.id) (latest log.now)) }
{
    let more = with_touched(ids, log.touched())?;
    Ok(more)
}

fn with_touched(ids: DocIds, touched: &[Touched]) -> Result<DocIds, OutOfMemory>
    ensures { IfOk result (λ all. all ≡ ids ++ map (λ t. t.id) touched.now) }
{
    let mut all = ids;
    'touched: for document in touched {
        all.push(document.id)?;
    }
    Ok(all)
}

/// The documents that pend or may meet the probe, or None if all documents are to be read.
pub(crate) fn narrowed(
    alloc: Global,
    base: &Versions,
    log: &Log,
    table: TableId,
    probe: &Probe,
) -> Result<Option<DocIds>, OutOfMemory>
    ensures { IfOk result (IsNarrow base.now log.now table probe.now) }
{
    match meeting(alloc, base, table, probe)? {
        None => Ok(None),
        Some(ids) => {
            let all = with_pending(ids, log)?;
            Ok(Some(all))
        }
    }
}

/// The numbers of the ids that pend are within their range. It does nothing but look.
pub(crate) fn drafts_fit(log: &[Draft])
    ensures { DraftsFit log.now }
{
    'log: for draft in log {
        draft_fits(draft);
    }
}

fn draft_fits(draft: &Draft)
    ensures { draft.now.id.raw < 2 ^ 128 }
{
    let _raw = draft.id.raw;
}
