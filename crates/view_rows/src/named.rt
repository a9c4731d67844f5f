//! The rows of documents that a probe names.
ghost use Rattle.std.specs.Prelude.{◌≡◌, ◌++◌, true, [], map, IfOk, OnOk};
ghost use Rattle.std.specs.List.{filter_map, flat_map};
ghost use Rattle.ledger_model.specs.Follows.{has_index};
ghost use Rattle.pql_model.specs.Tables.{meeting, meets};
ghost use Rattle.ledger_model.specs.CommittedViews.{committed_view};
ghost use Rattle.ledger_model.specs.State.{draft_of};
ghost use Rattle.ledger_model.specs.Views.{latest, row_of, user_view};
ghost use Rattle.versions.specs.Held.{drafts_lent};
ghost use Rattle.versions.specs.Indexes.{documents_with};
ghost use Rattle.view_rows.specs.Named.{AreNamed};

use crate::committed_view::{committed_among, committed_rows};
use crate::seen::all_committed;
use crate::user::user_rows;
use containers::Sequence;
use ion_values::{Key, OutOfMemory, Text};
use pql_model::{DocIds, Probe, Rows};
use ql_types::{DocId, TableId};
use std::alloc::Global;
use std::slice;
use versions::{Recorded, Versions};

/// The rows of the table that meet the probe, among committed revisions that are lent.
fn rows_among(
    alloc: Global,
    recorded: &[&Recorded],
    table: TableId,
    probe: &Probe,
) -> Result<Rows, OutOfMemory>
    ensures { IfOk result (λ rows. rows ≡ meeting probe.now (filter_map (row_of table) (drafts_lent recorded.now))) }
{
    let documents = all_committed(alloc, recorded)?;
    let rows = user_rows(alloc, documents.as_slice(), table, probe)?;
    Ok(rows)
}

/// The rows of the table's user view that meet the probe, where nothing pends. It goes once over the table's documents.
#[tactic(auto, using(crate::proofs::Live::rows_live))]
fn latest_rows(
    alloc: Global,
    version: &Versions,
    table: TableId,
    probe: &Probe,
) -> Result<Rows, OutOfMemory>
    ensures { IfOk result (λ rows. rows ≡ meeting probe.now (user_view table (map draft_of version.now.revisions) [])) }
{
    let latest = version.newest_of(alloc, table)?;
    let rows = rows_among(alloc, latest.as_slice(), table, probe)?;
    Ok(rows)
}

/// The rows of the table's user view that meet the probe, if only these documents do. It looks each of them up.
#[tactic(auto, using(crate::proofs::Naming::rows_of_named))]
fn rows_of(
    alloc: Global,
    version: &Versions,
    ids: &[DocId],
    table: TableId,
    probe: &Probe,
) -> Result<Rows, OutOfMemory>
    requires { AreNamed ids.now (meets probe.now)
        (filter_map (row_of table) (latest (map draft_of version.now.revisions))) }
    ensures { IfOk result (λ rows. rows ≡ meeting probe.now (user_view table (map draft_of version.now.revisions) [])) }
{
    let latest = version.newest_among(alloc, ids)?;
    let rows = rows_among(alloc, latest.as_slice(), table, probe)?;
    Ok(rows)
}

/// The same by what the probe names: documents, or keys of a field with an index.
#[tactic(auto, using(crate::proofs::Naming::id_asked, crate::proofs::Naming::ids_asked, crate::proofs::Naming::keys_asked))]
pub(crate) fn latest_named(
    alloc: Global,
    version: &Versions,
    table: TableId,
    probe: &Probe,
) -> Result<Rows, OutOfMemory>
    ensures { IfOk result (λ rows. rows ≡ meeting probe.now (user_view table (map draft_of version.now.revisions) [])) }
{
    match probe {
        Probe::All => latest_rows(alloc, version, table, probe),
        Probe::Id(id) => rows_of(alloc, version, slice::from_ref(id), table, probe),
        Probe::Key { field, key } => {
            if !version.has_index(table, field) {
                return latest_rows(alloc, version, table, probe);
            }
            let latest = version.newest_with(alloc, table, field, key)?;
            let rows = rows_among(alloc, latest.as_slice(), table, probe)?;
            Ok(rows)
        }
        Probe::Ids { ids } => rows_of(alloc, version, ids.as_slice(), table, probe),
        Probe::Keys { field, keys } => {
            if !version.has_index(table, field) {
                return latest_rows(alloc, version, table, probe);
            }
            let ids = with_keys(alloc, version, table, field, keys.as_slice())?;
            rows_of(alloc, version, ids.as_slice(), table, probe)
        }
    }
}

/// The documents of the table whose field has one of the keys, key by key.
pub fn with_keys(
    alloc: Global,
    version: &Versions,
    table: TableId,
    field: &Text,
    keys: &[Key],
) -> Result<DocIds, OutOfMemory>
    requires { has_index version.now.indexes table field.now ≡ true }
    ensures { IfOk result (λ ids. ids ≡ flat_map (documents_with version.now.revisions table field.now) keys.now) }
{
    let mut ids = Sequence::new(alloc);
    'keys: for key in keys {
        let found = version.with_key(table, field, key)?;
        append(&mut ids, found.as_slice())?;
    }
    Ok(ids)
}

/// Puts the ids behind the others.
fn append(ids: &mut DocIds, more: &[DocId]) -> Result<(), OutOfMemory>
    ensures { OnOk result (ids.new ≡ ids.old ++ more.now) }
{
    'more: for id in more {
        ids.push(*id)?;
    }
    Ok(())
}

/// The rows of the table's committed view that meet the probe. It looks a document up that the probe names, and goes
/// over the table's documents otherwise.
#[tactic(auto, using(crate::proofs::Naming::committed_alone, crate::proofs::Naming::committed_some))]
pub(crate) fn committed_named(
    alloc: Global,
    version: &Versions,
    table: TableId,
    probe: &Probe,
) -> Result<Rows, OutOfMemory>
    ensures { IfOk result (λ rows. rows ≡ meeting probe.now (committed_view table version.now.revisions)) }
{
    match probe {
        Probe::All | Probe::Key { .. } | Probe::Keys { .. } => {
            committed_rows(alloc, version, table, probe)
        }
        Probe::Id(id) => {
            let rows = committed_among(alloc, version, slice::from_ref(id), table, probe)?;
            Ok(rows)
        }
        Probe::Ids { ids } => {
            let rows = committed_among(alloc, version, ids.as_slice(), table, probe)?;
            Ok(rows)
        }
    }
}
