//! The documents that have one key in a field with an index.
ghost use Rattle.std.specs.Prelude.{◌≡◌, map, IfOk};
ghost use Rattle.std.specs.List.{filter_map};
ghost use Rattle.std.specs.Option.{IfSome};
ghost use Rattle.ledger_model.specs.State.{draft_of};
ghost use Rattle.ledger_model.specs.Views.{row_of, user_view};
ghost use Rattle.pql_model.specs.Tables.{meeting};
ghost use Rattle.txn_core.specs.Keyed.{AsksFor};
ghost use Rattle.view_rows.specs.Seen.{drafts_seen};

use crate::log::Log;
use containers::{Sequence, Text};
use ion_values::{Key, OutOfMemory};
use pql_model::Probe;
use ql_types::TableId;
use std::alloc::Global;
use versions::Versions;
use view_rows::{Seen, all_committed};

/// A key that is asked for, and its field.
#[derive(Clone, Copy)]
struct Wanted<'a> {
    field: &'a Text,
    key: &'a Key,
}

/// The key that the probe asks for, if it asks for one alone.
fn only_key(probe: &Probe) -> Option<Wanted<'_>>
    ensures { IfSome result (AsksFor probe.now) }
{
    match probe {
        Probe::Key { field, key } => Some(Wanted { field, key }),
        Probe::Keys { field, keys } => match keys.as_slice() {
            [key] => Some(Wanted { field, key }),
            _ => None,
        },
        Probe::All | Probe::Id(_) | Probe::Ids { .. } => None,
    }
}

/// The documents that meet the probe, if it asks for one key of a field with an index and nothing pends.
pub(crate) fn documents_with<'a>(
    alloc: Global,
    base: &'a Versions,
    log: &Log,
    table: TableId,
    probe: &Probe,
) -> Result<Option<Sequence<Seen<'a>>>, OutOfMemory>
    ensures { IfOk result (λ found. IfSome found (λ documents.
        meeting probe.now (filter_map (row_of table) (drafts_seen documents))
        ≡ meeting probe.now (user_view table (map draft_of base.now.revisions) log.now))) }
{
    let Some(wanted) = only_key(probe) else {
        return Ok(None);
    };
    if !log.as_slice().is_empty() || !base.has_index(table, wanted.field) {
        return Ok(None);
    }
    let recorded = base.newest_with(alloc, table, wanted.field, wanted.key)?;
    let documents = all_committed(alloc, recorded.as_slice())?;
    Ok(Some(documents))
}
