//! Committed revisions as rows, and the committed view: the latest one of each document.
ghost use Rattle.std.specs.Prelude.{◌≡◌, [], ◌∷◌, ◌++◌, is_some, IfOk, OnOk};
ghost use Rattle.pql_model.specs.Tables.{meeting};
ghost use Rattle.ledger_model.specs.CommittedViews.{committed_view, row_showing};
ghost use Rattle.ledger_model.specs.State.{draft_of};
ghost use Rattle.ledger_model.specs.Views.{row_of};
ghost use Rattle.versions.specs.Held.{recorded_lent, recorded_of};
ghost use Rattle.view_rows.specs.Named.{rows_among};
ghost use Rattle.view_rows.specs.Shown.{live_rows};

use crate::probes::meets;
use block_form::revision_value;
use containers::Sequence;
use ion_values::OutOfMemory;
use ledger_model::{Content, Row};
use pql_model::{Probe, Rows};
use ql_types::{DocId, TableId};
use std::alloc::Global;
use versions::{Recorded, Versions};

/// Puts the revision at the end as the journal has it, where it meets the probe.
pub(crate) fn push_row(
    alloc: Global,
    rows: &mut Rows,
    recorded: &Recorded,
    probe: &Probe,
) -> Result<(), OutOfMemory>
    ensures { OnOk result (rows.new ≡ rows.old ++ meeting probe.now (row_showing (recorded_of recorded.now) ∷ [])) }
{
    let id = recorded.revision.metadata.id;
    let value = revision_value(alloc, &recorded.revision)?;
    if meets(alloc, probe, id, &value)? {
        rows.push(Row { id, value })?;
    }
    Ok(())
}

/// Whether it is the revision of a document of the table, and doesn't delete it.
fn is_live(recorded: &Recorded, table: TableId) -> bool
    ensures { result ≡ is_some (row_of table (draft_of (recorded_of recorded.now))) }
{
    recorded.table.raw == table.raw && matches!(recorded.revision.content, Content::Kept(_))
}

/// The rows of documents of the table that aren't deleted, by their latest revisions, of those that meet the probe.
fn live_rows(
    alloc: Global,
    latest: &[&Recorded],
    table: TableId,
    probe: &Probe,
) -> Result<Rows, OutOfMemory>
    ensures { IfOk result (λ rows. rows ≡ meeting probe.now (live_rows table (recorded_lent latest.now))) }
{
    let mut rows = Sequence::new(alloc);
    'documents: for recorded in latest {
        if is_live(recorded, table) {
            push_row(alloc, &mut rows, recorded, probe)?;
        }
    }
    Ok(rows)
}

/// The rows of the table's committed view that meet the probe, in order of first insertion. It goes over the
/// table's documents alone.
#[tactic(auto, using(crate::proofs::Latest::rows_committed))]
pub(crate) fn committed_rows(
    alloc: Global,
    version: &Versions,
    table: TableId,
    probe: &Probe,
) -> Result<Rows, OutOfMemory>
    ensures { IfOk result (λ rows. rows ≡ meeting probe.now (committed_view table version.now.revisions)) }
{
    let latest = version.newest_of(alloc, table)?;
    let rows = live_rows(alloc, latest.as_slice(), table, probe)?;
    Ok(rows)
}

/// The rows of these documents in the table's committed view that meet the probe, in order of first insertion. It looks
/// each document up.
#[tactic(auto, using(crate::proofs::Latest::rows_committed_among))]
pub(crate) fn committed_among(
    alloc: Global,
    version: &Versions,
    ids: &[DocId],
    table: TableId,
    probe: &Probe,
) -> Result<Rows, OutOfMemory>
    ensures { IfOk result (λ rows.
        rows ≡ meeting probe.now (rows_among ids.now (committed_view table version.now.revisions))) }
{
    let latest = version.newest_among(alloc, ids)?;
    let rows = live_rows(alloc, latest.as_slice(), table, probe)?;
    Ok(rows)
}
