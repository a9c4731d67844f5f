//! The history of a table: all revisions that were active between two moments.
ghost use Rattle.std.specs.Prelude.{◌≡◌, ◌∷◌, [], ◌++◌, List, map, reverse, cond, IfOk, OnOk};
ghost use Rattle.std.specs.BTreeMap as tree;
ghost use Rattle.std.specs.Ordering.{nat_cmp};
ghost use Rattle.pql_model.specs.Tables.{meeting};
ghost use Rattle.ledger_model.specs.CommittedViews.{began, ended_by, history_view, row_showing};
ghost use Rattle.ledger_model.specs.State as state;
ghost use Rattle.versions.specs.Held.{recorded_lent, recorded_of};
ghost use Rattle.view_rows.specs.Shown.{AreNext, historic, is_shown_before};

use crate::bounds::Bounds;
use crate::committed_view::push_row;
use containers::Sequence;
use ion_values::OutOfMemory;
use ledger_model::Content;
use pql_model::{Probe, Rows};
use ql_types::{DocId, TableId};
use std::alloc::Global;
use std::collections::BTreeMap;
use versions::{Recorded, Versions};

/// By the numbers of documents the moments at which their next revisions began.
type Nexts = BTreeMap<u128, i128>;

/// The moment at which the revision was made, in billionths of a second since 1970 in UTC.
fn began(recorded: &Recorded) -> i128
    ensures { result ≡ began (recorded_of recorded.now) }
{
    recorded.revision.metadata.time.instant()
}

/// The moment at which a revision's document was given its next one, or at which the revision deleted it.
fn ended(recorded: &Recorded, next: Option<i128>) -> Option<i128>
    ensures { result ≡ ended_by recorded.now.revision.content (began (recorded_of recorded.now)) next }
{
    match recorded.revision.content {
        Content::Deleted => Some(began(recorded)),
        Content::Kept(_) | Content::Redacted(_) => next,
    }
}

/// The moment at which the next revision of the document began, if there is one.
fn next_of(nexts: &Nexts, id: DocId) -> Option<i128>
    ensures { result ≡ tree.get nat_cmp nexts.now id.raw }
{
    nexts.get(&id.raw).copied()
}

/// Whether the history shows the revision, by the moment at which its document's next one began.
fn is_shown(recorded: &Recorded, next: Option<i128>, table: TableId, bounds: Bounds<'_>) -> bool
    ensures { result ≡
        is_shown_before table bounds.entry.start.now bounds.entry.end.now (recorded_of recorded.now) next }
{
    let to = ended(recorded, next);
    recorded.table.raw == table.raw && bounds.hold(began(recorded), to)
}

/// Puts the revision at the end, if it is shown.
fn keep_if<'a>(
    shown: &mut Sequence<&'a Recorded>,
    recorded: &'a Recorded,
    is_shown: bool,
) -> Result<(), OutOfMemory>
    ensures { OnOk result (recorded_lent shown.new ≡
        cond is_shown (recorded_lent shown.old ++ recorded_of recorded.now ∷ []) (recorded_lent shown.old)) }
{
    if is_shown {
        shown.push(recorded)?;
    }
    Ok(())
}

/// Notes the moment at which the revision was made as that of its document's next one.
fn note(nexts: &mut Nexts, recorded: &Recorded) -> Result<(), OutOfMemory>
    ensures { OnOk result ((later : List state.Recorded) → AreNext nexts.old later
        → AreNext nexts.new (recorded_of recorded.now ∷ later)) }
{
    nexts.insert(recorded.revision.metadata.id.raw, began(recorded))?;
    Ok(())
}

/// The revisions that the history shows, the last one first.
fn shown_backwards<'a>(
    alloc: Global,
    version: &'a Versions,
    table: TableId,
    bounds: Bounds<'_>,
) -> Result<Sequence<&'a Recorded>, OutOfMemory>
    ensures { IfOk result (λ shown. reverse (recorded_lent shown) ≡
        historic table bounds.entry.start.now bounds.entry.end.now version.now.revisions) }
{
    let mut shown = Sequence::new(alloc);
    let mut nexts = BTreeMap::new(alloc);
    let mut left = version.revision_count();
    'revisions: while left > 0 {
        left -= 1;
        let Some(recorded) = version.recorded_at(left) else {
            unreachable!()
        };
        let next = next_of(&nexts, recorded.revision.metadata.id);
        let is = is_shown(recorded, next, table, bounds);
        keep_if(&mut shown, recorded, is)?;
        note(&mut nexts, recorded)?;
    }
    Ok(shown)
}

/// The rows of the revisions, the last one's first, of those that meet the probe.
fn rows_backwards(
    alloc: Global,
    shown: Sequence<&Recorded>,
    probe: &Probe,
) -> Result<Rows, OutOfMemory>
    ensures { IfOk result (λ rows. rows ≡ meeting probe.now (map row_showing (reverse (recorded_lent shown.entry)))) }
{
    let mut shown = shown;
    let mut rows = Sequence::new(alloc);
    'shown: while let Some(recorded) = shown.pop() {
        push_row(alloc, &mut rows, recorded, probe)?;
    }
    Ok(rows)
}

/// The rows of the table's history between the bounds that meet the probe, in block order. It goes once over all
/// revisions, from the last one on.
#[tactic(auto, using(crate::proofs::Shown::rows_historic))]
pub(crate) fn history_rows(
    alloc: Global,
    version: &Versions,
    table: TableId,
    bounds: Bounds<'_>,
    probe: &Probe,
) -> Result<Rows, OutOfMemory>
    ensures { IfOk result (λ rows. rows ≡ meeting probe.now
        (history_view table bounds.entry.start.now bounds.entry.end.now version.now.revisions)) }
{
    let shown = shown_backwards(alloc, version, table, bounds)?;
    let rows = rows_backwards(alloc, shown, probe)?;
    Ok(rows)
}
