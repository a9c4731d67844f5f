//! The documents of one table as a transaction has them: those of the version under what pends.
ghost use Rattle.std.specs.Prelude.{◌≡◌, ◌++◌, List, map, slice_get, IfOk, OnOk};
ghost use Rattle.std.specs.List.{filter_map};
ghost use Rattle.ledger_model.specs.declared.block.Draft as revised;
ghost use Rattle.ledger_model.specs.State.{draft_of};
ghost use Rattle.ledger_model.specs.Views.{latest_from, put, row_of, user_view};
ghost use Rattle.versions.specs.Live.{is_live};
ghost use Rattle.view_rows.specs.Seen.{draft_seen, drafts_seen};
ghost use Rattle.txn_core.specs.Layered.{AreAscending, AreSpots, IsPass, KeepsLayers, below, is_place, standing};

use crate::log::Log;
use crate::views::put;
use containers::Sequence;
use ion_values::OutOfMemory;
use ledger_model::{Content, Draft};
use ql_types::TableId;
use std::alloc::Global;
use versions::Versions;
use view_rows::{Seen, all_committed, pending};

/// Documents of the version with their places among all, in their order, and new ones behind them.
#[derive(Drop)]
struct Pass<'a> {
    places: Vec<u64>,
    documents: Vec<Seen<'a>>,
    later: Sequence<Seen<'a>>,
}

/// How many places are less than this one.
fn below(places: &[u64], at: u64) -> usize
    requires { AreAscending places.now }
    ensures { result ≡ below at places.now }
{
    let mut low = 0;
    let mut high = places.len();
    'places: while low < high {
        let middle = low + (high - low) / 2;
        if places[middle] < at {
            low = middle + 1;
        } else {
            high = middle;
        }
    }
    low
}

/// Whether the place stands at this index.
fn is_place(places: &[u64], index: usize, at: u64) -> bool
    ensures { result ≡ is_place at (slice_get places.now index) }
{
    match places.get(index) {
        Some(place) => *place == at,
        None => false,
    }
}

/// Whether it is of the table, and doesn't delete its document.
fn is_live(draft: &Seen<'_>, table: TableId) -> bool
    ensures { result ≡ is_live table (draft_seen draft.now) }
{
    draft.table.raw == table.raw && matches!(draft.content, Content::Kept(_))
}

/// Puts a pending revision at its document's place. If the document wasn't seen, it is so only with a row in the table.
fn put_at<'a>(
    places: &mut Vec<u64>,
    documents: &mut Vec<Seen<'a>>,
    at: u64,
    draft: Seen<'a>,
    table: TableId,
) -> Result<(), OutOfMemory>
    requires { AreSpots places.old.items (drafts_seen documents.old.items) }
    ensures { OnOk result (KeepsLayers table at (draft_seen draft.entry) places.old.items
        (drafts_seen documents.old.items) places.new.items (drafts_seen documents.new.items)) }
{
    let index = below(places.as_slice(), at);
    if is_place(places.as_slice(), index, at) {
        documents[index] = draft;
        return Ok(());
    }
    if !is_live(&draft, table) {
        return Ok(());
    }
    places.insert(index, at)?;
    documents.insert(index, draft)?;
    Ok(())
}

/// Puts a pending revision over its document, or behind all if the version hasn't got the document.
fn put_over<'a>(
    base: &Versions,
    pass: &mut Pass<'a>,
    draft: Seen<'a>,
    table: TableId,
) -> Result<(), OutOfMemory>
    requires { AreSpots pass.old.places.items (drafts_seen pass.old.documents.items) }
    ensures { OnOk result ((all : List revised.Draft) → IsPass table base.now pass.old all
        → IsPass table base.now pass.new (put all (draft_seen draft.entry))) }
{
    match base.place(draft.id) {
        Some(at) => put_at(&mut pass.places, &mut pass.documents, at, draft, table),
        None => put(&mut pass.later, draft),
    }
}

/// Puts pending revisions over their documents, one after another.
fn put_newest<'a>(
    base: &Versions,
    pass: &mut Pass<'a>,
    newest: &[&'a Draft],
    table: TableId,
) -> Result<(), OutOfMemory>
    requires { IsPass table base.now pass.old (standing base.now) }
    ensures { OnOk result (IsPass table base.now pass.new
        (latest_from (standing base.now) (map (λ d. d.now) newest.now))) }
{
    'newest: for draft in newest {
        put_over(base, pass, pending(draft), table)?;
    }
    Ok(())
}

/// The documents, and the new ones behind them.
fn joined(pass: Pass<'_>) -> Result<Sequence<Seen<'_>>, OutOfMemory>
    ensures { IfOk result (λ all. drafts_seen all
        ≡ drafts_seen pass.entry.documents.items ++ drafts_seen pass.entry.later) }
{
    let Pass {
        documents,
        later,
        ..
    } = pass;
    let mut documents = documents;
    let mut later = later.into_vec();
    documents.append(&mut later)?;
    Ok(Sequence::from_vec(documents))
}

/// The documents that have a row in the table, under what pends, in order of first insertion, and maybe others.
///
/// It goes over the table's documents alone, and looks up the place of each one that pends.
pub(crate) fn documents_of<'a>(
    alloc: Global,
    base: &'a Versions,
    log: &'a Log,
    table: TableId,
) -> Result<Sequence<Seen<'a>>, OutOfMemory>
    ensures { IfOk result (λ documents. filter_map (row_of table) (drafts_seen documents)
        ≡ user_view table (map draft_of base.now.revisions) log.now) }
{
    let places = base.places_of(alloc, table)?;
    let recorded = base.newest_at(alloc, places.as_slice())?;
    let documents = all_committed(alloc, recorded.as_slice())?;
    let mut pass = Pass {
        places: places.into_vec(),
        documents: documents.into_vec(),
        later: Sequence::new(alloc),
    };
    let newest = log.newest(alloc)?;
    put_newest(base, &mut pass, newest.as_slice(), table)?;
    let all = joined(pass)?;
    Ok(all)
}
