//! The places of the documents of each table that aren't deleted.
ghost use Rattle.std.specs.Prelude.{◌≡◌, ◌++◌, List, map, slice_get, IfOk, OnOk, option_map};
ghost use Rattle.std.specs.Arc.{arc_value};
ghost use Rattle.std.specs.List.{filter_map};
ghost use Rattle.std.specs.Option.{option_copied};
ghost use Rattle.versions.specs.declared.recorded.Recorded as held;
ghost use Rattle.versions.specs.ByTable.{by_table};
ghost use Rattle.versions.specs.Filing.{AreFiled, IsSpot, old_key};
ghost use Rattle.versions.specs.Live.{is_same_table, live_table};
ghost use Rattle.versions.specs.Lookups.{id_in};
ghost use Rattle.versions.specs.Newest.{id_of, put};

use crate::latest::{Latest, Spot};
use crate::recorded::Recorded;
use containers::Sequence;
use index_post::{Filed, Positions};
use ion_values::OutOfMemory;
use ledger_model::Content;
use pql_model::DocIds;
use ql_types::TableId;
use std::alloc::Global;
use std::sync::Arc;

/// The places of the documents of each table that aren't deleted.
pub(crate) type Live = Filed<TableId>;

/// The table of a document that isn't deleted.
fn live_table(recorded: &Recorded) -> Option<TableId>
    ensures { result ≡ live_table recorded.now }
{
    match &recorded.revision.content {
        Content::Kept(_) => Some(recorded.table),
        Content::Deleted | Content::Redacted(_) => None,
    }
}

/// The table of what stood at a place, where it isn't deleted.
fn old_table(old: Option<&Recorded>) -> Option<TableId>
    ensures { result ≡ old_key live_table (option_copied old.entry) }
{
    match old {
        Some(recorded) => live_table(recorded),
        None => None,
    }
}

fn is_same(old: Option<TableId>, new: Option<TableId>) -> bool
    ensures { result ≡ is_same_table old new }
{
    match (old, new) {
        (Some(old), Some(new)) => old.raw == new.raw,
        (None, None) => true,
        _ => false,
    }
}

/// The table's id to be shared, if there is one.
fn owned(alloc: Global, table: Option<TableId>) -> Result<Option<Arc<TableId>>, OutOfMemory>
    ensures { IfOk result (λ own. option_map arc_value own ≡ table) }
{
    match table {
        None => Ok(None),
        Some(table) => Ok(Some(Arc::new(alloc, table)?)),
    }
}

/// The places after one revision more, whose document has this spot.
pub(crate) fn live_after(
    alloc: Global,
    live: &Live,
    spot: &Spot<'_>,
    item: &Recorded,
) -> Result<Live, OutOfMemory>
    ensures { IfOk result (λ new. (ds : List held.Recorded) →
        IsSpot ds (id_of item.now) spot.now.at (option_copied spot.now.old)
        → AreFiled by_table live_table live.now ds → AreFiled by_table live_table new (put ds item.now)) }
{
    let old = old_table(spot.old);
    let new = live_table(item);
    if is_same(old, new) {
        let same = live.share()?;
        return Ok(same);
    }
    let old = owned(alloc, old)?;
    let new = owned(alloc, new)?;
    let after = live.change(spot.at, old, new)?;
    Ok(after)
}

/// The ids of the documents at the places, in their order.
pub(crate) fn ids_at(
    alloc: Global,
    latest: &Latest,
    places: Positions<'_>,
) -> Result<DocIds, OutOfMemory>
    ensures { IfOk result (λ ids. ids ≡ map (λ (r : held.Recorded). r.revision.metadata.id)
        (filter_map (λ at. slice_get latest.now at) places.entry)) }
{
    let mut places = places;
    let mut ids = Sequence::new(alloc);
    'places: while let Some(at) = places.next() {
        push_id(&mut ids, latest.get(at))?;
    }
    Ok(ids)
}

/// The places in their order.
pub(crate) fn listed(alloc: Global, places: Positions<'_>) -> Result<Sequence<u64>, OutOfMemory>
    ensures { IfOk result (λ all. all ≡ places.entry) }
{
    let mut places = places;
    let mut all = Sequence::new(alloc);
    'places: while let Some(at) = places.next() {
        all.push(at)?;
    }
    Ok(all)
}

/// Puts the id of the revision's document at the end, if there is one.
fn push_id(ids: &mut DocIds, recorded: Option<&Recorded>) -> Result<(), OutOfMemory>
    ensures { OnOk result (ids.new ≡ ids.old ++ id_in (option_copied recorded.entry)) }
{
    match recorded {
        None => Ok(()),
        Some(recorded) => {
            ids.push(recorded.revision.metadata.id)?;
            Ok(())
        }
    }
}
