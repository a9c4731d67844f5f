//! Revisions after redactions: the data's hash stands in place of the data.
ghost use Rattle.std.specs.Prelude.{◌≡◌, [], IfOk, slice_get};
ghost use Rattle.std.specs.List.{cons_option, find};
ghost use Rattle.std.specs.Option.{option_copied, unwrap_or};
ghost use Rattle.ledger_model.specs.State as state;
ghost use Rattle.versions.specs.Held.{recorded_of};
ghost use Rattle.versions.specs.Redactions.{before_last, changed_along, changed_at, hidden, named_in};

use crate::recorded::Recorded;
use ion_hash::hash;
use ion_values::OutOfMemory;
use ledger_model::{Content, Revision, Schema};
use pvec::PVec;
use ql_types::BlockAddress;
use std::alloc::Global;
use std::sync::Arc;

fn same_address(a: &BlockAddress, b: &BlockAddress) -> bool
    ensures { result ≡ state.same_address a.now b.now }
{
    a.strand.raw == b.strand.raw && a.sequence == b.sequence
}

/// Whether the change redacts the revision.
pub fn redacts(recorded: &Recorded, change: &Schema) -> bool
    ensures { result ≡ state.redacts (recorded_of recorded.now) change.now }
{
    match change {
        Schema::Redact {
            address,
            table,
            document,
        } => {
            same_address(&recorded.revision.address, address)
                && recorded.table.raw == table.raw
                && recorded.revision.metadata.id.raw == document.raw
        }
        Schema::Create { .. } | Schema::Index { .. } | Schema::Drop { .. } => false,
    }
}

/// The content with its hash in place of the data.
fn hashed(alloc: Global, content: &Content) -> Result<Content, OutOfMemory>
    ensures { IfOk result (λ new. new ≡ state.hashed content.now) }
{
    match content {
        Content::Deleted => Ok(Content::Deleted),
        Content::Kept(value) => Ok(Content::Redacted(hash(alloc, value)?)),
        Content::Redacted(hash) => Ok(Content::Redacted(*hash)),
    }
}

/// The revision with its data's hash in place of the data.
pub(crate) fn hidden(alloc: Global, recorded: &Recorded) -> Result<Recorded, OutOfMemory>
    ensures { IfOk result (λ new. new ≡ hidden recorded.now) }
{
    Ok(Recorded {
        table: recorded.table,
        revision: Revision {
            address: recorded.revision.address,
            hash: recorded.revision.hash,
            content: hashed(alloc, &recorded.revision.content)?,
            metadata: recorded.revision.metadata,
        },
    })
}

/// The revisions, the one at this place as it is after the change.
fn changed_at(
    alloc: Global,
    revisions: &PVec<Recorded>,
    place: u64,
    change: &Schema,
) -> Result<PVec<Recorded>, OutOfMemory>
    ensures { IfOk result (λ new. new ≡ changed_at change.now place revisions.now) }
{
    let Some(recorded) = revisions.get(place) else {
        let same = revisions.share()?;
        return Ok(same);
    };
    if redacts(recorded, change) {
        let new = hidden(alloc, recorded)?;
        let changed = revisions.set(place, Arc::new(alloc, new)?)?;
        return Ok(changed);
    }
    let same = revisions.share()?;
    Ok(same)
}

/// The revisions, those at all of these places but the last as they are after the change.
fn changed_along(
    alloc: Global,
    revisions: &PVec<Recorded>,
    places: &PVec<u64>,
    change: &Schema,
) -> Result<PVec<Recorded>, OutOfMemory>
    ensures { IfOk result (λ new. new ≡ changed_along change.now (before_last places.now) revisions.now) }
{
    let mut new = revisions.share()?;
    'places: for number in 0..places.len().saturating_sub(1) {
        let Some(place) = places.get(number) else {
            unreachable!()
        };
        new = changed_at(alloc, &new, *place, change)?;
    }
    Ok(new)
}

/// The revisions, those of this history but the last as they are after the change.
pub(crate) fn changed_in(
    alloc: Global,
    revisions: &PVec<Recorded>,
    history: Option<&PVec<u64>>,
    change: &Schema,
) -> Result<PVec<Recorded>, OutOfMemory>
    ensures { IfOk result (λ new. new
        ≡ changed_along change.now (before_last (unwrap_or (option_copied history.entry) [])) revisions.now) }
{
    match history {
        Some(places) => changed_along(alloc, revisions, places, change),
        None => {
            let same = revisions.share()?;
            Ok(same)
        }
    }
}

/// The revision at this place, if the change redacts it.
fn named_at<'a>(revisions: &'a PVec<Recorded>, place: u64, change: &Schema) -> Option<&'a Recorded>
    ensures { option_copied result ≡ find (λ r. state.redacts (recorded_of r) change.now)
        (cons_option (slice_get revisions.now place) []) }
{
    let recorded = revisions.get(place)?;
    if redacts(recorded, change) {
        Some(recorded)
    } else {
        None
    }
}

/// The first of the revisions at these places that the change redacts.
fn named_along<'a>(
    revisions: &'a PVec<Recorded>,
    places: &PVec<u64>,
    change: &Schema,
) -> Option<&'a Recorded>
    ensures { option_copied result ≡ named_in change.now revisions.now places.now }
{
    'places: for number in 0..places.len() {
        let Some(place) = places.get(number) else {
            unreachable!()
        };
        if let Some(recorded) = named_at(revisions, *place, change) {
            return Some(recorded);
        }
    }
    None
}

/// The first revision of this history that the change redacts.
pub(crate) fn named_in<'a>(
    revisions: &'a PVec<Recorded>,
    history: Option<&PVec<u64>>,
    change: &Schema,
) -> Option<&'a Recorded>
    ensures { option_copied result
        ≡ named_in change.now revisions.now (unwrap_or (option_copied history.entry) []) }
{
    named_along(revisions, history?, change)
}
