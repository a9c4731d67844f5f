//! The revisions of each document, by their places in block order.
ghost use Rattle.std.specs.Prelude.{◌≡◌, ℕ, ◌<◌, [], Some, length, IfOk, slice_get};
ghost use Rattle.std.specs.Arc.{arc_value};
ghost use Rattle.std.specs.Option.{option_copied, unwrap_or};
ghost use Rattle.versions.specs.Histories.{entered, history_at};

use ion_values::OutOfMemory;
use pvec::PVec;
use std::alloc::Global;
use std::sync::Arc;

/// The places of the revisions of each document in order, the documents in order of first insertion.
pub(crate) type Histories = PVec<PVec<u64>>;

/// The histories with a place more, of a revision of the document at `document`, or of a new one.
pub(crate) fn entered(
    alloc: Global,
    histories: &Histories,
    document: Option<u64>,
    place: Arc<u64>,
) -> Result<Histories, OutOfMemory>
    requires { (at : ℕ) → document ≡ Some at → at < length histories.now }
    ensures { IfOk result (λ new. new ≡ entered histories.now document (arc_value place)) }
{
    let Some(at) = document else {
        let first = PVec::new(alloc).push(place)?;
        return histories.push(Arc::new(alloc, first)?);
    };
    let Some(history) = histories.get(at) else {
        unreachable!()
    };
    let longer = history.push(place)?;
    histories.set(at, Arc::new(alloc, longer)?)
}

/// The places of the revisions of the document at `document`, or None where there is none.
pub(crate) fn history_at(histories: &Histories, document: Option<u64>) -> Option<&PVec<u64>>
    ensures { unwrap_or (option_copied result) [] ≡ history_at histories.now document }
{
    histories.get(document?)
}

/// The place of the revision of this number, counted from 0, of the document at `document`.
pub(crate) fn place_at(histories: &Histories, document: Option<u64>, number: u64) -> Option<u64>
    ensures { result ≡ slice_get (history_at histories.now document) number }
{
    let history = history_at(histories, document)?;
    history.get(number).copied()
}
