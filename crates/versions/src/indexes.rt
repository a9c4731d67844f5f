//! The postings of the fields with an index.
ghost use Rattle.std.specs.Prelude.{◌≡◌, List, IfOk};
ghost use Rattle.std.specs.Option.{option_copied};
ghost use Rattle.versions.specs.declared.recorded.Recorded as held;
ghost use Rattle.versions.specs.Filing.{IsSpot};
ghost use Rattle.versions.specs.Indexes.{AreIndexes, IsIndex, tree_on};
ghost use Rattle.versions.specs.Newest.{id_of, put};

use crate::keys::{is_same, key_on, old_key};
use crate::latest::{Latest, Spot};
use crate::recorded::Recorded;
use crate::tables::{Indexed, is_on};
use index_post::Postings;
use ion_values::OutOfMemory;
use pvec::Shared;
use ql_types::TableId;
use std::alloc::Global;

/// The postings of an index on the documents that stand already.
pub(crate) fn built(
    alloc: Global,
    index: &Indexed,
    latest: &Latest,
) -> Result<Postings, OutOfMemory>
    ensures { IfOk result (IsIndex latest.now index.now) }
{
    let mut postings = Postings::new(alloc);
    'documents: for at in 0..latest.len() {
        let Some(document) = latest.get(at) else {
            unreachable!()
        };
        let key = key_on(alloc, index, document)?;
        postings = postings.change(at, None, key.as_ref())?;
    }
    Ok(postings)
}

/// The postings of an index after one revision more, whose document has this spot.
fn index_after(
    alloc: Global,
    index: &Indexed,
    postings: &Shared<Postings>,
    spot: &Spot<'_>,
    item: &Recorded,
) -> Result<Shared<Postings>, OutOfMemory>
    ensures { IfOk result (λ new. (ds : List held.Recorded) →
        IsSpot ds (id_of item.now) spot.now.at (option_copied spot.now.old)
        → IsIndex ds index.now postings.now → IsIndex (put ds item.now) index.now new) }
{
    let old = old_key(alloc, index, spot.old)?;
    let new = key_on(alloc, index, item)?;
    if is_same(&old, &new) {
        let same = postings.share()?;
        return Ok(same);
    }
    let after = postings.get().change(spot.at, old.as_ref(), new.as_ref())?;
    let after = Shared::new(alloc, after)?;
    Ok(after)
}

/// The postings of all indexes after one revision more.
pub(crate) fn indexes_with(
    alloc: Global,
    indexes: &[Indexed],
    trees: &[Shared<Postings>],
    latest: &Latest,
    item: &Recorded,
) -> Result<Vec<Shared<Postings>>, OutOfMemory>
    requires { AreIndexes latest.now indexes.now trees.now }
    ensures { IfOk result (λ new. AreIndexes (put latest.now item.now) indexes.now new.items) }
{
    let spot = latest.spot(item.revision.metadata.id);
    let mut new = Vec::with_capacity(alloc, trees.len())?;
    'indexes: for (at, index) in indexes.iter().enumerate() {
        let Some(tree) = trees.get(at) else {
            unreachable!()
        };
        new.push(index_after(alloc, index, tree, &spot, item)?)?;
    }
    Ok(new)
}

/// The postings of the first index on the table's field, or None where there is none.
pub(crate) fn tree_on<'a>(
    indexes: &[Indexed],
    trees: &'a [Shared<Postings>],
    table: TableId,
    field: &str,
) -> Option<&'a Postings>
    ensures { option_copied result ≡ tree_on indexes.now trees.now table field.now }
{
    'indexes: for (at, index) in indexes.iter().enumerate() {
        let tree = trees.get(at)?;
        if is_on(index, table, field) {
            return Some(tree.get());
        }
    }
    None
}
