ghost use Rattle.std.specs.Prelude.{◌≡◌, [], ℕ, ◌+◌, ◌*◌, ◌^◌, ◌<◌, ◌≤◌, if◌then◌else◌, length, slice_get, IfOk};
ghost use Rattle.std.specs.Option.{option_copied, option_map};
ghost use Rattle.pmap.specs.Pairs.{Ascends, IsPut, cut_at, with_put};
ghost use Rattle.pmap.specs.Levels.{pairs_in, pairs_of, BeginsWith, IsParted, AreLeaves, AreLevels, IsChangedLeaf, IsChangedMiddle, AreRowsOf};

use crate::entry::{Entry, Leaf, Middle, Upper};
use crate::keyed::Keyed;
use crate::search::{Place, find, row_for};
use containers::{OutOfMemory, Sequence};
use pvec::{FULL, Row, Shared, copied, member, single, spliced};
use ql_types::Steps;
use std::alloc::Global;

/// The value of a key in a leaf.
fn value_in<'a, K: Keyed, V>(
    leaf: &'a [Shared<Entry<K, V>>],
    key: &K,
    steps: &mut Steps,
) -> Option<&'a V>
    requires { Ascends K.order leaf.now }
    ensures value { option_copied result ≡ (cut_at K.order key.now leaf.now).1 }
    ensures counted { (d : ℕ) → length leaf.now < 2 ^ d → steps.new.taken ≤ steps.old.taken + d }
{
    let place = find(leaf, key, steps);
    value_at(leaf, place)
}

/// The value at a place where there is one.
fn value_at<'a, K, V>(leaf: &'a [Shared<Entry<K, V>>], place: Place) -> Option<&'a V>
    ensures { option_copied result ≡ (if place.is_there
        then option_map (λ pair. pair.1) (slice_get leaf.now place.at) else None) }
{
    if !place.is_there {
        return None;
    }
    match member(leaf, place.at) {
        Some(entry) => Some(entry.get().value()),
        None => None,
    }
}

/// The value of a key in the leaves of a middle row.
fn value_under<'a, K: Keyed, V>(
    middle: &'a [Shared<Entry<K, Leaf<K, V>>>],
    key: &K,
    steps: &mut Steps,
) -> Option<&'a V>
    requires leaves { AreLeaves K.order middle.now }
    requires some { 0 < length middle.now }
    ensures value { option_copied result ≡ (cut_at K.order key.now (pairs_in middle.now)).1 }
    ensures counted { (d : ℕ) → length (pairs_in middle.now) < 2 ^ d → steps.new.taken ≤ steps.old.taken + 2 * d }
{
    let at = row_for(middle, key, steps);
    let Some(row) = member(middle, at) else {
        unreachable!()
    };
    value_in(row.get().value().as_slice(), key, steps)
}

/// The value of a key in the leaves of all rows.
pub(crate) fn value_of<'a, K: Keyed, V>(
    upper: &'a [Shared<Entry<K, Middle<K, V>>>],
    key: &K,
    steps: &mut Steps,
) -> Option<&'a V>
    requires { AreLevels K.order upper.now }
    ensures value { option_copied result ≡ (cut_at K.order key.now (pairs_of upper.now)).1 }
    ensures counted { (d : ℕ) → length (pairs_of upper.now) < 2 ^ d → steps.new.taken ≤ steps.old.taken + 3 * d }
{
    if upper.is_empty() {
        return None;
    }
    let at = row_for(upper, key, steps);
    let Some(row) = member(upper, at) else {
        unreachable!()
    };
    value_under(row.get().value().as_slice(), key, steps)
}

/// The row beside its first key.
fn guided<K: Drop, X: Drop>(
    alloc: Global,
    row: Row<Entry<K, X>>,
) -> Result<Shared<Entry<K, Row<Entry<K, X>>>>, OutOfMemory>
    requires { 0 < length row }
    ensures row { IfOk result (λ entry. entry.1 ≡ row) }
    ensures key { IfOk result (λ entry. BeginsWith entry.0 row) }
{
    let Some((first, _)) = row.as_slice().split_first() else {
        unreachable!()
    };
    let key = first.get().shared_key().share()?;
    let row = Shared::new(alloc, row)?;
    let entry = Shared::new(alloc, Entry::new(key, row))?;
    Ok(entry)
}

/// Where a row is parted that is too long: behind as many members as a row has at most where it is the last one, so
/// that keys that only grow leave full rows behind them, and in the middle otherwise.
fn cut_in(len: usize, is_last: bool) -> usize
    requires long { 64 < len }
    requires short { len ≤ 128 }
    ensures front { result ≤ 64 }
    ensures some { 0 < result }
    ensures back { len ≤ result + 64 }
    ensures within { result < len }
{
    if is_last { FULL } else { len / 2 }
}

/// The members as one row, or as two where one would be too long, or as none.
fn parted<K: Drop, X: Drop>(
    alloc: Global,
    row: Row<Entry<K, X>>,
    is_last: bool,
) -> Result<Row<Entry<K, Row<Entry<K, X>>>>, OutOfMemory>
    requires { length row ≤ 128 }
    ensures { IfOk result (IsParted row) }
{
    if row.is_empty() {
        return Ok(Sequence::new(alloc));
    }
    if row.len() <= FULL {
        let entry = guided(alloc, row)?;
        let rows = single(alloc, entry)?;
        return Ok(rows);
    }
    let (front, back) = row.as_slice().split_at(cut_in(row.len(), is_last));
    let front = guided(alloc, copied(alloc, front)?)?;
    let back = guided(alloc, copied(alloc, back)?)?;
    let mut rows = single(alloc, front)?;
    rows.push(back)?;
    Ok(rows)
}

/// Where the members behind the key's place begin.
fn end_of(place: Place) -> usize
    requires { place.at + 1 < 2 ^ 64 }
    ensures { result ≡ place.at + (if place.is_there then 1 else 0) }
{
    if place.is_there {
        place.at + 1
    } else {
        place.at
    }
}

/// What becomes of a leaf where the key's pair is replaced, put there or taken away; it may be the last one of all.
fn leaf_with<K: Keyed + Drop, V: Drop>(
    alloc: Global,
    leaf: &[Shared<Entry<K, V>>],
    key: &K,
    put: &[Shared<Entry<K, V>>],
    is_last: bool,
) -> Result<Middle<K, V>, OutOfMemory>
    requires ascending { Ascends K.order leaf.now }
    requires size { length leaf.now ≤ 64 }
    requires put { IsPut key.now put.now }
    ensures { IfOk result (IsChangedLeaf K.order key.now put.now leaf.now) }
{
    let place = find(leaf, key, &mut Steps { taken: 0 });
    let end = end_of(place);
    let new = spliced(alloc, leaf, place.at, end, put)?;
    let rows = parted(alloc, new, is_last && end == leaf.len())?;
    Ok(rows)
}

/// The same of a middle row.
fn middle_with<K: Keyed + Drop, V: Drop>(
    alloc: Global,
    middle: &[Shared<Entry<K, Leaf<K, V>>>],
    key: &K,
    put: &[Shared<Entry<K, V>>],
    is_last: bool,
) -> Result<Upper<K, V>, OutOfMemory>
    requires leaves { AreLeaves K.order middle.now }
    requires some { 0 < length middle.now }
    requires size { length middle.now ≤ 64 }
    requires put { IsPut key.now put.now }
    ensures { IfOk result (IsChangedMiddle K.order key.now put.now middle.now) }
{
    let at = row_for(middle, key, &mut Steps { taken: 0 });
    let Some(row) = member(middle, at) else {
        unreachable!()
    };
    let is_last = is_last && at + 1 == middle.len();
    let leaves = leaf_with(alloc, row.get().value().as_slice(), key, put, is_last)?;
    let new = spliced(alloc, middle, at, at + 1, leaves.as_slice())?;
    let rows = parted(alloc, new, is_last)?;
    Ok(rows)
}

/// The rows of one pair, or none.
fn first_rows<K: Keyed + Drop, V: Drop>(
    alloc: Global,
    key: &K,
    put: &[Shared<Entry<K, V>>],
) -> Result<Upper<K, V>, OutOfMemory>
    requires { IsPut key.now put.now }
    ensures { IfOk result (AreRowsOf K.order (with_put K.order key.now put.now [])) }
{
    let leaf = copied(alloc, put)?;
    let leaves = parted(alloc, leaf, false)?;
    let rows = parted(alloc, leaves, false)?;
    Ok(rows)
}

/// The same of all rows.
pub(crate) fn rows_with<K: Keyed + Drop, V: Drop>(
    alloc: Global,
    upper: &[Shared<Entry<K, Middle<K, V>>>],
    key: &K,
    put: &[Shared<Entry<K, V>>],
) -> Result<Upper<K, V>, OutOfMemory>
    requires levels { AreLevels K.order upper.now }
    requires put { IsPut key.now put.now }
    ensures { IfOk result (AreRowsOf K.order (with_put K.order key.now put.now (pairs_of upper.now))) }
{
    if upper.is_empty() {
        let rows = first_rows(alloc, key, put)?;
        return Ok(rows);
    }
    let at = row_for(upper, key, &mut Steps { taken: 0 });
    let Some(row) = member(upper, at) else {
        unreachable!()
    };
    let is_last = at + 1 == upper.len();
    let middles = middle_with(alloc, row.get().value().as_slice(), key, put, is_last)?;
    let new = spliced(alloc, upper, at, at + 1, middles.as_slice())?;
    Ok(new)
}
