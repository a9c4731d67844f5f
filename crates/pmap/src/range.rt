ghost use Rattle.std.specs.Prelude.{◌≡◌, suc, ◌<◌, drop, length, not, slice_get};
ghost use Rattle.std.specs.Option.{option_copied};
ghost use Rattle.std.specs.declared.option.Option.TheVariants.{Some};
ghost use Rattle.std.specs.Iterator.{YieldsFirstBy, item_count};
ghost use Rattle.pmap.specs.Pairs.{Ascends};
ghost use Rattle.pmap.specs.Levels.{pairs_of, AreLevels};
ghost use Rattle.pmap.specs.Ranges.{AreBehind, IsFilled, IsLeft, IsStart, is_within, left_of, up_to};

use crate::entry::{Entry, Leaf, Middle};
use crate::keyed::Keyed;
use crate::search::{find, row_for};
use pvec::Shared;
use ql_types::Steps;
use std::cmp::Ordering;
use std::marker::Model;

/// What is left of a leaf, the leaves behind it, and the middle rows behind these.
#[derive(Drop)]
pub(crate) struct Left<'a, K, V> {
    pub(crate) leaf: &'a [Shared<Entry<K, V>>],
    pub(crate) middle: &'a [Shared<Entry<K, Leaf<K, V>>>],
    pub(crate) upper: &'a [Shared<Entry<K, Middle<K, V>>>],
}

/// The same pairs, beginning with a leaf that has some.
pub(crate) fn filled<'a, K, V>(
    leaf: &'a [Shared<Entry<K, V>>],
    middle: &'a [Shared<Entry<K, Leaf<K, V>>>],
    upper: &'a [Shared<Entry<K, Middle<K, V>>>],
) -> Left<'a, K, V>
    requires { AreBehind middle.now upper.now }
    ensures { IsFilled leaf.now middle.now upper.now result.leaf.now result.middle.now result.upper.now }
{
    if !leaf.is_empty() {
        return Left {
            leaf,
            middle,
            upper,
        };
    }
    if let Some((first, middle)) = middle.split_first() {
        let leaf = first.get().value().as_slice();
        return Left {
            leaf,
            middle,
            upper,
        };
    }
    let Some((first, upper)) = upper.split_first() else {
        return Left {
            leaf,
            middle,
            upper,
        };
    };
    let Some((first, middle)) = first.get().value().as_slice().split_first() else {
        unreachable!()
    };
    let leaf = first.get().value().as_slice();
    Left {
        leaf,
        middle,
        upper,
    }
}

/// The row at a place, and those behind it.
fn row_and_rest<'a, K, X>(
    rows: &'a [Shared<Entry<K, X>>],
    at: usize,
) -> (&'a Entry<K, X>, &'a [Shared<Entry<K, X>>])
    requires { at < length rows.now }
    ensures row { slice_get rows.now at ≡ Some result.0.now }
    ensures rest { result.1.now ≡ drop (suc at) rows.now }
{
    (rows[at].get(), &rows[at + 1..])
}

/// The pairs from a key on.
pub(crate) fn started<'a, K: Keyed, V>(
    upper: &'a [Shared<Entry<K, Middle<K, V>>>],
    low: &K,
) -> Left<'a, K, V>
    requires { AreLevels K.order upper.now }
    ensures { IsStart K.order low.now (pairs_of upper.now) result.leaf.now result.middle.now result.upper.now }
{
    if upper.is_empty() {
        return Left {
            leaf: Default::default(),
            middle: Default::default(),
            upper,
        };
    }
    let up = row_for(upper, low, &mut Steps { taken: 0 });
    let (row, upper) = row_and_rest(upper, up);
    let middle = row.value().as_slice();
    let across = row_for(middle, low, &mut Steps { taken: 0 });
    let (row, middle) = row_and_rest(middle, across);
    let leaf = row.value().as_slice();
    let place = find(leaf, low, &mut Steps { taken: 0 });
    let (_, leaf) = leaf.split_at(place.at);
    Left {
        leaf,
        middle,
        upper,
    }
}

/// Whether the key is past the high one, if there is one.
fn is_past<K: Keyed>(key: &K, high: Option<&K>) -> bool
    ensures { result ≡ not (is_within K.order (option_copied high.entry) key.now) }
{
    match high {
        None => false,
        Some(high) => high.against(key, &mut Steps { taken: 0 }).is_lt(),
    }
}

/// Pairs of a map in ascending order, which contracts see as those that are still to come.
#[derive(Drop)]
pub struct Range<'a, K: Keyed, V> {
    leaf: &'a [Shared<Entry<K, V>>],
    middle: &'a [Shared<Entry<K, Leaf<K, V>>>],
    upper: &'a [Shared<Entry<K, Middle<K, V>>>],
    high: Option<&'a K>,
}

impl<'a, K: Keyed, V> Model for Range<'a, K, V> {
    ghost use Rattle.std.specs.Prelude.{List};
    ghost use Rattle.std.specs.Option.{option_copied};
    ghost use Rattle.std.specs.Coded.{coded_list, coded×};
    ghost use Rattle.pmap.specs.Ranges.{left_of, up_to, IsLeft};

    ghost Value = { List (K × V) };

    ghost coded = { coded_list (coded× K.code V.code) };

    ghost view = { λ r. up_to K.order (option_copied r.high) (left_of r.leaf.now r.middle.now r.upper.now) };

    ghost invariant = { λ r. IsLeft K.order r.leaf.now r.middle.now r.upper.now };
}

impl<'a, K: Keyed, V> Iterator for Range<'a, K, V> {
    type Item = (&'a K, &'a V);

    ghost next_gives = { YieldsFirstBy (λ pair. (pair.0.now, pair.1.now)) (λ r. r) };

    ghost remaining = { item_count (λ r. r) };

    fn next(&mut self) -> Option<(&'a K, &'a V)> {
        let rows = filled(self.leaf, self.middle, self.upper);
        let (first, leaf) = rows.leaf.split_first()?;
        let entry = first.get();
        if is_past(entry.key(), self.high) {
            return None;
        }
        self.leaf = leaf;
        self.middle = rows.middle;
        self.upper = rows.upper;
        Some((entry.key(), entry.value()))
    }
}

impl<'a, K: Keyed, V> Range<'a, K, V> {
    /// The pairs of these rows up to the high key, if there is one.
    pub(crate) fn new(left: Left<'a, K, V>, high: Option<&'a K>) -> Range<'a, K, V>
        requires { IsLeft K.order left.leaf.now left.middle.now left.upper.now }
        ensures pairs { result ≡ up_to K.order (option_copied high.entry)
            (left_of left.entry.leaf.now left.entry.middle.now left.entry.upper.now) }
        ensures ascending { Ascends K.order result }
    {
        let Left {
            leaf,
            middle,
            upper,
        } = left;
        Range {
            leaf,
            middle,
            upper,
            high,
        }
    }
}
