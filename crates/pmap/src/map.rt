ghost use Rattle.std.specs.Prelude.{◌≡◌, [], ◌∷◌, ℕ, ◌+◌, ◌*◌, ◌^◌, ◌<◌, ◌≤◌, if◌then◌else◌, length, IfOk};
ghost use Rattle.std.specs.Option.{is_some, option_copied};
ghost use Rattle.std.specs.Arc.{arc_value};
ghost use Rattle.std.specs.Map.{lookup, remove_entry};
ghost use Rattle.std.specs.BTreeMap.{insert_entry, is_at};
ghost use Rattle.pmap.specs.Pairs.{Ascends, IsPut, cut_at, with_put};
ghost use Rattle.std.specs.BTreeMap.Range.{entries_between};
ghost use Rattle.std.specs.declared.ops.Bound.TheVariants.{Included};
ghost use Rattle.std.specs.declared.option.Option.TheVariants.{None};
ghost use Rattle.pmap.specs.Levels.{pairs_of, AreLevels};

use crate::entry::{Entry, Leaf, Middle, Upper};
use crate::keyed::Keyed;
use crate::levels::{rows_with, value_of};
use crate::range::{Left, Range, started};
use containers::{OutOfMemory, Sequence};
use pvec::{Shared, single};
use ql_types::Steps;
use std::alloc::Global;
use std::marker::Model;
use std::sync::Arc;

/// One version of an ordered map, which contracts see as its pairs with ascending keys. It shares with other versions
/// the rows that are the same.
#[derive(Drop)]
pub struct PMap<K: Keyed, V> {
    alloc: Global,
    len: u64,
    upper: Option<Shared<Upper<K, V>>>,
}

impl<K: Keyed, V> Model for PMap<K, V> {
    ghost use Rattle.std.specs.Prelude.{List};
    ghost use Rattle.std.specs.Coded.{coded_list, coded×};
    ghost use Rattle.pmap.specs.Levels.{pairs_of, rows_of, IsCounted};

    ghost Value = { List (K × V) };

    ghost coded = { coded_list (coded× K.code V.code) };

    ghost view = { λ m. pairs_of (rows_of m.upper) };

    ghost invariant = { λ m. IsCounted K.order m.len m.upper };
}

impl<K: Keyed, V> PMap<K, V> {
    /// No pairs. It takes no memory.
    pub fn new(alloc: Global) -> PMap<K, V>
        ensures { result ≡ [] }
    {
        PMap {
            alloc,
            len: 0,
            upper: None,
        }
    }

    /// How many pairs there are.
    pub fn len(&self) -> u64
        ensures { result ≡ length self.now }
    {
        self.len
    }

    /// The key's value, or None where no pair has the key. It counts its comparisons: at most three times as many as
    /// the number of pairs and one has binary digits. It takes no memory.
    pub fn get(&self, key: &K, steps: &mut Steps) -> Option<&V>
        ensures value { option_copied result ≡ lookup (is_at (K.order key.now)) self.now }
        ensures counted { (digits : ℕ) → length self.now + 1 < 2 ^ digits →
            steps.new.taken ≤ steps.old.taken + 3 * digits }
    {
        value_of(self.upper_rows(), key, steps)
    }

    /// The pairs with keys from the low key up to the high one, in ascending order. It takes no memory.
    pub fn range<'a>(&'a self, low: &'a K, high: &'a K) -> Range<'a, K, V>
        ensures pairs { result ≡ entries_between K.order (Included low.now) (Included high.now) self.now }
        ensures ascending { Ascends K.order result }
    {
        Range::new(started(self.upper_rows(), low), Some(high))
    }

    /// The upper row.
    fn upper_rows(&self) -> &[Shared<Entry<K, Middle<K, V>>>]
        ensures levels { AreLevels K.order result.now }
        ensures pairs { pairs_of result.now ≡ self.now }
        ensures ascending { Ascends K.order self.now }
    {
        match &self.upper {
            None => Default::default(),
            Some(upper) => upper.get().as_slice(),
        }
    }

    /// All pairs, in ascending order. It takes no memory.
    pub fn pairs(&self) -> Range<'_, K, V>
        ensures pairs { result ≡ self.now }
        ensures ascending { Ascends K.order result }
    {
        let left = Left {
            leaf: Default::default(),
            middle: Default::default(),
            upper: self.upper_rows(),
        };
        Range::new(left, None)
    }
}

impl<K: Keyed + Drop, V: Drop> PMap<K, V> {
    /// The pairs with this one as well, in the place of the pair of the same key, as a new version.
    pub fn insert(&self, key: Arc<K>, value: Arc<V>) -> Result<PMap<K, V>, OutOfMemory>
        ensures { IfOk result (λ new. new ≡ insert_entry K.order self.now (arc_value key) (arc_value value)) }
    {
        let key = Shared::from_arc(key);
        let put = one(self.alloc, key.share()?, Shared::from_arc(value))?;
        let lent = key.get();
        let len = self.len_with(lent)?;
        let new = self.changed(lent, put.as_slice(), len)?;
        Ok(new)
    }

    /// The pairs without that of the key, if there is one, as a new version.
    pub fn remove(&self, key: &K) -> Result<PMap<K, V>, OutOfMemory>
        ensures rest { IfOk result (λ new. new ≡ remove_entry (is_at (K.order key.now)) self.now) }
        ensures gone { IfOk result (λ new. lookup (is_at (K.order key.now)) new ≡ None) }
    {
        if !self.has(key) {
            let same = self.share()?;
            return Ok(same);
        }
        let none = Sequence::new(self.alloc);
        let new = self.changed(key, none.as_slice(), self.len().saturating_sub(1))?;
        Ok(new)
    }

    /// Whether a pair has the key.
    fn has(&self, key: &K) -> bool
        ensures found { result ≡ is_some (cut_at K.order key.now self.now).1 }
        ensures ascending { Ascends K.order self.now }
    {
        value_of(self.upper_rows(), key, &mut Steps { taken: 0 }).is_some()
    }

    /// The number of pairs with one of the key as well.
    fn len_with(&self, key: &K) -> Result<u64, OutOfMemory>
        ensures { IfOk result (λ len. len + (if is_some (cut_at K.order key.now self.now).1 then 1 else 0)
            ≡ length self.now + 1) }
    {
        if self.has(key) {
            return Ok(self.len());
        }
        let len = self.len().checked_add(1).ok_or(OutOfMemory)?;
        Ok(len)
    }

    /// The pairs with others in the place of the key's, and their new count.
    fn changed(
        &self,
        key: &K,
        put: &[Shared<Entry<K, V>>],
        len: u64,
    ) -> Result<PMap<K, V>, OutOfMemory>
        requires put { IsPut key.now put.now }
        requires counted { len + (if is_some (cut_at K.order key.now self.now).1 then 1 else 0)
            ≡ length self.now + length put.now }
        ensures { IfOk result (λ new. new ≡ with_put K.order key.now put.now self.now) }
    {
        let rows = rows_with(self.alloc, self.upper_rows(), key, put)?;
        let upper = Shared::new(self.alloc, rows)?;
        Ok(PMap {
            alloc: self.alloc,
            len,
            upper: Some(upper),
        })
    }

    /// The same version once more. It takes no room for rows, but one more owner of them may be refused.
    pub fn share(&self) -> Result<PMap<K, V>, OutOfMemory>
        ensures { IfOk result (λ same. same ≡ self.now) }
    {
        let upper = match &self.upper {
            None => None,
            Some(upper) => Some(upper.share()?),
        };
        Ok(PMap {
            alloc: self.alloc,
            len: self.len,
            upper,
        })
    }
}

/// A leaf of one pair.
fn one<K: Drop, V: Drop>(
    alloc: Global,
    key: Shared<K>,
    value: Shared<V>,
) -> Result<Leaf<K, V>, OutOfMemory>
    ensures { IfOk result (λ leaf. leaf ≡ (key, value) ∷ []) }
{
    let entry = Shared::new(alloc, Entry::new(key, value))?;
    single(alloc, entry)
}
