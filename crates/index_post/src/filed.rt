ghost use Rattle.std.specs.Prelude.{◌≡◌, [], IfOk, option_map};
ghost use Rattle.std.specs.Arc.{arc_value};
ghost use Rattle.std.specs.declared.option.Option.TheVariants.{None, Some};
ghost use Rattle.std.specs.Ordering.{nat_cmp};
ghost use Rattle.std.specs.BTreeMap.{insert_entry};
ghost use Rattle.index_post.specs.Positions.{positions_by, set_at, listed, IsAscending, IsChangedBy};

use crate::positions::Positions;
use containers::OutOfMemory;
use pmap::{Keyed, PMap};
use ql_types::Steps;
use std::alloc::Global;
use std::marker::Model;
use std::sync::Arc;

/// The positions of each key, and each position leads to itself.
type Sets<K> = PMap<K, PMap<u64, u64>>;

/// One version of the positions that are filed under each key.
///
/// Contracts see it as the keys in their order, each with its positions in ascending order.
#[derive(Drop)]
pub struct Filed<K: Keyed> {
    alloc: Global,
    sets: Sets<K>,
}

impl<K: Keyed> Model for Filed<K> {
    ghost use Rattle.std.specs.Prelude.{List, ℕ};
    ghost use Rattle.std.specs.Coded.{coded_list, coded×, coded_ℕ};
    ghost use Rattle.index_post.specs.Positions.{listed};

    ghost Value = { List (K × List ℕ) };

    ghost coded = { coded_list (coded× K.code (coded_list coded_ℕ)) };

    ghost view = { λ f. listed f.sets };
}

impl<K: Keyed> Filed<K> {
    /// No positions. It takes no memory.
    pub fn new(alloc: Global) -> Filed<K>
        ensures { result ≡ [] }
    {
        Filed {
            alloc,
            sets: PMap::new(alloc),
        }
    }

    /// The positions with the key, in ascending order. It takes no memory.
    pub fn of(&self, key: &K) -> Positions<'_>
        ensures positions { result ≡ positions_by K.order self.now key.now }
        ensures ascending { IsAscending result }
    {
        match self.sets.get(key, &mut Steps { taken: 0 }) {
            None => Positions::new(None),
            Some(set) => Positions::new(Some(set.pairs())),
        }
    }
}

impl<K: Keyed + Drop> Filed<K> {
    /// A new version, with this position moved from the old key to the new one.
    ///
    /// Without an old key it is only put under the new one, and without a new key only taken away.
    pub fn change(
        &self,
        position: u64,
        old: Option<Arc<K>>,
        new: Option<Arc<K>>,
    ) -> Result<Filed<K>, OutOfMemory>
        ensures { IfOk result (IsChangedBy K.order position (option_map arc_value old)
            (option_map arc_value new) self.now) }
    {
        let kept = taken(self.alloc, &self.sets, old, position)?;
        let sets = put(self.alloc, kept, new, position)?;
        Ok(Filed {
            alloc: self.alloc,
            sets,
        })
    }

    /// The same version once more. One more owner of it may be refused.
    pub fn share(&self) -> Result<Filed<K>, OutOfMemory>
        ensures { IfOk result (λ same. same ≡ self.now) }
    {
        Ok(Filed {
            alloc: self.alloc,
            sets: self.sets.share()?,
        })
    }
}

/// The sets, with the position taken from that of the key, if there is one.
fn taken<K: Keyed + Drop>(
    alloc: Global,
    sets: &Sets<K>,
    key: Option<Arc<K>>,
    position: u64,
) -> Result<Sets<K>, OutOfMemory>
    ensures { IfOk result (λ after. IsChangedBy K.order position (option_map arc_value key) None (listed sets.now)
        (listed after)) }
{
    match key {
        None => sets.share(),
        Some(key) => without(alloc, sets, key, position),
    }
}

/// The sets, with the position put into that of the key, if there is one.
fn put<K: Keyed + Drop>(
    alloc: Global,
    sets: Sets<K>,
    key: Option<Arc<K>>,
    position: u64,
) -> Result<Sets<K>, OutOfMemory>
    ensures { IfOk result (λ after. IsChangedBy K.order position None (option_map arc_value key) (listed sets)
        (listed after)) }
{
    match key {
        None => Ok(sets),
        Some(key) => with(alloc, &sets, key, position),
    }
}

/// The key's set with the position.
fn set_with<K: Keyed + Drop>(
    alloc: Global,
    sets: &Sets<K>,
    key: &K,
    position: u64,
) -> Result<PMap<u64, u64>, OutOfMemory>
    ensures { IfOk result (λ set. set ≡ insert_entry nat_cmp (set_at K.order sets.now key.now) position position) }
{
    let member = Arc::new(alloc, position)?;
    let shared = Arc::try_clone(&member)?;
    match sets.get(key, &mut Steps { taken: 0 }) {
        None => PMap::new(alloc).insert(member, shared),
        Some(set) => set.insert(member, shared),
    }
}

/// The sets with the position in that of the key.
fn with<K: Keyed + Drop>(
    alloc: Global,
    sets: &Sets<K>,
    key: Arc<K>,
    position: u64,
) -> Result<Sets<K>, OutOfMemory>
    ensures { IfOk result (λ after. IsChangedBy K.order position None (Some (arc_value key)) (listed sets.now)
        (listed after)) }
{
    let set = set_with(alloc, sets, &key, position)?;
    let own = Arc::new(alloc, set)?;
    let after = sets.insert(key, own)?;
    Ok(after)
}

/// The sets without the position in that of the key. A set that is empty then is taken out.
fn without<K: Keyed + Drop>(
    alloc: Global,
    sets: &Sets<K>,
    key: Arc<K>,
    position: u64,
) -> Result<Sets<K>, OutOfMemory>
    ensures { IfOk result (λ after. IsChangedBy K.order position (Some (arc_value key)) None (listed sets.now)
        (listed after)) }
{
    let Some(set) = sets.get(&key, &mut Steps { taken: 0 }) else {
        let after = sets.share()?;
        return Ok(after);
    };
    let set = set.remove(&position)?;
    if set.len() == 0 {
        let after = sets.remove(&key)?;
        return Ok(after);
    }
    let own = Arc::new(alloc, set)?;
    let after = sets.insert(key, own)?;
    Ok(after)
}
