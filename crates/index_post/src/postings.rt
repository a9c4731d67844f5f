ghost use Rattle.std.specs.Prelude.{◌≡◌, [], IfOk, option_map};
ghost use Rattle.std.specs.Option.{option_copied};
ghost use Rattle.std.specs.Arc.{arc_value};
ghost use Rattle.index_post.specs.Positions.{positions_of, IsAscending, IsChanged};

use crate::filed::Filed;
use crate::positions::Positions;
use ion_values::{Key, OutOfMemory};
use std::alloc::Global;
use std::marker::Model;
use std::sync::Arc;

/// One version of the positions of each key, which contracts see as the keys in their order, each with its positions in
/// ascending order.
#[derive(Drop)]
pub struct Postings {
    alloc: Global,
    filed: Filed<Key>,
}

impl Model for Postings {
    ghost use Rattle.std.specs.Prelude.{List, ℕ};
    ghost use Rattle.ion_values.specs.declared.value.Key.{Key};

    ghost Value = { List (Key × List ℕ) };

    ghost view = { λ p. p.filed };
}

impl Postings {
    /// No positions. It takes no memory.
    pub fn new(alloc: Global) -> Postings
        ensures { result ≡ [] }
    {
        Postings {
            alloc,
            filed: Filed::new(alloc),
        }
    }

    /// The positions with the key, in ascending order. It takes no memory.
    pub fn of<'a>(&'a self, key: &'a Key) -> Positions<'a>
        ensures positions { result ≡ positions_of self.now key.now }
        ensures ascending { IsAscending result }
    {
        self.filed.of(key)
    }

    /// A new version, with this position moved from the old key to the new one.
    ///
    /// Without an old key it is only put under the new one, and without a new key only taken away.
    pub fn change(
        &self,
        position: u64,
        old: Option<&Key>,
        new: Option<&Key>,
    ) -> Result<Postings, OutOfMemory>
        ensures { IfOk result (IsChanged position (option_copied old.entry) (option_copied new.entry) self.now) }
    {
        let old = owned(self.alloc, old)?;
        let new = owned(self.alloc, new)?;
        let filed = self.filed.change(position, old, new)?;
        Ok(Postings {
            alloc: self.alloc,
            filed,
        })
    }

    /// The same version once more. One more owner of it may be refused.
    pub fn share(&self) -> Result<Postings, OutOfMemory>
        ensures { IfOk result (λ same. same ≡ self.now) }
    {
        Ok(Postings {
            alloc: self.alloc,
            filed: self.filed.share()?,
        })
    }
}

/// A key that equals this one, if there is one, to be shared.
fn owned(alloc: Global, key: Option<&Key>) -> Result<Option<Arc<Key>>, OutOfMemory>
    ensures { IfOk result (λ own. option_map arc_value own ≡ option_copied key.entry) }
{
    match key {
        None => Ok(None),
        Some(key) => Ok(Some(Arc::new(alloc, key.copy(alloc)?)?)),
    }
}
