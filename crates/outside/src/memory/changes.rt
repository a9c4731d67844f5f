//! What the changes of a store in memory were.
ghost use Rattle.std.specs.Prelude.{◌≡◌, ◌<◌, List, ℕ, OnOk, OnErr, IsSome, vec_capacity, vec_len};
ghost use Rattle.outside.specs.Store.{content_of};

use std::alloc::{AllocError, Global};

/// One change of a store's content.
#[derive(Drop)]
pub(super) enum Change {
    /// This piece was added.
    Appended(Vec<u8>),
    /// The bytes were cut to this size.
    Cut(u64),
    /// A cut to this size was asked for that left the bytes.
    Lowered(u64),
    /// All bytes were synced.
    Synced,
}

/// All changes of a store's content so far, the first one in front, and the bytes that it held before. These are
/// copied when room is made for the first change.
#[derive(Drop)]
pub(super) struct Changes {
    alloc: Global,
    opened: Option<Vec<u8>>,
    made: Vec<Change>,
}

impl Changes {
    ghost use Rattle.outside.specs.StoreForms.{NoneBefore, changed, noted};

    pub(super) fn new(alloc: Global) -> Changes
        ensures noted { (bytes : List ℕ) → noted result bytes ≡ content_of bytes }
        ensures begun { NoneBefore result.opened result.made.items }
    {
        Changes {
            alloc,
            opened: None,
            made: Vec::new(alloc),
        }
    }

    /// Makes room for one change more of these bytes.
    pub(super) fn make_room(&mut self, bytes: &[u8]) -> Result<(), AllocError>
        requires { NoneBefore self.old.opened self.old.made.items }
        ensures room { OnOk result (vec_len self.new.made < vec_capacity self.new.made) }
        ensures opened { OnOk result (IsSome self.new.opened) }
        ensures noted { OnOk result ((other : List ℕ) → noted self.new other ≡ noted self.old bytes.now) }
        ensures same { OnErr result (noted self.new bytes.now ≡ noted self.old bytes.now) }
        ensures begun { NoneBefore self.new.opened self.new.made.items }
    {
        if self.opened.is_none() {
            self.opened = Some(bytes.to_vec(self.alloc)?);
        }
        self.made.reserve(1)?;
        Ok(())
    }

    /// Notes a change. There is room for it.
    pub(super) fn note(&mut self, change: Change)
        requires room { vec_len self.old.made < vec_capacity self.old.made }
        requires opened { IsSome self.old.opened }
        ensures noted { (bytes : List ℕ) → noted self.new bytes ≡ changed (noted self.old bytes) change }
        ensures begun { NoneBefore self.new.opened self.new.made.items }
    {
        self.made.push(change).unwrap();
    }

    /// The allocator that the changes are noted by.
    pub(super) fn alloc(&self) -> Global {
        self.alloc
    }
}
