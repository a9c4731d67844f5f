//! What the calls of a ledger leave, in order.
ghost use Rattle.std.specs.Prelude.{◌≡◌, ◌+◌, ◌<◌, ◌≤◌, [], ◌∷◌, ◌++◌, length, OnOk};
ghost use Rattle.std.specs.Vec.{vec_len, vec_capacity};

use containers::OutOfMemory;
use ledger_model::Block;
use ql_types::{Place, TxId};
use std::alloc::Global;
use std::snapshot::Snapshot;

/// What a call did. Contracts see the block of a sealed transaction too, and that with which a refused commit came to
/// its store.
#[derive(Drop)]
pub enum Entry {
    /// A transaction has begun at this place of the script, on the first `since` blocks.
    Begun {
        place: Place,
        tx: TxId,
        since: u64,
    },
    /// It became the block of this number.
    Sealed {
        tx: TxId,
        block: u64,
        made: Snapshot<Block>,
    },
    /// The store failed at its commit, for the `count`th time.
    Failed {
        tx: TxId,
        count: u64,
        made: Snapshot<Block>,
    },
    /// Memory ran out at its commit.
    Wanted {
        tx: TxId,
        tried: Option<Snapshot<Block>>,
    },
}

/// The entries of a ledger, in order, with room for some more.
#[derive(Drop)]
pub struct Entries {
    pub(crate) items: Vec<Entry>,
    pub(crate) spare: usize,
    ghost room: { vec_len items + spare ≤ vec_capacity items },
}

impl Entries {
    /// No entries. It takes no memory.
    pub(crate) fn new(alloc: Global) -> Entries
        ensures { result.items.items ≡ [] }
    {
        Entries {
            items: Vec::new(alloc),
            spare: 0,
        }
    }

    /// How many entries there are.
    pub fn len(&self) -> u64
        ensures { result ≡ length self.now.items.items }
    {
        self.items.len() as u64
    }

    /// The entries, lent.
    pub fn as_slice(&self) -> &[Entry]
        ensures { result.now ≡ self.now.items.items }
    {
        self.items.as_slice()
    }

    /// Makes room for one entry more, if there is none.
    pub(crate) fn make_room(&mut self) -> Result<(), OutOfMemory>
        ensures items { self.new.items.items ≡ self.old.items.items }
        ensures spare { OnOk result (1 ≤ self.new.spare) }
    {
        if self.spare == 0 {
            self.items.reserve(1)?;
            self.spare = 1;
        }
        Ok(())
    }

    /// Puts an entry at the end, where there is room for it.
    pub(crate) fn add(&mut self, entry: Entry)
        requires { 1 ≤ self.old.spare }
        ensures { self.new.items.items ≡ self.old.items.items ++ entry ∷ [] }
    {
        let Ok(()) = self.items.push(entry) else {
            unreachable!()
        };
        self.spare -= 1;
    }
}
