//! The tail of a journal over its store.
ghost use Rattle.std.specs.Prelude.{◌≡◌, ◌-◌, [], length, IfOk, MatchOption, ◌<◌, ◌^◌, ◌⊎◌, true};
ghost use Rattle.ledger_model.specs.Journal.{line};
ghost use Rattle.ledger_model.specs.State.{state};
ghost use Rattle.laws_history.specs.Standings.{IsStanding};
ghost use Rattle.laws_history.specs.Stores.{Holding};
ghost use Rattle.outside.specs.Told.{held};
ghost use Rattle.proof_model.specs.Issued.{block_hashes, IsDigest};
ghost use Rattle.ledger_core.specs.Leaving.{AppendLeaves};
ghost use Rattle.ledger_core.specs.Tails.{joined};

use crate::appending::Unkept;
use ion_values::{OutOfMemory, Text};
use journal_keeper::Keeper;
use journal_reader::Chain;
use ledger_model::{Block, Blocks};
use outside::JournalStore;
use pad_tree::Grow;
use proof_model::{Digest, undamaged_is_chained};
use ql_types::IdMask;
use std::marker::Model;
use std::snapshot::Snapshot;
use versions::Versions;

/// The blocks of a journal, the store that keeps them, and the clock that dates new ones. After the lines of the blocks
/// the store holds nothing, or a rest that is marked to be cut.
#[derive(Drop)]
pub struct Tail<S: JournalStore, C> {
    pub(crate) keeper: Keeper<S>,
    pub(crate) clock: C,
    pub(crate) mask: IdMask,
    /// The last number of a transaction that was drawn or found.
    pub(crate) last: u64,
    /// The blocks, and the tree over their hashes.
    pub(crate) blocks: Chain,
    /// What the blocks stand for.
    pub(crate) version: Versions,
}

impl<S: JournalStore, C> Model for Tail<S, C> {
    ghost use Rattle.std.specs.Prelude.{◌≡◌};
    ghost use Rattle.outside.specs.Told.{held};
    ghost use Rattle.ledger_model.specs.State.{state};
    ghost use Rattle.ledger_core.specs.Tails.{TailHeld, tail_code, IsTail};

    ghost Value = { TailHeld S C };

    ghost coded = { tail_code S.code C.code };

    ghost view = { λ t. record {
      store = t.keeper.store;
      clock = t.clock;
      standing = record { mask = t.mask.bits; last = t.last; blocks = t.blocks.list };
      marked = t.keeper.marked;
    } };

    ghost invariant = { λ t. IsTail (held (S.told t.keeper.store)) (record {
      mask = t.mask.bits;
      last = t.last;
      blocks = t.blocks.list;
    }) t.keeper.marked t.keeper.size × (t.version ≡ state t.blocks.list) };
}

impl<S: JournalStore, C> Tail<S, C> {
    /// The blocks of the journal. It takes no memory.
    pub fn blocks(&self) -> &Blocks
        ensures blocks { result.now.list ≡ self.now.standing.blocks }
        ensures standing { IsStanding self.now.standing }
    {
        self.blocks.blocks()
    }

    /// The tree over the hashes of the blocks. It takes no memory.
    pub fn grown(&self) -> &Grow
        ensures { result.now.leaves ≡ block_hashes self.now.standing.blocks }
    {
        self.blocks.tree()
    }

    /// The digest of the journal with its last block as the tip, or None if there is no block. It takes no memory and
    /// hashes nothing.
    pub fn digest(&self) -> Option<Digest>
        ensures { MatchOption result (self.now.standing.blocks ≡ [])
            (λ digest. IsDigest self.now.standing.blocks (length self.now.standing.blocks - 1) digest) }
    {
        undamaged_is_chained();
        self.blocks.digest()
    }

    /// What the tail keeps true. It does nothing.
    pub(crate) fn is_tail(&self)
        ensures stands { IsStanding self.now.standing }
        ensures mask { self.now.standing.mask < 2 ^ 128 }
        ensures clean { (self.now.marked ≡ true) ⊎ Holding self.now.standing.blocks (held (S.told self.now.store)) }
    {
        let _mask = self.mask.bits;
    }

    /// Appends a block, its line to the store first. After a fault the blocks are as before.
    pub(crate) fn append_block(&mut self, block: Block, text: Text) -> Result<(), Unkept>
        requires stands { IsStanding (joined self.old.standing block) }
        requires written { text ≡ line block }
        ensures { AppendLeaves S.told self.old self.new block result }
    {
        let version = self.version.after(&block)?;
        self.blocks.make_room()?;
        match self.keeper.keep_line(text.as_str().as_bytes()) {
            Ok(()) => {}
            Err(fault) => {
                return Err(Unkept {
                    fault,
                    tried: Some(Snapshot::of(&block)),
                });
            }
        }
        self.version = version;
        self.blocks.push(block);
        Ok(())
    }

    /// What the blocks stand for. It takes no memory.
    pub fn version(&self) -> &Versions
        ensures { result.now ≡ state self.now.standing.blocks }
    {
        &self.version
    }

    /// The version of the blocks, for a transaction to run on.
    pub(crate) fn share_version(&self) -> Result<Versions, OutOfMemory>
        ensures { IfOk result (λ version. version ≡ state self.now.standing.blocks) }
    {
        let version = self.version.share()?;
        Ok(version)
    }

    /// The blocks, the store and the clock. It takes no memory.
    pub fn into_parts(self) -> (Blocks, S, C)
        ensures blocks { result.0.list ≡ self.standing.blocks }
        ensures store { result.1 ≡ self.store }
        ensures clock { result.2 ≡ self.clock }
    {
        let Tail {
            keeper,
            clock,
            blocks,
            mask: _,
            last: _,
            version: _,
        } = self;
        let Keeper {
            store,
            size: _,
            marked: _,
        } = keeper;
        (blocks.into_blocks(), store, clock)
    }
}
