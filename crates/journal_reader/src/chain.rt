//! The blocks of a journal, and the tree over their hashes that grows with them.
ghost use Rattle.std.specs.Prelude.{◌≡◌, ◌-◌, ◌<◌, ◌≤◌, ◌^◌, ◌∷◌, ◌++◌, [], length, IfOk, OnOk, MatchOption};
ghost use Rattle.proof_model.specs.Chained.{Chained};
ghost use Rattle.proof_model.specs.Issued.{block_hashes, IsDigest};

use containers::Sequence;
use ion_values::OutOfMemory;
use ledger_model::{Block, Blocks};
use pad_tree::{Grow, Hashes};
use proof_model::Digest;
use ql_types::{Hash, Steps};
use std::alloc::Global;
use std::marker::Model;

/// The blocks of a journal in order, and the tree over their hashes. Contracts see the blocks as `list`, and beside it
/// `spare`, the number of blocks for which there is room already.
#[derive(Drop)]
pub struct Chain {
    blocks: Blocks,
    grow: Grow,
}

impl Model for Chain {
    ghost use Rattle.std.specs.Prelude.{◌≡◌, min};
    ghost use Rattle.std.specs.Coded.{codes};
    ghost use Rattle.ledger_model.specs.Rooms.{Kept};
    ghost use Rattle.ledger_model.specs.contracts.block.Block as block;
    ghost use Rattle.proof_model.specs.Issued.{block_hashes};

    ghost Value = { Kept };

    ghost coded = { Prim.hlevel (codes, block.the_row.coded) };

    ghost view = { λ c. record { list = c.blocks.list; spare = min c.blocks.spare c.grow.spare } };

    ghost invariant = { λ c. c.grow.leaves ≡ block_hashes c.blocks.list };
}

impl Chain {
    /// The chain of these blocks.
    pub fn of(alloc: Global, blocks: Blocks) -> Result<Chain, OutOfMemory>
        requires { length blocks.list < 2 ^ 32 }
        ensures { IfOk result (λ chain. chain.list ≡ blocks.list) }
    {
        let grow = tree_of(alloc, blocks.as_slice())?;
        Ok(Chain { blocks, grow })
    }

    /// The blocks, lent.
    pub fn as_slice(&self) -> &[Block]
        ensures { result.now ≡ self.now.list }
    {
        self.blocks.as_slice()
    }

    /// The blocks, lent as the list that they are kept in.
    pub fn blocks(&self) -> &Blocks
        ensures { result.now.list ≡ self.now.list }
    {
        &self.blocks
    }

    /// The tree over the blocks' hashes, lent.
    pub fn tree(&self) -> &Grow
        ensures { result.now.leaves ≡ block_hashes self.now.list }
    {
        &self.grow
    }

    /// The digest of a chained journal with its last block as the tip, or None where there is no block. It takes no
    /// memory and hashes nothing.
    pub fn digest(&self) -> Option<Digest>
        requires { Chained self.now.list }
        ensures { MatchOption result (self.now.list ≡ [])
            (λ digest. IsDigest self.now.list (length self.now.list - 1) digest) }
    {
        let last = self.blocks.as_slice().last()?;
        match self.grow.root() {
            Hash::Full(digest) => Some(Digest {
                digest,
                tip: last.header.address,
            }),
            Hash::Empty => None,
        }
    }

    /// Makes room for one block more, where there is none.
    pub fn make_room(&mut self) -> Result<(), OutOfMemory>
        ensures list { self.new.list ≡ self.old.list }
        ensures spare { OnOk result (1 ≤ self.new.spare) }
    {
        self.blocks.make_room()?;
        self.grow.ready()?;
        Ok(())
    }

    /// Puts a block at the end. It takes no memory.
    pub fn push(&mut self, block: Block)
        requires room { 1 ≤ self.old.spare }
        requires few { length self.old.list < 2 ^ 32 }
        ensures { self.new.list ≡ self.old.list ++ block ∷ [] }
    {
        self.grow.put(block.hash, &mut Steps { taken: 0 });
        self.blocks.push(block).unwrap();
    }

    /// The blocks. It takes no memory.
    pub fn into_blocks(self) -> Blocks
        ensures { result.list ≡ self.list }
    {
        let Chain { blocks, grow: _ } = self;
        blocks
    }
}

/// The hashes of the blocks, in order.
fn hashes_of(alloc: Global, blocks: &[Block]) -> Result<Hashes, OutOfMemory>
    ensures { IfOk result (λ hashes. hashes ≡ block_hashes blocks.now) }
{
    let mut hashes = Vec::with_capacity(alloc, blocks.len())?;
    'each: for block in blocks {
        hashes.push(block.hash)?;
    }
    Ok(Sequence::from_vec(hashes))
}

/// The tree over the blocks' hashes, made of all of them at once.
fn tree_of(alloc: Global, blocks: &[Block]) -> Result<Grow, OutOfMemory>
    requires { length blocks.now < 2 ^ 32 }
    ensures { IfOk result (λ tree. tree.leaves ≡ block_hashes blocks.now) }
{
    let hashes = hashes_of(alloc, blocks)?;
    let tree = Grow::of(alloc, hashes, &mut Steps { taken: 0 })?;
    Ok(tree)
}
