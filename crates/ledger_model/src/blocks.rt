//! The blocks of a journal in order.
ghost use Rattle.std.specs.Prelude.{◌≡◌, ◌+◌, ◌<◌, ◌≤◌, [], ◌∷◌, ◌++◌, length, slice_get, IsOk, OnOk, OnErr};
ghost use Rattle.std.specs.Option.{option_copied};

use crate::block::Block;
use ion_values::OutOfMemory;
use std::alloc::Global;
use std::marker::Model;

/// The blocks of a journal in order. Contracts see them as `list`, and beside it `spare`, the number of blocks for
/// which there is room already.
#[derive(Drop)]
pub struct Blocks {
    items: Vec<Block>,
    spare: usize,
}

impl Model for Blocks {
    ghost use Rattle.std.specs.Prelude.{◌+◌, ◌≤◌};
    ghost use Rattle.std.specs.Vec.{vec_len, vec_capacity};
    ghost use Rattle.ledger_model.specs.contracts.block.Block as block;
    ghost use Rattle.ledger_model.specs.Rooms.{Kept};
    ghost use Rattle.std.specs.Coded.{codes};

    ghost Value = { Kept };

    ghost coded = { Prim.hlevel (codes, block.the_row.coded) };

    ghost view = { λ b. record { list = b.items.items; spare = b.spare } };

    ghost invariant = { λ b. vec_len b.items + b.spare ≤ vec_capacity b.items };
}

impl Blocks {
    /// No blocks. It takes no memory.
    pub fn new(alloc: Global) -> Blocks
        ensures list { result.list ≡ [] }
        ensures spare { result.spare ≡ 0 }
    {
        Blocks {
            items: Vec::new(alloc),
            spare: 0,
        }
    }

    /// How many blocks there are.
    pub fn len(&self) -> u64
        ensures { result ≡ length self.now.list }
    {
        self.items.len() as u64
    }

    /// The block of this number, counted from 0, or None past the end.
    pub fn get(&self, number: u64) -> Option<&Block>
        ensures { option_copied result ≡ slice_get self.now.list number }
    {
        self.items.get(number as usize)
    }

    /// The blocks, lent.
    pub fn as_slice(&self) -> &[Block]
        ensures { result.now ≡ self.now.list }
    {
        self.items.as_slice()
    }

    /// Puts a block at the end. Where there is room already, it does, and the room is less by one.
    pub fn push(&mut self, block: Block) -> Result<(), OutOfMemory>
        ensures pushed { OnOk result (self.new.list ≡ self.old.list ++ block ∷ []) }
        ensures kept { OnErr result (self.new.list ≡ self.old.list) }
        ensures taken { 0 < self.old.spare → IsOk result × (self.new.spare + 1 ≡ self.old.spare) }
    {
        self.items.push(block)?;
        self.spare = self.spare.saturating_sub(1);
        Ok(())
    }

    /// Makes room for one block more, where there is none.
    pub fn make_room(&mut self) -> Result<(), OutOfMemory>
        ensures list { self.new.list ≡ self.old.list }
        ensures spare { OnOk result (1 ≤ self.new.spare) }
    {
        if self.spare == 0 {
            self.items.reserve(1)?;
            self.spare = 1;
        }
        Ok(())
    }
}
