//! The detection of conflicts: the first block behind a transaction's begin that touches something that it read.
#![tactic(auto)]

ghost use Rattle.std.specs.Prelude.{◌≡◌, ◌≤◌, length, IfOk};
ghost use Rattle.std.specs.List.{find};
ghost use Rattle.std.specs.Option.{option_copied};
ghost use Rattle.ledger_model.specs.Damages.{Undamaged};
ghost use Rattle.ledger_model.specs.State.{state};
ghost use Rattle.laws_footprint.specs.Touches.{conflict};
ghost use Rattle.occ_check.specs.Behind.{block_touches};

mod copies;
mod touches;

use crate::copies::copy_item;
use crate::touches::{Journal, block_touches};
use ion_values::OutOfMemory;
use ledger_model::{Block, Blocks, Item, Named};
use std::alloc::Global;
use versions::Versions;

/// The first block from `since` on that touches an item of the footprint, or None if there is none.
///
/// The first such item comes with it. `now` stands for all blocks of the undamaged journal. Each block from `since`
/// on is looked at once for each item; what stood before them is looked up, and taken from the blocks.
pub fn first_conflict(
    alloc: Global,
    footprint: &[Item],
    blocks: &Blocks,
    since: u64,
    now: &Versions,
) -> Result<Option<Named>, OutOfMemory>
    requires undamaged { Undamaged blocks.now.list }
    requires stands { now.now ≡ state blocks.now.list }
    requires since { since ≤ length blocks.now.list }
    ensures { IfOk result (λ found. found ≡ conflict blocks.now.list since footprint.now) }
{
    let journal = Journal {
        blocks: blocks.as_slice(),
        now,
    };
    'later: for number in since..blocks.len() {
        let Some(block) = blocks.get(number) else {
            unreachable!()
        };
        if let Some(item) = first_touched(alloc, journal, block, footprint)? {
            return Ok(Some(Named {
                block: number,
                item: copy_item(alloc, item)?,
            }));
        }
    }
    Ok(None)
}

/// The first of the items that the block touches.
fn first_touched<'a>(
    alloc: Global,
    journal: Journal<'_>,
    block: &Block,
    items: &'a [Item],
) -> Result<Option<&'a Item>, OutOfMemory>
    ensures { IfOk result (λ found. option_copied found
        ≡ find (block_touches journal.entry.blocks.now journal.entry.now.now block.now) items.now) }
{
    'items: for item in items {
        if block_touches(alloc, journal, block, item)? {
            return Ok(Some(item));
        }
    }
    Ok(None)
}
