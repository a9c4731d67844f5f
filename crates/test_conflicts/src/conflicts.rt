//! The first block that touches something of a footprint.
ghost use Rattle.std.specs.Prelude.{◌≡◌, IfOk};
ghost use Rattle.ledger_model.specs.State.{after, state};

use crate::four_blocks::FOUR_BLOCKS;
use crate::items::{items, put_braced};
use containers::Boxed;
use ion_values::{Field, OutOfMemory, Text};
use journal_text::read_journal;
use ledger_model::{Block, Item, Named};
use occ_check::first_conflict;
use std::alloc::Global;
use test_rows::{list_in, named, number_in, put_number};
use versions::Versions;

/// The state after one block more. A version on the heap is dropped by a call, in place of its parts one by one.
fn state_behind(
    alloc: Global,
    now: &Boxed<Versions>,
    block: &Block,
) -> Result<Boxed<Versions>, OutOfMemory>
    ensures { IfOk result (λ next. next ≡ after now.now block.now) }
{
    let next = now.get().after(block)?;
    let boxed = Boxed::new(alloc, next)?;
    Ok(boxed)
}

/// The state after the blocks.
pub fn state_of(alloc: Global, blocks: &[Block]) -> Result<Boxed<Versions>, OutOfMemory>
    ensures { IfOk result (λ now. now ≡ state blocks.now) }
{
    let mut now = Boxed::new(alloc, Versions::empty(alloc))?;
    'followed: for block in blocks {
        let next = state_behind(alloc, &now, block)?;
        now = next;
    }
    Ok(now)
}

/// The four lines and later ones.
pub fn lines_of(alloc: Global, later: &str) -> Option<Text> {
    let mut text = Text::from_text(alloc, FOUR_BLOCKS).ok()?;
    text.push_str(later).ok()?;
    Some(text)
}

/// The first conflict of a transaction that began after `since` blocks and read these items.
fn conflict_in(alloc: Global, lines: &str, since: u64, items: &[Item]) -> Option<Option<Named>> {
    let (blocks, _) = read_journal(alloc, lines.as_bytes()).ok()?;
    let now = state_of(alloc, blocks.as_slice()).ok()?;
    if blocks.len() < since {
        return None;
    }
    first_conflict(alloc, items, &blocks, since, now.get()).ok()
}

/// How many blocks a row's transaction began behind: four, or as many as the row says.
fn since_in(more: &[Field]) -> Option<u64> {
    match named(more, "since") {
        Some(since) => u64::try_from(number_in(since)?).ok(),
        None => Some(4),
    }
}

/// Puts the first block that touches one of the items that were read, and the item.
pub fn put_first(alloc: Global, later: &str, more: &[Field], out: &mut Text) -> Option<()> {
    let lines = lines_of(alloc, later)?;
    let items = items(alloc, list_in(named(more, "read")?)?)?;
    let found = conflict_in(alloc, lines.as_str(), since_in(more)?, items.as_slice())?;
    put_named(alloc, found, out).ok()
}

fn put_named(alloc: Global, found: Option<Named>, out: &mut Text) -> Result<(), OutOfMemory> {
    match &found {
        None => out.push_str("none"),
        Some(named) => {
            put_number(alloc, out, i128::from(named.block))?;
            out.push_str(" ")?;
            put_braced(alloc, &named.item, out)
        }
    }
}
