//! Blocks without what is redacted.
ghost use Rattle.std.specs.Prelude.{◌≡◌, ◌∷◌, List, length, IfOk};
ghost use Rattle.std.specs.List.{list_any};
ghost use Rattle.ledger_model.specs.Compaction as spec;
ghost use Rattle.ledger_model.specs.Damages.{Undamaged};
ghost use Rattle.ledger_model.specs.HashesAsked.{AreAsked, redacts_any};
ghost use Rattle.ledger_model.specs.declared.block.Block as declared;
ghost use Rattle.redact_tool.specs.Redacting.{AreRedactions};

use crate::compacting::{shown_info, shown_revisions};
use crate::redactions::{Redactions, front};
use block_copies::block_with;
use ion_values::OutOfMemory;
use ledger_model::{Block, Blocks};
use std::alloc::Global;

/// The block without what is redacted, with its statements' hash in their place or not.
pub fn compacted_block(
    alloc: Global,
    redactions: &Redactions,
    hides: bool,
    block: &Block,
) -> Result<Block, OutOfMemory>
    requires { length block.now.info.tables ≡ length block.now.revisions }
    ensures { (blocks later : List declared.Block) → AreRedactions blocks redactions.now
        → hides ≡ list_any redacts_any (block.now ∷ later)
        → IfOk result (λ b. b ≡ spec.compacted_block blocks block.now later) }
{
    let info = shown_info(alloc, hides, &block.info)?;
    let tables = block.info.tables.as_slice();
    let revisions = shown_revisions(alloc, redactions, tables, block.revisions.as_slice())?;
    Ok(block_with(block, info, revisions))
}

/// The journal without the bytes of what its blocks redact.
///
/// Each redacted revision has its data's hash in place of the data, and each block up to the last that redacts anything
/// the hash of its statements in their place. All else is as it was, and so are all hashes.
pub fn compact(alloc: Global, blocks: &Blocks) -> Result<Blocks, OutOfMemory>
    requires undamaged { Undamaged blocks.now.list }
    requires asked { AreAsked blocks.now.list }
    ensures { IfOk result (λ made. made.list ≡ spec.compacted blocks.now.list) }
{
    let all = blocks.as_slice();
    let redactions = Redactions::of(alloc, all)?;
    let front = front(all);
    let mut made = Blocks::new(alloc);
    'each: for at in 0..all.len() {
        made.push(compacted_block(alloc, &redactions, at < front, &all[at])?)?;
    }
    Ok(made)
}
