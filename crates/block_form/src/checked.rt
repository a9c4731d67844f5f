//! Blocks that values spell, with their hashes checked.
ghost use Rattle.std.specs.Prelude.{◌≡◌, IfOk};
ghost use Rattle.block_form.specs.Hashed.{IsCheckedAs};

use crate::hash_checks::has_hashes;
use crate::part_hashes::part_hashes_in;
use crate::read_blocks::into_block;
use ion_values::{OutOfMemory, Value};
use ledger_model::Block;
use std::alloc::Global;

/// A block that was read, and whether each of its hashes is that of its contents.
#[derive(Drop)]
pub struct CheckedBlock {
    pub block: Block,
    pub hashes_hold: bool,
}

/// The whole block whose value this is, of the parts of the value, and whether its hashes hold. What it said and did,
/// and the metadata of its revisions, are hashed as they stand in the value.
pub fn checked_from_ion(alloc: Global, v: Value) -> Result<Option<CheckedBlock>, OutOfMemory>
    ensures { IfOk result (λ found. IsCheckedAs v found) }
{
    let Some(parts) = part_hashes_in(alloc, &v)? else {
        return Ok(None);
    };
    let Some(block) = into_block(alloc, v)? else {
        return Ok(None);
    };
    let hashes_hold = has_hashes(alloc, &block, &parts)?;
    Ok(Some(CheckedBlock { block, hashes_hold }))
}
