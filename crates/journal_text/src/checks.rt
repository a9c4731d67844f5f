//! The checks of a block behind the blocks before it: where it stands, whose it is and when it was made.
ghost use Rattle.std.specs.Prelude.{◌≡◌, ◌&&◌, ◌==◌, ◌^◌, nat_le, nat_lt, List, [], ◌∷◌, ◌++◌, None, IfOk};
ghost use Rattle.std.specs.Option.{option_copied};
ghost use Rattle.ql_types.specs.Ids.{transaction_in, thing_in};
ghost use Rattle.ledger_model.specs.Legal.{last_hash};
ghost use Rattle.ledger_model.specs.declared.block.Block.{Block};
ghost use Rattle.ledger_model.specs.Damages as spec;
ghost use Rattle.journal_text.specs.Stands.{Stands};

use crate::registry::Registry;
use block_form::strand_hash;
use ion_values::OutOfMemory;
use ledger_model::{Block, Damage};
use ql_types::{Hash32, IdMask, StrandId, TxId, id_parts};
use std::alloc::Global;

/// The strand of a journal is that of its first block.
fn strand_of(before: &[Block], block: &Block) -> StrandId
    ensures { result.raw ≡ spec.strand_of before.now block.now }
{
    match before {
        [first, ..] => first.header.address.strand,
        [] => block.header.address.strand,
    }
}

/// Whether the block's address is the place behind these blocks, of which there are not too many.
fn has_address(strand: StrandId, before: &[Block], block: &Block) -> bool
    ensures { result ≡ spec.has_address strand.raw before.now block.now }
{
    let place = before.len() as u64;
    block.header.address.sequence == place
        && place <= 4_294_967_294
        && block.header.address.strand.raw == strand.raw
}

/// Whether the id is that of a transaction of the strand, from 1 on.
fn is_transaction(strand: StrandId, tx: TxId) -> bool
    ensures { result ≡ (nat_le 1 (transaction_in strand.raw tx.raw)
        && nat_lt (transaction_in strand.raw tx.raw) (2 ^ 64) && (thing_in strand.raw tx.raw == 0)) }
{
    match id_parts(IdMask { bits: strand.raw }, tx.raw) {
        Some((number, thing)) => 1 <= number && thing == 0,
        None => false,
    }
}

/// Whether the id is that of a transaction of the strand, from 1 on, and no earlier block has it.
fn has_id(registry: &Registry, strand: StrandId, block: &Block) -> bool
    ensures { (before : List Block) → Stands strand.raw before registry.now
        → result ≡ spec.has_id strand.raw before block.now }
{
    let tx = block.header.tx;
    is_transaction(strand, tx) && !registry.has_transaction(tx)
}

fn last_block(before: &[Block]) -> Option<&Block>
    ensures { option_copied result ≡ spec.last_block before.now }
{
    match before {
        [.., last] => Some(last),
        [] => None,
    }
}

/// Whether the block isn't older than the last one.
fn has_time(before: &[Block], block: &Block) -> bool
    ensures { result ≡ spec.has_time before.now block.now }
{
    match last_block(before) {
        Some(last) => last.header.time.instant() <= block.header.time.instant(),
        None => true,
    }
}

/// The hash of the last block, or of the strand where there is none.
fn last_hash(alloc: Global, strand: StrandId, before: &[Block]) -> Result<Hash32, OutOfMemory>
    ensures { IfOk result (λ hash. hash ≡ last_hash strand.raw before.now) }
{
    match last_block(before) {
        Some(last) => Ok(last.hash),
        None => strand_hash(alloc, strand),
    }
}

/// Whether the block's previous hash is that of the last block, or of the strand where there is none.
fn has_previous(
    alloc: Global,
    strand: StrandId,
    before: &[Block],
    block: &Block,
) -> Result<bool, OutOfMemory>
    ensures { IfOk result (λ b. b ≡ spec.has_previous strand.raw before.now block.now) }
{
    let last = last_hash(alloc, strand, before)?;
    Ok(block.previous.bytes == last.bytes)
}

/// The first check that the block fails after these blocks.
///
/// The registry is that of the blocks, and whether the block's hashes hold was seen before. If the block fails no
/// check, the registry has taken it in; else, and if memory ran out, the registry is of no more use.
pub(crate) fn damage_of(
    alloc: Global,
    registry: &mut Registry,
    before: &[Block],
    block: &Block,
    hashes_hold: bool,
) -> Result<Option<Damage>, OutOfMemory>
    requires stands { Stands (spec.strand_of before.now block.now) before.now registry.old }
    requires hashes { hashes_hold ≡ spec.has_hashes block.now }
    ensures kind { IfOk result (λ kind. kind ≡ spec.damage_behind before.now block.now) }
    ensures stands { IfOk result (λ kind. kind ≡ None → Stands (spec.strand_of before.now block.now) (before.now
        ++ block.now ∷ []) registry.new) }
{
    let strand = strand_of(before, block);
    if !has_address(strand, before, block) {
        return Ok(Some(Damage::WrongAddress));
    }
    if !has_id(registry, strand, block) {
        return Ok(Some(Damage::WrongId));
    }
    if !has_time(before, block) {
        return Ok(Some(Damage::TimeFell));
    }
    if !has_previous(alloc, strand, before, block)? {
        return Ok(Some(Damage::WrongPrevious));
    }
    if !hashes_hold {
        return Ok(Some(Damage::WrongHash));
    }
    if !registry.admit(alloc, strand, before, block)? {
        return Ok(Some(Damage::WrongState));
    }
    Ok(None)
}
