//! The block of a proof, by the hashes that lead up to the digest.
ghost use Rattle.std.specs.Prelude.{◌≡◌, ◌+◌, ◌<◌, ◌≤◌, ◌⊎◌, length, true, Some, slice_get, IfOk, IfSome, MatchResult};
ghost use Rattle.sha2.specs.Sha256.{sha256};
ghost use Rattle.hash_model.specs.Serialize.{hash_of};
ghost use Rattle.pad_tree.specs.Paths.{folded};
ghost use Rattle.ledger_model.specs.Damages.{has_hashes};
ghost use Rattle.ledger_model.specs.Journal.{header_value};
ghost use Rattle.proof_model.specs.Chained.{Chained};
ghost use Rattle.proof_model.specs.Issued as issued;
ghost use Rattle.proof_model.specs.Issued.{IsDigest};
ghost use Rattle.proof_model.specs.Verified.{path_length};
ghost use Rattle.proof_extract.specs.Climbs as spec;
ghost use Rattle.proof_extract.specs.Climbs.{AreItsChanges, HasHash, IsBlockOf, IsStacked};
ghost use Rattle.tree_descent.specs.Collisions.{IsStop};

use crate::climb::{Climb, above};
use crate::forms::{
    alike, block_at, changes_of, entries_of, header_form, previous_form, stop_at_pair,
};
use block_form::header_value;
use containers::{Bytes, OutOfMemory, Sequence};
use laws_descent::{four_fields_are_long, headers_agree};
use ledger_model::{Block, Header};
use pad_tree::Hashes;
use proof_model::{Digest, Proof};
use ql_types::Hash32;
use std::alloc::Global;
use tree_descent::{Stop, descend, not_a_pad, one_pair, pair_form, stop_if_different};

/// The hashes of the blocks up to the tip.
pub fn hashes_to(alloc: Global, blocks: &[Block], tip: u64) -> Result<Hashes, OutOfMemory>
    requires { tip < length blocks.now }
    ensures { IfOk result (λ hashes. hashes ≡ issued.hashes_to blocks.now tip) }
{
    let end = tip as usize + 1;
    let mut hashes = Sequence::new(alloc);
    'up_to: for block in &blocks[..end] {
        hashes.push(block.hash)?;
    }
    Ok(hashes)
}

/// The number of the block to which the proof leads down from the digest.
fn number_of(
    alloc: Global,
    blocks: &[Block],
    digest: &Digest,
    proof: &Proof,
    climbed: &Climb,
) -> Result<u64, Stop>
    requires within { digest.now.tip.sequence < length blocks.now }
    requires published { IsDigest blocks.now digest.now.tip.sequence digest.now }
    requires count { 1 ≤ proof.now.header.revisions }
    requires long { length proof.now.path ≡ path_length digest.now proof.now }
    requires stacked { IsStacked climbed.now }
    requires top { folded climbed.now.block (spec.above proof.now) ≡ digest.now.digest }
    ensures { MatchResult result (λ number. HasHash blocks.now number climbed.now.block) IsStop }
{
    let leaves = hashes_to(alloc, blocks, digest.tip.sequence)?;
    let end = descend(alloc, leaves.as_slice(), &climbed.block, above(proof))?;
    match end {
        Some(number) => Ok(number),
        None => {
            let form = pair_form(alloc, &climbed.entries, &climbed.previous)?;
            Err(not_a_pad(alloc, form))
        }
    }
}

/// What the hash of a block's entries, or the hash before it, is the hash of.
fn short_form(
    alloc: Global,
    blocks: &[Block],
    number: usize,
    block: &Block,
    hash: &Hash32,
) -> Result<Bytes, OutOfMemory>
    requires chained { Chained blocks.now }
    requires at { slice_get blocks.now number ≡ Some block.now }
    requires either { (hash.now ≡ block.now.entries) ⊎ (hash.now ≡ block.now.previous) }
    ensures form { IfOk result (λ form. sha256 form ≡ hash.now.bytes) }
    ensures short { IfOk result (λ form. length form ≤ 64) }
{
    if hash.bytes == block.entries.bytes {
        let entries = entries_of(block);
        let changes = changes_of(&entries);
        let pair = pair_form(alloc, &changes, &entries.header)?;
        return Ok(pair);
    }
    let form = previous_form(alloc, blocks, number, block)?;
    Ok(form)
}

/// Stops at the first block if the hash of the entries climbed to is the hash before it: two hashes are more bytes than
/// the id of a strand.
fn stop_at_first(
    alloc: Global,
    blocks: &[Block],
    number: usize,
    block: &Block,
    climbed: &Climb,
) -> Result<(), Stop>
    requires chained { Chained blocks.now }
    requires at { slice_get blocks.now number ≡ Some block.now }
    requires previous { climbed.now.entries ≡ block.now.previous }
    requires stacked { IsStacked climbed.now }
    ensures { MatchResult result (λ _. 1 ≤ number) IsStop }
{
    let form = previous_form(alloc, blocks, number, block)?;
    let pair = pair_form(alloc, &climbed.changes, &climbed.header)?;
    stop_if_different(pair, form)
}

/// Stops if the hash of the entries climbed to is the hash before the block of this number: a header is hashed as more
/// bytes than the hashes of a block.
fn stop_at_previous(
    alloc: Global,
    blocks: &[Block],
    number: usize,
    proof: &Proof,
    climbed: &Climb,
) -> Result<(), Stop>
    requires chained { Chained blocks.now }
    requires within { number < length blocks.now }
    requires previous { IfSome (slice_get blocks.now number) (λ b. climbed.now.entries ≡ b.previous) }
    requires stacked { IsStacked climbed.now }
    requires header { climbed.now.header ≡ hash_of (header_value proof.now.header) }
    ensures { MatchResult result (λ _. ⊥) IsStop }
{
    let block = block_at(blocks, number);
    stop_at_first(alloc, blocks, number, block, climbed)?;
    let before = block_at(blocks, number - 1);
    one_pair(
        alloc,
        &climbed.changes,
        &climbed.header,
        &before.entries,
        &before.previous,
    )?;
    four_fields_are_long();
    let short = short_form(alloc, blocks, number - 1, before, &climbed.header)?;
    let long = header_form(alloc, &proof.header)?;
    stop_if_different(long, short)
}

/// The hash of the entries climbed to is that of the block of this number.
fn same_entries(
    alloc: Global,
    blocks: &[Block],
    number: usize,
    proof: &Proof,
    climbed: &Climb,
) -> Result<(), Stop>
    requires chained { Chained blocks.now }
    requires hash { HasHash blocks.now number climbed.now.block }
    requires stacked { IsStacked climbed.now }
    requires header { climbed.now.header ≡ hash_of (header_value proof.now.header) }
    ensures { MatchResult result (λ _. IfSome (slice_get blocks.now number) (λ b. climbed.now.entries ≡ b.entries))
        IsStop }
{
    let block = block_at(blocks, number);
    one_pair(
        alloc,
        &climbed.entries,
        &climbed.previous,
        &block.entries,
        &block.previous,
    )?;
    if climbed.entries.bytes == block.entries.bytes {
        return Ok(());
    }
    stop_at_previous(alloc, blocks, number, proof, climbed)
}

/// Returns if the climb met the block's header and its changes.
///
/// It stops if the hash of the header, or that of the transaction's info with the revisions, is another one.
fn same_changes(alloc: Global, block: &Block, climbed: &Climb) -> Result<(), Stop>
    requires hashes { has_hashes block.now ≡ true }
    requires entries { climbed.now.entries ≡ block.now.entries }
    requires stacked { IsStacked climbed.now }
    ensures { MatchResult result (λ _. AreItsChanges block.now climbed.now) IsStop }
{
    let entries = entries_of(block);
    let changes = changes_of(&entries);
    one_pair(
        alloc,
        &climbed.changes,
        &climbed.header,
        &changes,
        &entries.header,
    )?;
    if climbed.changes.bytes == changes.bytes {
        return Ok(());
    }
    four_fields_are_long();
    let header = header_value(alloc, &block.header)?;
    stop_at_pair(alloc, &climbed.root, &climbed.said, &header)
}

/// Two headers of one hash have one sequence number and one count of revisions.
fn same_header(alloc: Global, a: &Header, b: &Header) -> Result<(), Stop>
    requires { hash_of (header_value a.now) ≡ hash_of (header_value b.now) }
    ensures { MatchResult result (λ _. (a.now.address.sequence ≡ b.now.address.sequence)
        × (a.now.revisions ≡ b.now.revisions)) IsStop }
{
    headers_agree();
    let v = header_value(alloc, a)?;
    let w = header_value(alloc, b)?;
    alike(alloc, &v, &w)
}

/// The number of the block of the proof's header, of which the hashes climbed to are the block's own.
pub fn block_of(
    alloc: Global,
    blocks: &[Block],
    digest: &Digest,
    proof: &Proof,
    climbed: &Climb,
) -> Result<usize, Stop>
    requires chained { Chained blocks.now }
    requires within { digest.now.tip.sequence < length blocks.now }
    requires published { IsDigest blocks.now digest.now.tip.sequence digest.now }
    requires count { 1 ≤ proof.now.header.revisions }
    requires long { length proof.now.path ≡ path_length digest.now proof.now }
    requires stacked { IsStacked climbed.now }
    requires header { climbed.now.header ≡ hash_of (header_value proof.now.header) }
    requires top { folded climbed.now.block (spec.above proof.now) ≡ digest.now.digest }
    ensures { MatchResult result (IsBlockOf blocks.now proof.now climbed.now) IsStop }
{
    let found = number_of(alloc, blocks, digest, proof, climbed)?;
    let number = found as usize;
    same_entries(alloc, blocks, number, proof, climbed)?;
    let block = block_at(blocks, number);
    same_changes(alloc, block, climbed)?;
    same_header(alloc, &proof.header, &block.header)?;
    Ok(number)
}
