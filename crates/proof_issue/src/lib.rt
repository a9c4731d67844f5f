//! The digest of a journal, and the proofs of its revisions.
#![tactic(auto)]

ghost use Rattle.std.specs.Prelude.{◌≡◌, ◌<◌, true, List, ◌++◌, length, slice_get, IfOk, IfSome, MatchResult, OnOk};
ghost use Rattle.hash_model.specs.Tree.{root_of};
ghost use Rattle.ledger_model.specs.declared.block.Block.{Block};
ghost use Rattle.ledger_model.specs.Damages.{has_hashes};
ghost use Rattle.ledger_model.specs.Seals.{info_hash};
ghost use Rattle.proof_model.specs.Chained.{Chained, IsLinked};
ghost use Rattle.proof_model.specs.Issued.{hashes_to, IsDigest, proof_for, IsAccepted};
ghost use Rattle.proof_issue.specs.Parts as parts;
ghost use Rattle.proof_issue.specs.Refusals as spec;

mod grown;

use containers::Sequence;
pub use grown::prove_grown;
use ion_values::OutOfMemory;
use ledger_model::{Block, Blocks};
use pad_tree::{Hashes, path, root};
use proof_model::{Digest, Proof, proofs_verify, revision_hashes};
use ql_types::{Hash, Hash32};
use std::alloc::Global;

/// Why there is no such digest or proof.
#[derive(Clone, Copy, Debug, PartialEq, Eq)]
pub enum NoSuch {
    /// There are `blocks` blocks, and none of this number.
    Block { sequence: u64, blocks: u64 },
    /// The block has `count` revisions, and none of this index.
    Revision { index: u32, count: u32 },
    /// The block is behind the tip.
    PastTip { sequence: u64, tip: u64 },
    /// The allocator had no memory left.
    OutOfMemory,
}

impl From<OutOfMemory> for NoSuch {
    ghost use Rattle.std.specs.Prelude.{◌≡◌};
    ghost use Rattle.proof_issue.specs.declared.NoSuch.TheVariants as none_such;

    ghost from_gives = { λ _ e. e ≡ none_such.OutOfMemory };

    fn from(_error: OutOfMemory) -> NoSuch {
        NoSuch::OutOfMemory
    }
}

/// The revision that is asked for, by its block's number and its index there, and the tip of the digest.
#[derive(Clone, Copy)]
struct Wanted {
    sequence: u64,
    index: u32,
    tip: u64,
}

/// The refusal where no block has this number.
fn past_end(blocks: &Blocks, number: u64) -> Option<NoSuch>
    ensures { result ≡ spec.past_end blocks.now.list number }
{
    let len = blocks.len();
    if len <= number {
        return Some(NoSuch::Block {
            sequence: number,
            blocks: len,
        });
    }
    None
}

/// The refusal where no revision of the block has this index.
fn past_revisions(block: &Block, index: u32) -> Option<NoSuch>
    ensures { result ≡ spec.past_revisions (Some block.now) index }
{
    let count = block.header.revisions;
    if count <= index {
        return Some(NoSuch::Revision { index, count });
    }
    None
}

/// The block of the revision, where there is such a revision and its block isn't past the tip.
fn block_of(blocks: &Blocks, wanted: Wanted) -> Result<&Block, NoSuch>
    ensures there { IfOk result (λ block.
        spec.IsThere blocks.now.list block.now wanted.sequence wanted.index wanted.tip) }
    ensures refused { MatchResult result (λ _. spec.refusal blocks.now.list wanted.sequence wanted.index wanted.tip
        ≡ None)
        (λ e. spec.refusal blocks.now.list wanted.sequence wanted.index wanted.tip ≡ Some e) }
{
    let Wanted {
        sequence,
        index,
        tip,
    } = wanted;
    if let Some(refused) = past_end(blocks, tip) {
        return Err(refused);
    }
    let Some(block) = blocks.get(sequence) else {
        return Err(NoSuch::Block {
            sequence,
            blocks: blocks.len(),
        });
    };
    if tip < sequence {
        return Err(NoSuch::PastTip { sequence, tip });
    }
    match past_revisions(block, index) {
        Some(refused) => Err(refused),
        None => Ok(block),
    }
}

/// The hashes of the blocks up to the tip.
fn hashes_to(alloc: Global, blocks: &[Block], tip: u64) -> Result<Hashes, OutOfMemory>
    requires { tip < length blocks.now }
    ensures { IfOk result (λ hashes. hashes ≡ hashes_to blocks.now tip) }
{
    let end = tip as usize + 1;
    let mut hashes = Sequence::new(alloc);
    'up_to: for block in &blocks[..end] {
        hashes.push(block.hash)?;
    }
    Ok(hashes)
}

/// The root of the tree over these leaves, of which there is one at least.
fn root_over(alloc: Global, leaves: &[Hash32]) -> Result<Hash32, OutOfMemory>
    requires { 0 < length leaves.now }
    ensures { IfOk result (λ h. Hash.Full h ≡ root_of leaves.now) }
{
    match root(alloc, leaves)? {
        Hash::Full(root) => Ok(root),
        Hash::Empty => unreachable!(),
    }
}

/// The digest of a chained journal with this tip: the root of the tree over the hashes of its blocks up to the tip,
/// counted from 0. There is none exactly where no block has the tip's number.
pub fn digest(alloc: Global, blocks: &Blocks, tip: u64) -> Result<Digest, NoSuch>
    requires { Chained blocks.now.list }
    ensures digest { IfOk result (λ d. IsDigest blocks.now.list tip d) }
    ensures refused { MatchResult result (λ _. spec.past_end blocks.now.list tip ≡ None) (λ e.
        spec.IsRefused (spec.past_end blocks.now.list tip) e) }
{
    if let Some(refused) = past_end(blocks, tip) {
        return Err(refused);
    }
    let Some(last) = blocks.get(tip) else {
        unreachable!();
    };
    let hashes = hashes_to(alloc, blocks.as_slice(), tip)?;
    let digest = root_over(alloc, hashes.as_slice())?;
    Ok(Digest {
        digest,
        tip: last.header.address,
    })
}

/// The hash of what the block's transaction said and did.
fn info_hash(block: &Block) -> Hash32
    requires { has_hashes block.now ≡ true }
    ensures { result ≡ info_hash block.now.info block.now.revisions }
{
    match block.list[0] {
        Hash::Full(info) => info,
        Hash::Empty => unreachable!(),
    }
}

/// Puts hashes behind the others.
fn put_all(hashes: &mut Hashes, more: &[Hash32]) -> Result<(), OutOfMemory>
    ensures { OnOk result (hashes.new ≡ hashes.old ++ more.now) }
{
    'more: for hash in more {
        hashes.push(*hash)?;
    }
    Ok(())
}

/// The proof of a revision of this block, with the path from the block up to the digest.
fn proof_with(
    alloc: Global,
    block: &Block,
    index: u32,
    above: &[Hash32],
) -> Result<Proof, OutOfMemory>
    requires there { index < block.now.header.revisions }
    requires linked { (before : List Block) × IsLinked before block.now }
    ensures { IfOk result (λ p. p ≡ parts.proof_with block.now index above.now) }
{
    let leaves = revision_hashes(alloc, block.revisions.as_slice())?;
    let mut hashes = path(alloc, leaves.as_slice(), u64::from(index))?;
    hashes.push(info_hash(block))?;
    hashes.push(block.previous)?;
    put_all(&mut hashes, above)?;
    Ok(Proof {
        header: block.header,
        index,
        path: hashes,
    })
}

/// The proof of a revision of this block, which is one of these.
fn proof_of(
    alloc: Global,
    blocks: &[Block],
    block: &Block,
    wanted: Wanted,
) -> Result<Proof, OutOfMemory>
    requires there { spec.IsThere blocks.now block.now wanted.sequence wanted.index wanted.tip }
    requires linked { (before : List Block) × IsLinked before block.now }
    ensures { IfOk result (λ p. p ≡ proof_for blocks.now block.now wanted.sequence wanted.index wanted.tip) }
{
    let tips = hashes_to(alloc, blocks, wanted.tip)?;
    let above = path(alloc, tips.as_slice(), wanted.sequence)?;
    let proof = proof_with(alloc, block, wanted.index, above.as_slice())?;
    Ok(proof)
}

/// The proof of a revision of a chained journal, by its block's number and its index there, both counted from 0, for
/// the digest with this tip. There is none exactly where, in this order, the tip is no block's number, the number is no
/// block's, the block is past the tip, or the index is no revision's. The proof is accepted for each revision that has
/// its block's address, as each has in an undamaged journal.
pub fn prove(
    alloc: Global,
    blocks: &Blocks,
    sequence: u64,
    index: u32,
    tip: u64,
) -> Result<Proof, NoSuch>
    requires { Chained blocks.now.list }
    ensures proof { IfOk result (λ p. IfSome (slice_get blocks.now.list sequence) (λ b.
        p ≡ proof_for blocks.now.list b sequence index tip)) }
    ensures accepted { IfOk result (λ p. IsAccepted blocks.now.list sequence index tip p) }
    ensures refused { MatchResult result (λ _. spec.refusal blocks.now.list sequence index tip ≡ None)
        (λ e. spec.IsRefused (spec.refusal blocks.now.list sequence index tip) e) }
{
    proofs_verify();
    let wanted = Wanted {
        sequence,
        index,
        tip,
    };
    let block = block_of(blocks, wanted)?;
    let proof = proof_of(alloc, blocks.as_slice(), block, wanted)?;
    Ok(proof)
}
