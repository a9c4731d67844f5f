//! Proofs by a tree that grows with its journal.
ghost use Rattle.std.specs.Prelude.{◌≡◌, ◌-◌, None, length, slice_get, IfOk, IfSome, MatchResult};
ghost use Rattle.proof_model.specs.Chained.{Chained};
ghost use Rattle.proof_model.specs.Issued.{block_hashes, proof_for, IsAccepted};
ghost use Rattle.proof_issue.specs.Refusals as spec;

use crate::{NoSuch, Wanted, block_of, proof_with};
use ledger_model::{Block, Blocks};
use pad_tree::Grow;
use proof_model::{Proof, proofs_verify};
use std::alloc::Global;

/// The block of the revision, where there is such a revision.
fn block_at(blocks: &Blocks, sequence: u64, index: u32) -> Result<&Block, NoSuch>
    ensures there { IfOk result (λ block. spec.IsThere blocks.now.list block.now sequence index
        (length blocks.now.list - 1)) }
    ensures refused { MatchResult result (λ _. spec.refusal_at_end blocks.now.list sequence index ≡ None)
        (λ e. spec.refusal_at_end blocks.now.list sequence index ≡ Some e) }
{
    let len = blocks.len();
    if len == 0 {
        return Err(NoSuch::Block {
            sequence,
            blocks: 0,
        });
    }
    let wanted = Wanted {
        sequence,
        index,
        tip: len - 1,
    };
    block_of(blocks, wanted)
}

/// The proof of a revision of a chained journal by the tree that grew with it.
///
/// The tree's leaves are the hashes of its blocks. The proof is that of `prove` with the last block as the tip, and
/// where there is none the refusal is that one's; on no blocks it is `Block`.
pub fn prove_grown(
    alloc: Global,
    blocks: &Blocks,
    grow: &Grow,
    sequence: u64,
    index: u32,
) -> Result<Proof, NoSuch>
    requires chained { Chained blocks.now.list }
    requires leaves { grow.now.leaves ≡ block_hashes blocks.now.list }
    ensures proof { IfOk result (λ p. IfSome (slice_get blocks.now.list sequence) (λ b.
        p ≡ proof_for blocks.now.list b sequence index (length blocks.now.list - 1))) }
    ensures accepted { IfOk result (λ p. IsAccepted blocks.now.list sequence index (length blocks.now.list - 1) p) }
    ensures refused { MatchResult result (λ _. spec.refusal_at_end blocks.now.list sequence index ≡ None)
        (λ e. spec.IsRefused (spec.refusal_at_end blocks.now.list sequence index) e) }
{
    proofs_verify();
    let block = block_at(blocks, sequence, index)?;
    let above = grow.path(alloc, sequence)?;
    let proof = proof_with(alloc, block, index, above.as_slice())?;
    Ok(proof)
}
