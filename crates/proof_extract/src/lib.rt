//! From a digest down to the revision of an accepted proof, in the journal of the digest: the revision is found there,
//! or two different byte strings of equal SHA-256 are.
#![tactic(auto)]

ghost use Rattle.std.specs.Prelude.{◌<◌, ◌≡◌, length, None, IfOk, MatchResult};
ghost use Rattle.proof_model.specs.Chained.{Chained};
ghost use Rattle.proof_model.specs.Issued.{IsDigest};
ghost use Rattle.proof_model.specs.Verified.{Verified};
ghost use Rattle.proof_verify.specs.Faults as faults;
ghost use Rattle.proof_extract.specs.Extracts.{IsExtracted, IsFound};
ghost use Rattle.tree_descent.specs.Collisions.{IsStop};

mod blocks;
mod climb;
mod forms;
mod published;
mod revisions;

use blocks::block_of;
use climb::climbed_by;
use containers::Bytes;
use forms::block_at;
use ledger_model::{Block, Blocks, Revision};
use proof_model::{Digest, Proof};
use proof_verify::{ProofFault, verify};
pub use published::is_published;
use revisions::revision_in;
use std::alloc::Global;
use tree_descent::Stop;

/// What an accepted proof comes to in the journal of its digest: the least index of a revision of its block that has
/// the hash, counted from 0, or two different byte strings of equal SHA-256.
#[derive(Drop)]
pub enum Extracted {
    Found { index: u32 },
    Collision { first: Bytes, second: Bytes },
}

/// Finds the revision of an accepted proof in the journal of its digest.
fn find(
    alloc: Global,
    blocks: &[Block],
    digest: &Digest,
    revision: &Revision,
    proof: &Proof,
) -> Result<u32, Stop>
    requires chained { Chained blocks.now }
    requires within { digest.now.tip.sequence < length blocks.now }
    requires published { IsDigest blocks.now digest.now.tip.sequence digest.now }
    requires verified { Verified digest.now revision.now proof.now }
    ensures { MatchResult result (IsFound blocks.now revision.now) IsStop }
{
    let climbed = climbed_by(alloc, revision, proof)?;
    let number = block_of(alloc, blocks, digest, proof, &climbed)?;
    let block = block_at(blocks, number);
    revision_in(alloc, block, revision, proof, &climbed)
}

/// Finds the revision that a proof shows in the journal of its digest. `Found` comes with the least index of a revision
/// of the block at the revision's address that has its hash and its parts, `Collision` with two different byte strings
/// of equal SHA-256. A fault other than `OutOfMemory` comes exactly if `verify` gives it.
pub fn extract(
    alloc: Global,
    blocks: &Blocks,
    digest: &Digest,
    revision: &Revision,
    proof: &Proof,
) -> Result<Extracted, ProofFault>
    requires chained { Chained blocks.now.list }
    requires within { digest.now.tip.sequence < length blocks.now.list }
    requires published { IsDigest blocks.now.list digest.now.tip.sequence digest.now }
    ensures extracted { IfOk result (IsExtracted blocks.now.list revision.now) }
    ensures refused { MatchResult result (λ _. faults.fault_of digest.now revision.now proof.now ≡ None)
        (λ e. faults.IsRefused (faults.fault_of digest.now revision.now proof.now) e) }
{
    verify(alloc, digest, revision, proof)?;
    match find(alloc, blocks.as_slice(), digest, revision, proof) {
        Ok(index) => Ok(Extracted::Found { index }),
        Err(Stop::Collision { first, second }) => Ok(Extracted::Collision { first, second }),
        Err(Stop::OutOfMemory) => Err(ProofFault::OutOfMemory),
    }
}
