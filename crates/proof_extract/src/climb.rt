//! The hashes on the way from a revision up to its block.
ghost use Rattle.std.specs.Prelude.{◌≡◌, ◌+◌, ◌≤◌, length, IfOk};
ghost use Rattle.proof_model.specs.Verified.{block_height};
ghost use Rattle.proof_extract.specs.Climbs as spec;
ghost use Rattle.proof_extract.specs.Climbs.{IsClimb};

use block_form::header_hash;
use containers::OutOfMemory;
use ledger_model::Revision;
use pad_tree::{fold_hashes, height};
use pair_hash::dot_full;
use proof_model::Proof;
use ql_types::Hash32;
use std::alloc::Global;

/// The hashes on the way from a revision up to its block: the root of the block's revisions, the hash of what the
/// transaction said and did, that of the two, the hash of the header, that of all entries, the hash of the block
/// before, and that of the block.
#[derive(Clone, Copy)]
pub struct Climb {
    pub root: Hash32,
    pub said: Hash32,
    pub changes: Hash32,
    pub header: Hash32,
    pub entries: Hash32,
    pub previous: Hash32,
    pub block: Hash32,
}

/// How many hashes of a path lead from the revision to the root of its block's revisions.
fn block_height(proof: &Proof) -> usize
    requires { 1 ≤ proof.now.header.revisions }
    ensures { result ≡ block_height proof.now }
{
    height(u64::from(proof.header.revisions)) as usize
}

/// The hashes that lead from the revision to the root of its block's revisions.
pub fn below(proof: &Proof) -> &[Hash32]
    requires count { 1 ≤ proof.now.header.revisions }
    requires long { block_height proof.now + 2 ≤ length proof.now.path }
    ensures { result.now ≡ spec.below proof.now }
{
    &proof.path.as_slice()[..block_height(proof)]
}

/// The hashes that lead from the block to the digest.
pub fn above(proof: &Proof) -> &[Hash32]
    requires count { 1 ≤ proof.now.header.revisions }
    requires long { block_height proof.now + 2 ≤ length proof.now.path }
    ensures { result.now ≡ spec.above proof.now }
{
    &proof.path.as_slice()[block_height(proof) + 2..]
}

/// The hashes on the way from the revision up to its block, by the proof.
pub fn climbed_by(alloc: Global, revision: &Revision, proof: &Proof) -> Result<Climb, OutOfMemory>
    requires count { 1 ≤ proof.now.header.revisions }
    requires long { block_height proof.now + 2 ≤ length proof.now.path }
    ensures { IfOk result (IsClimb revision.now proof.now) }
{
    let header = header_hash(alloc, &proof.header)?;
    let low = block_height(proof);
    let root = fold_hashes(&revision.hash, below(proof));
    let said = proof.path.as_slice()[low];
    let previous = proof.path.as_slice()[low + 1];
    let changes = dot_full(&root, &said);
    let entries = dot_full(&changes, &header);
    Ok(Climb {
        root,
        said,
        changes,
        header,
        entries,
        previous,
        block: dot_full(&entries, &previous),
    })
}
