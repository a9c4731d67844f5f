//! Digests of a journal and proofs of its revisions, as values and read back, and what they show.
#![tactic(auto)]

ghost use Rattle.std.specs.Prelude.{◌≡◌, map, IfOk};
ghost use Rattle.proof_model.specs.Chained.{UndamagedIsChained};
ghost use Rattle.proof_model.specs.Issued.{ProofsVerify};

mod proof_values;
mod read_proofs;

use containers::Sequence;
use ion_values::OutOfMemory;
use ledger_model::{Header, Revision};
use pad_tree::Hashes;
pub use proof_values::{digest_value, proof_value};
use ql_types::{BlockAddress, Hash32};
pub use read_proofs::{digest_in, proof_in};
use std::alloc::Global;

/// The digest of a journal: the root of the tree over the hashes of its blocks up to the tip.
#[derive(Clone, Copy, Debug, PartialEq, Eq)]
pub struct Digest {
    pub digest: Hash32,
    pub tip: BlockAddress,
}

/// A proof that a revision is in the journal of a digest: the header of its block, its index among the block's
/// revisions, counted from 0, and the hashes with which its own comes to the digest.
#[derive(Drop)]
pub struct Proof {
    pub header: Header,
    pub index: u32,
    pub path: Hashes,
}

/// The hashes of the revisions.
pub fn revision_hashes(alloc: Global, revisions: &[Revision]) -> Result<Hashes, OutOfMemory>
    ensures { IfOk result (λ hashes. hashes ≡ map (λ r. r.hash) revisions.now) }
{
    let mut hashes = Sequence::new(alloc);
    'revisions: for revision in revisions {
        hashes.push(revision.hash)?;
    }
    Ok(hashes)
}

/// A law for callers: an undamaged journal is chained.
pub fn undamaged_is_chained()
    ensures { UndamagedIsChained }
{}

/// A law for callers: the proof that a chained journal gives for a revision with its block's address shows that the
/// revision is there.
pub fn proofs_verify()
    ensures { ProofsVerify }
{}
