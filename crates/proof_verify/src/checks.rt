//! The checks of a proof, in order.
ghost use Rattle.std.specs.Prelude.{◌≡◌, ◌+◌, ◌≤◌, length, IfOk, MatchResult};
ghost use Rattle.hash_model.specs.Tree.{height_of};
ghost use Rattle.ledger_model.specs.Damages as damages;
ghost use Rattle.ledger_model.specs.Follows as follows;
ghost use Rattle.proof_model.specs.Verified.{Verified, block_height, path_length, root_by};
ghost use Rattle.proof_verify.specs.Faults as spec;
ghost use Rattle.proof_verify.specs.Faults.{FaultsAreExact};

use crate::ProofFault;
use block_form::{header_hash, revision_hash};
use ion_values::OutOfMemory;
use ledger_model::Revision;
use pad_tree::{fold_hashes, height};
use pair_hash::dot_full;
use proof_model::{Digest, Proof};
use ql_types::{BlockAddress, Hash32};
use std::alloc::Global;

fn same_address(a: &BlockAddress, b: &BlockAddress) -> bool
    ensures { result ≡ follows.same_address a.now b.now }
{
    a.strand.raw == b.strand.raw && a.sequence == b.sequence
}

fn same_hash(a: &Hash32, b: &Hash32) -> bool
    ensures { result ≡ damages.same_hash a.now b.now }
{
    a.bytes == b.bytes
}

/// The height of the tree over the blocks up to a tip.
fn height_to(tip: u64) -> u32
    ensures height { result ≡ height_of (tip + 1) }
    ensures small { result ≤ 64 }
{
    if tip == 0 { 0 } else { tip.ilog2() + 1 }
}

/// How many hashes a path has up to and with that of what the transaction did.
fn split_of(proof: &Proof) -> usize
    requires { 1 ≤ proof.now.header.revisions }
    ensures split { result ≡ block_height proof.now + 1 }
    ensures small { result ≤ 33 }
{
    height(u64::from(proof.header.revisions)) as usize + 1
}

fn strand_fault(digest: &Digest, proof: &Proof) -> Option<ProofFault>
    ensures { result ≡ spec.strand_fault digest.now proof.now }
{
    let (of_proof, of_digest) = (proof.header.address.strand, digest.tip.strand);
    if of_proof.raw == of_digest.raw {
        return None;
    }
    Some(ProofFault::WrongStrand {
        proof: of_proof,
        digest: of_digest,
    })
}

fn address_fault(revision: &Revision, proof: &Proof) -> Option<ProofFault>
    ensures { result ≡ spec.address_fault revision.now proof.now }
{
    if same_address(&revision.address, &proof.header.address) {
        return None;
    }
    Some(ProofFault::AddressDiffers {
        revision: revision.address,
        proof: proof.header.address,
    })
}

fn tip_fault(digest: &Digest, proof: &Proof) -> Option<ProofFault>
    ensures { result ≡ spec.tip_fault digest.now proof.now }
{
    let (sequence, tip) = (proof.header.address.sequence, digest.tip.sequence);
    if sequence <= tip {
        return None;
    }
    Some(ProofFault::PastTip { sequence, tip })
}

fn index_fault(proof: &Proof) -> Option<ProofFault>
    ensures { result ≡ spec.index_fault proof.now }
{
    let (index, count) = (proof.index, proof.header.revisions);
    if index < count {
        return None;
    }
    Some(ProofFault::IndexPastCount {
        index: u64::from(index),
        count: u64::from(count),
    })
}

fn length_fault(digest: &Digest, proof: &Proof) -> Option<ProofFault>
    requires { 1 ≤ proof.now.header.revisions }
    ensures { result ≡ spec.length_fault digest.now proof.now }
{
    let wanted = split_of(proof) as u64 + 1 + u64::from(height_to(digest.tip.sequence));
    let given = proof.path.len() as u64;
    if given == wanted {
        return None;
    }
    Some(ProofFault::PathLength { wanted, given })
}

/// Whether the revision's hash is that of its parts.
fn hash_fault(alloc: Global, revision: &Revision) -> Result<Option<ProofFault>, OutOfMemory>
    ensures { IfOk result (λ fault. fault ≡ spec.hash_fault revision.now) }
{
    let computed = revision_hash(alloc, &revision.content, &revision.metadata)?;
    if same_hash(&revision.hash, &computed) {
        return Ok(None);
    }
    Ok(Some(ProofFault::HashFieldDiffers {
        stated: revision.hash,
        computed,
    }))
}

/// What the revision's hash comes to with the path and the header's hash in its place.
fn root_by(alloc: Global, revision: &Revision, proof: &Proof) -> Result<Hash32, OutOfMemory>
    requires count { 1 ≤ proof.now.header.revisions }
    requires long { block_height proof.now + 1 ≤ length proof.now.path }
    ensures { IfOk result (λ root. root ≡ root_by revision.now proof.now) }
{
    let header = header_hash(alloc, &proof.header)?;
    let (below, above) = proof.path.as_slice().split_at(split_of(proof));
    let entries = dot_full(&fold_hashes(&revision.hash, below), &header);
    Ok(fold_hashes(&entries, above))
}

/// Whether the path leads to the digest.
fn root_fault(
    alloc: Global,
    digest: &Digest,
    revision: &Revision,
    proof: &Proof,
) -> Result<Option<ProofFault>, OutOfMemory>
    requires count { 1 ≤ proof.now.header.revisions }
    requires long { length proof.now.path ≡ path_length digest.now proof.now }
    ensures { IfOk result (λ fault. fault ≡ spec.root_fault digest.now revision.now proof.now) }
{
    let computed = root_by(alloc, revision, proof)?;
    if same_hash(&computed, &digest.digest) {
        return Ok(None);
    }
    Ok(Some(ProofFault::RootDiffers {
        computed,
        published: digest.digest,
    }))
}

/// The first fault of where the revision stands.
fn place_fault(digest: &Digest, revision: &Revision, proof: &Proof) -> Option<ProofFault>
    ensures { result ≡ spec.place_fault digest.now revision.now proof.now }
{
    if let Some(fault) = strand_fault(digest, proof) {
        return Some(fault);
    }
    if let Some(fault) = address_fault(revision, proof) {
        return Some(fault);
    }
    if let Some(fault) = tip_fault(digest, proof) {
        return Some(fault);
    }
    index_fault(proof)
}

/// The first check that fails.
fn fault_of(
    alloc: Global,
    digest: &Digest,
    revision: &Revision,
    proof: &Proof,
) -> Result<Option<ProofFault>, OutOfMemory>
    ensures { IfOk result (λ fault. fault ≡ spec.fault_of digest.now revision.now proof.now) }
{
    if let Some(fault) = place_fault(digest, revision, proof) {
        return Ok(Some(fault));
    }
    if let Some(fault) = length_fault(digest, proof) {
        return Ok(Some(fault));
    }
    if let Some(fault) = hash_fault(alloc, revision)? {
        return Ok(Some(fault));
    }
    let fault = root_fault(alloc, digest, revision, proof)?;
    Ok(fault)
}

/// Whether the proof shows that the revision is in the journal of the digest.
///
/// A fault comes exactly by the first of these checks that fails: the strands agree; the revision's address is the
/// header's; the block isn't past the tip; the index is that of a revision; the path has its length; the revision's
/// hash is that of its parts; and the path leads to the digest.
pub fn verify(
    alloc: Global,
    digest: &Digest,
    revision: &Revision,
    proof: &Proof,
) -> Result<(), ProofFault>
    ensures accepted { IfOk result (λ _. Verified digest.now revision.now proof.now) }
    ensures refused { MatchResult result (λ _. spec.fault_of digest.now revision.now proof.now ≡ None)
        (λ e. spec.IsRefused (spec.fault_of digest.now revision.now proof.now) e) }
{
    match fault_of(alloc, digest, revision, proof)? {
        Some(fault) => Err(fault),
        None => Ok(()),
    }
}

/// A law for callers: no check fails exactly where the proof shows that the revision is in the journal of the digest.
pub fn faults_are_exact()
    ensures { FaultsAreExact }
{}
