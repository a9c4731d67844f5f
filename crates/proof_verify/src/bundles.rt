//! Bundles that values spell.
ghost use Rattle.std.specs.Prelude.{IfErr, IfOk};
ghost use Rattle.proof_verify.specs.Bundles.{AreWithin, IsBundle, IsUnreadable, IsNamed};

use crate::ProofFault;
use block_form::revision_in;
use ion_values::{Text, Values};
use ledger_model::Revision;
use proof_model::{Digest, Proof, digest_in, proof_in};
use std::alloc::Global;

/// The fault that a field of a bundle can't be read.
fn malformed(alloc: Global, field: &str) -> ProofFault
    ensures { IsNamed field.now result }
{
    match Text::from_text(alloc, field) {
        Ok(field) => ProofFault::Malformed { field },
        Err(_) => ProofFault::OutOfMemory,
    }
}

/// The digest, the revision and the proof that three values spell. `Malformed` comes exactly where they spell none,
/// with `count` where there aren't three values, and else with the name of the first that can't be read.
pub fn read_bundle(alloc: Global, v: &Values) -> Result<(Digest, Revision, Proof), ProofFault>
    ensures read { IfOk result (λ bundle. IsBundle v.now bundle.0 bundle.1 bundle.2) }
    ensures within { IfOk result (λ bundle. AreWithin bundle.0 bundle.2) }
    ensures unread { IfErr result (λ e. IsUnreadable v.now e) }
{
    let [digest, revision, proof] = v.as_slice() else {
        return Err(malformed(alloc, "count"));
    };
    let Some(digest) = digest_in(digest) else {
        return Err(malformed(alloc, "digest"));
    };
    let Some(revision) = revision_in(alloc, revision)? else {
        return Err(malformed(alloc, "revision"));
    };
    let Some(proof) = proof_in(alloc, proof)? else {
        return Err(malformed(alloc, "proof"));
    };
    Ok((digest, revision, proof))
}
