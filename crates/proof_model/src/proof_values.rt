//! Digests and proofs as values.
ghost use Rattle.std.specs.Prelude.{◌≡◌, map, IfOk};
ghost use Rattle.ledger_model.specs.Journal.{hash_value};
ghost use Rattle.proof_model.specs.ProofValues.{digest_value, proof_value};

use crate::{Digest, Proof};
use block_form::header_value;
use containers::Sequence;
use ion_values::{OutOfMemory, Value, Values};
use ql_types::Hash32;
use std::alloc::Global;
use value_codec::parts::{address_value, hash_value, list, number, put, structure};

fn hash_values(alloc: Global, hashes: &[Hash32]) -> Result<Values, OutOfMemory>
    ensures { IfOk result (λ values. values ≡ map hash_value hashes.now) }
{
    let mut values = Sequence::new(alloc);
    for hash in hashes {
        values.push(hash_value(alloc, hash)?)?;
    }
    Ok(values)
}

/// The digest as a value.
pub fn digest_value(alloc: Global, digest: &Digest) -> Result<Value, OutOfMemory>
    ensures { IfOk result (λ v. v ≡ digest_value digest.now) }
{
    let mut fields = Sequence::new(alloc);
    put(
        alloc,
        &mut fields,
        "digest",
        hash_value(alloc, &digest.digest)?,
    )?;
    put(
        alloc,
        &mut fields,
        "digestTipAddress",
        address_value(alloc, &digest.tip)?,
    )?;
    Ok(structure(alloc, fields))
}

/// The proof as a value.
pub fn proof_value(alloc: Global, proof: &Proof) -> Result<Value, OutOfMemory>
    ensures { IfOk result (λ v. v ≡ proof_value proof.now) }
{
    let path = hash_values(alloc, proof.path.as_slice())?;
    let mut fields = Sequence::new(alloc);
    put(
        alloc,
        &mut fields,
        "header",
        header_value(alloc, &proof.header)?,
    )?;
    put(
        alloc,
        &mut fields,
        "index",
        number(alloc, u64::from(proof.index)),
    )?;
    put(alloc, &mut fields, "path", list(alloc, path))?;
    Ok(structure(alloc, fields))
}
