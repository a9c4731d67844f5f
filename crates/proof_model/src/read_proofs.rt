//! Digests and proofs that values spell.
ghost use Rattle.std.specs.Prelude.{◌≡◌, ◌^◌, IfOk};
ghost use Rattle.ledger_model.specs.Script.{and_then, each};
ghost use Rattle.value_codec.specs.ReadParts.{hash_in, named, number_in};
ghost use Rattle.proof_model.specs.ReadProofs as spec;

use crate::{Digest, Proof};
use block_form::header_with;
use containers::Sequence;
use ion_values::{Field, OutOfMemory, Value};
use ledger_model::Header;
use pad_tree::Hashes;
use std::alloc::Global;
use value_codec::read_parts::{address_in, fields_in, hash_in, list_in, named, small_number_in};

/// The digest whose value this is, or None where it is no digest's.
pub fn digest_in(v: &Value) -> Option<Digest>
    ensures { result ≡ spec.digest_in v.now }
{
    let [digest, tip] = fields_in(v)?.as_slice() else {
        return None;
    };
    let digest = hash_in(named(digest, "digest")?)?;
    let tip = address_in(named(tip, "digestTipAddress")?)?;
    Some(Digest { digest, tip })
}

/// The number in a field of this name.
fn named_number(field: &Field, name: &str) -> Option<u32>
    ensures { result ≡ and_then (named name.now field.now) (number_in (2 ^ 32)) }
{
    small_number_in(named(field, name)?)
}

fn header_of(fields: &[Field]) -> Option<Header>
    ensures { result ≡ spec.header_of fields.now }
{
    let [address, tx, time, revisions] = fields else {
        return None;
    };
    let revisions = named_number(revisions, "revisionCount")?;
    header_with(revisions, address, tx, time)
}

fn header_in(v: &Value) -> Option<Header>
    ensures { result ≡ spec.header_in v.now }
{
    header_of(fields_in(v)?.as_slice())
}

fn hashes_of(alloc: Global, values: &[Value]) -> Result<Option<Hashes>, OutOfMemory>
    ensures { IfOk result (λ hashes. hashes ≡ each hash_in values.now) }
{
    let mut hashes = Sequence::new(alloc);
    'hashes: for value in values {
        match hash_in(value) {
            Some(hash) => hashes.push(hash)?,
            None => return Ok(None),
        }
    }
    Ok(Some(hashes))
}

/// The hashes in a field of this name.
fn named_hashes(alloc: Global, field: &Field, name: &str) -> Result<Option<Hashes>, OutOfMemory>
    ensures { IfOk result (λ hashes. hashes ≡ and_then (named name.now field.now) spec.hashes_in) }
{
    let Some(value) = named(field, name) else {
        return Ok(None);
    };
    let Some(values) = list_in(value) else {
        return Ok(None);
    };
    let hashes = hashes_of(alloc, values.as_slice())?;
    Ok(hashes)
}

/// The header and the index in fields of a proof.
fn place_of(header: &Field, index: &Field) -> Option<(Header, u32)>
    ensures { result ≡ spec.place_of header.now index.now }
{
    let header = header_in(named(header, "header")?)?;
    let index = named_number(index, "index")?;
    Some((header, index))
}

fn proof_of(alloc: Global, fields: &[Field]) -> Result<Option<Proof>, OutOfMemory>
    ensures { IfOk result (λ proof. proof ≡ spec.proof_of fields.now) }
{
    let [header, index, path] = fields else {
        return Ok(None);
    };
    let Some((header, index)) = place_of(header, index) else {
        return Ok(None);
    };
    let Some(path) = named_hashes(alloc, path, "path")? else {
        return Ok(None);
    };
    Ok(Some(Proof {
        header,
        index,
        path,
    }))
}

/// The proof whose value this is, or None where it is no proof's.
pub fn proof_in(alloc: Global, v: &Value) -> Result<Option<Proof>, OutOfMemory>
    ensures { IfOk result (λ proof. proof ≡ spec.proof_in v.now) }
{
    let Some(fields) = fields_in(v) else {
        return Ok(None);
    };
    let proof = proof_of(alloc, fields.as_slice())?;
    Ok(proof)
}
