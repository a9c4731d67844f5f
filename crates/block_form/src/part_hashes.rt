//! The hashes of those parts of a block that stand in its value as they are hashed.
ghost use Rattle.std.specs.Prelude.{◌≡◌, IfOk, option_map};
ghost use Rattle.std.specs.Option.{option_copied};
ghost use Rattle.ql_types.specs.declared.Hash32 as declared;
ghost use Rattle.ledger_model.specs.Script.{each};
ghost use Rattle.value_codec.specs.ReadParts.{hash_in};
ghost use Rattle.block_form.specs.Hashed as spec;

use containers::Sequence;
use ion_hash::{field_hash, hash, struct_hash};
use ion_values::{Field, Fields, OutOfMemory, Value};
use ql_types::Hash32;
use std::alloc::Global;
use value_codec::read_parts::{fields_in, hash_in, list_in};

/// The hashes of what a block said and did, and of each revision's metadata.
#[derive(Drop)]
pub struct PartHashes {
    pub said: Hash32,
    pub metadata: Sequence<Hash32>,
}

/// The last field of a revision, which has its metadata.
fn last_field(fields: &[Field]) -> Option<&Field>
    ensures { option_copied result ≡ spec.last_field fields.now }
{
    match fields {
        [_, _, metadata] => Some(metadata),
        [_, _, _, metadata] => Some(metadata),
        _ => None,
    }
}

fn metadata_hash_in(alloc: Global, v: &Value) -> Result<Option<Hash32>, OutOfMemory>
    ensures { IfOk result (λ found. found ≡ spec.metadata_hash_in v.now) }
{
    let Some(fields) = fields_in(v) else {
        return Ok(None);
    };
    let Some(field) = last_field(fields.as_slice()) else {
        return Ok(None);
    };
    let computed = hash(alloc, &field.value)?;
    Ok(Some(computed))
}

fn metadata_hashes_in(
    alloc: Global,
    values: &[Value],
) -> Result<Option<Sequence<Hash32>>, OutOfMemory>
    ensures { IfOk result (λ found. found ≡ each spec.metadata_hash_in values.now) }
{
    let mut hashes = Vec::with_capacity(alloc, values.len())?;
    'revisions: for value in values {
        match metadata_hash_in(alloc, value)? {
            Some(computed) => hashes.push(computed)?,
            None => return Ok(None),
        }
    }
    Ok(Some(Sequence::from_vec(hashes)))
}

/// The hash of a field of what a block said and did, or the one that is stored for its statements.
fn hash_for(alloc: Global, field: &Field) -> Result<Option<[u8; 32]>, OutOfMemory>
    ensures { IfOk result (λ found. found ≡ spec.hash_for field.now) }
{
    if field.name.as_str() == "statementsHash" {
        return Ok(stored_in(&field.value));
    }
    let hash = field_hash(alloc, field)?;
    Ok(Some(hash))
}

/// The bytes of a hash that is stored.
fn stored_in(v: &Value) -> Option<[u8; 32]>
    ensures { result ≡ option_map (λ (h : declared.Hash32). h.bytes) (hash_in v.now) }
{
    let hash = hash_in(v)?;
    Some(hash.bytes)
}

fn hashes_for(alloc: Global, fields: &[Field]) -> Result<Option<Sequence<[u8; 32]>>, OutOfMemory>
    ensures { IfOk result (λ found. found ≡ each spec.hash_for fields.now) }
{
    let mut hashes = Vec::with_capacity(alloc, fields.len())?;
    'fields: for field in fields {
        match hash_for(alloc, field)? {
            Some(computed) => hashes.push(computed)?,
            None => return Ok(None),
        }
    }
    Ok(Some(Sequence::from_vec(hashes)))
}

/// The hash of what a block said and did, by its value.
fn info_hash_in(alloc: Global, v: &Value) -> Result<Option<Hash32>, OutOfMemory>
    ensures { IfOk result (λ found. found ≡ spec.info_hash_in v.now) }
{
    let Some(fields) = fields_in(v) else {
        return Ok(None);
    };
    let Some(hashes) = hashes_for(alloc, fields.as_slice())? else {
        return Ok(None);
    };
    let computed = struct_hash(alloc, hashes.into_vec())?;
    Ok(Some(computed))
}

fn part_hashes_of(alloc: Global, fields: &Fields) -> Result<Option<PartHashes>, OutOfMemory>
    ensures { IfOk result (λ found. found ≡ spec.part_hashes_of fields.now) }
{
    let Some(info) = fields.get(7) else {
        return Ok(None);
    };
    let Some(revisions) = fields.get(8) else {
        return Ok(None);
    };
    let Some(values) = list_in(&revisions.value) else {
        return Ok(None);
    };
    let Some(metadata) = metadata_hashes_in(alloc, values.as_slice())? else {
        return Ok(None);
    };
    let Some(said) = info_hash_in(alloc, &info.value)? else {
        return Ok(None);
    };
    Ok(Some(PartHashes { said, metadata }))
}

fn computed_in(alloc: Global, v: &Value) -> Result<Option<PartHashes>, OutOfMemory>
    ensures { IfOk result (λ found. found ≡ spec.part_hashes_in v.now) }
{
    let Some(fields) = fields_in(v) else {
        return Ok(None);
    };
    let found = part_hashes_of(alloc, fields)?;
    Ok(found)
}

/// The hashes of the parts of the block whose value this is. None comes only where it is the value of no whole block.
pub fn part_hashes_in(alloc: Global, v: &Value) -> Result<Option<PartHashes>, OutOfMemory>
    ensures { IfOk result (λ found. spec.TellParts v.now found) }
{
    let found = computed_in(alloc, v)?;
    Ok(found)
}
