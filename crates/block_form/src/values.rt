//! Blocks as values.
ghost use Rattle.std.specs.Prelude.{◌≡◌, ◌++◌, map, take, IfOk, OnOk};
ghost use Rattle.ledger_model.specs.declared.block.Header.{Header};
ghost use Rattle.ledger_model.specs.Values.{plain};
ghost use Rattle.ledger_model.specs.Journal.{block_value, front_fields, hash_bytes, hash_fields, header_value, info_value, revision_value};

use crate::revisions::revision_values;
use crate::said::info_value;
use containers::Sequence;
use ion_values::{Body, Fields, OutOfMemory, Value, Values};
use ledger_model::{Block, Header};
use ql_types::Hash;
use std::alloc::Global;
use value_codec::parts::{
    address_value, hash_value, id_value, list, moment, number, plain, put, structure,
};
use value_codec::takes::into_fields;

/// The header of a block, as it is hashed and as a proof has it.
pub fn header_value(alloc: Global, header: &Header) -> Result<Value, OutOfMemory>
    ensures { IfOk result (λ v. v ≡ header_value header.now) }
{
    let mut fields = Sequence::new(alloc);
    put(
        alloc,
        &mut fields,
        "blockAddress",
        address_value(alloc, &header.address)?,
    )?;
    put(
        alloc,
        &mut fields,
        "transactionId",
        id_value(alloc, header.tx.raw)?,
    )?;
    put(
        alloc,
        &mut fields,
        "blockTimestamp",
        moment(alloc, &header.time),
    )?;
    put(
        alloc,
        &mut fields,
        "revisionCount",
        number(alloc, u64::from(header.revisions)),
    )?;
    Ok(structure(alloc, fields))
}

/// The empty hash is the empty blob.
fn entry_hash_value(alloc: Global, hash: &Hash) -> Result<Value, OutOfMemory>
    ensures { IfOk result (λ v. v ≡ plain (Body.Blob (hash_bytes hash.now))) }
{
    match hash {
        Hash::Empty => Ok(plain(alloc, Body::Blob(Sequence::new(alloc)))),
        Hash::Full(hash) => hash_value(alloc, hash),
    }
}

fn entry_hash_values(alloc: Global, hashes: &[Hash]) -> Result<Values, OutOfMemory>
    ensures { IfOk result (λ values. values ≡ map (λ h. plain (Body.Blob (hash_bytes h))) hashes.now) }
{
    let mut values = Sequence::new(alloc);
    for hash in hashes {
        values.push(entry_hash_value(alloc, hash)?)?;
    }
    Ok(values)
}

/// The first three of the fields.
fn first_three(fields: Fields) -> Fields
    ensures { result ≡ take 3 fields }
{
    let mut fields = fields.into_vec();
    fields.truncate(3);
    Sequence::from_vec(fields)
}

/// What stands in front of a block's hashes, taken out of the value of its header.
fn front_of(alloc: Global, head: Value) -> Fields
    ensures { (h : Header) → head ≡ header_value h → result ≡ front_fields h }
{
    let Some(fields) = into_fields(head) else {
        return Sequence::new(alloc);
    };
    first_three(fields)
}

/// Puts a block's hashes.
fn put_hashes(alloc: Global, fields: &mut Fields, block: &Block) -> Result<(), OutOfMemory>
    ensures { OnOk result (fields.new ≡ fields.old ++ hash_fields block.now) }
{
    put(alloc, fields, "blockHash", hash_value(alloc, &block.hash)?)?;
    put(
        alloc,
        fields,
        "entriesHash",
        hash_value(alloc, &block.entries)?,
    )?;
    put(
        alloc,
        fields,
        "previousBlockHash",
        hash_value(alloc, &block.previous)?,
    )?;
    let hashes = entry_hash_values(alloc, &block.list)?;
    put(alloc, fields, "entriesHashList", list(alloc, hashes))?;
    Ok(())
}

/// The block as an Ion value, from which its line in the journal is written.
pub fn to_ion(alloc: Global, block: &Block) -> Result<Value, OutOfMemory>
    ensures { IfOk result (λ v. v ≡ block_value block.now) }
{
    let head = header_value(alloc, &block.header)?;
    let told = info_value(alloc, &block.info, block.revisions.as_slice())?;
    let revisions = revision_values(alloc, block.revisions.as_slice())?;
    let value = value_with(alloc, block, head, told, revisions)?;
    Ok(value)
}

/// The block as an Ion value, of the values of its header, of what it says and of its revisions.
pub(crate) fn value_with(
    alloc: Global,
    block: &Block,
    head: Value,
    told: Value,
    revisions: Values,
) -> Result<Value, OutOfMemory>
    requires head { head ≡ header_value block.now.header }
    requires told { told ≡ info_value block.now.info block.now.revisions }
    requires revisions { revisions ≡ map revision_value block.now.revisions }
    ensures { IfOk result (λ v. v ≡ block_value block.now) }
{
    let mut fields = front_of(alloc, head);
    put_hashes(alloc, &mut fields, block)?;
    put(alloc, &mut fields, "transactionInfo", told)?;
    put(alloc, &mut fields, "revisions", list(alloc, revisions))?;
    Ok(structure(alloc, fields))
}
