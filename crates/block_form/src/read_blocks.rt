//! Blocks that values spell. What they hold is moved out of the values.
ghost use Rattle.std.specs.Prelude.{◌≡◌, [], ◌∷◌, codes, length, IfOk};
ghost use Rattle.std.specs.List.{list_all};
ghost use Rattle.ledger_model.specs.Script.{and_then};
ghost use Rattle.ledger_model.specs.Values.{list_in};
ghost use Rattle.ledger_model.specs.Whole.{is_shallow};
ghost use Rattle.block_form.specs.ReadBack as spec;

use crate::read_info::into_info;
use crate::read_revisions::into_revisions;
use ion_values::{Field, Fields, OutOfMemory, Value, copy, depth};
use ledger_model::{Block, Content, Header, Info, Revision, Revisions};
use ql_types::{Hash, Hash32, TxId};
use std::alloc::Global;
use value_codec::read_parts::{address_in, entry_in, hash_in, id_in, list_in, moment_in, named};
use value_codec::takes::{into_fields, into_members, into_named};

/// The hashes of a block.
#[derive(Drop)]
struct Hashes {
    hash: Hash32,
    entries: Hash32,
    previous: Hash32,
    list: [Hash; 3],
}

/// The header of this number of revisions, from its other three fields.
pub fn header_with(revisions: u32, address: &Field, tx: &Field, time: &Field) -> Option<Header>
    ensures { result ≡ spec.header_of revisions (address.now ∷ tx.now ∷ time.now ∷ []) }
{
    let address = address_in(named(address, "blockAddress")?)?;
    let tx = id_in(named(tx, "transactionId")?)?;
    let time = moment_in(named(time, "blockTimestamp")?)?;
    Some(Header {
        address,
        tx: TxId { raw: tx },
        time,
        revisions,
    })
}

fn header_of(revisions: u32, fields: &[Field]) -> Option<Header>
    ensures { result ≡ spec.header_of revisions fields.now }
{
    let [address, tx, time] = fields else {
        return None;
    };
    header_with(revisions, address, tx, time)
}

#[tactic(auto, unfolding(crate::specs::ReadBack::entries_of))]
fn entries_of(values: &[Value]) -> Option<[Hash; 3]>
    ensures { result ≡ spec.entries_of values.now }
{
    let [info, revisions, header] = values else {
        return None;
    };
    let info = entry_in(info)?;
    let revisions = entry_in(revisions)?;
    let header = entry_in(header)?;
    Some([info, revisions, header])
}

/// The hash in a field of this name.
fn named_hash(field: &Field, name: &str) -> Option<Hash32>
    ensures { result ≡ and_then (spec.named name.now field.now) spec.hash_in }
{
    hash_in(named(field, name)?)
}

/// The hashes of a block's entries in a field of this name.
fn named_entries(field: &Field, name: &str) -> Option<[Hash; 3]>
    ensures { result ≡ and_then (and_then (spec.named name.now field.now) list_in) spec.entries_of }
{
    entries_of(list_in(named(field, name)?)?.as_slice())
}

fn hashes_of(fields: &[Field]) -> Option<Hashes>
    ensures { result ≡ spec.hashes_of fields.now }
{
    let [hash, entries, previous, list] = fields else {
        return None;
    };
    let hash = named_hash(hash, "blockHash")?;
    let entries = named_hash(entries, "entriesHash")?;
    let previous = named_hash(previous, "previousBlockHash")?;
    let list = named_entries(list, "entriesHashList")?;
    Some(Hashes {
        hash,
        entries,
        previous,
        list,
    })
}

fn revisions_in(alloc: Global, field: Field) -> Result<Option<Revisions>, OutOfMemory>
    ensures { IfOk result (λ revisions.
        revisions ≡ and_then (spec.named (codes "revisions") field) spec.revisions_in) }
{
    let Some(values) = into_members(field, "revisions") else {
        return Ok(None);
    };
    let revisions = into_revisions(alloc, values)?;
    Ok(revisions)
}

fn count_of(revisions: &Revisions) -> Option<u32>
    ensures { result ≡ spec.count_of revisions.now }
{
    u32::try_from(revisions.len()).ok()
}

fn info_of(alloc: Global, field: Field, revisions: &Revisions) -> Result<Option<Info>, OutOfMemory>
    ensures { IfOk result (λ info. info ≡ and_then (spec.named (codes "transactionInfo") field)
        (spec.info_in revisions.now)) }
{
    let Some(value) = into_named(field, "transactionInfo") else {
        return Ok(None);
    };
    let info = into_info(alloc, value, revisions.as_slice())?;
    Ok(info)
}

/// The block of the fields in front of the hashes, the hashes, and the fields behind them.
fn parts_of(
    alloc: Global,
    front: &[Field],
    hashes: &[Field],
    info: Field,
    revisions: Field,
) -> Result<Option<Block>, OutOfMemory>
    ensures { IfOk result (λ block. block ≡ spec.parts_of front.now hashes.now (info ∷ revisions ∷ [])) }
{
    let Some(hashes) = hashes_of(hashes) else {
        return Ok(None);
    };
    let Some(revisions) = revisions_in(alloc, revisions)? else {
        return Ok(None);
    };
    let Some(count) = count_of(&revisions) else {
        return Ok(None);
    };
    let Some(header) = header_of(count, front) else {
        return Ok(None);
    };
    let Some(info) = info_of(alloc, info, &revisions)? else {
        return Ok(None);
    };
    let Hashes {
        hash,
        entries,
        previous,
        list,
    } = hashes;
    Ok(Some(Block {
        header,
        hash,
        entries,
        previous,
        list,
        info,
        revisions,
    }))
}

fn block_of(alloc: Global, fields: Fields) -> Result<Option<Block>, OutOfMemory>
    ensures { IfOk result (λ block. block ≡ spec.block_of fields) }
{
    if fields.len() != 9 {
        return Ok(None);
    }
    let mut fields = fields;
    let Some(revisions) = fields.pop() else {
        return Ok(None);
    };
    let Some(info) = fields.pop() else {
        return Ok(None);
    };
    let (front, hashes) = fields.as_slice().split_at(3);
    let block = parts_of(alloc, front, hashes, info, revisions)?;
    Ok(block)
}

/// The block whose value this is, whole or not.
fn block_in(alloc: Global, v: Value) -> Result<Option<Block>, OutOfMemory>
    ensures { IfOk result (λ block. block ≡ spec.block_in v) }
{
    let Some(fields) = into_fields(v) else {
        return Ok(None);
    };
    let block = block_of(alloc, fields)?;
    Ok(block)
}

fn are_shallow(revisions: &[Revision]) -> bool
    ensures { result ≡ list_all (λ r. is_shallow r.content) revisions.now }
{
    revisions
        .iter()
        .all(|revision| is_shallow(&revision.content))
}

/// Whether a document nests at most 64 deep.
pub fn is_shallow(content: &Content) -> bool
    ensures { result ≡ is_shallow content.now }
{
    match content {
        Content::Deleted => true,
        Content::Kept(value) => depth(value) <= 64,
        Content::Redacted(_) => true,
    }
}

fn whole_in(alloc: Global, v: Value) -> Result<Option<Block>, OutOfMemory>
    ensures { IfOk result (λ block. block ≡ spec.whole_in v) }
{
    let deep = depth(&v);
    let Some(block) = block_in(alloc, v)? else {
        return Ok(None);
    };
    if deep <= 256 && are_shallow(block.revisions.as_slice()) {
        Ok(Some(block))
    } else {
        Ok(None)
    }
}

/// The whole block whose value this is, made of the value's parts; None as for `from_ion`.
pub fn into_block(alloc: Global, v: Value) -> Result<Option<Block>, OutOfMemory>
    ensures { IfOk result (λ found. spec.IsReadAs v found) }
{
    let block = whole_in(alloc, v)?;
    Ok(block)
}

/// The whole block whose value this is. None comes exactly where no whole block has this value: `to_ion` gives no
/// other than the block's fields in their order, the lists of a block agree, no document nests more than 64 deep and
/// no block more than 256.
pub fn from_ion(alloc: Global, v: &Value) -> Result<Option<Block>, OutOfMemory>
    ensures { IfOk result (λ found. spec.IsReadAs v.now found) }
{
    let block = whole_in(alloc, copy(alloc, v)?)?;
    Ok(block)
}

/// A law for callers: whole blocks of one value are one block.
pub fn values_tell_blocks()
    ensures { spec.ValuesTellBlocks }
{}
