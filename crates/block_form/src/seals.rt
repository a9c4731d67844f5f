//! The hashes of revisions and blocks.
ghost use Rattle.std.specs.Prelude.{◌≡◌, length, map, IfOk};
ghost use Rattle.hash_model.specs.Serialize.{hash_of, struct_bytes, struct_hash};
ghost use Rattle.ledger_model.specs.Journal.{block_value, header_value, info_fields, info_value, metadata_value, revision_value};
ghost use Rattle.ledger_model.specs.Seals.{revision_hash, entries_hash, info_hash, info_hashes, revisions_root, sealed, strand_hash};
ghost use Rattle.block_form.specs.Hashed as spec;

use crate::contents::{HashedContent, data_hash, joined_hash};
use crate::revisions::{metadata_value, revision_with};
use crate::said::info_fields;
use crate::told::{HashedField, hash_told};
use crate::values::{header_value, value_with};
use containers::{Bytes, Sequence};
use ion_hash::{field_hash, hash, struct_form, struct_hash};
use ion_values::{Field, Fields, OutOfMemory, Value, Values};
use ledger_model::{Block, Content, Header, Info, Metadata, Revision, Revisions};
use pad_tree::root;
use pair_hash::dot_full;
use ql_types::{BlockAddress, Hash, Hash32, StrandId};
use std::alloc::Global;
use value_codec::parts::{id_value, structure};

/// The hash of a revision: that of its metadata with that of its data, which may stand for the data, or of its metadata
/// alone where it is a delete.
pub fn revision_hash(
    alloc: Global,
    content: &Content,
    metadata: &Metadata,
) -> Result<Hash32, OutOfMemory>
    ensures { IfOk result (λ h. h ≡ revision_hash content.now metadata.now) }
{
    let metadata = hash(alloc, &metadata_value(alloc, metadata)?)?;
    let data = data_hash(alloc, content)?;
    Ok(joined_hash(&metadata, &data))
}

/// The revision of these parts, with its hash, and its value. `hashed` is what the value has of the content. The value
/// of the metadata is built once for both.
pub fn seal_revision(
    alloc: Global,
    address: BlockAddress,
    content: Content,
    hashed: HashedContent,
    metadata: Metadata,
) -> Result<(Revision, Value), OutOfMemory>
    requires { hashed ≡ spec.hashed_content content }
    ensures revision { IfOk result (λ made. made.0 ≡ record {
      address = address;
      hash = revision_hash content metadata;
      content = content;
      metadata = metadata;
    }) }
    ensures value { IfOk result (λ made. made.1 ≡ revision_value made.0) }
{
    let HashedContent { field, hash: data } = hashed;
    let told = metadata_value(alloc, &metadata)?;
    let revision = Revision {
        address,
        hash: joined_hash(&hash(alloc, &told)?, &data),
        content,
        metadata,
    };
    let value = revision_with(alloc, &revision, field, told)?;
    Ok((revision, value))
}

/// What stands as the previous hash of a strand's first block: the hash of the strand's id.
pub fn strand_hash(alloc: Global, strand: StrandId) -> Result<Hash32, OutOfMemory>
    ensures { IfOk result (λ h. h ≡ strand_hash strand.raw) }
{
    hash(alloc, &id_value(alloc, strand.raw)?)
}

/// The hash of a block's header.
pub fn header_hash(alloc: Global, header: &Header) -> Result<Hash32, OutOfMemory>
    ensures { IfOk result (λ h. h ≡ hash_of (header_value header.now)) }
{
    hash(alloc, &header_value(alloc, header)?)
}

/// The hashes of the four fields of what a transaction said and did, of which that of the statements is given.
fn hashes_with(
    alloc: Global,
    told: [u8; 32],
    fields: &[Field],
) -> Result<Vec<[u8; 32]>, OutOfMemory>
    requires { length fields.now ≡ 4 }
    ensures { IfOk result (λ hashes. hashes.items ≡ spec.hashes_with told fields.now) }
{
    let [place, _told, schema, documents] = fields else {
        unreachable!();
    };
    let mut hashes = Vec::with_capacity(alloc, 4)?;
    hashes.push(field_hash(alloc, place)?)?;
    hashes.push(told)?;
    hashes.push(field_hash(alloc, schema)?)?;
    hashes.push(field_hash(alloc, documents)?)?;
    Ok(hashes)
}

/// The fields of what a transaction said and did, and their hashes. `told` is the field of its statements.
fn fields_and_hashes(
    alloc: Global,
    info: &Info,
    told: HashedField,
    revisions: &[Revision],
) -> Result<(Fields, Vec<[u8; 32]>), OutOfMemory>
    requires { told ≡ spec.hashed_told info.now.said }
    ensures fields { IfOk result (λ made. made.0 ≡ info_fields info.now revisions.now) }
    ensures hashes { IfOk result (λ made. made.1.items ≡ info_hashes info.now revisions.now) }
{
    let HashedField { field, hash } = told;
    let fields = info_fields(alloc, info, field, revisions)?;
    let hashes = hashes_with(alloc, hash, fields.as_slice())?;
    Ok((fields, hashes))
}

/// The bytes whose hash is that of what a transaction did. They are those of a struct's fields' hashes, in which the
/// hash of the statements may stand for them.
pub fn info_form(alloc: Global, info: &Info, revisions: &[Revision]) -> Result<Bytes, OutOfMemory>
    ensures { IfOk result (λ form. form ≡ struct_bytes (info_hashes info.now revisions.now)) }
{
    let told = hash_told(alloc, &info.said)?;
    let (_fields, hashes) = fields_and_hashes(alloc, info, told, revisions)?;
    let form = struct_form(alloc, hashes)?;
    Ok(form)
}

/// What a transaction said and did, as a value and its hash. `told` is the field of its statements.
#[tactic(auto, unfolding(ledger_model::specs::Seals::info_hash))]
fn info_and_hash(
    alloc: Global,
    info: &Info,
    told: HashedField,
    revisions: &[Revision],
) -> Result<(Value, Hash32), OutOfMemory>
    requires { told ≡ spec.hashed_told info.now.said }
    ensures value { IfOk result (λ made. made.0 ≡ info_value info.now revisions.now) }
    ensures hash { IfOk result (λ made. made.1 ≡ info_hash info.now revisions.now) }
{
    let (fields, hashes) = fields_and_hashes(alloc, info, told, revisions)?;
    let hash = struct_hash(alloc, hashes)?;
    Ok((structure(alloc, fields), hash))
}

/// The root of the tree over the revisions' hashes.
pub fn revisions_root(alloc: Global, revisions: &[Revision]) -> Result<Hash, OutOfMemory>
    ensures { IfOk result (λ h. h ≡ revisions_root revisions.now) }
{
    let mut hashes = Sequence::new(alloc);
    for revision in revisions {
        hashes.push(revision.hash)?;
    }
    root(alloc, hashes.as_slice())
}

/// The hash of a block's entries: of what it said and did, of its revisions, and of its header.
pub fn entries_hash(info: &Hash32, revisions: &Hash, header: &Hash32) -> Hash32
    ensures { result ≡ entries_hash info.now revisions.now header.now }
{
    match revisions {
        Hash::Empty => dot_full(info, header),
        Hash::Full(revisions) => dot_full(&dot_full(info, revisions), header),
    }
}

/// The block of these parts, with its hashes. `previous` is the hash of the block before, or that of the strand.
/// If memory runs out, the parts are dropped.
pub fn seal(
    alloc: Global,
    previous: Hash32,
    header: Header,
    info: Info,
    revisions: Revisions,
) -> Result<Block, OutOfMemory>
    ensures { IfOk result (λ block. block ≡ sealed previous header info revisions) }
{
    let head = header_value(alloc, &header)?;
    let told = hash_told(alloc, &info.said)?;
    let (_told, said) = info_and_hash(alloc, &info, told, revisions.as_slice())?;
    let list = hash_list(alloc, said, revisions.as_slice(), &head)?;
    Ok(sealed(previous, header, info, revisions, &list))
}

/// Revisions, with the value of each.
#[derive(Drop)]
pub struct Valued {
    pub revisions: Revisions,
    pub values: Values,
}

/// What a transaction said and did, with the field of its statements.
#[derive(Drop)]
pub struct Telling {
    pub info: Info,
    pub told: HashedField,
}

/// The block that `seal` makes of these parts, and its value, from which its line in the journal is written. What is
/// built to be hashed becomes a part of the value.
pub fn seal_with_value(
    alloc: Global,
    previous: Hash32,
    header: Header,
    telling: Telling,
    valued: Valued,
) -> Result<(Block, Value), OutOfMemory>
    requires told { telling.told ≡ spec.hashed_told telling.info.said }
    requires values { valued.values ≡ map revision_value valued.revisions }
    ensures block { IfOk result (λ made. made.0 ≡ sealed previous header telling.info valued.revisions) }
    ensures value { IfOk result (λ made. made.1 ≡ block_value made.0) }
{
    let Telling { info, told } = telling;
    let Valued { revisions, values } = valued;
    let head = header_value(alloc, &header)?;
    let (told, said) = info_and_hash(alloc, &info, told, revisions.as_slice())?;
    let list = hash_list(alloc, said, revisions.as_slice(), &head)?;
    let block = sealed(previous, header, info, revisions, &list);
    let value = value_with(alloc, &block, head, told, values)?;
    Ok((block, value))
}

/// The hashes of what a block says, of its revisions and of its header.
#[derive(Drop)]
struct HashList {
    said: Hash32,
    revisions: Hash,
    header: Hash32,
}

/// The hashes of a block, by the hash of what it says, its revisions and the value of its header.
fn hash_list(
    alloc: Global,
    said: Hash32,
    revisions: &[Revision],
    head: &Value,
) -> Result<HashList, OutOfMemory>
    ensures { IfOk result (λ list. list ≡ record {
      said = said;
      revisions = revisions_root revisions.now;
      header = hash_of head.now;
    }) }
{
    let revisions = revisions_root(alloc, revisions)?;
    let header = hash(alloc, head)?;
    Ok(HashList {
        said,
        revisions,
        header,
    })
}

/// The block of these parts, of which these are the hashes.
fn sealed(
    previous: Hash32,
    header: Header,
    info: Info,
    revisions: Revisions,
    list: &HashList,
) -> Block
    requires said { list.now.said ≡ info_hash info revisions }
    requires revisions { list.now.revisions ≡ revisions_root revisions }
    requires header { list.now.header ≡ hash_of (header_value header) }
    ensures { result ≡ sealed previous header info revisions }
{
    let entries = entries_hash(&list.said, &list.revisions, &list.header);
    Block {
        header,
        hash: dot_full(&entries, &previous),
        entries,
        previous,
        list: [
            Hash::Full(list.said),
            list.revisions,
            Hash::Full(list.header),
        ],
        info,
        revisions,
    }
}
