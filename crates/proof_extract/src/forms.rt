//! What the parts of blocks are hashed as.
ghost use Rattle.std.specs.Prelude.{◌≡◌, ◌≢◌, ◌≤◌, ◌<◌, length, true, Some, slice_get, IfOk, MatchResult};
ghost use Rattle.std.specs.Option.{option_copied};
ghost use Rattle.sha2.specs.Sha256.{sha256};
ghost use Rattle.hash_model.specs.PairHash.{dot32};
ghost use Rattle.hash_model.specs.Serialize.{field_hash, hash_of, serialize, struct_bytes};
ghost use Rattle.ledger_model.specs.Damages.{has_hashes};
ghost use Rattle.ledger_model.specs.Journal.{header_value, info_value};
ghost use Rattle.ledger_model.specs.Seals.{info_hash, info_hashes, revision_hash};
ghost use Rattle.ledger_model.specs.Whole.{told_fits};
ghost use Rattle.proof_model.specs.Chained.{Chained};
ghost use Rattle.proof_extract.specs.Climbs as spec;
ghost use Rattle.proof_extract.specs.Extracts as parts;
ghost use Rattle.proof_extract.specs.Extracts.{AreAlike};
ghost use Rattle.tree_descent.specs.Collisions.{IsStop};

use block_form::{header_value, metadata_value, to_ion};
use containers::{Bytes, OutOfMemory};
use ion_extract::{Compared, compare_hashed, field_form, field_form_is_injective};
use ion_hash::{field_hash, hash, serialize};
use ion_values::{Field, Value, copy};
use laws_descent::{
    field_hashes_are_long, four_fields_are_long, four_hashes_are_long, ids_are_short,
};
use ledger_model::{Block, Content, Header, Revision};
use pair_hash::dot_full;
use ql_types::{Hash, Hash32};
use std::alloc::Global;
use tree_descent::{Stop, pair_form, stop_if_different};
use value_codec::parts::id_value;
use value_codec::read_parts::fields_in;

/// What the transaction said and did, in the value of a block.
fn info_in(v: &Value) -> Option<&Value>
    ensures { option_copied result ≡ spec.info_in v.now }
{
    let fields = fields_in(v)?;
    let info = fields.get(7)?;
    Some(&info.value)
}

/// What the block's transaction said and did, as a value.
pub fn info_value(alloc: Global, block: &Block) -> Result<Value, OutOfMemory>
    ensures { IfOk result (λ v. v ≡ info_value block.now.info block.now.revisions) }
{
    let value = to_ion(alloc, block)?;
    match info_in(&value) {
        Some(info) => copy(alloc, info),
        None => unreachable!(),
    }
}

/// What the hash of what the block's transaction said and did is the hash of.
pub fn info_form(alloc: Global, block: &Block) -> Result<Bytes, OutOfMemory>
    requires { told_fits block.now.info.said ≡ true }
    ensures form { IfOk result (λ form. form ≡ struct_bytes (info_hashes block.now.info block.now.revisions)) }
    ensures long { IfOk result (λ form. 64 < length form) }
{
    field_hashes_are_long();
    four_hashes_are_long();
    let form = block_form::info_form(alloc, &block.info, block.revisions.as_slice())?;
    Ok(form)
}

/// Stops with what two fields of one hash and of different names are the hashes of.
pub fn other_field(alloc: Global, f: &Field, g: &Field) -> Result<(), Stop>
    requires { f.now.name ≢ g.now.name }
    ensures { MatchResult result (λ _. field_hash f.now ≢ field_hash g.now) IsStop }
{
    field_form_is_injective();
    let first = field_hash(alloc, f)?;
    let second = field_hash(alloc, g)?;
    if first != second {
        return Ok(());
    }
    let form = field_form(alloc, f)?;
    let other = field_form(alloc, g)?;
    stop_if_different(form, other)
}

/// Stops with two byte strings if the values have one hash and aren't equivalent.
pub fn alike(alloc: Global, v: &Value, w: &Value) -> Result<(), Stop>
    ensures { MatchResult result (λ _. AreAlike v.now w.now) IsStop }
{
    let compared = compare_hashed(alloc, v, w)?;
    match compared {
        Compared::Collision { first, second } => Err(Stop::Collision { first, second }),
        Compared::Same => Ok(()),
        Compared::Differ => Ok(()),
    }
}

/// Stops with a pair of hashes and what a block's transaction said and did, of one hash.
pub fn stop_at_said(alloc: Global, block: &Block, a: &Hash32, b: &Hash32) -> Result<(), Stop>
    requires fits { told_fits block.now.info.said ≡ true }
    requires hash { dot32 a.now b.now ≡ info_hash block.now.info block.now.revisions }
    ensures { MatchResult result (λ _. ⊥) IsStop }
{
    let pair = pair_form(alloc, a, b)?;
    let info = info_form(alloc, block)?;
    stop_if_different(pair, info)
}

/// Stops with a pair of hashes and a longer value of the pair's hash.
pub fn stop_at_pair(alloc: Global, a: &Hash32, b: &Hash32, longer: &Value) -> Result<(), Stop>
    requires hash { dot32 a.now b.now ≡ hash_of longer.now }
    requires long { 64 < length (serialize longer.now) }
    ensures { MatchResult result (λ _. ⊥) IsStop }
{
    let pair = pair_form(alloc, a, b)?;
    let form = serialize(alloc, longer)?;
    stop_if_different(pair, form)
}

/// What a header is hashed as.
pub fn header_form(alloc: Global, header: &Header) -> Result<Bytes, OutOfMemory>
    ensures { IfOk result (λ form. form ≡ serialize (header_value header.now)) }
{
    serialize(alloc, &header_value(alloc, header)?)
}

/// The hash of the data, which a delete has not.
pub fn data_hash(alloc: Global, content: &Content) -> Result<Option<Hash32>, OutOfMemory>
    ensures { IfOk result (λ found. found ≡ parts.data_hash content.now) }
{
    match content {
        Content::Deleted => Ok(None),
        Content::Kept(data) => Ok(Some(hash(alloc, data)?)),
        Content::Redacted(data) => Ok(Some(*data)),
    }
}

/// What a revision is hashed as.
pub fn revision_form(alloc: Global, revision: &Revision) -> Result<Bytes, OutOfMemory>
    requires { revision.now.hash ≡ revision_hash revision.now.content revision.now.metadata }
    ensures form { IfOk result (λ form. sha256 form ≡ revision.now.hash.bytes) }
    ensures long { IfOk result (λ form. 64 ≤ length form) }
{
    four_fields_are_long();
    let metadata = metadata_value(alloc, &revision.metadata)?;
    let found = data_hash(alloc, &revision.content)?;
    match found {
        None => {
            let form = serialize(alloc, &metadata)?;
            Ok(form)
        }
        Some(part) => {
            let first = hash(alloc, &metadata)?;
            let pair = pair_form(alloc, &first, &part)?;
            Ok(pair)
        }
    }
}

/// The block of this number.
pub fn block_at(blocks: &[Block], number: usize) -> &Block
    requires { number < length blocks.now }
    ensures { slice_get blocks.now number ≡ Some result.now }
{
    &blocks[number]
}

/// What the previous hash of the block of this number is the hash of: the id of the strand, or two hashes of the block
/// before.
pub fn previous_form(
    alloc: Global,
    blocks: &[Block],
    number: usize,
    block: &Block,
) -> Result<Bytes, OutOfMemory>
    requires chained { Chained blocks.now }
    requires at { slice_get blocks.now number ≡ Some block.now }
    ensures form { IfOk result (λ form. sha256 form ≡ block.now.previous.bytes) }
    ensures short { IfOk result (λ form. length form ≤ 64) }
    ensures first { IfOk result (λ form. number ≡ 0 → length form < 64) }
{
    if number == 0 {
        ids_are_short();
        let strand = id_value(alloc, block.header.address.strand.raw)?;
        let form = serialize(alloc, &strand)?;
        return Ok(form);
    }
    let before = block_at(blocks, number - 1);
    let pair = pair_form(alloc, &before.entries, &before.previous)?;
    Ok(pair)
}

/// The hashes of a block's entries: of what its transaction said and did, of its revisions, and of its header.
#[derive(Clone, Copy)]
pub struct Entries {
    pub said: Hash32,
    pub root: Hash,
    pub header: Hash32,
}

/// The hashes of the block's entries.
pub fn entries_of(block: &Block) -> Entries
    requires { has_hashes block.now ≡ true }
    ensures { result ≡ spec.entries_of block.now }
{
    match block.list {
        [Hash::Full(said), root, Hash::Full(header)] => Entries { said, root, header },
        _ => unreachable!(),
    }
}

/// The hash of what a transaction said and did, with that of its revisions.
pub fn changes_of(entries: &Entries) -> Hash32
    ensures { result ≡ spec.changes_of entries.now.said entries.now.root }
{
    match entries.root {
        Hash::Empty => entries.said,
        Hash::Full(root) => dot_full(&entries.said, &root),
    }
}
