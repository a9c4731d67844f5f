//! The revision of a proof in its block, by the hashes that lead up to the block.
ghost use Rattle.std.specs.Prelude.{◌≡◌, ◌≢◌, ◌+◌, ◌<◌, ◌≤◌, length, map, true, Some, None, slice_get, IfSome};
ghost use Rattle.std.specs.Prelude.{IsSomeAnd, MatchOption, MatchResult};
ghost use Rattle.ql_types.specs.declared.Hash.TheVariants.{Full};
ghost use Rattle.hash_model.specs.Serialize.{field_hash, hash_of, serialize, struct_bytes};
ghost use Rattle.std.specs.List.{AllByRecursion};
ghost use Rattle.std.specs.Option.{option_copied};
ghost use Rattle.hash_model.specs.Tree.{height_of};
ghost use Rattle.pad_tree.specs.Paths.{folded};
ghost use Rattle.ledger_model.specs.Damages.{has_hashes};
ghost use Rattle.ledger_model.specs.Journal as journal;
ghost use Rattle.ledger_model.specs.Seals.{info_hash, info_hashes, revision_hash, revisions_root};
ghost use Rattle.ledger_model.specs.Script.{and_then};
ghost use Rattle.ledger_model.specs.Values as values;
ghost use Rattle.ledger_model.specs.Whole.{told_fits};
ghost use Rattle.proof_model.specs.Verified.{block_height};
ghost use Rattle.proof_extract.specs.Climbs as spec;
ghost use Rattle.proof_extract.specs.Climbs.{HasRevision, IsAmong, IsStacked};
ghost use Rattle.proof_extract.specs.Extracts as parts;
ghost use Rattle.proof_extract.specs.Extracts.{AreAlike, IsFirst, IsRevisionOf, SameHashes, SameParts, data_in};
ghost use Rattle.tree_descent.specs.Collisions.{IsStop};

use crate::climb::{Climb, below};
use crate::forms::{
    alike, data_hash, entries_of, info_form, info_value, other_field, revision_form, stop_at_pair,
    stop_at_said,
};
use block_form::metadata_value;
use ion_extract::{escape_is_injective, frame_is_injective, joined_hashes_are_injective};
use ion_hash::{hash, serialize};
use ion_values::{Field, Value};
use laws_descent::{field_hashes_are_long, four_fields_are_long};
use ledger_model::{Block, Content, Metadata, Revision};
use pad_tree::fold_hashes;
use proof_model::{Proof, revision_hashes};
use ql_types::{Hash, Hash32};
use std::alloc::Global;
use tree_descent::{Stop, descend, not_a_pad, one_pair, stop_if_different};
use value_codec::read_parts::fields_in;

/// Stops if none of the fields of metadata has the name of another field, and one of them has its hash.
fn stop_at_field(alloc: Global, fields: &[Field], other: &Field) -> Result<(), Stop>
    requires names { AllByRecursion (λ f. f.name ≢ other.now.name) fields.now }
    requires among { IsAmong (field_hash other.now) (map field_hash fields.now) }
    ensures { MatchResult result (λ _. ⊥) IsStop }
{
    'fields: for field in fields {
        other_field(alloc, field, other)?;
    }
    Ok(())
}

/// Stops if metadata have the form of what the block's transaction said and did: the place of the transaction has a
/// field there, and none in metadata.
fn stop_at_place(alloc: Global, block: &Block, metadata: &Metadata) -> Result<(), Stop>
    requires fits { told_fits block.now.info.said ≡ true }
    requires form { serialize (journal.metadata_value metadata.now)
        ≡ struct_bytes (info_hashes block.now.info block.now.revisions) }
    ensures { MatchResult result (λ _. ⊥) IsStop }
{
    field_hashes_are_long();
    frame_is_injective();
    escape_is_injective();
    joined_hashes_are_injective();
    let value = metadata_value(alloc, metadata)?;
    let info = info_value(alloc, block)?;
    let Some(fields) = fields_in(&value) else {
        unreachable!();
    };
    let Some(place) = first_field(&info) else {
        unreachable!();
    };
    stop_at_field(alloc, fields.as_slice(), place)
}

/// The first field of a struct.
fn first_field(v: &Value) -> Option<&Field>
    ensures { option_copied result ≡ and_then (values.fields_in v.now) (λ fields. slice_get fields 0) }
{
    let fields = fields_in(v)?;
    fields.get(0)
}

/// Stops if a delete's metadata have the hash of what the block's transaction said and did.
fn stop_at_metadata(alloc: Global, block: &Block, metadata: &Metadata) -> Result<(), Stop>
    requires fits { told_fits block.now.info.said ≡ true }
    requires hash { hash_of (journal.metadata_value metadata.now) ≡ info_hash block.now.info block.now.revisions }
    ensures { MatchResult result (λ _. ⊥) IsStop }
{
    let value = metadata_value(alloc, metadata)?;
    let form = serialize(alloc, &value)?;
    let info = info_form(alloc, block)?;
    stop_if_different(form, info)?;
    stop_at_place(alloc, block, metadata)
}

/// Stops if a revision and the block's transaction info have one hash.
fn stop_at_info(alloc: Global, block: &Block, revision: &Revision) -> Result<(), Stop>
    requires fits { told_fits block.now.info.said ≡ true }
    requires hash { revision.now.hash ≡ info_hash block.now.info block.now.revisions }
    requires stated { revision.now.hash ≡ revision_hash revision.now.content revision.now.metadata }
    ensures { MatchResult result (λ _. ⊥) IsStop }
{
    let found = data_hash(alloc, &revision.content)?;
    match found {
        None => stop_at_metadata(alloc, block, &revision.metadata),
        Some(part) => {
            let metadata = metadata_value(alloc, &revision.metadata)?;
            let first = hash(alloc, &metadata)?;
            stop_at_said(alloc, block, &first, &part)
        }
    }
}

/// Stops if a path leads from the revision to the hash of what the block's transaction said and did.
fn stop_under_info(
    alloc: Global,
    block: &Block,
    revision: &Revision,
    path: &[Hash32],
) -> Result<(), Stop>
    requires fits { told_fits block.now.info.said ≡ true }
    requires hash { folded revision.now.hash path.now ≡ info_hash block.now.info block.now.revisions }
    requires stated { revision.now.hash ≡ revision_hash revision.now.content revision.now.metadata }
    ensures { MatchResult result (λ _. ⊥) IsStop }
{
    if path.is_empty() {
        return stop_at_info(alloc, block, revision);
    }
    let last = path.len() - 1;
    let under = fold_hashes(&revision.hash, &path[..last]);
    stop_at_said(alloc, block, &under, &path[last])
}

/// The root of revisions climbed to is that of the block.
fn same_root(
    alloc: Global,
    block: &Block,
    revision: &Revision,
    proof: &Proof,
    climbed: &Climb,
) -> Result<(), Stop>
    requires hashes { has_hashes block.now ≡ true }
    requires fits { told_fits block.now.info.said ≡ true }
    requires some { 1 ≤ length block.now.revisions }
    requires count { 1 ≤ proof.now.header.revisions }
    requires long { block_height proof.now + 2 ≤ length proof.now.path }
    requires stated { revision.now.hash ≡ revision_hash revision.now.content revision.now.metadata }
    requires stacked { IsStacked climbed.now }
    requires root { climbed.now.root ≡ folded revision.now.hash (spec.below proof.now) }
    requires changes { spec.HasChanges block.now climbed.now }
    ensures { MatchResult result (λ _. Full climbed.now.root ≡ revisions_root block.now.revisions) IsStop }
{
    let entries = entries_of(block);
    let Hash::Full(root) = entries.root else {
        unreachable!();
    };
    one_pair(alloc, &climbed.root, &climbed.said, &entries.said, &root)?;
    if climbed.root.bytes == root.bytes {
        return Ok(());
    }
    stop_under_info(alloc, block, revision, below(proof))
}

/// The path leads from the root of the revisions down to one with the hash.
fn has_revision(
    alloc: Global,
    revisions: &[Revision],
    revision: &Revision,
    path: &[Hash32],
) -> Result<(), Stop>
    requires stated { revision.now.hash ≡ revision_hash revision.now.content revision.now.metadata }
    requires long { length path.now ≡ height_of (length revisions.now) }
    requires root { Full (folded revision.now.hash path.now) ≡ revisions_root revisions.now }
    ensures { MatchResult result (λ _. HasRevision revisions.now revision.now.hash) IsStop }
{
    let leaves = revision_hashes(alloc, revisions)?;
    let end = descend(alloc, leaves.as_slice(), &revision.hash, path)?;
    match end {
        Some(_) => Ok(()),
        None => {
            let form = revision_form(alloc, revision)?;
            Err(not_a_pad(alloc, form))
        }
    }
}

/// The revision of this index.
fn revision_at(revisions: &[Revision], index: usize) -> &Revision
    requires { index < length revisions.now }
    ensures { slice_get revisions.now index ≡ Some result.now }
{
    &revisions[index]
}

/// The index of the first revision with this hash, counted from 0. None comes only if no revision has it.
fn first_with(revisions: &[Revision], hash: &Hash32) -> Option<usize>
    ensures { MatchOption result (HasRevision revisions.now hash.now → ⊥)
        (λ index. IsSomeAnd (slice_get revisions.now index) (IsFirst revisions.now hash.now index)) }
{
    'revisions: for at in 0..revisions.len() {
        if revisions[at].hash.bytes == hash.bytes {
            return Some(at);
        }
    }
    None
}

/// Stops at two revisions of one hash, of which one alone is a delete.
fn stop_at_delete(
    alloc: Global,
    kept: &Revision,
    part: &Hash32,
    deleted: &Revision,
) -> Result<(), Stop>
    requires same { kept.now.hash ≡ deleted.now.hash }
    requires part { parts.data_hash kept.now.content ≡ Some part.now }
    requires none { parts.data_hash deleted.now.content ≡ None }
    requires kept { kept.now.hash ≡ revision_hash kept.now.content kept.now.metadata }
    requires deleted { deleted.now.hash ≡ revision_hash deleted.now.content deleted.now.metadata }
    ensures { MatchResult result (λ _. ⊥) IsStop }
{
    four_fields_are_long();
    let metadata = metadata_value(alloc, &kept.metadata)?;
    let first = hash(alloc, &metadata)?;
    let other = metadata_value(alloc, &deleted.metadata)?;
    stop_at_pair(alloc, &first, part, &other)
}

/// Two revisions of one hash that have data have the same part hashes.
fn same_pair(
    alloc: Global,
    revision: &Revision,
    part: &Hash32,
    own: &Revision,
    own_part: &Hash32,
) -> Result<(), Stop>
    requires same { own.now.hash ≡ revision.now.hash }
    requires part { parts.data_hash revision.now.content ≡ Some part.now }
    requires own_part { parts.data_hash own.now.content ≡ Some own_part.now }
    requires stated { revision.now.hash ≡ revision_hash revision.now.content revision.now.metadata }
    requires own { own.now.hash ≡ revision_hash own.now.content own.now.metadata }
    ensures { MatchResult result (λ _. SameHashes revision.now.content revision.now.metadata own.now.content
        own.now.metadata) IsStop }
{
    let metadata = metadata_value(alloc, &revision.metadata)?;
    let first = hash(alloc, &metadata)?;
    let other = metadata_value(alloc, &own.metadata)?;
    let second = hash(alloc, &other)?;
    one_pair(alloc, &first, part, &second, own_part)
}

/// Two revisions of one hash have the same part hashes.
fn same_hashes(alloc: Global, revision: &Revision, own: &Revision) -> Result<(), Stop>
    requires same { own.now.hash ≡ revision.now.hash }
    requires stated { revision.now.hash ≡ revision_hash revision.now.content revision.now.metadata }
    requires own { own.now.hash ≡ revision_hash own.now.content own.now.metadata }
    ensures { MatchResult result (λ _. SameHashes revision.now.content revision.now.metadata own.now.content
        own.now.metadata) IsStop }
{
    let found = data_hash(alloc, &revision.content)?;
    let own_found = data_hash(alloc, &own.content)?;
    let Some(part) = found else {
        let Some(own_part) = own_found else {
            return Ok(());
        };
        return stop_at_delete(alloc, own, &own_part, revision);
    };
    let Some(own_part) = own_found else {
        return stop_at_delete(alloc, revision, &part, own);
    };
    same_pair(alloc, revision, &part, own, &own_part)
}

/// The value and the data, if there are any, are equivalent if they have one hash.
fn alike_data(alloc: Global, value: &Value, content: &Content) -> Result<(), Stop>
    ensures { MatchResult result (λ _. IfSome (data_in content.now) (AreAlike value.now)) IsStop }
{
    match content {
        Content::Kept(data) => alike(alloc, value, data),
        _ => Ok(()),
    }
}

/// The data, if there are any, and the value are equivalent if they have one hash.
fn data_alike(alloc: Global, content: &Content, value: &Value) -> Result<(), Stop>
    ensures { MatchResult result (λ _. IfSome (data_in content.now) (λ v. AreAlike v value.now)) IsStop }
{
    match content {
        Content::Kept(data) => alike(alloc, data, value),
        _ => Ok(()),
    }
}

/// The data of both, if there are any, are equivalent if they have one hash.
fn both_alike(alloc: Global, a: &Content, b: &Content) -> Result<(), Stop>
    ensures { MatchResult result (λ _. IfSome (data_in a.now) (λ v. IfSome (data_in b.now) (AreAlike v))) IsStop }
{
    match a {
        Content::Kept(data) => alike_data(alloc, data, b),
        _ => Ok(()),
    }
}

/// The index of one of this many, in as few bits as their number.
fn index_among(index: usize, count: u32) -> u32
    requires { index < count }
    ensures { result ≡ index }
{
    if index < count as usize {
        index as u32
    } else {
        count
    }
}

/// Two revisions of one hash have the same parts.
fn same_parts(alloc: Global, revision: &Revision, own: &Revision) -> Result<(), Stop>
    requires same { own.now.hash ≡ revision.now.hash }
    requires stated { revision.now.hash ≡ revision_hash revision.now.content revision.now.metadata }
    requires own { own.now.hash ≡ revision_hash own.now.content own.now.metadata }
    ensures { MatchResult result (λ _. SameParts revision.now.content revision.now.metadata own.now.content
        own.now.metadata) IsStop }
{
    same_hashes(alloc, revision, own)?;
    let metadata = metadata_value(alloc, &revision.metadata)?;
    let other = metadata_value(alloc, &own.metadata)?;
    alike(alloc, &metadata, &other)?;
    both_alike(alloc, &revision.content, &own.content)?;
    data_alike(alloc, &revision.content, &other)?;
    alike_data(alloc, &metadata, &own.content)
}

/// The index of the first revision of the block that has the hash of the revision, with the same parts.
pub fn revision_in(
    alloc: Global,
    block: &Block,
    revision: &Revision,
    proof: &Proof,
    climbed: &Climb,
) -> Result<u32, Stop>
    requires hashes { has_hashes block.now ≡ true }
    requires fits { told_fits block.now.info.said ≡ true }
    requires revisions { block.now.header.revisions ≡ length block.now.revisions }
    requires header { proof.now.header.revisions ≡ block.now.header.revisions }
    requires count { 1 ≤ proof.now.header.revisions }
    requires long { block_height proof.now + 2 ≤ length proof.now.path }
    requires stated { revision.now.hash ≡ revision_hash revision.now.content revision.now.metadata }
    requires stacked { IsStacked climbed.now }
    requires root { climbed.now.root ≡ folded revision.now.hash (spec.below proof.now) }
    requires changes { spec.HasChanges block.now climbed.now }
    ensures { MatchResult result (IsRevisionOf block.now revision.now) IsStop }
{
    same_root(alloc, block, revision, proof, climbed)?;
    let revisions = block.revisions.as_slice();
    has_revision(alloc, revisions, revision, below(proof))?;
    let Some(index) = first_with(revisions, &revision.hash) else {
        unreachable!();
    };
    let own = revision_at(revisions, index);
    same_parts(alloc, revision, own)?;
    Ok(index_among(index, block.header.revisions))
}
