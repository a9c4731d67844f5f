//! Whether the hashes of a block are those of what they stand for.
ghost use Rattle.std.specs.Prelude.{◌≡◌, ◌∷◌, [], map, IfOk};
ghost use Rattle.std.specs.List.{list_all};
ghost use Rattle.std.specs.Cmp.Lexicographic.{pointwise};
ghost use Rattle.ledger_model.specs.Damages as spec;
ghost use Rattle.ledger_model.specs.Seals.{revision_hash};
ghost use Rattle.block_form.specs.Hashed.{metadata_hash, part_hashes};

use crate::part_hashes::PartHashes;
use crate::seals::{entries_hash, header_hash, revisions_root};
use ion_hash::hash;
use ion_values::OutOfMemory;
use ledger_model::{Block, Content, Revision};
use pair_hash::dot_full;
use ql_types::{Hash, Hash32};
use std::alloc::Global;

fn same_hash(a: &Hash32, b: &Hash32) -> bool
    ensures { result ≡ spec.same_hash a.now b.now }
{
    a.bytes == b.bytes
}

fn same_entry(a: &Hash, b: &Hash) -> bool
    ensures { result ≡ spec.same_entry a.now b.now }
{
    match (a, b) {
        (Hash::Empty, Hash::Empty) => true,
        (Hash::Full(a), Hash::Full(b)) => same_hash(a, b),
        _ => false,
    }
}

fn same_entries(a: &[Hash; 3], b: &[Hash; 3]) -> bool
    ensures { result ≡ pointwise spec.same_entry a.now b.now }
{
    let [a0, a1, a2] = a;
    let [b0, b1, b2] = b;
    same_entry(a0, b0) && same_entry(a1, b1) && same_entry(a2, b2)
}

/// The hash that a revision is to have, whose metadata have this hash.
fn revision_hash_with(
    alloc: Global,
    revision: &Revision,
    metadata: &Hash32,
) -> Result<Hash32, OutOfMemory>
    requires { metadata.now ≡ metadata_hash revision.now }
    ensures { IfOk result (λ h. h ≡ revision_hash revision.now.content revision.now.metadata) }
{
    match &revision.content {
        Content::Deleted => Ok(*metadata),
        Content::Kept(value) => Ok(dot_full(metadata, &hash(alloc, value)?)),
        Content::Redacted(data) => Ok(dot_full(metadata, data)),
    }
}

/// Whether the revision's hash is that of its contents. `metadata` is the hash of its metadata.
fn has_revision_hash(
    alloc: Global,
    revision: &Revision,
    metadata: &Hash32,
) -> Result<bool, OutOfMemory>
    requires { metadata.now ≡ metadata_hash revision.now }
    ensures { IfOk result (λ b. b ≡ spec.has_revision_hash revision.now) }
{
    let computed = revision_hash_with(alloc, revision, metadata)?;
    Ok(same_hash(&revision.hash, &computed))
}

/// Whether the hashes of the revisions, whose metadata have these hashes, are those of what they stand for.
fn have_hashes(
    alloc: Global,
    revisions: &[Revision],
    metadata: &[Hash32],
) -> Result<bool, OutOfMemory>
    requires { metadata.now ≡ map metadata_hash revisions.now }
    ensures { IfOk result (λ b. b ≡ list_all spec.has_revision_hash revisions.now) }
{
    'revisions: for at in 0..revisions.len() {
        if !has_revision_hash(alloc, &revisions[at], &metadata[at])? {
            return Ok(false);
        }
    }
    Ok(true)
}

/// Whether each of the block's hashes is that of its contents.
///
/// These are the hashes of its revisions, of its entries, of them all together, and its own. `parts` are the hashes of
/// its parts.
pub fn has_hashes(alloc: Global, block: &Block, parts: &PartHashes) -> Result<bool, OutOfMemory>
    requires { parts.now ≡ part_hashes block.now }
    ensures { IfOk result (λ b. b ≡ spec.has_hashes block.now) }
{
    let revisions = block.revisions.as_slice();
    if !have_hashes(alloc, revisions, parts.metadata.as_slice())? {
        return Ok(false);
    }
    let root = revisions_root(alloc, revisions)?;
    let head = header_hash(alloc, &block.header)?;
    let entries = entries_hash(&parts.said, &root, &head);
    let list = [Hash::Full(parts.said), root, Hash::Full(head)];
    Ok(
        same_entries(&block.list, &list)
            && same_hash(&block.entries, &entries)
            && same_hash(&block.hash, &dot_full(&entries, &block.previous)),
    )
}
