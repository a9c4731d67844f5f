//! What the value of a revision has of its content, with its hash.
ghost use Rattle.std.specs.Prelude.{◌≡◌, IfOk};
ghost use Rattle.block_form.specs.Hashed.{data_field, data_hash, hashed_content, joined_hash};

use crate::told::field;
use ion_hash::hash;
use ion_values::{Field, OutOfMemory, copy};
use ledger_model::Content;
use pair_hash::dot_full;
use ql_types::Hash32;
use std::alloc::Global;
use value_codec::parts::hash_value;

/// What a revision's value has of its content: the field of the data with their hash, or of the hash that stands for
/// them with that hash. A delete has neither.
#[derive(Drop)]
pub struct HashedContent {
    pub field: Option<Field>,
    pub hash: Option<Hash32>,
}

/// What the value of a revision of this content has of it, with its hash. It hangs on nothing else of the block.
pub fn hash_content(alloc: Global, content: &Content) -> Result<HashedContent, OutOfMemory>
    ensures { IfOk result (λ made. made ≡ hashed_content content.now) }
{
    let field = data_field(alloc, content)?;
    let hash = data_hash(alloc, content)?;
    Ok(HashedContent { field, hash })
}

/// The field `data`, which a delete has not, or `dataHash` if the data's hash stands for them.
pub(crate) fn data_field(alloc: Global, content: &Content) -> Result<Option<Field>, OutOfMemory>
    ensures { IfOk result (λ f. f ≡ data_field content.now) }
{
    match content {
        Content::Deleted => Ok(None),
        Content::Kept(data) => Ok(Some(field(alloc, "data", copy(alloc, data)?)?)),
        Content::Redacted(hash) => Ok(Some(field(alloc, "dataHash", hash_value(alloc, hash)?)?)),
    }
}

/// The hash of the data, or the one that stands for them.
pub(crate) fn data_hash(alloc: Global, content: &Content) -> Result<Option<Hash32>, OutOfMemory>
    ensures { IfOk result (λ h. h ≡ data_hash content.now) }
{
    match content {
        Content::Deleted => Ok(None),
        Content::Kept(data) => Ok(Some(hash(alloc, data)?)),
        Content::Redacted(hash) => Ok(Some(*hash)),
    }
}

/// The hash of a revision of this content, by the hash of its metadata and that of its data.
pub(crate) fn joined_hash(metadata: &Hash32, content: &Option<Hash32>) -> Hash32
    ensures { result ≡ joined_hash metadata.now content.now }
{
    match content {
        None => *metadata,
        Some(content) => dot_full(metadata, content),
    }
}
