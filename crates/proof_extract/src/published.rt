//! Whether a digest is that of a journal.
ghost use Rattle.std.specs.Prelude.{◌≡◌, ◌<◌, ◌↔◌, true, IfOk};
ghost use Rattle.proof_extract.specs.Extracts.{IsPublished};

use crate::blocks::hashes_to;
use containers::OutOfMemory;
use ledger_model::Blocks;
use pad_tree::root;
use proof_model::Digest;
use ql_types::Hash;
use std::alloc::Global;

/// Whether the digest is that of the journal with its tip: the strand is the journal's, the tip is the number of a
/// block, and the root of the tree over the blocks up to the tip is the digest.
pub fn is_published(alloc: Global, blocks: &Blocks, digest: &Digest) -> Result<bool, OutOfMemory>
    ensures { IfOk result (λ b. (b ≡ true) ↔ IsPublished blocks.now.list digest.now) }
{
    let Some(first) = blocks.get(0) else {
        return Ok(false);
    };
    if digest.tip.strand.raw != first.header.address.strand.raw {
        return Ok(false);
    }
    if digest.tip.sequence >= blocks.len() {
        return Ok(false);
    }
    let hashes = hashes_to(alloc, blocks.as_slice(), digest.tip.sequence)?;
    Ok(match root(alloc, hashes.as_slice())? {
        Hash::Full(root) => root.bytes == digest.digest.bytes,
        Hash::Empty => false,
    })
}
