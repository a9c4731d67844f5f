//! What a transaction's block has wherever it stands, with its hashes.
ghost use Rattle.std.specs.Prelude.{◌≡◌, map, IfOk};
ghost use Rattle.ledger_model.specs.Run.{final_revisions};
ghost use Rattle.ledger_core.specs.NextBlock.{hashed_contents, hashed_of};

use block_form::{HashedContent, HashedField, hash_content, hash_said};
use containers::Sequence;
use ion_values::OutOfMemory;
use ledger_model::Draft;
use std::alloc::Global;
use txn_core::Txn;

/// The field of a transaction's statements, and what the values of its revisions have of their contents, in order, each
/// with its hash.
#[derive(Drop)]
pub(crate) struct Hashed {
    pub(crate) told: HashedField,
    pub(crate) contents: Sequence<HashedContent>,
}

/// What the transaction's block has wherever it stands.
pub(crate) fn hash_txn(alloc: Global, txn: &Txn) -> Result<Hashed, OutOfMemory>
    ensures { IfOk result (λ made. made ≡ hashed_of txn.now.done) }
{
    let told = hash_said(alloc, txn.said())?;
    let contents = hash_left(alloc, txn)?;
    Ok(Hashed { told, contents })
}

/// What the values of the transaction's revisions have of their contents, in order.
fn hash_left(alloc: Global, txn: &Txn) -> Result<Sequence<HashedContent>, OutOfMemory>
    ensures { IfOk result (λ all. all ≡ hashed_contents (final_revisions txn.now.done)) }
{
    let left = txn.left(alloc)?;
    let all = hash_drafts(alloc, left.as_slice())?;
    Ok(all)
}

/// What the values of the drafts' revisions have of their contents, in order.
fn hash_drafts(alloc: Global, drafts: &[&Draft]) -> Result<Sequence<HashedContent>, OutOfMemory>
    ensures { IfOk result (λ all. all ≡ hashed_contents (map (λ d. d.now) drafts.now)) }
{
    let mut all = Sequence::new(alloc);
    'drafts: for draft in drafts {
        all.push(hash_content(alloc, &draft.content)?)?;
    }
    Ok(all)
}
