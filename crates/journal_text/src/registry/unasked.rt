//! The hashes in place of data and of statements that no block asks for.
ghost use Rattle.std.specs.Prelude.{◌≡◌, ℕ, [], ◌∷◌, List, drop, nat_lt};
ghost use Rattle.std.specs.List.{list_all, list_any};
ghost use Rattle.ledger_model.specs.declared.block.Block.{Block};
ghost use Rattle.ledger_model.specs.HashesAsked.{has_asked_data, is_asked, redacts_any, unasked};
ghost use Rattle.ledger_model.specs.State.{is_redact, recorded_in};
ghost use Rattle.ledger_model.specs.Whole.{is_redacted, is_said};
ghost use Rattle.journal_text.specs.Stands.{RedactionsStand};

use crate::registry::redactions::Redactions;
use ledger_model::{Block, Content, Revision, Schema, Told};
use ql_types::TableId;

fn is_redact(change: &Schema) -> bool
    ensures { result ≡ is_redact change.now }
{
    matches!(change, Schema::Redact { .. })
}

/// Whether the block redacts a revision.
fn redacts_any(block: &Block) -> bool
    ensures { result ≡ redacts_any block.now }
{
    block
        .info
        .schema
        .as_slice()
        .iter()
        .any(|change| is_redact(change))
}

/// The number of blocks up to the last that redacts anything, with it.
fn front(blocks: &[Block]) -> usize
    ensures { (at : ℕ) → nat_lt at result ≡ list_any redacts_any (drop at blocks.now) }
{
    let mut end = blocks.len();
    'later: while 0 < end && !redacts_any(&blocks[end - 1]) {
        end -= 1;
    }
    end
}

fn is_said(told: &Told) -> bool
    ensures { result ≡ is_said told.now }
{
    matches!(told, Told::Said(_))
}

/// Whether the revision has its data, or they are redacted.
fn has_asked_data(redactions: &Redactions, table: TableId, revision: &Revision) -> bool
    ensures { (blocks : List Block) → RedactionsStand blocks [] redactions.now
        → result ≡ has_asked_data blocks (record { table = table; revision = revision.now }) }
{
    match &revision.content {
        Content::Deleted | Content::Kept(_) => true,
        Content::Redacted(_) => redactions.has(table, revision),
    }
}

/// Whether each revision of the block has its data, or they are redacted.
fn has_all(redactions: &Redactions, block: &Block) -> bool
    ensures { (blocks : List Block) → RedactionsStand blocks [] redactions.now
        → result ≡ list_all (has_asked_data blocks) (recorded_in block.now.info.tables block.now.revisions) }
{
    let tables = block.info.tables.as_slice();
    let revisions = block.revisions.as_slice();
    let shorter = tables.len().min(revisions.len());
    'revisions: for at in 0..shorter {
        if !has_asked_data(redactions, tables[at], &revisions[at]) {
            return false;
        }
    }
    true
}

/// Whether each hash in place of the block's data and statements is asked for; it tells whether it or a later block
/// redacts anything.
fn is_asked(redactions: &Redactions, block: &Block, is_in_front: bool) -> bool
    ensures { (blocks later : List Block) → RedactionsStand blocks [] redactions.now
        → is_in_front ≡ list_any redacts_any (block.now ∷ later) → result ≡ is_asked blocks block.now later }
{
    (is_said(&block.info.said) || is_in_front) && has_all(redactions, block)
}

/// The number of the first block with a hash that isn't asked for; these are the redactions of the blocks.
pub(super) fn first(redactions: &Redactions, blocks: &[Block]) -> Option<u64>
    ensures { RedactionsStand blocks.now [] redactions.now → result ≡ unasked blocks.now }
{
    let front = front(blocks);
    'each: for at in 0..blocks.len() {
        if !is_asked(redactions, &blocks[at], at < front) {
            return Some(at as u64);
        }
    }
    None
}
