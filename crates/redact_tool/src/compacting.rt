//! Parts of blocks, copied without what is redacted.
ghost use Rattle.std.specs.Prelude.{◌≡◌, List, length, IfOk};
ghost use Rattle.ledger_model.specs.declared.block.Block.{Block};
ghost use Rattle.ledger_model.specs.Compaction as spec;
ghost use Rattle.ledger_model.specs.State.{hashed};
ghost use Rattle.redact_tool.specs.Redacting.{AreRedactions};

use crate::redactions::Redactions;
use block_copies::{copy_content, copy_told, info_with, revision_with};
use block_form::told_hash;
use containers::Sequence;
use ion_hash::hash;
use ion_values::OutOfMemory;
use ledger_model::{Content, Info, Revision, Revisions, Told};
use ql_types::TableId;
use std::alloc::Global;

/// The data's hash in place of the data.
fn hashed_content(alloc: Global, content: &Content) -> Result<Content, OutOfMemory>
    ensures { IfOk result (λ c. c ≡ hashed content.now) }
{
    match content {
        Content::Deleted => Ok(Content::Deleted),
        Content::Kept(value) => Ok(Content::Redacted(hash(alloc, value)?)),
        Content::Redacted(hash) => Ok(Content::Redacted(*hash)),
    }
}

/// A revision of a document of this table, with its data's hash in place of the data where it is redacted.
pub fn shown_revision(
    alloc: Global,
    redactions: &Redactions,
    table: TableId,
    revision: &Revision,
) -> Result<Revision, OutOfMemory>
    ensures { (blocks : List Block) → AreRedactions blocks redactions.now
        → IfOk result (λ r. r ≡ spec.shown_revision blocks table revision.now) }
{
    let content = if redactions.has(table, revision) {
        hashed_content(alloc, &revision.content)?
    } else {
        copy_content(alloc, &revision.content)?
    };
    Ok(revision_with(revision, content))
}

/// Revisions of documents of these tables, as many as there are of both.
pub(crate) fn shown_revisions(
    alloc: Global,
    redactions: &Redactions,
    tables: &[TableId],
    revisions: &[Revision],
) -> Result<Revisions, OutOfMemory>
    requires { length tables.now ≡ length revisions.now }
    ensures { (blocks : List Block) → AreRedactions blocks redactions.now
        → IfOk result (λ rs. rs ≡ spec.shown_revisions blocks tables.now revisions.now) }
{
    let mut shown = Sequence::new(alloc);
    let shorter = tables.len().min(revisions.len());
    'each: for at in 0..shorter {
        shown.push(shown_revision(alloc, redactions, tables[at], &revisions[at])?)?;
    }
    Ok(shown)
}

/// The statements, or their hash in their place.
fn shown_told(alloc: Global, hides: bool, told: &Told) -> Result<Told, OutOfMemory>
    ensures { IfOk result (λ t. t ≡ spec.shown_told hides told.now) }
{
    if hides {
        let hash = told_hash(alloc, told)?;
        return Ok(Told::Hashed(hash));
    }
    copy_told(alloc, told)
}

/// What a transaction said and did, with its statements' hash in their place or not.
pub(crate) fn shown_info(alloc: Global, hides: bool, info: &Info) -> Result<Info, OutOfMemory>
    ensures { IfOk result (λ i. i ≡ record info.now { said = spec.shown_told hides info.now.said }) }
{
    let said = shown_told(alloc, hides, &info.said)?;
    info_with(alloc, info, said)
}
