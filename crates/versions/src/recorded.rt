//! Revisions with the tables of their documents.
ghost use Rattle.std.specs.Prelude.{◌≡◌, IfOk};

use ion_values::{OutOfMemory, copy};
use ledger_model::{Content, Revision};
use ql_types::TableId;
use std::alloc::Global;

/// A revision of a document of this table.
#[derive(Drop)]
pub struct Recorded {
    pub table: TableId,
    pub revision: Revision,
}

/// A content that equals the given one.
pub fn copy_content(alloc: Global, content: &Content) -> Result<Content, OutOfMemory>
    ensures { IfOk result (λ new. new ≡ content.now) }
{
    match content {
        Content::Deleted => Ok(Content::Deleted),
        Content::Kept(value) => Ok(Content::Kept(copy(alloc, value)?)),
        Content::Redacted(hash) => Ok(Content::Redacted(*hash)),
    }
}

/// The revision, copied, with its document's table.
pub(crate) fn record(
    alloc: Global,
    table: TableId,
    revision: &Revision,
) -> Result<Recorded, OutOfMemory>
    ensures { IfOk result (λ new. new ≡ record { table = table; revision = revision.now }) }
{
    Ok(Recorded {
        table,
        revision: Revision {
            address: revision.address,
            hash: revision.hash,
            content: copy_content(alloc, &revision.content)?,
            metadata: revision.metadata,
        },
    })
}
