//! Documents with their latest revisions, as statements see them.
ghost use Rattle.std.specs.Prelude.{◌≡◌, IfOk};
ghost use Rattle.ledger_model.specs.State.{draft_of};
ghost use Rattle.versions.specs.Held.{drafts_lent, recorded_of};
ghost use Rattle.view_rows.specs.Seen.{draft_seen, drafts_seen};

use containers::Sequence;
use ion_values::OutOfMemory;
use ledger_model::{Content, Draft};
use ql_types::{DocId, TableId};
use std::alloc::Global;
use versions::Recorded;

/// A document's latest revision: a committed or a pending one, its content lent.
#[derive(Clone, Copy)]
pub struct Seen<'a> {
    pub table: TableId,
    pub id: DocId,
    pub version: u64,
    pub content: &'a Content,
}

/// A committed revision.
pub fn committed(recorded: &Recorded) -> Seen<'_>
    ensures { draft_seen result ≡ draft_of (recorded_of recorded.now) }
{
    Seen {
        table: recorded.table,
        id: recorded.revision.metadata.id,
        version: recorded.revision.metadata.version,
        content: &recorded.revision.content,
    }
}

/// A pending revision.
pub fn pending(draft: &Draft) -> Seen<'_>
    ensures { draft_seen result ≡ draft.now }
{
    Seen {
        table: draft.table,
        id: draft.id,
        version: draft.version,
        content: &draft.content,
    }
}

/// Committed revisions, lent one by one.
pub fn all_committed<'a>(
    alloc: Global,
    recorded: &[&'a Recorded],
) -> Result<Sequence<Seen<'a>>, OutOfMemory>
    ensures { IfOk result (λ new. drafts_seen new ≡ drafts_lent recorded.now) }
{
    let mut new = Sequence::new(alloc);
    'recorded: for one in recorded {
        new.push(committed(one))?;
    }
    Ok(new)
}
