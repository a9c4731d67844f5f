//! The user view: the documents of a table as they are now.
ghost use Rattle.std.specs.Prelude.{◌≡◌, Some, None, IfOk, MatchOption};
ghost use Rattle.std.specs.List.{filter_map};
ghost use Rattle.pql_model.specs.Tables.{meeting};
ghost use Rattle.ledger_model.specs.Views.{row_of};
ghost use Rattle.view_rows.specs.Seen.{draft_seen, drafts_seen};

use crate::probes::meets;
use crate::seen::Seen;
use containers::Sequence;
use ion_values::{OutOfMemory, Value, copy};
use ledger_model::{Content, Row};
use pql_model::{Probe, Rows};
use ql_types::TableId;
use std::alloc::Global;

/// The rows of the table's user view that meet the probe, among documents with their latest revisions, in order.
pub fn user_rows(
    alloc: Global,
    documents: &[Seen<'_>],
    table: TableId,
    probe: &Probe,
) -> Result<Rows, OutOfMemory>
    ensures { IfOk result (λ rows. rows ≡ meeting probe.now (filter_map (row_of table) (drafts_seen documents.now))) }
{
    let mut rows = Sequence::new(alloc);
    'documents: for document in documents {
        let Some(value) = value_in(document, table) else {
            continue;
        };
        if meets(alloc, probe, document.id, value)? {
            rows.push(Row {
                id: document.id,
                value: copy(alloc, value)?,
            })?;
        }
    }
    Ok(rows)
}

/// The value of a document that is of the table and isn't deleted.
fn value_in<'a>(document: &Seen<'a>, table: TableId) -> Option<&'a Value>
    ensures { MatchOption result (row_of table (draft_seen document.now) ≡ None)
        (λ v. row_of table (draft_seen document.now) ≡ Some (record { id = document.now.id; value = v.now })) }
{
    if document.table.raw != table.raw {
        return None;
    }
    match document.content {
        Content::Deleted | Content::Redacted(_) => None,
        Content::Kept(value) => Some(value),
    }
}
