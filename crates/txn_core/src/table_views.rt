//! The views of tables, as a transaction has them.
ghost use Rattle.std.specs.Prelude.{◌≡◌, ◌++◌, map, IfOk};
ghost use Rattle.pql_model.specs.Tables.{meeting};
ghost use Rattle.ledger_model.specs.State.{draft_of};
ghost use Rattle.ledger_model.specs.Views.{row_of, user_view};
ghost use Rattle.std.specs.List.{filter_map};
ghost use Rattle.view_rows.specs.Seen.{drafts_seen};

use crate::keyed::documents_with;
use crate::log::Log;
use crate::narrow::narrowed;
use crate::one_table::documents_of;
use crate::views::latest_among;
use containers::{Sequence, Text};
use ion_values::OutOfMemory;
use pql_model::{Probe, Rows, Tables, View};
use ql_types::TableId;
use std::alloc::Global;
use versions::{Table, Versions, active_table};
use view_rows::{Seen, user_rows, view_rows};

/// The tables and documents as a transaction has them: all tables, the version that it stands on, and its pending
/// revisions. Documents that a probe names are looked up.
#[derive(Clone, Copy)]
pub struct TableViews<'a> {
    tables: &'a [Table],
    base: &'a Versions,
    log: &'a Log,
}

impl<'a> TableViews<'a> {
    /// The views of these tables, over the version and the pending revisions. It takes no memory.
    pub fn new(tables: &'a [Table], base: &'a Versions, log: &'a Log) -> TableViews<'a>
        ensures tables { result.tables.now ≡ tables.now }
        ensures base { result.base.now ≡ base.now }
        ensures log { result.log.now ≡ log.now }
    {
        TableViews { tables, base, log }
    }

    /// The version.
    pub(crate) fn base(&self) -> &'a Versions
        ensures { result.now ≡ self.now.base.now }
    {
        self.base
    }
}

impl Tables for TableViews<'_> {
    ghost use Rattle.txn_core.specs.TableViews.{views_in};

    ghost view_rows = { views_in };

    fn rows(
        &self,
        alloc: Global,
        table: &Text,
        view: &View,
        probe: &Probe,
    ) -> Result<Rows, OutOfMemory> {
        let Some(table) = active_table(self.tables, table.as_str()) else {
            return Ok(Sequence::new(alloc));
        };
        match view {
            View::User => rows_pending(alloc, self.base, self.log, table, probe),
            View::Committed | View::History { .. } => {
                view_rows(alloc, self.base, table, view, probe)
            }
        }
    }
}

/// The rows of the table's user view that meet the probe, the pending revisions counted.
fn rows_pending(
    alloc: Global,
    base: &Versions,
    log: &Log,
    table: TableId,
    probe: &Probe,
) -> Result<Rows, OutOfMemory>
    ensures { IfOk result (λ rows.
        rows ≡ meeting probe.now (user_view table (map draft_of base.now.revisions) log.now)) }
{
    let documents = documents_asked(alloc, base, log, table, probe)?;
    let rows = user_rows(alloc, documents.as_slice(), table, probe)?;
    Ok(rows)
}

/// The documents of which some meet the probe, the pending revisions counted.
fn documents_asked<'a>(
    alloc: Global,
    base: &'a Versions,
    log: &'a Log,
    table: TableId,
    probe: &Probe,
) -> Result<Sequence<Seen<'a>>, OutOfMemory>
    ensures { IfOk result (λ documents. meeting probe.now (filter_map (row_of table) (drafts_seen documents))
        ≡ meeting probe.now (user_view table (map draft_of base.now.revisions) log.now)) }
{
    if let Some(found) = documents_with(alloc, base, log, table, probe)? {
        return Ok(found);
    }
    let read = narrowed(alloc, base, log, table, probe)?;
    match read {
        None => {
            let documents = documents_of(alloc, base, log, table)?;
            Ok(documents)
        }
        Some(ids) => {
            let documents = latest_among(alloc, base, ids.as_slice(), log)?;
            Ok(documents)
        }
    }
}
