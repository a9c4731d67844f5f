//! The three views of a table.
ghost use Rattle.std.specs.Prelude.{◌≡◌, IfOk};
ghost use Rattle.pql_model.specs.Tables.{meeting};
ghost use Rattle.view_rows.specs.Shown.{rows_shown};

use crate::bounds::Bounds;
use crate::history::history_rows;
use crate::named::{committed_named, latest_named};
use ion_values::OutOfMemory;
use pql_model::{Probe, Rows, View};
use ql_types::TableId;
use std::alloc::Global;
use versions::Versions;

/// The rows of the table's view that meet the probe, with no changes that pend, in the view's order. Documents that the
/// probe names are looked up; otherwise it goes once over the table's documents, and of a history once over all revisions.
pub fn view_rows(
    alloc: Global,
    version: &Versions,
    table: TableId,
    view: &View,
    probe: &Probe,
) -> Result<Rows, OutOfMemory>
    ensures { IfOk result (λ rows. rows ≡ meeting probe.now (rows_shown version.now table view.now)) }
{
    match view {
        View::User => latest_named(alloc, version, table, probe),
        View::Committed => committed_named(alloc, version, table, probe),
        View::History { start, end } => {
            let bounds = Bounds { start, end };
            history_rows(alloc, version, table, bounds, probe)
        }
    }
}
