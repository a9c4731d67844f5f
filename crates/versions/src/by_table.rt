//! The revisions of each table, by their places in block order.
ghost use Rattle.std.specs.Prelude.{◌≡◌, [], ◌∷◌, ◌++◌, IfOk, slice_get};
ghost use Rattle.std.specs.Arc.{arc_value};
ghost use Rattle.versions.specs.ByTable.{IsEntered, had_of};

use ion_values::OutOfMemory;
use pmap::PMap;
use pvec::PVec;
use ql_types::{Steps, TableId};
use std::alloc::Global;
use std::sync::Arc;

/// The places of the revisions of each table in order.
pub(crate) type ByTable = PMap<TableId, PVec<u64>>;

/// The places of the table's revisions with one more.
fn had_with(
    alloc: Global,
    tables: &ByTable,
    table: TableId,
    place: Arc<u64>,
) -> Result<PVec<u64>, OutOfMemory>
    ensures { IfOk result (λ had. had ≡ had_of tables.now table ++ arc_value place ∷ []) }
{
    match tables.get(&table, &mut Steps { taken: 0 }) {
        None => PVec::new(alloc).push(place),
        Some(had) => had.push(place),
    }
}

/// The places of each table's revisions with one more, of this table.
pub(crate) fn table_entered(
    alloc: Global,
    tables: &ByTable,
    table: TableId,
    place: Arc<u64>,
) -> Result<ByTable, OutOfMemory>
    ensures { IfOk result (λ new. IsEntered tables.now table (arc_value place) new) }
{
    let places = had_with(alloc, tables, table, place)?;
    let key = Arc::new(alloc, table)?;
    let had = Arc::new(alloc, places)?;
    let new = tables.insert(key, had)?;
    Ok(new)
}

/// The place of the revision of this number of a table, counted from 0.
pub(crate) fn place_of(tables: &ByTable, table: TableId, number: u64) -> Option<u64>
    ensures { result ≡ slice_get (had_of tables.now table) number }
{
    let had = tables.get(&table, &mut Steps { taken: 0 })?;
    had.get(number).copied()
}
