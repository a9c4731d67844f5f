//! The tables that the sources of a FROM name.
ghost use Rattle.std.specs.Prelude.{◌≡◌, map, option_and_then, IfOk};
ghost use Rattle.std.specs.Option.{option_copied};
ghost use Rattle.pql_model.specs.Tables as spec;
ghost use Rattle.ledger_model.specs.Run.{table_in};
ghost use Rattle.ledger_model.specs.State.{active_table};
ghost use Rattle.versions.specs.Held.{table_of};
ghost use Rattle.txn_core.specs.Selects.{absent_in, absent_name, first_absent_in};

use ion_values::{OutOfMemory, Text};
use ledger_model::Refusal;
use pql_model::{Source, SourceKind};
use ql_types::TableId;
use std::alloc::Global;
use versions::{Table, active_table};

/// What the name of a committed view begins with.
const COMMITTED: &str = "_ql_committed_";

/// Whether it is the name of a committed view.
pub(crate) fn is_committed(name: &str) -> bool
    ensures { result ≡ spec.is_committed name.now }
{
    name.as_bytes().starts_with(COMMITTED.as_bytes())
}

/// The name without the prefix of committed views.
fn table_named(name: &str) -> &str
    ensures { result.now ≡ spec.table_named name.now }
{
    match name.strip_prefix(COMMITTED) {
        Some(table) => table,
        None => name,
    }
}

/// The table that a source names, its views' prefix left out.
pub(crate) fn table_in(from: &SourceKind) -> Option<&str>
    ensures { option_copied result ≡ table_in from.now }
{
    match from {
        SourceKind::Table { name } => Some(table_named(name.as_str())),
        SourceKind::History { table, .. } => Some(table.as_str()),
        SourceKind::Path(_) => None,
    }
}

/// The active table that the source names.
pub(crate) fn active_in(tables: &[Table], from: &SourceKind) -> Option<TableId>
    ensures { result ≡ option_and_then (active_table (map table_of tables.now)) (table_in from.now) }
{
    let name = table_in(from)?;
    active_table(tables, name)
}

/// `NoSuchTable` where no active table has the name.
fn absent_name(alloc: Global, tables: &[Table], name: &str) -> Result<Option<Refusal>, OutOfMemory>
    ensures { IfOk result (λ cause. cause ≡ absent_name (map table_of tables.now) name.now) }
{
    if active_table(tables, name).is_some() {
        return Ok(None);
    }
    Ok(Some(Refusal::NoSuchTable {
        name: Text::from_text(alloc, name)?,
    }))
}

/// `NoSuchTable` where the source names a table that isn't active.
fn absent_in(
    alloc: Global,
    tables: &[Table],
    from: &SourceKind,
) -> Result<Option<Refusal>, OutOfMemory>
    ensures { IfOk result (λ cause. cause ≡ absent_in (map table_of tables.now) (table_in from.now)) }
{
    match table_in(from) {
        Some(name) => absent_name(alloc, tables, name),
        None => Ok(None),
    }
}

/// `NoSuchTable` of the first table that the sources name and that isn't active.
pub(crate) fn first_absent(
    alloc: Global,
    tables: &[Table],
    sources: &[Source],
) -> Result<Option<Refusal>, OutOfMemory>
    ensures { IfOk result (λ cause. cause ≡ first_absent_in (map table_of tables.now) sources.now) }
{
    'sources: for source in sources {
        if let Some(cause) = absent_in(alloc, tables, &source.from)? {
            return Ok(Some(cause));
        }
    }
    Ok(None)
}
