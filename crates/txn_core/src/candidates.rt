//! The rows of a source that meet what is read of it.
ghost use Rattle.std.specs.Prelude.{◌≡◌, true, map, option_and_then, IfOk, Some};
ghost use Rattle.std.specs.List.{filter};
ghost use Rattle.std.specs.Option.{IfSome, option_copied};
ghost use Rattle.ledger_model.specs.State.{State, active_table};
ghost use Rattle.ledger_model.specs.Statements.{table_in};
ghost use Rattle.versions.specs.Held.{table_of};
ghost use Rattle.ledger_model.specs.declared.outcome.Item.TheVariants as index;
ghost use Rattle.txn_core.specs.Reading.{Fits, documents_or_all};
ghost use Rattle.ledger_model.specs.Meets as spec;
ghost use Rattle.pql_model.specs.From.{rows_given};
ghost use Rattle.txn_core.specs.TableViews.{views_in};

use crate::narrow::by_keys;
use crate::sources::is_committed;
use crate::table_views::TableViews;
use containers::Sequence;
use footprints::document_shown;
use ion_values::{Key, OutOfMemory, Text, Value};
use ledger_model::Item;
use pql_from::source_rows;
use pql_model::{DocIds, Keys, Probe, Row, Rows, SourceKind, has_key};
use ql_types::{DocId, TableId};
use std::alloc::Global;
use versions::Versions;

/// What a source is asked for: just the rows that meet one of the items, or those and maybe others.
#[derive(Drop)]
enum Plan {
    Exact(Probe),
    Enough(Probe),
}

/// A source with its table.
#[derive(Clone, Copy)]
pub(crate) struct Of<'a> {
    pub kind: &'a SourceKind,
    pub table: TableId,
}

/// The rows of the source that meet one of the items.
pub(crate) fn rows_met(
    alloc: Global,
    views: TableViews<'_>,
    of: Of<'_>,
    params: &[Value],
    items: &[Item],
) -> Result<Rows, OutOfMemory>
    requires { option_and_then (active_table (map table_of views.tables.now)) (table_in of.kind.now) ≡ Some of.table }
    ensures { IfOk result (λ rows. rows ≡ filter (spec.shows_one of.entry.kind.now of.entry.table items.now)
        (rows_given (views_in views.entry) params.now of.entry.kind.now)) }
{
    let plan = plan_for(alloc, views.base(), of, items)?;
    match plan {
        Plan::Exact(probe) => {
            let rows = source_rows(alloc, &views, of.kind, params, &probe)?;
            Ok(rows)
        }
        Plan::Enough(probe) => {
            let rows = source_rows(alloc, &views, of.kind, params, &probe)?;
            let kept = met(alloc, rows, of, items)?;
            Ok(kept)
        }
    }
}

/// Of the rows those that meet one of the items.
fn met(alloc: Global, rows: Rows, of: Of<'_>, items: &[Item]) -> Result<Rows, OutOfMemory>
    ensures { IfOk result (λ met. met ≡ filter (spec.shows_one of.entry.kind.now of.entry.table items.now) rows) }
{
    let mut met = Sequence::new(alloc);
    'rows: for row in rows.into_vec() {
        if shows_one(alloc, of, items, &row)? {
            met.push(row)?;
        }
    }
    Ok(met)
}

fn shows_one(alloc: Global, of: Of<'_>, items: &[Item], row: &Row) -> Result<bool, OutOfMemory>
    ensures { IfOk result (λ shows.
        shows ≡ spec.shows_one of.entry.kind.now of.entry.table items.now row.now) }
{
    'items: for item in items {
        if shows(alloc, of, item, row)? {
            return Ok(true);
        }
    }
    Ok(false)
}

/// Whether the document of the row meets the item.
fn shows(alloc: Global, of: Of<'_>, item: &Item, row: &Row) -> Result<bool, OutOfMemory>
    ensures { IfOk result (λ shows. shows ≡ spec.meets of.entry.table item.now
        (spec.document_shown of.entry.kind.now row.now)) }
{
    match item {
        Item::TableName { .. } | Item::TableList => Ok(false),
        Item::Table { table } => Ok(table.raw == of.table.raw),
        Item::Doc { table, id } => Ok(table.raw == of.table.raw && row.id.raw == id.raw),
        Item::IndexValue { table, field, key } => {
            if table.raw != of.table.raw {
                return Ok(false);
            }
            match document_shown(of.kind, &row.value) {
                Some(document) => has_key(alloc, key, field.as_str(), document),
                None => Ok(false),
            }
        }
    }
}

/// What the source is asked for where these items are read of it.
fn plan_for(alloc: Global, base: &Versions, of: Of<'_>, items: &[Item]) -> Result<Plan, OutOfMemory>
    ensures { IfOk result (Fits base.now of.entry.kind.now of.entry.table items.now) }
{
    match items {
        [Item::IndexValue { field, .. }, ..] => plan_keys(alloc, base, of, field, items),
        _ => plan_documents(alloc, of, items),
    }
}

/// The documents that the items name, or all rows.
fn plan_documents(alloc: Global, of: Of<'_>, items: &[Item]) -> Result<Plan, OutOfMemory>
    ensures { (base : State) → IfOk result (Fits base of.entry.kind.now of.entry.table items.now) }
{
    let mut ids = Sequence::new(alloc);
    'items: for item in items {
        if is_table(item, of.table) {
            return Ok(Plan::Exact(Probe::All));
        }
        let Some(id) = document_in(item, of.table) else {
            return Ok(Plan::Enough(Probe::All));
        };
        ids.push(id)?;
    }
    Ok(Plan::Exact(Probe::Ids { ids }))
}

/// Whether the item is the whole table.
fn is_table(item: &Item, table: TableId) -> bool
    ensures { result ≡ true → item.now ≡ index.Table table }
{
    match item {
        Item::Table { table: read } => read.raw == table.raw,
        _ => false,
    }
}

/// The document of the table that the item is.
fn document_in(item: &Item, table: TableId) -> Option<DocId>
    ensures { IfSome result (λ id. item.now ≡ index.Doc table id) }
{
    match item {
        Item::Doc { table: read, id } if read.raw == table.raw => Some(*id),
        _ => None,
    }
}

/// The keys of the field that the items name; of a committed view, the documents that have them, if the field has an
/// index.
fn plan_keys(
    alloc: Global,
    base: &Versions,
    of: Of<'_>,
    field: &Text,
    items: &[Item],
) -> Result<Plan, OutOfMemory>
    ensures { IfOk result (Fits base.now of.entry.kind.now of.entry.table items.now) }
{
    let Some(keys) = keys_in(alloc, of.table, field, items)? else {
        return Ok(Plan::Enough(Probe::All));
    };
    match of.kind {
        SourceKind::Table { name } => {
            if is_committed(name.as_str()) {
                let ids = by_keys(alloc, base, of.table, field, keys.as_slice())?;
                return Ok(documents_or_all(ids));
            }
            let field = field.copy(alloc)?;
            Ok(Plan::Exact(Probe::Keys { field, keys }))
        }
        SourceKind::History { .. } | SourceKind::Path(_) => Ok(Plan::Enough(Probe::All)),
    }
}

/// The documents, or all rows, if it isn't known which are enough.
fn documents_or_all(ids: Option<DocIds>) -> Plan
    ensures { result ≡ documents_or_all ids }
{
    match ids {
        Some(ids) => Plan::Enough(Probe::Ids { ids }),
        None => Plan::Enough(Probe::All),
    }
}

/// The keys of the items, where each names a key of this field of the table.
fn keys_in(
    alloc: Global,
    table: TableId,
    field: &Text,
    items: &[Item],
) -> Result<Option<Keys>, OutOfMemory>
    ensures { IfOk result (λ keys. IfSome keys (λ ks. items.now ≡ map (index.IndexValue table field.now) ks)) }
{
    let mut keys = Sequence::new(alloc);
    'items: for item in items {
        let Some(key) = key_of(item, table, field) else {
            return Ok(None);
        };
        let key = key.copy(alloc)?;
        keys.push(key)?;
    }
    Ok(Some(keys))
}

fn key_of<'a>(item: &'a Item, table: TableId, field: &Text) -> Option<&'a Key>
    ensures { IfSome (option_copied result) (λ k. item.now ≡ index.IndexValue table field.now k) }
{
    match item {
        Item::IndexValue {
            table: read,
            field: name,
            key,
        } if read.raw == table.raw && name.as_str() == field.as_str() => Some(key),
        _ => None,
    }
}
