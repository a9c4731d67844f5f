//! The tables of a journal and the fields with an index.
ghost use Rattle.std.specs.Prelude.{◌≡◌, ◌==◌, ◌&&◌, map, IfOk, OnOk};
ghost use Rattle.std.specs.Option.{option_copied};
ghost use Rattle.std.specs.Str.{bytes_eq};
ghost use Rattle.ledger_model.specs.Follows.{has_index, is_active};
ghost use Rattle.ledger_model.specs.Run.{active_count};
ghost use Rattle.ledger_model.specs.SchemaChanges.{index_count};
ghost use Rattle.ledger_model.specs.State.{active_table, all_changed, all_indexed, changed, dropped, indexed};
ghost use Rattle.versions.specs.Held.{indexed_of, table_of};
ghost use Rattle.versions.specs.Lookups.{name_of};

use crate::kept::Kept;
use ion_values::{OutOfMemory, Text};
use ledger_model::Schema;
use ql_types::TableId;
use std::alloc::Global;

/// A table. It is active until it is dropped.
#[derive(Drop)]
pub struct Table {
    pub name: Text,
    pub id: TableId,
    pub active: bool,
}

/// The active table of a name.
pub fn active_table(tables: &[Table], name: &str) -> Option<TableId>
    ensures { result ≡ active_table (map table_of tables.now) name.now }
{
    for table in tables {
        if is_active_as(table, name) {
            return Some(table.id);
        }
    }
    None
}

fn is_active_as(table: &Table, name: &str) -> bool
    ensures { result ≡ (table.now.active && bytes_eq table.now.name name.now) }
{
    table.active && table.name.as_str() == name
}

/// Whether one of the tables is active and has this id.
pub fn is_active(tables: &[Table], id: TableId) -> bool
    ensures { result ≡ is_active (map table_of tables.now) id }
{
    'tables: for table in tables {
        if table.active && table.id.raw == id.raw {
            return true;
        }
    }
    false
}

/// How many of the tables are active.
pub fn active_count(tables: &[Table]) -> u64
    ensures { result ≡ active_count (map table_of tables.now) }
{
    let mut count: u64 = 0;
    'tables: for table in tables {
        if table.active {
            count += 1;
        }
    }
    count
}

/// The name with which the table of this id was made.
pub(crate) fn name_of(tables: &[Table], id: TableId) -> Option<&Text>
    ensures { option_copied result ≡ name_of (map table_of tables.now) id }
{
    'tables: for table in tables {
        if table.id.raw == id.raw {
            return Some(&table.name);
        }
    }
    None
}

/// Tables that equal the given ones, in order.
pub fn copy_tables(alloc: Global, tables: &[Table]) -> Result<Vec<Table>, OutOfMemory>
    ensures { IfOk result (λ new. new.items ≡ tables.now) }
{
    let mut new = Vec::new(alloc);
    for table in tables {
        new.push(Table {
            name: table.name.copy(alloc)?,
            id: table.id,
            active: table.active,
        })?;
    }
    Ok(new)
}

/// Changes the tables as the schema is changed, one change after another.
pub fn change_all(
    alloc: Global,
    tables: &mut Vec<Table>,
    changes: &[Schema],
) -> Result<(), OutOfMemory>
    ensures { OnOk result (map table_of tables.new.items ≡ all_changed (map table_of tables.old.items) changes.now) }
{
    for change in changes {
        change_one(alloc, tables, change)?;
    }
    Ok(())
}

fn change_one(alloc: Global, tables: &mut Vec<Table>, change: &Schema) -> Result<(), OutOfMemory>
    ensures { OnOk result (map table_of tables.new.items ≡ changed (map table_of tables.old.items) change.now) }
{
    match change {
        Schema::Create { name, table } => {
            let name = name.copy(alloc)?;
            tables.push(Table {
                name,
                id: *table,
                active: true,
            })?;
            Ok(())
        }
        Schema::Index { .. } | Schema::Redact { .. } => Ok(()),
        Schema::Drop { table, .. } => {
            drop_table(tables.as_mut_slice(), *table);
            Ok(())
        }
    }
}

/// Ends the table of this id.
fn drop_table(tables: &mut [Table], id: TableId)
    ensures { map table_of tables.new ≡ map (dropped id) (map table_of tables.old) }
{
    for table in tables.iter_mut() {
        drop_if(table, id);
    }
}

/// Ends the table if it has this id.
fn drop_if(table: &mut Table, id: TableId)
    ensures { table_of table.new ≡ dropped id (table_of table.old) }
{
    if table.id.raw == id.raw {
        table.active = false;
    }
}

/// The tables after these changes of the schema. Where nothing is changed, they are shared.
pub(crate) fn tables_after(
    alloc: Global,
    tables: &Kept<Table>,
    changes: &[Schema],
) -> Result<Kept<Table>, OutOfMemory>
    ensures { IfOk result (λ new. map table_of new ≡ all_changed (map table_of tables.now) changes.now) }
{
    if changes.is_empty() {
        return tables.share();
    }
    let mut new = copy_tables(alloc, tables.as_slice())?;
    change_all(alloc, &mut new, changes)?;
    Kept::from_vec(alloc, new)
}

/// A field of a table's documents that has an index.
#[derive(Drop)]
pub struct Indexed {
    pub table: TableId,
    pub field: Text,
}

/// How many fields of the table have an index.
pub fn index_count(indexes: &[Indexed], table: TableId) -> u64
    ensures { result ≡ index_count (map indexed_of indexes.now) table }
{
    let mut count: u64 = 0;
    'indexes: for index in indexes {
        if index.table.raw == table.raw {
            count += 1;
        }
    }
    count
}

/// Whether the field of the table has an index.
pub fn has_index(indexes: &[Indexed], table: TableId, field: &str) -> bool
    ensures { result ≡ has_index (map indexed_of indexes.now) table field.now }
{
    'indexes: for index in indexes {
        if is_on(index, table, field) {
            return true;
        }
    }
    false
}

pub(crate) fn is_on(index: &Indexed, table: TableId, field: &str) -> bool
    ensures { result ≡ ((index.now.table.raw == table.raw) && bytes_eq index.now.field field.now) }
{
    index.table.raw == table.raw && index.field.as_str() == field
}

/// Fields that equal the given ones, in order.
pub fn copy_indexes(alloc: Global, indexes: &[Indexed]) -> Result<Vec<Indexed>, OutOfMemory>
    ensures { IfOk result (λ new. new.items ≡ indexes.now) }
{
    let mut new = Vec::new(alloc);
    'indexes: for index in indexes {
        new.push(Indexed {
            table: index.table,
            field: index.field.copy(alloc)?,
        })?;
    }
    Ok(new)
}

/// Puts the fields at the end on which the changes make an index.
pub fn index_all(
    alloc: Global,
    indexes: &mut Vec<Indexed>,
    changes: &[Schema],
) -> Result<(), OutOfMemory>
    ensures { OnOk result (map indexed_of indexes.new.items
        ≡ all_indexed (map indexed_of indexes.old.items) changes.now) }
{
    'changes: for change in changes {
        index_one(alloc, indexes, change)?;
    }
    Ok(())
}

fn index_one(alloc: Global, indexes: &mut Vec<Indexed>, change: &Schema) -> Result<(), OutOfMemory>
    ensures { OnOk result (map indexed_of indexes.new.items ≡ indexed (map indexed_of indexes.old.items) change.now) }
{
    match change {
        Schema::Create { .. } => Ok(()),
        Schema::Index { field, table } => {
            let field = field.copy(alloc)?;
            indexes.push(Indexed {
                table: *table,
                field,
            })?;
            Ok(())
        }
        Schema::Drop { .. } | Schema::Redact { .. } => Ok(()),
    }
}
