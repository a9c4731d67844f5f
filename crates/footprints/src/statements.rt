//! What statements read.
ghost use Rattle.std.specs.Prelude.{◌≡◌, ◌∷◌, ◌++◌, [], IfOk, OnOk};
ghost use Rattle.ledger_model.specs.Footprints as spec;
ghost use Rattle.ledger_model.specs.declared.outcome.Item.TheVariants as item;
ghost use Rattle.footprints.specs.Rules.{footprint_with};

use crate::texts::table_in;
use containers::Sequence;
use ion_values::{OutOfMemory, Text};
use ledger_model::Item;
use pql_model::{Source, Statement};
use std::alloc::Global;

/// What the statement reads, where these items are read of the sources of its FROM, in order, repeats kept.
pub fn footprint(
    alloc: Global,
    statement: &Statement,
    own: Vec<Item>,
) -> Result<Sequence<Item>, OutOfMemory>
    ensures { IfOk result (λ items. items ≡ footprint_with statement.now own.items) }
{
    match statement {
        Statement::Create { table } => created(alloc, table),
        Statement::Index { table, .. }
        | Statement::Drop { table }
        | Statement::Insert { table, .. } => { named(alloc, table) }
        Statement::Select { from, .. }
        | Statement::Update { from, .. }
        | Statement::From { from, .. }
        | Statement::Delete { from } => read_by_sources(alloc, from.sources.as_slice(), own),
        Statement::Redact { .. } => Ok(Sequence::from_vec(own)),
    }
}

/// The name of a table alone.
fn named(alloc: Global, table: &Text) -> Result<Sequence<Item>, OutOfMemory>
    ensures { IfOk result (λ items. items ≡ item.TableName table.now ∷ []) }
{
    let mut items = Sequence::new(alloc);
    items.push(Item::TableName {
        name: table.copy(alloc)?,
    })?;
    Ok(items)
}

/// The name of a table, and the list of tables.
fn created(alloc: Global, table: &Text) -> Result<Sequence<Item>, OutOfMemory>
    ensures { IfOk result (λ items. items ≡ item.TableName table.now ∷ item.TableList ∷ []) }
{
    let mut items = named(alloc, table)?;
    items.push(Item::TableList)?;
    Ok(items)
}

/// The names of the tables of the sources, and then the items.
fn read_by_sources(
    alloc: Global,
    sources: &[Source],
    own: Vec<Item>,
) -> Result<Sequence<Item>, OutOfMemory>
    ensures { IfOk result (λ items. items ≡ spec.names_read sources.now ++ own.items) }
{
    let mut own = own;
    let mut items = Vec::new(alloc);
    put_names(alloc, &mut items, sources)?;
    items.append(&mut own)?;
    Ok(Sequence::from_vec(items))
}

/// Puts the names of the tables behind the other items, in order.
fn put_names(alloc: Global, items: &mut Vec<Item>, sources: &[Source]) -> Result<(), OutOfMemory>
    ensures { OnOk result (items.new.items ≡ items.old.items ++ spec.names_read sources.now) }
{
    'sources: for source in sources {
        if let Some(name) = table_in(&source.from) {
            let name = Text::from_text(alloc, name)?;
            items.push(Item::TableName { name })?;
        }
    }
    Ok(())
}
