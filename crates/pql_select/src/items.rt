//! Items: their names, and the structs that they make.
ghost use Rattle.std.specs.Prelude.{◌≡◌, ◌++◌, IfOk, OnOk};
ghost use Rattle.pql_model.specs.Answers as spec;
ghost use Rattle.pql_model.specs.Lists.{field_in};

use crate::made::made;
use containers::{OutOfMemory, Sequence, Text};
use ion_values::{Body, Field, Fields, Value};
use pql_expr::eval;
use pql_model::{Evaluated, Expr, Scope, SelectItem, last_name};
use std::alloc::Global;

// `_` and the place.
fn placed_name(alloc: Global, place: usize) -> Result<Text, OutOfMemory>
    ensures { IfOk result (λ name. name ≡ spec.placed_name place) }
{
    let mut name = Text::from_text(alloc, "_")?;
    let digits = place.to_string(alloc)?;
    name.push_str(digits.as_str())?;
    Ok(name)
}

// AS, else the path's last name, else the place, counted from 1.
fn item_name(alloc: Global, place: usize, item: &SelectItem) -> Result<Text, OutOfMemory>
    ensures { IfOk result (λ name. name ≡ spec.item_name place item.now.name item.now.value) }
{
    if let Some(name) = &item.name {
        return name.copy(alloc);
    }
    match &item.value {
        Expr::Path(path) => {
            Text::from_text(alloc, last_name(path.first.as_str(), path.steps.as_slice()))
        }
        _ => placed_name(alloc, place),
    }
}

/// Appends the item, or nothing if it is MISSING.
pub fn put_item(
    alloc: Global,
    fields: &mut Fields,
    place: usize,
    item: &SelectItem,
    found: Evaluated,
) -> Result<(), OutOfMemory>
    ensures { OnOk result (fields.new ≡ fields.old
        ++ field_in (spec.item_name place item.now.name item.now.value) found) }
{
    match found {
        Evaluated::Missing => Ok(()),
        Evaluated::Found(value) => fields.push(Field {
            name: item_name(alloc, place, item)?,
            value,
        }),
    }
}

/// The struct of the items in one row.
pub fn struct_in_row(
    alloc: Global,
    items: &[SelectItem],
    scope: &Scope,
    params: &[Value],
) -> Result<Value, OutOfMemory>
    ensures { IfOk result (λ v. v ≡ spec.struct_from (spec.in_row params.now scope.now) items.now) }
{
    let mut fields = Sequence::new(alloc);
    'items: for (index, item) in items.iter().enumerate() {
        let found = eval(alloc, &item.value, scope, params)?;
        put_item(alloc, &mut fields, index + 1, item, found)?;
    }
    Ok(made(alloc, Body::Struct(fields)))
}
