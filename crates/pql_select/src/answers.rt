//! The rows of an answer.
ghost use Rattle.std.specs.Prelude.{◌≡◌, ◌∷◌, [], map, IfOk};
ghost use Rattle.std.specs.List.{flat_map};
ghost use Rattle.pql_model.specs.Answers as spec;
ghost use Rattle.pql_model.specs.Answers.{answered};
ghost use Rattle.pql_model.specs.Lists.{value_in};

use crate::aggregates::are_aggregates;
use crate::folding::Tallies;
use crate::items::struct_in_row;
use crate::sources::starred;
use containers::{OutOfMemory, Sequence};
use ion_values::{Value, Values};
use pql_expr::eval;
use pql_model::{Answer, Bindings, Evaluated, Expr, Scope, Select, SelectItem};
use std::alloc::Global;

/// What the SELECT answers of the rows, in their order: of `*` the fields of each source's value in
/// one struct, of VALUE the value where it is not MISSING, and of items a struct of those that are
/// not MISSING. Items that are all aggregates answer one struct over all rows. The rows are used up: `*`
/// moves their values.
pub fn answer(
    alloc: Global,
    select: &Select,
    rows: Bindings,
    params: &[Value],
) -> Result<Answer, OutOfMemory>
    ensures { IfOk result (λ a. a.rows ≡ answered params.now rows select.now) }
{
    let rows = answer_rows(alloc, select, rows, params)?;
    Ok(Answer { rows })
}

fn answer_rows(
    alloc: Global,
    select: &Select,
    rows: Bindings,
    params: &[Value],
) -> Result<Values, OutOfMemory>
    ensures { IfOk result (λ all. all ≡ answered params.now rows select.now) }
{
    match select {
        Select::Star => structs_of_sources(alloc, rows),
        Select::Value(e) => values(alloc, e, rows.as_slice(), params),
        Select::Items(items) => structs(alloc, items.as_slice(), rows.as_slice(), params),
    }
}

fn structs_of_sources(alloc: Global, rows: Bindings) -> Result<Values, OutOfMemory>
    ensures { IfOk result (λ all. all ≡ map spec.starred rows) }
{
    let mut all = Sequence::new(alloc);
    'rows: for scope in rows.into_vec() {
        all.push(starred(alloc, scope)?)?;
    }
    Ok(all)
}

fn values(alloc: Global, e: &Expr, rows: &[Scope], params: &[Value]) -> Result<Values, OutOfMemory>
    ensures { IfOk result (λ all. all ≡ flat_map (λ scope. value_in (spec.in_row params.now scope e.now)) rows.now) }
{
    let mut all = Sequence::new(alloc);
    'rows: for scope in rows {
        match eval(alloc, e, scope, params)? {
            Evaluated::Missing => {}
            Evaluated::Found(v) => all.push(v)?,
        }
    }
    Ok(all)
}

fn structs(
    alloc: Global,
    items: &[SelectItem],
    rows: &[Scope],
    params: &[Value],
) -> Result<Values, OutOfMemory>
    ensures { IfOk result (λ all. all ≡ spec.items_of params.now rows.now items.now) }
{
    if are_aggregates(items) {
        return struct_of_aggregates(alloc, items, rows, params);
    }
    structs_of_rows(alloc, items, rows, params)
}

fn struct_of_aggregates(
    alloc: Global,
    items: &[SelectItem],
    rows: &[Scope],
    params: &[Value],
) -> Result<Values, OutOfMemory>
    ensures { IfOk result (λ all. all ≡ spec.struct_from (spec.aggregate params.now rows.now) items.now ∷ []) }
{
    let tallies = Tallies::new(alloc, items, params)?.more(alloc, rows)?;
    let over_rows = tallies.finish(alloc)?;
    let mut all = Sequence::new(alloc);
    all.push(over_rows)?;
    Ok(all)
}

fn structs_of_rows(
    alloc: Global,
    items: &[SelectItem],
    rows: &[Scope],
    params: &[Value],
) -> Result<Values, OutOfMemory>
    ensures { IfOk result (λ all.
        all ≡ map (λ scope. spec.struct_from (spec.in_row params.now scope) items.now) rows.now) }
{
    let mut all = Sequence::new(alloc);
    'rows: for scope in rows {
        all.push(struct_in_row(alloc, items, scope, params)?)?;
    }
    Ok(all)
}
