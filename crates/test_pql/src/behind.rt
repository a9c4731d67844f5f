//! Rows that are made behind combinations, and what aggregates come to as rows come.
ghost use Rattle.std.specs.Prelude.{◌≡◌, List, IfOk, IfSome};
ghost use Rattle.ion_values.specs.declared.value.Value as value;
ghost use Rattle.pql_model.specs.declared.statement.FromClause as clause;
ghost use Rattle.pql_from.specs.Behind.{AreReady};
ghost use Rattle.pql_from.specs.Held.{joins_of, sources_of};
ghost use Rattle.pql_from.specs.Joins.{JoinsHold};

use crate::parsing::{select_of, selecting, statement};
use crate::rows::{put_scopes, scopes, shelf_of};
use crate::shelf::Shelf;
use ion_values::{Field, OutOfMemory, Text, Value};
use pql_from::{Given, Parts, parts_over, source_rows};
use pql_model::{FromClause, Probe, Select, SelectItem, Source, Statement};
use pql_select::Tallies;
use std::alloc::Global;
use test_rows::{list_in, named, put_number, put_value, text_in};

/// Each source with all rows of its table.
fn all_given<'a>(
    alloc: Global,
    sources: &'a [Source],
    shelf: &Shelf,
) -> Result<Vec<Given<'a>>, OutOfMemory>
    ensures sources { IfOk result (λ given. sources_of given.items ≡ sources.now) }
    ensures joins { IfOk result (λ given. (params : List value.Value) (from : clause.FromClause) →
        JoinsHold params from 0 (joins_of given.items)) }
{
    let mut given = Vec::new(alloc);
    'sources: for source in sources {
        let rows = source_rows(alloc, shelf, &source.from, &[], &Probe::All)?;
        let join = None;
        given.push(Given { source, rows, join })?;
    }
    Ok(given)
}

/// The rows of the clause, in parts.
fn parts_of<'a>(alloc: Global, from: &'a FromClause, shelf: &Shelf) -> Option<Parts<'a>>
    ensures { IfSome result AreReady }
{
    let given = all_given(alloc, from.sources.as_slice(), shelf).ok()?;
    parts_over(alloc, from, given, &[]).ok()
}

/// Puts how many combinations there are with rows behind them, if there are several, and the rows behind all of them.
fn put_parts(alloc: Global, parts: &Parts<'_>, out: &mut Text) -> Option<()>
    requires { AreReady parts.now }
{
    match parts {
        Parts::Rows(rows) => put_scopes(alloc, rows, out).ok(),
        Parts::Behind(combinations, last) => {
            put_number(alloc, out, combinations.len() as i128).ok()?;
            out.push_str(" of ").ok()?;
            let rows = last.rows_behind(alloc, combinations.as_slice()).ok()?;
            put_scopes(alloc, &rows, out).ok()
        }
    }
}

fn put_of(alloc: Global, statement: &Statement, shelf: &Shelf, out: &mut Text) -> Option<()> {
    let (_select, from) = select_of(statement)?;
    let parts = parts_of(alloc, from, shelf)?;
    put_parts(alloc, &parts, out)
}

/// Puts the rows of sources, made behind all combinations of the sources but the last.
pub fn put_behind(alloc: Global, given: &Value, more: &[Field], out: &mut Text) -> Option<()> {
    let parsed = statement(alloc, "SELECT * FROM ", text_in(given)?, "")?;
    let shelf = shelf_of(alloc, more)?;
    put_of(alloc, &parsed.held, &shelf, out)
}

// ---- aggregates

fn items_of(statement: &Statement) -> Option<&[SelectItem]> {
    let (select, _from) = select_of(statement)?;
    match select {
        Select::Items(items) => Some(items.as_slice()),
        _ => None,
    }
}

/// The items with the rows of the list behind those so far.
fn with_list<'a>(alloc: Global, start: Tallies<'a>, list: &Value) -> Option<Tallies<'a>> {
    let rows = scopes(alloc, list_in(list)?)?;
    start.more(alloc, rows.as_slice()).ok()
}

fn with_lists<'a>(alloc: Global, start: Tallies<'a>, lists: &[Value]) -> Option<Tallies<'a>> {
    let mut tallies = start;
    for list in lists {
        tallies = with_list(alloc, tallies, list)?;
    }
    Some(tallies)
}

/// What the items come to over the rows of all lists.
fn tallied(alloc: Global, items: &[SelectItem], lists: &[Value]) -> Option<Value> {
    let start = Tallies::new(alloc, items, &[]).ok()?;
    with_lists(alloc, start, lists)?.finish(alloc).ok()
}

/// Puts what the aggregates come to of rows that come list by list.
pub fn put_tallied(alloc: Global, given: &Value, more: &[Field], out: &mut Text) -> Option<()> {
    let lists = list_in(named(more, "of")?)?;
    let parsed = selecting(alloc, text_in(given)?)?;
    let found = tallied(alloc, items_of(&parsed.held)?, lists)?;
    put_value(alloc, out, &found).ok()
}
