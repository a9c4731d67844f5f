//! Rows of sources as rows of tests write them, and the rows of FROM over a table in memory.
use crate::parsing::{select_of, statement};
use crate::shelf::Shelf;
use containers::Sequence;
use ion_values::{Field, OutOfMemory, Text, Value, copy};
use pql_from::bindings;
use pql_model::{Bindings, Bound, Expr, FromClause, Row, Rows, Scope, Statement};
use ql_types::DocId;
use std::alloc::Global;
use test_rows::{fields_in, list_in, named, put_number, put_separator, put_value, text_in};

/// The id whose number is the first byte of an annotation.
fn id_of(source: &Value) -> Option<DocId> {
    let first = source.annotations.as_slice().first()?;
    let byte = first.as_str().as_bytes().first()?;
    Some(DocId {
        raw: u128::from(*byte),
    })
}

fn by_name(alloc: Global, source: &Value) -> Result<Option<Text>, OutOfMemory> {
    match source.annotations.as_slice() {
        [_, name, ..] => Ok(Some(name.copy(alloc)?)),
        _ => Ok(None),
    }
}

/// A value without its annotations.
fn plain(alloc: Global, value: &Value) -> Result<Value, OutOfMemory> {
    let Value {
        annotations: _,
        body,
    } = copy(alloc, value)?;
    Ok(Value {
        annotations: Sequence::new(alloc),
        body,
    })
}

/// What a source gives.
fn bound(alloc: Global, source: &Field) -> Result<Bound, OutOfMemory> {
    let variable = source.name.copy(alloc)?;
    let id_name = by_name(alloc, &source.value)?;
    let value = plain(alloc, &source.value)?;
    Ok(Bound {
        variable,
        value,
        id_name,
        id: id_of(&source.value),
    })
}

/// A row of sources.
pub fn scope(alloc: Global, row: &[Field]) -> Result<Scope, OutOfMemory> {
    let mut scope = Sequence::new(alloc);
    for source in row {
        scope.push(bound(alloc, source)?)?;
    }
    Ok(scope)
}

/// Rows of sources.
pub fn scopes(alloc: Global, rows: &[Value]) -> Option<Bindings> {
    let mut scopes = Sequence::new(alloc);
    for row in rows {
        scopes.push(scope(alloc, fields_in(row)?).ok()?).ok()?;
    }
    Some(scopes)
}

// ---- FROM

/// The documents of these values, of the ids 1 and so on.
fn documents(alloc: Global, values: &[Value]) -> Option<Rows> {
    let mut rows = Sequence::new(alloc);
    for (at, value) in values.iter().enumerate() {
        let id = DocId {
            raw: (at as u128).saturating_add(1),
        };
        let value = copy(alloc, value).ok()?;
        rows.push(Row { id, value }).ok()?;
    }
    Some(rows)
}

/// The table `t` with its documents and their committed view.
pub fn shelf_of(alloc: Global, more: &[Field]) -> Option<Shelf> {
    let documents_in_t = documents(alloc, list_in(named(more, "t")?)?)?;
    let committed = documents(alloc, list_in(named(more, "committed")?)?)?;
    Some(Shelf {
        documents: documents_in_t,
        committed,
    })
}

/// Puts the rows of sources. Where the row says so, the sources are changed to what no statement has: `none` leaves no
/// source, `by` gives the last one a BY name, and `on` makes its condition MISSING.
pub fn put_rows(alloc: Global, given: &Value, more: &[Field], out: &mut Text) -> Option<()> {
    let mut parsed = statement(alloc, "SELECT * FROM ", text_in(given)?, "")?;
    change(alloc, &mut parsed.held, more);
    put_of(alloc, &parsed.held, more, out)
}

fn put_of(alloc: Global, statement: &Statement, more: &[Field], out: &mut Text) -> Option<()> {
    let shelf = shelf_of(alloc, more)?;
    put_given(alloc, statement, &shelf, out)
}

fn put_given(alloc: Global, statement: &Statement, shelf: &Shelf, out: &mut Text) -> Option<()> {
    let (_select, from) = select_of(statement)?;
    let rows = bindings(alloc, from, shelf, &[]).ok()?;
    put_scopes(alloc, &rows, out).ok()
}

fn change(alloc: Global, statement: &mut Statement, more: &[Field]) {
    if let Statement::Select { select: _, from } = statement {
        change_clause(alloc, from, more);
    }
}

fn change_clause(alloc: Global, from: &mut FromClause, more: &[Field]) -> Option<()> {
    if named(more, "none").is_some() {
        from.sources = Sequence::new(alloc);
    }
    let by = text_in(named(more, "by")?)?;
    let name = Text::from_text(alloc, by).ok()?;
    let mut last = from.sources.pop()?;
    last.id_name = Some(name);
    if named(more, "on").is_some() {
        last.on = Some(Expr::Missing);
    }
    from.sources.push(last).ok()
}

/// Puts rows of sources between brackets.
pub fn put_scopes(alloc: Global, rows: &Bindings, out: &mut Text) -> Result<(), OutOfMemory> {
    out.push_str("[")?;
    for (at, row) in rows.as_slice().iter().enumerate() {
        put_separator(out, at, ",")?;
        put_scope(alloc, row, out)?;
    }
    out.push_str("]")
}

fn put_scope(alloc: Global, row: &Scope, out: &mut Text) -> Result<(), OutOfMemory> {
    out.push_str("{")?;
    for (at, bound) in row.as_slice().iter().enumerate() {
        put_separator(out, at, ",")?;
        put_bound(alloc, bound, out)?;
    }
    out.push_str("}")
}

/// Puts a variable and its value, and behind an `@` its id where there is a BY name.
fn put_bound(alloc: Global, bound: &Bound, out: &mut Text) -> Result<(), OutOfMemory> {
    out.push_str(bound.variable.as_str())?;
    out.push_str(":")?;
    put_value(alloc, out, &bound.value)?;
    put_id(alloc, bound, out)
}

fn put_id(alloc: Global, bound: &Bound, out: &mut Text) -> Result<(), OutOfMemory> {
    match (&bound.id_name, bound.id) {
        (Some(_), Some(id)) => {
            out.push_str("@")?;
            put_number(alloc, out, i128::try_from(id.raw).unwrap_or(-1))
        }
        _ => Ok(()),
    }
}
