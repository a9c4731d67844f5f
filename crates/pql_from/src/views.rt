//! The rows of tables and of their histories.
ghost use Rattle.std.specs.Prelude.{◌≡◌, IfOk};
ghost use Rattle.ion_values.specs.declared.value.Body.TheVariants as body;
ghost use Rattle.ion_values.specs.declared.value.Kind.TheVariants as kind;
ghost use Rattle.pql_model.specs.declared.tables.View.TheVariants as view;
ghost use Rattle.pql_model.specs.From as from;
ghost use Rattle.pql_model.specs.Made.{made};
ghost use Rattle.pql_model.specs.Tables as spec;

use containers::{OutOfMemory, Sequence, Text};
use ion_values::{Body, Kind, Value};
use pql_expr::eval;
use pql_model::{Evaluated, Expr, Probe, Rows, SourceKind, Tables, View};
use std::alloc::Global;

const COMMITTED: &str = "_ql_committed_";

fn is_committed(name: &str) -> bool
    ensures { result ≡ spec.is_committed name.now }
{
    name.as_bytes().starts_with(COMMITTED.as_bytes())
}

/// The name without the prefix of committed views.
fn table_named(alloc: Global, name: &Text) -> Result<Text, OutOfMemory>
    ensures { IfOk result (λ table. table ≡ spec.table_named name.now) }
{
    match name.as_str().strip_prefix(COMMITTED) {
        Some(table) => Text::from_text(alloc, table),
        None => name.copy(alloc),
    }
}

/// The view that the name asks for.
fn view_named(name: &Text) -> View
    ensures { result ≡ spec.view_named name.now }
{
    if is_committed(name.as_str()) {
        View::Committed
    } else {
        View::User
    }
}

fn null(alloc: Global) -> Value
    ensures { result ≡ made (body.Null kind.Null) }
{
    Value {
        annotations: Sequence::new(alloc),
        body: Body::Null(Kind::Null),
    }
}

/// The bound of a history: NULL for MISSING, and None where none is written.
fn bound_of(
    alloc: Global,
    bound: &Option<Expr>,
    params: &[Value],
) -> Result<Option<Value>, OutOfMemory>
    ensures { IfOk result (λ moment. moment ≡ from.bound_of params.now bound.now) }
{
    match bound {
        None => Ok(None),
        Some(e) => match eval(alloc, e, &Sequence::new(alloc), params)? {
            Evaluated::Missing => Ok(Some(null(alloc))),
            Evaluated::Found(v) => Ok(Some(v)),
        },
    }
}

/// A table's view, as a source names it.
#[derive(Drop)]
struct Viewed {
    table: Text,
    view: View,
}

/// The view that the name asks for: that of the table, or, behind the prefix, its committed view.
fn table_view(alloc: Global, name: &Text) -> Result<Viewed, OutOfMemory>
    ensures table { IfOk result (λ v. v.table ≡ spec.table_named name.now) }
    ensures view { IfOk result (λ v. v.view ≡ spec.view_named name.now) }
{
    Ok(Viewed {
        table: table_named(alloc, name)?,
        view: view_named(name),
    })
}

/// The bounds of a history, as they are written.
#[derive(Clone, Copy)]
struct Bounds<'a> {
    start: &'a Option<Expr>,
    end: &'a Option<Expr>,
}

/// The history of the table between the two moments.
fn history_view(
    alloc: Global,
    table: &Text,
    bounds: Bounds<'_>,
    params: &[Value],
) -> Result<Viewed, OutOfMemory>
    ensures table { IfOk result (λ v. v.table ≡ table.now) }
    ensures view { IfOk result (λ v. v.view ≡ view.History (from.bound_of params.now bounds.entry.start.now)
        (from.bound_of params.now bounds.entry.end.now)) }
{
    Ok(Viewed {
        table: table.copy(alloc)?,
        view: View::History {
            start: bound_of(alloc, bounds.start, params)?,
            end: bound_of(alloc, bounds.end, params)?,
        },
    })
}

fn rows_in<T: Tables>(
    alloc: Global,
    tables: &T,
    viewed: &Viewed,
    probe: &Probe,
) -> Result<Rows, OutOfMemory>
    ensures { IfOk result (λ rows.
        rows ≡ spec.meeting probe.now (T.view_rows tables.now viewed.now.table viewed.now.view)) }
{
    tables.rows(alloc, &viewed.table, &viewed.view, probe)
}

/// The rows of a source's table or history that meet the probe. A path has none.
pub fn source_rows<T: Tables>(
    alloc: Global,
    tables: &T,
    kind: &SourceKind,
    params: &[Value],
    probe: &Probe,
) -> Result<Rows, OutOfMemory>
    ensures { IfOk result (λ rows.
        rows ≡ spec.meeting probe.now (from.rows_given (T.view_rows tables.now) params.now kind.now)) }
{
    match kind {
        SourceKind::Table { name } => {
            let viewed = table_view(alloc, name)?;
            rows_in(alloc, tables, &viewed, probe)
        }
        SourceKind::History { table, start, end } => {
            let viewed = history_view(alloc, table, Bounds { start, end }, params)?;
            rows_in(alloc, tables, &viewed, probe)
        }
        SourceKind::Path(_) => Ok(Sequence::new(alloc)),
    }
}
