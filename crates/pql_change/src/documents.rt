//! The documents that the rows of a statement name, each once, in order of its first row.
ghost use Rattle.std.specs.Prelude.{◌≡◌, slice_get, map, IfOk, OnOk};
ghost use Rattle.std.specs.Option.{option_and_then, option_copied, unwrap_or};
ghost use Rattle.pql_model.specs.Changes.{alterations, setting};
ghost use Rattle.pql_model.specs.Effects as spec;
ghost use Rattle.pql_change.specs.Contexts.{context_of};
ghost use Rattle.pql_change.specs.Touched.{alteration_of, document_of, rows_in, target_of};

use crate::changes::{insert, remove, set};
use crate::context::Context;
use crate::vacant::vacant;
use containers::{OutOfMemory, Sequence};
use indexmap::IndexMap;
use ion_values::{Value, copy};
use pql_model::{Bindings, Bound, Change, Expr, Path, Row, Rows, Scope, Setting, root_at};
use ql_types::DocId;
use std::alloc::Global;

/// One change: a path of a SET with its expression, an INSERT or a REMOVE.
#[derive(Clone, Copy)]
pub enum Alteration<'a> {
    Set(&'a Setting),
    Insert {
        target: &'a Path,
        value: &'a Expr,
        at: &'a Option<Expr>,
    },
    Remove(&'a Path),
}

/// Documents by their ids, in order of first touch.
type Touched = IndexMap<u128, Value>;

/// The source at which the path begins.
fn source_of<'a>(scope: &'a Scope, target: &Path) -> Option<&'a Bound>
    ensures { option_copied result ≡ option_and_then (slice_get scope.now) (spec.root_of scope.now target.now) }
{
    match root_at(target.first.as_str(), scope.as_slice()) {
        Some(place) => scope.get(place),
        None => None,
    }
}

fn target_of<'a>(alteration: Alteration<'a>) -> &'a Path
    ensures { result.now ≡ target_of alteration.entry }
{
    match alteration {
        Alteration::Set(setting) => &setting.target,
        Alteration::Insert { target, .. } => target,
        Alteration::Remove(target) => target,
    }
}

fn altered(
    context: &Context<'_>,
    document: Value,
    alteration: Alteration<'_>,
) -> Result<Value, OutOfMemory>
    ensures { IfOk result (λ new. new ≡ (alteration_of (context_of context.now) alteration.entry).made document) }
{
    match alteration {
        Alteration::Set(setting) => set(context, document, setting),
        Alteration::Insert { target, value, at } => insert(context, document, target, value, at),
        Alteration::Remove(target) => remove(context, document, target),
    }
}

/// The document as it stands: as earlier changes left it, or else as the row has it.
fn as_it_stands(alloc: Global, changed: Option<Value>, in_row: &Value) -> Result<Value, OutOfMemory>
    ensures { IfOk result (λ document. document ≡ unwrap_or changed in_row.now) }
{
    match changed {
        Some(document) => Ok(document),
        None => copy(alloc, in_row),
    }
}

/// Changes the document of that id, and moves it back to its place.
fn touch(
    context: &Context<'_>,
    touched: &mut Touched,
    id: DocId,
    in_row: &Value,
    alteration: Alteration<'_>,
) -> Result<(), OutOfMemory>
    ensures { OnOk result
        (rows_in touched.new.entries
        ≡ spec.touch (alteration_of (context_of context.now) alteration.entry).made
        (document_of id in_row.now) (rows_in touched.old.entries)) }
{
    let changed = touched.insert(id.raw, vacant(context.alloc))?;
    let document = as_it_stands(context.alloc, changed, in_row)?;
    let document = altered(context, document, alteration)?;
    touched.insert(id.raw, document)?;
    Ok(())
}

/// Changes the document that the row names by the path of the change.
fn touch_named(
    context: &Context<'_>,
    touched: &mut Touched,
    alteration: Alteration<'_>,
) -> Result<(), OutOfMemory>
    ensures { OnOk result
        (rows_in touched.new.entries
        ≡ spec.touched_by context.now.scope.now (rows_in touched.old.entries)
        (alteration_of (context_of context.now) alteration.entry)) }
{
    match source_of(context.scope, target_of(alteration)) {
        None => Ok(()),
        Some(source) => match source.id {
            None => Ok(()),
            Some(id) => touch(context, touched, id, &source.value, alteration),
        },
    }
}

fn touch_by_settings(
    context: &Context<'_>,
    touched: &mut Touched,
    settings: &[Setting],
) -> Result<(), OutOfMemory>
    ensures { OnOk result
        (rows_in touched.new.entries
        ≡ spec.touched_in context.now.scope.now (rows_in touched.old.entries)
        (map (setting (context_of context.now)) settings.now)) }
{
    'settings: for setting in settings {
        touch_named(context, touched, Alteration::Set(setting))?;
    }
    Ok(())
}

/// The changes of one row, in order.
fn touch_by_row(
    context: &Context<'_>,
    touched: &mut Touched,
    change: &Change,
) -> Result<(), OutOfMemory>
    ensures { OnOk result
        (rows_in touched.new.entries
        ≡ spec.touched_in context.now.scope.now (rows_in touched.old.entries)
        (alterations (context_of context.now) change.now)) }
{
    match change {
        Change::Set(settings) => touch_by_settings(context, touched, settings.as_slice()),
        Change::Insert { target, value, at } => {
            let insertion = Alteration::Insert { target, value, at };
            touch_named(context, touched, insertion)
        }
        Change::Remove { target } => touch_named(context, touched, Alteration::Remove(target)),
    }
}

fn into_rows(alloc: Global, touched: Touched) -> Result<Rows, OutOfMemory>
    ensures { IfOk result (λ rows. rows ≡ rows_in touched.entries) }
{
    let mut rows = Sequence::new(alloc);
    'documents: for (raw, value) in touched {
        rows.push(Row {
            id: DocId { raw },
            value,
        })?;
    }
    Ok(rows)
}

/// The documents that a change touches in these rows, each once with its changed content, in order of
/// its first row and, within one row, of its first change. Each change is made on the document as it
/// stands by then, its expressions read from the row.
pub fn changed_documents(
    alloc: Global,
    change: &Change,
    rows: &Bindings,
    params: &[Value],
) -> Result<Rows, OutOfMemory>
    ensures { IfOk result (λ documents. documents ≡ spec.changed_documents params.now change.now rows.now) }
{
    let mut touched = IndexMap::new(alloc);
    'rows: for scope in rows.as_slice() {
        let context = Context {
            alloc,
            scope,
            params,
        };
        touch_by_row(&context, &mut touched, change)?;
    }
    into_rows(alloc, touched)
}
