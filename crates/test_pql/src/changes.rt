//! What changes make of documents, and which documents rows name.
use crate::parsing::statement;
use crate::rows::scopes;
use crate::values::params_in;
use containers::Sequence;
use ion_values::{Field, OutOfMemory, Text, Value, copy};
use pql_change::{apply, changed_documents, deleted_documents};
use pql_model::{Bindings, Bound, Change, Row, Rows, Scope, Statement};
use ql_types::DocId;
use std::alloc::Global;
use test_rows::{list_in, named, put_separator, put_value, text_in};

/// The change of an UPDATE or a FROM.
fn change_of(statement: &Statement) -> Option<&Change> {
    match statement {
        Statement::Update { from: _, change } => Some(change),
        Statement::From { from: _, change } => Some(change),
        _ => None,
    }
}

/// Puts what a change leaves of the document of the one source `box`.
pub fn put_left(alloc: Global, given: &Value, more: &[Field], out: &mut Text) -> Option<()> {
    let in_row = named(more, "of")?;
    let document = named(more, "standing").unwrap_or(in_row);
    let scope = boxed(alloc, in_row).ok()?;
    let left = left_by(alloc, text_in(given)?, document, &scope, params_in(more))?;
    put_value(alloc, out, &left).ok()
}

fn left_by(
    alloc: Global,
    text: &str,
    document: &Value,
    scope: &Scope,
    params: &[Value],
) -> Option<Value> {
    let parsed = statement(alloc, "UPDATE box ", text, "")?;
    left(alloc, &parsed.held, document, scope, params)
}

/// The row of the source `box`.
fn boxed(alloc: Global, document: &Value) -> Result<Scope, OutOfMemory> {
    let variable = Text::from_text(alloc, "box")?;
    let mut scope = Sequence::new(alloc);
    scope.push(Bound {
        variable,
        value: copy(alloc, document)?,
        id_name: None,
        id: Some(DocId { raw: 1 }),
    })?;
    Ok(scope)
}

fn left(
    alloc: Global,
    statement: &Statement,
    document: &Value,
    scope: &Scope,
    params: &[Value],
) -> Option<Value> {
    apply(alloc, change_of(statement)?, document, scope, params).ok()
}

/// Puts the documents that rows name, changed, each behind its id.
pub fn put_changed(alloc: Global, given: &Value, more: &[Field], out: &mut Text) -> Option<()> {
    let rows = scopes(alloc, list_in(named(more, "of")?)?)?;
    put_changed_by(alloc, text_in(given)?, &rows, out)
}

fn put_changed_by(alloc: Global, text: &str, rows: &Bindings, out: &mut Text) -> Option<()> {
    let documents = changed_by(alloc, text, rows)?;
    put_documents(alloc, &documents, out).ok()
}

fn changed_by(alloc: Global, text: &str, rows: &Bindings) -> Option<Rows> {
    let parsed = statement(alloc, "", text, "")?;
    changed(alloc, &parsed.held, rows)
}

fn changed(alloc: Global, statement: &Statement, rows: &Bindings) -> Option<Rows> {
    changed_documents(alloc, change_of(statement)?, rows, &[]).ok()
}

fn put_documents(alloc: Global, documents: &Rows, out: &mut Text) -> Result<(), OutOfMemory> {
    out.push_str("[")?;
    for (at, document) in documents.as_slice().iter().enumerate() {
        put_separator(out, at, ",")?;
        put_document(alloc, document, out)?;
    }
    out.push_str("]")
}

fn put_document(alloc: Global, document: &Row, out: &mut Text) -> Result<(), OutOfMemory> {
    put_id(document.id, out)?;
    out.push_str("::")?;
    put_value(alloc, out, &document.value)
}

/// Puts the letter of an id.
fn put_id(id: DocId, out: &mut Text) -> Result<(), OutOfMemory> {
    out.push(char::from(u8::try_from(id.raw).unwrap_or(0)))
}

/// Puts the ids of the documents that rows name to be deleted.
pub fn put_deleted(alloc: Global, given: &Value, out: &mut Text) -> Option<()> {
    let rows = scopes(alloc, list_in(given)?)?;
    let ids = deleted_documents(alloc, &rows).ok()?;
    put_ids(ids.as_slice(), out).ok()
}

fn put_ids(ids: &[DocId], out: &mut Text) -> Result<(), OutOfMemory> {
    out.push_str("[")?;
    for (at, id) in ids.iter().enumerate() {
        put_separator(out, at, ",")?;
        put_id(*id, out)?;
    }
    out.push_str("]")
}
