//! What expressions mean, and what is selected.
use crate::parsing::{expression_of, select_of, selecting};
use crate::rows::{scope, scopes};
use containers::Sequence;
use ion_values::{Body, Field, OutOfMemory, Text, Value};
use pql_expr::eval;
use pql_model::{Evaluated, Scope, Select, SelectItem, Statement};
use pql_select::answer;
use std::alloc::Global;
use test_rows::{fields_in, list_in, named, put_list, put_value, text_in};

/// Puts what an expression means.
pub fn put_meaning(alloc: Global, given: &Value, more: &[Field], out: &mut Text) -> Option<()> {
    let scope = sources(alloc, more)?;
    put_meaning_under(alloc, text_in(given)?, &scope, params_in(more), out)
}

fn put_meaning_under(
    alloc: Global,
    text: &str,
    scope: &Scope,
    params: &[Value],
    out: &mut Text,
) -> Option<()> {
    let meant = meant(alloc, text, scope, params)?;
    put_meant(alloc, &meant, out).ok()
}

fn meant(alloc: Global, text: &str, scope: &Scope, params: &[Value]) -> Option<Evaluated> {
    let parsed = selecting(alloc, text)?;
    evaluated(alloc, &parsed.held, scope, params)
}

/// The sources of a row, which may name none.
fn sources(alloc: Global, more: &[Field]) -> Option<Scope> {
    match named(more, "of") {
        Some(sources) => scope(alloc, fields_in(sources)?).ok(),
        None => Some(Sequence::new(alloc)),
    }
}

/// The parameters of a row, which may have none.
pub fn params_in(more: &[Field]) -> &[Value] {
    match named(more, "params") {
        Some(params) => list_in(params).unwrap_or(&[]),
        None => &[],
    }
}

fn evaluated(
    alloc: Global,
    statement: &Statement,
    scope: &Scope,
    params: &[Value],
) -> Option<Evaluated> {
    eval(alloc, expression_of(statement)?, scope, params).ok()
}

/// Puts a meaning, each null as the plain one.
fn put_meant(alloc: Global, meant: &Evaluated, out: &mut Text) -> Result<(), OutOfMemory> {
    match meant {
        Evaluated::Missing => out.push_str("missing"),
        Evaluated::Found(value) => match &value.body {
            Body::Null(_) => out.push_str("null"),
            _ => put_value(alloc, out, value),
        },
    }
}

/// Puts what is selected of rows. A list of items is put together of statements of one item each.
pub fn put_selected(alloc: Global, given: &Value, more: &[Field], out: &mut Text) -> Option<()> {
    let of = list_in(named(more, "of")?)?;
    match list_in(given) {
        Some(items) => put_of_items(alloc, items, of, out),
        None => put_of_text(alloc, text_in(given)?, of, out),
    }
}

fn put_of_items(alloc: Global, items: &[Value], of: &[Value], out: &mut Text) -> Option<()> {
    let select = put_together(alloc, items)?;
    put_answer(alloc, &select, of, out)
}

fn put_of_text(alloc: Global, text: &str, of: &[Value], out: &mut Text) -> Option<()> {
    let parsed = selecting(alloc, text)?;
    put_of_statement(alloc, &parsed.held, of, out)
}

fn put_of_statement(
    alloc: Global,
    statement: &Statement,
    of: &[Value],
    out: &mut Text,
) -> Option<()> {
    let (select, _from) = select_of(statement)?;
    put_answer(alloc, select, of, out)
}

fn put_answer(alloc: Global, select: &Select, of: &[Value], out: &mut Text) -> Option<()> {
    let rows = scopes(alloc, of)?;
    let answer = answer(alloc, select, rows, &[]).ok()?;
    put_list(alloc, out, answer.rows.as_slice()).ok()
}

fn put_together(alloc: Global, texts: &[Value]) -> Option<Select> {
    let mut items = Sequence::new(alloc);
    for text in texts {
        items.push(only_item(alloc, text_in(text)?)?).ok()?;
    }
    Some(Select::Items(items))
}

fn only_item(alloc: Global, text: &str) -> Option<SelectItem> {
    let mut parsed = selecting(alloc, text)?;
    take_item(&mut parsed.held)
}

fn take_item(statement: &mut Statement) -> Option<SelectItem> {
    match statement {
        Statement::Select { select, from: _ } => match select {
            Select::Items(items) => items.pop(),
            _ => None,
        },
        _ => None,
    }
}
