//! Texts and statements.
ghost use Rattle.std.specs.Prelude.{⊤};

use ion_values::{OutOfMemory, Text, Value};
use pql_model::{Expr, FromClause, ParseKind, Select, Statement, parameters};
use pql_parse::{ParseAnswer, parse};
use std::alloc::Global;
use std::marker::Model;
use test_rows::{put_number, spelled, text_in};

/// Puts whether a text is a statement, or why it is none.
pub fn put_parsed(alloc: Global, given: &Value, out: &mut Text) -> Option<()> {
    let text = spelled(alloc, given)?;
    put_failure(alloc, parse(alloc, text.as_str()).err(), out)
}

fn put_failure(alloc: Global, failure: Option<ParseAnswer>, out: &mut Text) -> Option<()> {
    match failure {
        None => out.push_str("read").ok(),
        Some(ParseAnswer::Fault { at, kind }) => {
            out.push_str(name_of(kind)).ok()?;
            put_number(alloc, out, i128::from(at)).ok()
        }
        Some(ParseAnswer::OutOfMemory) => None,
    }
}

fn name_of(kind: ParseKind) -> &'static str {
    match kind {
        ParseKind::NotAToken => "NotAToken at ",
        ParseKind::Unexpected => "Unexpected at ",
        ParseKind::TextEnds => "TextEnds at ",
        ParseKind::TooLong => "TooLong at ",
        ParseKind::TooDeep => "TooDeep at ",
        ParseKind::TooWide => "TooWide at ",
        ParseKind::FloatRefused => "FloatRefused at ",
        ParseKind::IonLiteral => "IonLiteral at ",
        ParseKind::UnknownName => "UnknownName at ",
        ParseKind::BadTarget => "BadTarget at ",
        ParseKind::MixedAggregate => "MixedAggregate at ",
    }
}

/// Puts how many question marks a statement has.
pub fn put_count(alloc: Global, given: &Value, out: &mut Text) -> Option<()> {
    let parsed = statement(alloc, "", text_in(given)?, "")?;
    put_number(alloc, out, i128::from(parameters(&parsed.held))).ok()
}

/// A statement that was read. Clauses see nothing of it, and it is dropped by a call, which keeps the proofs small.
#[derive(Drop)]
pub struct Parsed {
    pub held: Box<Statement>,
}

impl Model for Parsed {
    ghost Value = { ⊤ };

    ghost view = { λ _. tt };
}

/// The statement of a text between two others.
pub fn statement(alloc: Global, before: &str, text: &str, after: &str) -> Option<Parsed> {
    let text = format!(in alloc; "{before}{text}{after}").ok()?;
    read(alloc, text.as_str())
}

fn read(alloc: Global, text: &str) -> Option<Parsed> {
    match parse(alloc, text) {
        Ok(statement) => kept(alloc, statement).ok(),
        Err(_) => None,
    }
}

/// A statement on the heap.
fn kept(alloc: Global, statement: Statement) -> Result<Parsed, OutOfMemory> {
    Ok(Parsed {
        held: Box::new(alloc, statement)?,
    })
}

/// The statement that selects this of the sources `t`, which has the BY name `id`, `u`, `b` and `d`.
pub fn selecting(alloc: Global, text: &str) -> Option<Parsed> {
    statement(alloc, "SELECT ", text, " FROM t BY id, u, b, d")
}

/// What a statement selects, and of which sources.
pub fn select_of(statement: &Statement) -> Option<(&Select, &FromClause)> {
    match statement {
        Statement::Select { select, from } => Some((select, from)),
        _ => None,
    }
}

/// The expression that a statement selects as its first item.
pub fn expression_of(statement: &Statement) -> Option<&Expr> {
    let (select, _from) = select_of(statement)?;
    match select {
        Select::Value(value) => Some(value),
        Select::Items(items) => Some(&items.as_slice().first()?.value),
        Select::Star => None,
    }
}
