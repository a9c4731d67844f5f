//! What statements read.
ghost use Rattle.std.specs.Prelude.{⊤};

use crate::conflicts::{lines_of, state_of};
use crate::items::put_list;
use containers::{Boxed, Sequence};
use footprints::{Asked, Read, Schemas, Spot, all_asked, footprint, items_of, table_in};
use ion_values::{Field, OutOfMemory, Text, Value};
use journal_text::read_journal;
use ledger_model::Item;
use pql_model::{FromClause, SourceKind, Statement};
use pql_parse::parse;
use std::alloc::Global;
use std::marker::Model;
use test_rows::{list_in, named};
use versions::{Versions, active_table};

/// The version that a journal stands for. Clauses see nothing of it, and it is dropped by a call, which keeps the
/// proofs small.
#[derive(Drop)]
struct Version {
    held: Boxed<Versions>,
}

impl Model for Version {
    ghost Value = { ⊤ };

    ghost view = { λ _. tt };
}

fn version_of(alloc: Global, lines: &str) -> Option<Version> {
    let (blocks, _) = read_journal(alloc, lines.as_bytes()).ok()?;
    match state_of(alloc, blocks.as_slice()) {
        Ok(held) => Some(Version { held }),
        Err(_) => None,
    }
}

/// A statement that was read, of which clauses see nothing either.
#[derive(Drop)]
struct Parsed {
    held: Boxed<Statement>,
}

impl Model for Parsed {
    ghost Value = { ⊤ };

    ghost view = { λ _. tt };
}

fn read(alloc: Global, text: &str) -> Option<Parsed> {
    match parse(alloc, text) {
        Ok(statement) => kept(alloc, statement).ok(),
        Err(_) => None,
    }
}

fn kept(alloc: Global, statement: Statement) -> Result<Parsed, OutOfMemory> {
    Ok(Parsed {
        held: Boxed::new(alloc, statement)?,
    })
}

/// What is read of a source behind others of which no rows are read.
fn read_of<'a>(
    alloc: Global,
    version: &Version,
    asked: &[Asked<'a>],
    earlier: &[Read<'a>],
    kind: &'a SourceKind,
) -> Option<Sequence<Item>> {
    let versions = version.held.get();
    let schemas = Schemas {
        tables: versions.tables(),
        base: versions,
        changes: &[],
    };
    let Some(name) = table_in(kind) else {
        return Some(Sequence::new(alloc));
    };
    let table = active_table(versions.tables(), name)?;
    let at = Spot {
        kind,
        table,
        earlier,
    };
    items_of(alloc, schemas, at, asked).ok()
}

/// The items of the sources, in order.
fn own_items(
    alloc: Global,
    version: &Version,
    from: &FromClause,
    params: &[Value],
) -> Option<Vec<Item>> {
    let asked = all_asked(alloc, from, params).ok()?;
    let mut own = Vec::new(alloc);
    let mut reads = Vec::new(alloc);
    for source in from.sources.as_slice() {
        let kind = &source.from;
        let items = read_of(alloc, version, asked.as_slice(), reads.as_slice(), kind)?;
        own.append(&mut items.into_vec()).ok()?;
        reads
            .push(Read {
                source,
                items: Sequence::new(alloc),
                rows: Sequence::new(alloc),
            })
            .ok()?;
    }
    Some(own)
}

fn read_on(
    alloc: Global,
    version: &Version,
    statement: &Statement,
    params: &[Value],
) -> Option<Sequence<Item>> {
    let own = match statement {
        Statement::Select { from, .. }
        | Statement::Update { from, .. }
        | Statement::From { from, .. }
        | Statement::Delete { from } => own_items(alloc, version, from, params)?,
        _ => Vec::new(alloc),
    };
    footprint(alloc, statement, own).ok()
}

/// What the statement reads.
fn read_by(
    alloc: Global,
    version: &Version,
    text: &str,
    params: &[Value],
) -> Option<Sequence<Item>> {
    let parsed = read(alloc, text)?;
    read_on(alloc, version, parsed.held.get(), params)
}

/// The parameters of a row, which may have none.
fn params_in(more: &[Field]) -> &[Value] {
    match named(more, "params") {
        Some(params) => list_in(params).unwrap_or(&[]),
        None => &[],
    }
}

/// Puts what a statement reads.
pub fn put_items(
    alloc: Global,
    later: &str,
    text: &str,
    more: &[Field],
    out: &mut Text,
) -> Option<()> {
    let lines = lines_of(alloc, later)?;
    let version = version_of(alloc, lines.as_str())?;
    put_read(alloc, &version, text, params_in(more), out)
}

fn put_read(
    alloc: Global,
    version: &Version,
    text: &str,
    params: &[Value],
    out: &mut Text,
) -> Option<()> {
    let items = read_by(alloc, version, text, params)?;
    put_list(alloc, items.as_slice(), out).ok()
}
