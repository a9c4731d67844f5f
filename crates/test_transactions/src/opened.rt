//! Statements over documents that are no structs and over more tables than there may be, and what a transaction has
//! read if a statement is refused.
use crate::journals::{Version, version_of};
use crate::transactions::Open;
use ledger_model::Item;
use std::alloc::Global;

/// Statements with `;` between them. Their end is the rows, or the cause of a refusal; or `read` and what they have
/// read if one of them is refused.
const NO_STRUCTS: &str = "SELECT * FROM t1 = {a:y::1}{t1:x::5}{t1:null.struct}
SELECT * FROM t1 AS \"a b\" = {a:y::1}{'a b':x::5}{'a b':null.struct}
SELECT * FROM t0 = none";

const REFUSED: &str = "SELECT * FROM t2 = read none
SELECT * FORM t1 = read none
SELECT * FROM t1 WHERE a = ? = read none
CREATE TABLE t1 = read none
INSERT INTO t1 5 = read none
INSERT INTO t1 {};INSERT INTO t1 5;SELECT * FROM t1 = read name t1
CREATE TABLE u;UPDATE t2 SET a = 5;CREATE TABLE v = read name u, list";

/// Does the statements, one after another, and tells how they end.
fn ask_all(alloc: Global, open: &mut Open, statements: &str) -> Option<String> {
    let mut told = String::new(alloc);
    for statement in statements.split(';') {
        open.ask(alloc, statement, &mut told)?;
    }
    Some(told)
}

fn item_text(alloc: Global, item: &Item) -> Option<String> {
    match item {
        Item::TableName { name } => format!(in alloc; "name {}", name.as_str()).ok(),
        Item::TableList => String::from_str(alloc, "list").ok(),
        _ => None,
    }
}

fn put_item(alloc: Global, told: &mut String, item: &Item) -> Option<()> {
    if !told.is_empty() {
        told.push_str(", ").ok()?;
    }
    let text = item_text(alloc, item)?;
    told.push_str(text.as_str()).ok()
}

/// Whether the items are these, with `, ` between them.
fn are_items(alloc: Global, items: &[Item], read: &str) -> Option<bool> {
    let mut told = String::new(alloc);
    for item in items {
        put_item(alloc, &mut told, item)?;
    }
    Some(told.as_str() == if read == "none" { "" } else { read })
}

/// Whether the transaction is ended, and has read these items.
fn is_ended_so(alloc: Global, open: &Open, read: &str) -> Option<bool> {
    let is_read = are_items(alloc, open.items(), read)?;
    Some(is_read && open.is_ended())
}

/// Whether the statements end so.
fn end_so(alloc: Global, open: &mut Open, statements: &str, end: &str) -> Option<bool> {
    let told = ask_all(alloc, open, statements)?;
    match end.strip_prefix("read ") {
        Some(read) => is_ended_so(alloc, &*open, read),
        None => Some(told.as_str() == if end == "none" { "" } else { end }),
    }
}

/// Whether the statements of the first transaction on this version end as the row says.
fn holds(alloc: Global, version: &Version, row: &str) -> Option<bool> {
    let (statements, end) = row.rsplit_once(" = ")?;
    let mut open = Open::first(alloc, version)?;
    let is_so = end_so(alloc, &mut open, statements, end);
    open.finish(alloc)?;
    is_so
}

/// The first row that doesn't come out as it says.
fn first_failing<'a>(alloc: Global, version: &Version, rows: &'a str) -> Option<&'a str> {
    for row in rows.lines() {
        if holds(alloc, version, row) != Some(true) {
            return Some(row);
        }
    }
    None
}

/// The first row that doesn't come out as it says on the version of this journal.
fn failing<'a>(alloc: Global, journal: &str, rows: &'a str) -> Option<&'a str> {
    match version_of(alloc, journal) {
        Some(version) => first_failing(alloc, &version, rows),
        None => Some("no memory"),
    }
}

#[test]
fn statements_end_so(rt: HostRuntime) {
    let alloc = rt.alloc();
    let no_structs =
        "tables 2 / put 1 2 0 1 x::{a:y::1}, put 1 3 0 1 x::5, put 1 4 0 1 null.struct";
    assert_eq!(rt; failing(alloc, no_structs, NO_STRUCTS), None);
    let number = "tables 2 / put 1 2 0 1 5";
    assert_eq!(rt;
        failing(alloc, number, "UPDATE t1 SET a = 1 = code:10,kind:Int"),
        None
    );
    assert_eq!(rt;
        failing(alloc, "tables 21", "CREATE TABLE u = code:6,count:21"),
        None
    );
    let two = "tables 2 / index a 1 / put 1 2 0 1 {a:5}, put 1 3 0 1 {a:6}";
    assert_eq!(rt; failing(alloc, two, REFUSED), None);
}

/// How many statements a transaction said that performed one, and how many documents it changed.
fn performed(alloc: Global, text: &str) -> Option<(usize, usize)> {
    let version = version_of(alloc, "none")?;
    let mut open = Open::first(alloc, &version)?;
    open.perform(alloc, text);
    let work = open.finish(alloc)?;
    Some(work.counts())
}

#[test]
fn a_statement_is_performed(rt: HostRuntime) {
    assert!(rt; performed(rt.alloc(), "CREATE TABLE t") == Some((1, 0)));
}

/// How many documents a transaction that performed the statement leaves.
fn left_by(alloc: Global, text: &str) -> Option<usize> {
    let version = version_of(alloc, "tables 2")?;
    let mut open = Open::first(alloc, &version)?;
    open.perform(alloc, text);
    let left = open.count_left(alloc);
    open.finish(alloc)?;
    left
}

#[test]
fn an_inserted_document_is_left(rt: HostRuntime) {
    assert!(rt; left_by(rt.alloc(), "INSERT INTO t1 {}") == Some(1));
}
