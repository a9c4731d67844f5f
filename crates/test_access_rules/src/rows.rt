//! The tables, and what their rows come to.
use crate::demanded::{CHANGING, JOINED, REDACTING, SINGLE, demanded};
use crate::sets::{GOOD, read};
use std::alloc::Global;

fn is_demanded(alloc: Global, row: &str) -> Option<bool> {
    let (given, wanted) = row.split_once(" is")?;
    let shown = demanded(alloc, given)?;
    Some(shown.as_str() == wanted)
}

fn is_read(alloc: Global, row: &str) -> Option<bool> {
    let (given, wanted) = row.split_once(" is")?;
    let shown = read(alloc, given)?;
    Some(shown.as_str() == wanted)
}

/// The first row whose demands aren't those that it says.
fn demands_failing(alloc: Global, rows: &str) -> Option<&str> {
    for row in rows.lines() {
        if is_demanded(alloc, row) != Some(true) {
            return Some(row);
        }
    }
    None
}

/// The first row whose value is read otherwise than it says.
fn reading_failing(alloc: Global, rows: &str) -> Option<&str> {
    for row in rows.lines() {
        if is_read(alloc, row) != Some(true) {
            return Some(row);
        }
    }
    None
}

#[test]
fn statements_demand(rt: HostRuntime) {
    for rows in [SINGLE, JOINED, CHANGING, REDACTING] {
        assert_eq!(rt; demands_failing(rt.alloc(), rows), None);
    }
}

#[test]
fn values_are_sets(rt: HostRuntime) {
    assert_eq!(rt; reading_failing(rt.alloc(), GOOD), None);
}
