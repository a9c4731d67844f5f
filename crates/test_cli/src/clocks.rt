//! A run at the time that the clock answers.
use crate::commands::{Left, run, unfailing};
use std::alloc::Global;
use std::sync::Wait;
use std::thread::Threads;
use test_fixtures::THREE_STATEMENTS;

/// The script that makes the line.
const FIRST: &str =
    "[{statements:[\"CREATE TABLE t\",{text:\"INSERT INTO t ?\",params:[{a:5}]},\"SELECT * FROM t\"]}]";

/// Its report, behind the status.
const COMMITTED: &str =
    "0 {session:1,transaction:1,outcome:committed,tx:\"0000000000000000018OWG\",block:0,\
    answers:[[{tableId:\"0000000000000000018OWH\"}],[{documentId:\"0000000000000000018OWI\"}],[{a:5}]]}\n";

/// Whether the script is committed, and leaves the line of that time.
fn is_at_time<R: Threads + Wait + Sync>(rt: &R, alloc: Global) -> Option<bool> {
    let Left { told, held } = run(rt, alloc, &unfailing("run --plain-ids", FIRST, b""))?;
    Some(told.as_str() == COMMITTED && held.as_slice() == THREE_STATEMENTS.as_bytes())
}

#[test]
fn blocks_have_the_time_of_the_clock(rt: HostRuntime) {
    assert!(rt; is_at_time(&rt, rt.alloc()) == Some(true));
}
