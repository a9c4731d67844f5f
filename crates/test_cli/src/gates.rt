//! Two workers that wait for each other at a gate: a transaction is committed while another one that read runs.
use crate::commands::{Left, run, run_gated, unfailing};
use outside::{Gate, Step};
use ql_types::Place;
use std::alloc::Global;
use std::sync::Wait;
use std::sync::atomic::{AtomicU64, Ordering};
use std::thread::Threads;
use std::time::Duration;

/// How often a worker looks at a flag before it goes on, and after how many looks it rests.
const LOOKS: u32 = 10_000_000;

const LOOKS_BETWEEN_RESTS: u32 = 1000;

/// A flag that one worker raises and another one waits for.
#[derive(Drop)]
struct Flag {
    raised: AtomicU64,
}

impl Flag {
    fn new() -> Flag {
        Flag {
            raised: AtomicU64::new(0),
        }
    }

    fn raise(&self) {
        self.raised.store(1, Ordering::SeqCst);
        self.raised.wake_all();
    }

    /// Waits until the flag is raised, `LOOKS` looks at most.
    fn wait<R: Wait>(&self, rt: &R) {
        for look in 0..LOOKS {
            if self.raised.load(Ordering::SeqCst) == 1 {
                return;
            }
            if look % LOOKS_BETWEEN_RESTS == 0 {
                self.raised.park_timeout(rt, 0, Duration::from_micros(100));
            }
        }
    }
}

/// A gate at which session 2 begins once session 1 stands before its commit, and session 1 commits once session 2
/// stands before its second begin.
#[derive(Drop)]
struct Crossing {
    first_commits: Flag,
    second_goes_on: Flag,
}

impl Gate for Crossing {
    fn at<R: Wait + Sync>(&self, rt: &R, place: Place, step: Step) {
        match (place.session, place.transaction, step) {
            (2, 1, Step::BeforeBegin) => self.first_commits.wait(rt),
            (2, 2, Step::BeforeBegin) => self.second_goes_on.raise(),
            (1, 1, Step::BeforeCommit) => {
                self.first_commits.raise();
                self.second_goes_on.wait(rt);
            }
            _ => {}
        }
    }
}

/// Four blocks, which make a table with an index.
const FOUR_BLOCKS: &str =
    "[{statements:[\"CREATE TABLE t\"]},{statements:[\"CREATE INDEX ON t (a)\"]},\
    {statements:[{text:\"INSERT INTO t ?\",params:[{a:1}]}]},{statements:[{text:\"INSERT INTO t ?\",params:[{a:2}]}]}]";

/// The sessions on these blocks: one reads a key that the other one inserts.
const READS_ONCE: &str = "[{statements:[\"SELECT * FROM t WHERE a = 5\"],retries:0}]\n\
    [{statements:[{text:\"INSERT INTO t ?\",params:[{a:5}]}]},{statements:[]}]\n";

const READS_AGAIN: &str = "[{statements:[\"SELECT * FROM t WHERE a = 5\"],retries:1}]\n\
    [{statements:[{text:\"INSERT INTO t ?\",params:[{a:5}]}]},{statements:[]}]\n";

/// What the reader is told that may not try again.
const CONFLICT: &str =
    "0 {session:1,transaction:1,outcome:conflict,tx:\"000000000000000005fybI\",since:4,block:4,\
    item:{kind:index_value,table:\"0000000000000000018OWH\",field:\"a\",value:5d0}}\n";

/// What the reader is told that may, in front of its block's number and behind it.
const COMMITTED: &str = "0 {session:1,transaction:1,outcome:committed,tx:\"";

const READ: &str = "answers:[[{a:5}]]}\n";

/// What the sessions' run behind the four blocks tells, by two workers that cross.
fn crossed<R: Threads + Wait + Sync>(rt: &R, alloc: Global, sessions: &str) -> Option<String> {
    let line = "run --workers 2 --plain-ids --at 2020-01-01T00:00:00.000Z";
    let before = run(rt, alloc, &unfailing(line, FOUR_BLOCKS, b""))?;
    let gate = Crossing {
        first_commits: Flag::new(),
        second_goes_on: Flag::new(),
    };
    let given = unfailing(line, sessions, before.held.as_slice());
    let Left { told, held: _ } = run_gated(rt, alloc, &given, &gate)?;
    Some(told)
}

/// Whether the reader meets the block of the other session.
fn meets_conflict(told: Option<String>) -> bool {
    match told {
        Some(told) => told.as_str().starts_with(CONFLICT),
        None => false,
    }
}

/// Whether the reader is run again, and reads what the other session wrote.
fn reads_again(told: &str) -> Option<bool> {
    let first = told.strip_prefix(COMMITTED)?;
    let (first, _others) = first.split_once("{session:2,transaction:1,")?;
    let (_tx, first) = first.split_once("\",block:")?;
    let (block, answers) = first.split_once(',')?;
    Some((block == "5" || block == "6") && answers == READ)
}

fn has_read_again(told: Option<String>) -> bool {
    match told {
        Some(told) => reads_again(told.as_str()) == Some(true),
        None => false,
    }
}

#[test]
fn gate_two(rt: HostRuntime) {
    assert!(rt; meets_conflict(crossed(&rt, rt.alloc(), READS_ONCE)));
}

#[test]
fn gate_retry(rt: HostRuntime) {
    assert!(rt; has_read_again(crossed(&rt, rt.alloc(), READS_AGAIN)));
}
