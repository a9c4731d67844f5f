//! Two passes of one ledger: what the one commits the other finds.
ghost use Rattle.std.specs.Prelude.{◌≡◌, All, IfSome};
ghost use Rattle.turn_lock.specs.declared.view.Known.{Known};
ghost use Rattle.turn_lock.specs.Seats.{known};
ghost use Rattle.laws_machine.specs.Entries.{Entry, Opening};
ghost use Rattle.ledger_shared.specs.Behind.{opening_of};
ghost use Rattle.ledger_shared.specs.Known.{MayCommit};
ghost use Rattle.ledger_shared.specs.Ledgers.{IsPass};

use crate::tails::{memory_store, tail_of};
use ion_text::read_stream;
use ion_values::Value;
use ledger_shared::{Closed, Ledger, Pass};
use outside::{JournalStore, MemoryStore, SetClock};
use ql_types::{Hash32, Place};
use session_driver::{fold_statement, start_digest};
use std::alloc::Global;
use std::sync::Wait;
use txn_core::Txn;

const PLACE: Place = Place {
    session: 1,
    transaction: 1,
};

/// Asks a statement of the transaction, and folds it into the digest.
fn ask(alloc: Global, txn: &mut Txn, digest: Hash32, text: &str, params: &[Value]) -> Option<Hash32>
    ensures { (o : Opening) (k : Known Entry) → MayCommit o k txn.old → MayCommit o k txn.new }
{
    let _answer = txn.execute(alloc, text, params);
    fold_statement(alloc, digest, text, params).ok()
}

/// Makes a table with a document in the transaction, and tells its digest.
fn make(alloc: Global, txn: &mut Txn) -> Option<Hash32>
    ensures { (o : Opening) (k : Known Entry) → MayCommit o k txn.old → MayCommit o k txn.new }
{
    let start = start_digest(alloc, txn.tx()).ok()?;
    let document = read_stream(alloc, b"{a:5}", 80).ok()?;
    let digest = ask(alloc, txn, start, "CREATE TABLE t", &[])?;
    ask(alloc, txn, digest, "INSERT INTO t ?", document.as_slice())
}

/// Commits the table and its document with the pass, and tells the number of the block.
fn commit<S: JournalStore, R: Wait>(
    rt: &R,
    alloc: Global,
    ledger: &Ledger<S, SetClock>,
    pass: &mut Pass<S, SetClock>,
) -> Option<u64>
    requires { IsPass S.told ledger.now pass.old }
    ensures { IsPass S.told ledger.now pass.new }
{
    let mut txn = ledger.begin(rt, alloc, pass, PLACE).ok()?;
    let digest = make(alloc, &mut txn)?;
    let receipt = ledger.commit(rt, alloc, pass, txn, digest).ok()?;
    Some(receipt.block)
}

/// On how many blocks a transaction of the pass begins, and how many documents it finds.
fn find<S: JournalStore, R: Wait>(
    rt: &R,
    alloc: Global,
    ledger: &Ledger<S, SetClock>,
    pass: &mut Pass<S, SetClock>,
) -> Option<(u64, usize)>
    requires { IsPass S.told ledger.now pass.old }
    ensures { IsPass S.told ledger.now pass.new }
{
    let mut txn = ledger.begin(rt, alloc, pass, PLACE).ok()?;
    let answer = txn.execute(alloc, "SELECT * FROM t", &[]).ok()?;
    Some((txn.since(), answer.rows.len()))
}

/// Two passes meet behind the commit of the first one, or before it. It tells the number of the block.
fn commit_and_meet<S: JournalStore, R: Wait>(
    rt: &R,
    alloc: Global,
    ledger: &Ledger<S, SetClock>,
    first: &mut Pass<S, SetClock>,
    second: &mut Pass<S, SetClock>,
    order: &str,
) -> Option<u64>
    requires first { IsPass S.told ledger.now first.old }
    requires second { IsPass S.told ledger.now second.old }
    ensures first { IsPass S.told ledger.now first.new }
    ensures second { IsPass S.told ledger.now second.new }
{
    if order == "commit, meet" {
        let block = commit(rt, alloc, ledger, first)?;
        ledger.meet(first, second).ok()?;
        Some(block)
    } else {
        ledger.meet(first, second).ok()?;
        commit(rt, alloc, ledger, first)
    }
}

/// One line: these numbers, and how many blocks and entries are left.
fn line_of<S: JournalStore>(
    alloc: Global,
    closed: &Closed<S, SetClock>,
    block: u64,
    since: u64,
    documents: usize,
) -> Option<String> {
    let blocks = closed.tail.blocks().len();
    let entries = closed.entries.as_slice().len();
    format!(in alloc; "{block} {since} {documents} {blocks} {entries}").ok()
}

/// What comes of that order, as one line: the block, on how many blocks the second pass begins, how many documents
/// it finds, and how many blocks and entries are left.
fn told<S: JournalStore + Drop, R: Wait>(
    rt: &R,
    alloc: Global,
    ledger: Ledger<S, SetClock>,
    pass: Pass<S, SetClock>,
    order: &str,
) -> Option<String>
    requires { IsPass S.told ledger pass }
{
    let mut first = pass;
    let mut second = ledger.split(&mut first).ok()?;
    let block = commit_and_meet(rt, alloc, &ledger, &mut first, &mut second, order)?;
    let (since, documents) = find(rt, alloc, &ledger, &mut second)?;
    let passes = vec![in alloc; first, second].ok()?;
    let closed = ledger.close(rt, passes);
    line_of(alloc, &closed, block, since, documents)
}

/// The order of the commit and the meeting, and what comes of it.
const ROWS: &str = "commit, meet > 0 1 1 1 3
meet, commit > 0 1 1 1 3";

fn holds<R: Wait>(rt: &R, alloc: Global, row: &str) -> Option<bool> {
    let (order, line) = row.split_once(" > ")?;
    let tail = tail_of(alloc, memory_store(alloc))?;
    let (ledger, pass) = Ledger::new(alloc, tail).ok()?;
    Some(told(rt, alloc, ledger, pass, order)?.as_str() == line)
}

/// The first row that doesn't come out as it says.
fn failing<R: Wait>(rt: &R, alloc: Global) -> Option<&'static str> {
    for row in ROWS.lines() {
        if holds(rt, alloc, row) != Some(true) {
            return Some(row);
        }
    }
    None
}

#[test]
fn what_one_pass_commits_another_finds(rt: HostRuntime) {
    assert_eq!(&rt; failing(&rt, rt.alloc()), None);
}
