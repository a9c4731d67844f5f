//! The digests of tails, and the trees over the hashes of their blocks.
use crate::bench::{Bench, bench_of, empty_bench, make};
use journal_reader::Journal;
use outside::MemoryStore;
use ql_types::Hash;
use std::alloc::Global;

/// The digest of a journal, if it is the root of the tail's tree and its tip is the last block.
fn told(alloc: Global, bench: &Bench) -> Option<String> {
    let found = bench.found();
    let digest = found.digest?;
    let last = found.blocks.checked_sub(1)?;
    if digest.tip.sequence != last || found.root != Hash::Full(digest.digest) {
        return None;
    }
    hex::encode(alloc, digest.digest.bytes.as_slice()).ok()
}

/// The bench of `blocks` blocks: the first one creates a table, and each other one selects from it.
fn bench_of_blocks(alloc: Global, blocks: u64) -> Option<Bench> {
    let mut bench = empty_bench(alloc, 999)?;
    make(alloc, &mut bench, "CREATE TABLE t")?;
    for _ in 1..blocks {
        make(alloc, &mut bench, "SELECT * FROM t")?;
    }
    Some(bench)
}

/// How many blocks there are, and their digest in hexadecimal. ../vectors/digests.py prints the digests. The last
/// journal is longer than a piece that a load reads.
const ROWS: &str = "1 > 1e109563640c937a34726f5c9adb8591ed28a307d4b5e9ce11541f0e844aeef0
2 > db411ee27056561546e68d856b7185363942f51d5e897a30462ae06f3489524b
3 > d27bcee40cfcab616c877ef6ad2b4abde72173e29a4c0195b4554372efbb54a8
5 > 6f336b4e66e9d9d442218eeff06171874f1bbbc7d5d51e40a53038fe90f51c40
121 > ccb5a37e350a969f5439a0e3b132e9b759a36821293b7a9f51ad1aa4c7e180d1";

/// Whether the journal has this digest.
fn has_digest(alloc: Global, bench: &Bench, digest: &str) -> Option<bool> {
    let found = told(alloc, bench)?;
    Some(found.as_str() == digest)
}

/// Whether the journal that the store holds has this digest, read without a tail.
fn is_read(alloc: Global, store: &mut MemoryStore, digest: &str) -> Option<bool> {
    let journal = Journal::read(alloc, store).ok()?;
    let last = journal.blocks().len().checked_sub(1)?;
    let found = journal.digest(alloc, last).ok()?;
    let found = hex::encode(alloc, found.digest.bytes.as_slice()).ok()?;
    Some(found.as_str() == digest)
}

/// Whether the journal of the row has its digest, also if it is read and loaded again.
fn holds(alloc: Global, row: &str) -> Option<bool> {
    let (blocks, digest) = row.split_once(" > ")?;
    let bench = bench_of_blocks(alloc, blocks.parse::<u64>().ok()?)?;
    let is_made = has_digest(alloc, &bench, digest)?;
    let (_, mut store) = bench.into_parts();
    let is_read = is_read(alloc, &mut store, digest)?;
    let bench = bench_of(alloc, store)?;
    Some(is_made && is_read && has_digest(alloc, &bench, digest)?)
}

/// The first row that doesn't come out as it says.
fn failing(alloc: Global) -> Option<&'static str> {
    for row in ROWS.lines() {
        if holds(alloc, row) != Some(true) {
            return Some(row);
        }
    }
    None
}

/// Whether a tail without blocks has no digest and an empty root.
fn has_none(alloc: Global) -> Option<bool> {
    let found = empty_bench(alloc, 99)?.found();
    Some(found.digest.is_none() && found.root == Hash::Empty)
}

#[test]
fn each_journal_has_its_digest(rt: HostRuntime) {
    assert_eq!(rt; failing(rt.alloc()), None);
    assert!(rt; has_none(rt.alloc()) == Some(true));
}
