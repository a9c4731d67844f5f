//! A command on a journal in memory.
use ledger_cli::ledger_top;
use outside::{FreeGate, Gate, MemorySink, MemorySource, MemoryStore, SetClock};
use std::alloc::Global;
use std::sync::Wait;
use std::thread::Threads;

/// What a command is run on: its words in a line, its input, and what its store holds.
#[derive(Clone, Copy)]
pub struct Given<'a> {
    pub line: &'a str,
    pub input: &'a str,
    pub held: &'a [u8],
}

/// The exit status of a command and what it wrote behind it, and what its store holds then.
#[derive(Drop)]
pub struct Left {
    pub told: String,
    pub held: Vec<u8>,
}

/// What a command is run with, but for its gate.
#[derive(Drop)]
struct Around {
    words: Vec<String>,
    source: MemorySource,
    sink: MemorySink,
    store: MemoryStore,
    clock: SetClock,
}

/// A command of which no call fails.
pub fn unfailing<'a>(line: &'a str, input: &'a str, held: &'a [u8]) -> Given<'a> {
    Given { line, input, held }
}

/// The words of a line, apart at each space.
fn words_of(alloc: Global, line: &str) -> Option<Vec<String>> {
    let mut words = Vec::new(alloc);
    for word in line.split(' ') {
        words.push(String::from_str(alloc, word).ok()?).ok()?;
    }
    Some(words)
}

/// A clock that always answers the year 2020's begin.
fn clock_of(alloc: Global) -> Option<SetClock> {
    Some(SetClock::new(vec![in alloc; 1_577_836_800_000].ok()?))
}

fn around_of(alloc: Global, given: &Given<'_>) -> Option<Around> {
    let words = words_of(alloc, given.line)?;
    let input = given.input.as_bytes().to_vec(alloc).ok()?;
    let held = given.held.to_vec(alloc).ok()?;
    let clock = clock_of(alloc)?;
    Some(Around {
        words,
        source: MemorySource::new(input, Vec::new(alloc)),
        sink: MemorySink::new(alloc, Vec::new(alloc)),
        store: MemoryStore::new(alloc, held, Vec::new(alloc)),
        clock,
    })
}

/// The status and the output, a space between them, and what the store holds.
fn left_of(alloc: Global, status: u8, output: &[u8], held: &[u8]) -> Option<Left> {
    let output = str::from_utf8(output).ok()?;
    let told = format!(in alloc; "{status} {output}").ok()?;
    let held = held.to_vec(alloc).ok()?;
    Some(Left { told, held })
}

/// Runs the command with a gate that its workers call.
pub fn run_gated<R: Threads + Wait + Sync, G: Gate + Sync>(
    rt: &R,
    alloc: Global,
    given: &Given<'_>,
    gate: &G,
) -> Option<Left> {
    let Around {
        words,
        mut source,
        mut sink,
        store,
        clock,
    } = around_of(alloc, given)?;
    let ended = ledger_top(
        rt,
        alloc,
        &words,
        &mut source,
        &mut sink,
        store,
        clock,
        gate,
    );
    left_of(alloc, ended.status, sink.written(), ended.store.held())
}

/// Runs the command.
pub fn run<R: Threads + Wait + Sync>(rt: &R, alloc: Global, given: &Given<'_>) -> Option<Left> {
    run_gated(rt, alloc, given, &FreeGate)
}
