//! The top call.
ghost use Rattle.std.specs.Prelude.{◌≡◌, false, map, string_bytes};
ghost use Rattle.laws_history.specs.Calls.{span};
ghost use Rattle.laws_history.specs.Streams.{TakesFew};
ghost use Rattle.cli_model.specs.Calls.{outside};
ghost use Rattle.cli_model.specs.Top.{Does, Keeps, asks_clock};
ghost use Rattle.cli_args.specs.Words.{asked};
ghost use Rattle.ledger_cli.specs.Ends.{Works};

use crate::command_fault::CommandFault;
use crate::ends::{end, number_of};
use crate::output::Output;
use crate::returned::{Host, Resources, Returned};
use crate::work::work;
use cli_args::{WordsFault, command_in};
use outside::{Clock, Gate, JournalStore, Sink, Source};
use std::alloc::Global;
use std::sync::Wait;
use std::thread::Threads;

/// What a command ends with: its exit status, and the store and the clock that it was given.
#[derive(Drop)]
pub struct Ended<St, C> {
    pub status: u8,
    pub store: St,
    pub clock: C,
}

/// Does what the words say: `run`, `make`, `digest`, `prove`, `verify`, `extract`, `audit`, `compact`, `export`,
/// `stream` or `replay`, with the words after it.
///
/// `run` reads a script from the source, runs it on the journal that the store keeps, and writes its report to the
/// sink; rules stand in front of the script if the words name them. `make` runs a workload that is made from a seed,
/// on an empty journal, and writes how much it then holds. The workers of both run in threads of their own. Worker w
/// of N runs the sessions w, w + N and so on, each whole and in order. Each worker calls the gate before it begins,
/// executes and commits. `digest`, `prove`, `audit`, `compact`, `export` and `stream` read the journal and write its
/// digest, the proof of a revision, how much it holds, or its blocks without what they redact, as lines, in Ion's
/// binary encoding, or as a stream of records; `verify` reads such a proof from the source, and `extract` finds its
/// revision in the journal. `replay` reads records from the source, and writes the lines of the blocks that are
/// rebuilt from them. These eight leave the store's bytes as they are, and `verify` and `replay` don't call the
/// store. The clock is asked by `make`, and by `run` if the words give no time or leave out where the ids come from.
pub fn ledger_top<
    R: Threads + Wait + Sync,
    So: Source,
    Si: Sink,
    St: JournalStore + Send,
    C: Clock + Send,
    G: Gate + Sync,
>(
    rt: &R,
    alloc: Global,
    words: &[String],
    source: &mut So,
    sink: &mut Si,
    store: St,
    clock: C,
    gate: &G,
) -> Ended<St, C>
    ensures does { Does (result.store ≡ store) (record {
      words = words.now;
      told = outside (span (So.told source.old) (So.told source.new)) (span (St.told store) (St.told result.store))
          (span (C.answers clock) (C.answers result.clock));
      sink = span (Si.told sink.old) (Si.told sink.new);
    }) result.status }
    ensures clock { asks_clock (asked (map string_bytes words.now)) ≡ false → result.clock ≡ clock }
{
    let host = Host { rt, gate };
    let Returned {
        value,
        store,
        clock,
    } = answer(alloc, &host, words, source, Resources { store, clock });
    let status = end(alloc, value, source, sink, &store);
    Ended {
        status: number_of(status),
        store,
        clock,
    }
}

/// The output that the words ask for, or why there is none.
fn answer<
    R: Threads + Wait + Sync,
    So: Source,
    St: JournalStore + Send,
    C: Clock + Send,
    G: Gate + Sync,
>(
    alloc: Global,
    host: &Host<'_, R, G>,
    words: &[String],
    source: &mut So,
    resources: Resources<St, C>,
) -> Returned<Result<Output, CommandFault>, St, C>
    ensures works { Works (result.store ≡ resources.store) (asked (map string_bytes words.now)) result.value
        (outside (span (So.told source.old) (So.told source.new))
        (span (St.told resources.store) (St.told result.store))
        (span (C.answers resources.clock) (C.answers result.clock))) }
    ensures keeps { Keeps (result.store ≡ resources.store) (asked (map string_bytes words.now))
        (outside (span (So.told source.old) (So.told source.new))
        (span (St.told resources.store) (St.told result.store))
        (span (C.answers resources.clock) (C.answers result.clock))) }
    ensures few { TakesFew (span (So.told source.old) (So.told source.new)) }
    ensures clock { asks_clock (asked (map string_bytes words.now)) ≡ false → result.clock ≡ resources.clock }
{
    match command_in(alloc, words) {
        Ok(command) => work(alloc, host, command, source, resources),
        Err(WordsFault::Refused) => {
            let Resources { store, clock } = resources;
            Returned {
                value: Err(CommandFault::BadWords),
                store,
                clock,
            }
        }
        Err(WordsFault::OutOfMemory) => {
            let Resources { store, clock } = resources;
            Returned {
                value: Err(CommandFault::OutOfMemory),
                store,
                clock,
            }
        }
    }
}
