//! The run of a workload that is made from a seed, on an empty journal.
ghost use Rattle.std.specs.Prelude.{◌≡◌, ◌<◌, [], Err, IfOk};
ghost use Rattle.id_seed.specs.Seed.{mask_of};
ghost use Rattle.ledger_model.specs.Script.{all_placed};
ghost use Rattle.ledger_model.specs.State.{state};
ghost use Rattle.outside.specs.Told.{StoreTold};
ghost use Rattle.laws_history.specs.Calls.{span};
ghost use Rattle.ledger_shared.specs.Sessions.{AreNumbered};
ghost use Rattle.ledger_cli.specs.Making.{IsWorkload, Makes, MakesAll, SumsUp, at_first};
ghost use Rattle.ledger_cli.specs.Runs.{HasLoaded};

use crate::command_fault::CommandFault;
use crate::journal::unloaded;
use crate::output::Output;
use crate::returned::{Host, Resources, Returned};
use crate::run::{Settled, settle};
use cli_args::MakeOptions;
use id_seed::from_seed;
use ion_values::OutOfMemory;
use journal_text::written_on_one_line;
use ledger_core::{Loaders, Tail};
use ledger_model::{Blocks, Job, Outcomes, Script};
use ledger_shared::Crew;
use outside::{Clock, Gate, JournalStore};
use ql_types::Place;
use run_after_setup::{Setup, run_behind_first};
use std::alloc::Global;
use std::sync::Wait;
use std::thread::Threads;
use versions::Versions;
use workload::{made_first, made_sessions, summary_text, totals_of};

/// The transactions of a workload: the one of session 0, which runs first and alone, and the sessions.
#[derive(Drop)]
pub struct Workload {
    pub first: Job,
    pub sessions: Script,
}

/// The transactions of the workload of these options.
fn transactions_of(alloc: Global, options: MakeOptions) -> Result<Workload, OutOfMemory>
    ensures { IfOk result (λ w. IsWorkload options w) }
{
    let first = made_first(alloc)?;
    let sessions = made_sessions(alloc, options.seed, options.sessions, options.transactions)?;
    Ok(Workload { first, sessions })
}

/// Runs the first transaction alone and then the sessions by the crew's workers. The outcomes are those of the
/// sessions.
///
/// What stands after the journal is cut away at the end.
fn run_workload<S: JournalStore + Send, C: Clock + Send, G: Gate + Sync, R: Threads + Wait + Sync>(
    alloc: Global,
    crew: &Crew<'_, R, G>,
    workload: &Workload,
    tail: Tail<S, C>,
) -> Settled<S, C>
    requires some { 0 < crew.now.workers }
    requires few { AreNumbered workload.now.sessions }
    ensures { MakesAll S.told C.answers C.always crew.now.workers (at_first workload.now.first)
        (all_placed workload.now.sessions) tail result.value result.tail }
{
    let setup = Setup {
        job: &workload.first,
        place: Place {
            session: 0,
            transaction: 1,
        },
    };
    match run_behind_first(crew, alloc, &setup, workload.sessions.as_slice(), tail) {
        Ok(ran) => settle(ran.tail, ran.outcomes),
        Err(refused) => Settled {
            value: Err(CommandFault::OutOfMemory),
            tail: refused.tail,
        },
    }
}

/// The summary of these blocks, which stand for this version, if all transactions have outcomes, or why there is none.
fn summed_up(
    alloc: Global,
    blocks: &Blocks,
    version: &Versions,
    value: Result<Outcomes, CommandFault>,
) -> Result<Output, CommandFault>
    requires { version.now ≡ state blocks.now.list }
    ensures { SumsUp blocks.now.list value result }
{
    match value {
        Ok(_outcomes) => {
            let totals = totals_of(alloc, blocks.len() as u64, version)?;
            Ok(Output::of_text(summary_text(alloc, &totals)?))
        }
        Err(stop) => Err(stop),
    }
}

/// Runs the workload on this tail, whose journal is empty, and returns its summary with the tail's store and clock.
fn make_all<S: JournalStore + Send, C: Clock + Send, G: Gate + Sync, R: Threads + Wait + Sync>(
    alloc: Global,
    host: &Host<'_, R, G>,
    options: MakeOptions,
    workload: &Workload,
    tail: Tail<S, C>,
) -> Returned<Result<Output, CommandFault>, S, C>
    requires some { 0 < options.workers }
    requires of { IsWorkload options workload.now }
    ensures { (before : StoreTold) → HasLoaded S.told (mask_of options.seed) before tail → tail.standing.blocks ≡ []
        → Makes options result.value (span before (S.told result.store))
        (span (C.answers tail.clock) (C.answers result.clock)) }
{
    written_on_one_line();
    let crew = Crew {
        rt: host.rt,
        gate: host.gate,
        workers: options.workers,
    };
    let Settled { value, tail } = run_workload(alloc, &crew, workload, tail);
    let value = summed_up(alloc, tail.blocks(), tail.version(), value);
    let (_blocks, store, clock) = tail.into_parts();
    Returned {
        value,
        store,
        clock,
    }
}

/// Runs the workload on this tail if it has no blocks, and returns otherwise that it has some.
fn make_if_empty<S: JournalStore + Send, C: Clock + Send, G: Gate + Sync, R: Threads + Wait + Sync>(
    alloc: Global,
    host: &Host<'_, R, G>,
    options: MakeOptions,
    workload: &Workload,
    tail: Tail<S, C>,
) -> Returned<Result<Output, CommandFault>, S, C>
    requires some { 0 < options.workers }
    requires of { IsWorkload options workload.now }
    ensures { (before : StoreTold) → HasLoaded S.told (mask_of options.seed) before tail
        → Makes options result.value (span before (S.told result.store))
        (span (C.answers tail.clock) (C.answers result.clock)) }
{
    let blocks = tail.blocks().len();
    if blocks == 0 {
        return make_all(alloc, host, options, workload, tail);
    }
    let (_blocks, store, clock) = tail.into_parts();
    Returned {
        value: Err(CommandFault::NotEmpty { blocks }),
        store,
        clock,
    }
}

/// Runs the workload of these options on the journal that the store keeps, and sums up the blocks that are left.
///
/// The journal has to be empty. First the transaction of session 0 runs alone, then the workers run the sessions. The
/// ids have the mask of the seed. Each block is made at a time of the clock, or at that of the block before it if that
/// is later.
pub fn make<S: JournalStore + Send, C: Clock + Send, G: Gate + Sync, R: Threads + Wait + Sync>(
    alloc: Global,
    host: &Host<'_, R, G>,
    options: MakeOptions,
    resources: Resources<S, C>,
) -> Returned<Result<Output, CommandFault>, S, C>
    requires { 0 < options.workers }
    ensures { Makes options result.value (span (S.told resources.store) (S.told result.store))
        (span (C.answers resources.clock) (C.answers result.clock)) }
{
    match transactions_of(alloc, options) {
        Ok(workload) => make_by(alloc, host, options, &workload, resources),
        Err(OutOfMemory) => {
            let Resources { store, clock } = resources;
            Returned {
                value: Err(CommandFault::OutOfMemory),
                store,
                clock,
            }
        }
    }
}

/// Runs these transactions, which are the workload's of these options, as `make` does.
fn make_by<S: JournalStore + Send, C: Clock + Send, G: Gate + Sync, R: Threads + Wait + Sync>(
    alloc: Global,
    host: &Host<'_, R, G>,
    options: MakeOptions,
    workload: &Workload,
    resources: Resources<S, C>,
) -> Returned<Result<Output, CommandFault>, S, C>
    requires some { 0 < options.workers }
    requires of { IsWorkload options workload.now }
    ensures { Makes options result.value (span (S.told resources.store) (S.told result.store))
        (span (C.answers resources.clock) (C.answers result.clock)) }
{
    let Resources { store, clock } = resources;
    let loaders = Loaders {
        rt: host.rt,
        workers: options.workers,
    };
    match Tail::reload_by(&loaders, alloc, store, clock, from_seed(options.seed)) {
        Ok(tail) => make_if_empty(alloc, host, options, workload, tail),
        Err(fault) => unloaded(fault),
    }
}
