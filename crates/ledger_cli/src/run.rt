//! The run of a script on the journal that a store keeps.
ghost use Rattle.std.specs.Prelude.{◌≡◌, ◌<◌, ℕ, Some, IfOk, IfErr, false};
ghost use Rattle.ledger_model.specs.Script.{all_placed};
ghost use Rattle.outside.specs.Told.{StoreTold};
ghost use Rattle.laws_history.specs.Calls.{span};
ghost use Rattle.cli_model.specs.Runs.{IsReportOf, Terms};
ghost use Rattle.ledger_shared.specs.Sessions.{AreNumbered};
ghost use Rattle.cli_model.specs.Top.{asks_clock};
ghost use Rattle.cli_args.specs.declared.Command.TheVariants as asked;
ghost use Rattle.ledger_cli.specs.Clocks.{AreCovered, GoesOn, IsOnTerms, clock_told};
ghost use Rattle.ledger_cli.specs.Runs.{Comes, HasLoaded, IsEnded, Reports, Settles};
ghost use Rattle.ledger_cli.specs.Stops.{IsLoadStop};

use crate::command_fault::CommandFault;
use crate::journal::unloaded;
use crate::output::Output;
use crate::returned::{Host, Resources, Returned};
use crate::times::{FixedClock, mask_by, moments_have_times};
use cli_args::RunOptions;
use journal_text::written_on_one_line;
use ledger_core::{Loaders, Tail};
use ledger_model::{Blocks, Outcomes, Script, Session};
use ledger_shared::{Crew, run_all};
use outside::{Clock, Gate, JournalStore};
use ql_types::IdMask;
use script_form::report;
use std::alloc::Global;
use std::sync::Wait;
use std::thread::Threads;

/// The outcomes of a run, or why there are none, and the tail that it leaves.
#[derive(Drop)]
pub struct Settled<S: JournalStore, C> {
    pub value: Result<Outcomes, CommandFault>,
    pub tail: Tail<S, C>,
}

/// Runs the sessions on the tail by the crew's workers, and then cuts away what stands after the journal.
pub fn run_and_settle<
    S: JournalStore + Send,
    C: Clock + Send,
    G: Gate + Sync,
    R: Threads + Wait + Sync,
>(alloc: Global, crew: &Crew<'_, R, G>, sessions: &[Session], tail: Tail<S, C>) -> Settled<S, C>
    requires some { 0 < crew.now.workers }
    requires few { AreNumbered sessions.now }
    ensures { Settles S.told C.answers C.always crew.now.workers (all_placed sessions.now) tail result.value
        result.tail }
{
    match run_all(crew, alloc, sessions, tail) {
        Ok(ran) => settle(ran.tail, ran.outcomes),
        Err(refused) => Settled {
            value: Err(CommandFault::OutOfMemory),
            tail: refused.tail,
        },
    }
}

/// Cuts away what stands after the journal of a tail with these outcomes.
pub fn settle<S: JournalStore, C: Clock>(tail: Tail<S, C>, outcomes: Outcomes) -> Settled<S, C>
    ensures { Comes S.told tail outcomes result.value result.tail }
{
    let mut tail = tail;
    match tail.settle() {
        Ok(()) => Settled {
            value: Ok(outcomes),
            tail,
        },
        Err(fault) => Settled {
            value: Err(CommandFault::from(fault)),
            tail,
        },
    }
}

/// The report of these outcomes on these blocks, or why there is none.
fn reported(
    alloc: Global,
    blocks: &Blocks,
    value: Result<Outcomes, CommandFault>,
) -> Result<Output, CommandFault>
    ensures { Reports blocks.now.list value result }
{
    match value {
        Ok(outcomes) => Ok(Output::of_text(report(alloc, blocks, &outcomes)?)),
        Err(stop) => Err(stop),
    }
}

/// Runs the script on this tail, and returns its report with the tail's store and clock.
fn run_on<S: JournalStore + Send, C: Clock + Send, G: Gate + Sync, R: Threads + Wait + Sync>(
    alloc: Global,
    crew: &Crew<'_, R, G>,
    script: &Script,
    tail: Tail<S, C>,
) -> Returned<Result<Output, CommandFault>, S, C>
    requires some { 0 < crew.now.workers }
    requires few { AreNumbered script.now }
    ensures done { (given : ℕ) (before : StoreTold) → HasLoaded S.told given before tail
        → IfOk result.value (λ text. (terms : Terms)
        → AreCovered given (clock_told C.answers C.always tail.clock) (clock_told C.answers C.always result.clock) terms
        → IsReportOf terms crew.now.workers (all_placed script.now) (span before (S.told result.store)) text) }
    ensures ended { (given : ℕ) (before : StoreTold) → HasLoaded S.told given before tail
        → IfErr result.value (λ why. (terms : Terms)
        → AreCovered given (clock_told C.answers C.always tail.clock) (clock_told C.answers C.always result.clock) terms
        → IsEnded why crew.now.workers (all_placed script.now) (span before (S.told result.store)) terms) }
    ensures stop { (given : ℕ) (before : StoreTold) → HasLoaded S.told given before tail
        → IfErr result.value (λ stop. IsLoadStop stop (span before (S.told result.store))) }
    ensures goes { GoesOn (clock_told C.answers C.always tail.clock) (clock_told C.answers C.always result.clock) }
{
    written_on_one_line();
    let Settled { value, tail } = run_and_settle(alloc, crew, script.as_slice(), tail);
    let value = reported(alloc, tail.blocks(), value);
    let (_blocks, store, clock) = tail.into_parts();
    Returned {
        value,
        store,
        clock,
    }
}

/// Runs the script on the journal that the store keeps, and reports it. If there is no block, the ids have this mask.
///
/// Each block is made at a time of the clock, or at that of the block before it if that is later. A whole line of the
/// journal is never changed. What stands after the lines is cut away.
fn run_by<S: JournalStore + Send, C: Clock + Send, G: Gate + Sync, R: Threads + Wait + Sync>(
    alloc: Global,
    crew: &Crew<'_, R, G>,
    script: &Script,
    mask: IdMask,
    resources: Resources<S, C>,
) -> Returned<Result<Output, CommandFault>, S, C>
    requires some { 0 < crew.now.workers }
    requires few { AreNumbered script.now }
    ensures done { IfOk result.value (λ text. (terms : Terms) → AreCovered mask.bits
        (clock_told C.answers C.always resources.clock) (clock_told C.answers C.always result.clock) terms
        → IsReportOf terms crew.now.workers (all_placed script.now)
        (span (S.told resources.store) (S.told result.store)) text) }
    ensures ended { IfErr result.value (λ why. (terms : Terms) → AreCovered mask.bits
        (clock_told C.answers C.always resources.clock) (clock_told C.answers C.always result.clock) terms
        → IsEnded why crew.now.workers (all_placed script.now)
        (span (S.told resources.store) (S.told result.store)) terms) }
    ensures stop { IfErr result.value (λ stop.
        IsLoadStop stop (span (S.told resources.store) (S.told result.store))) }
    ensures goes { GoesOn (clock_told C.answers C.always resources.clock) (clock_told C.answers C.always result.clock) }
{
    let Resources { store, clock } = resources;
    let loaders = Loaders {
        rt: crew.rt,
        workers: crew.workers,
    };
    match Tail::reload_by(&loaders, alloc, store, clock, mask) {
        Ok(tail) => run_on(alloc, crew, script, tail),
        Err(fault) => unloaded(fault),
    }
}

/// Runs the script with these options on the journal that the store keeps, and reports it.
///
/// The time of the blocks and the source of the ids are those of the options. The clock is asked only if they leave one
/// of them out.
pub fn run_script<
    S: JournalStore + Send,
    C: Clock + Send,
    G: Gate + Sync,
    R: Threads + Wait + Sync,
>(
    alloc: Global,
    host: &Host<'_, R, G>,
    script: &Script,
    options: &RunOptions,
    resources: Resources<S, C>,
) -> Returned<Result<Output, CommandFault>, S, C>
    requires some { 0 < options.now.workers }
    requires few { AreNumbered script.now }
    ensures done { IfOk result.value (λ text.
        IsOnTerms options.now (span (C.answers resources.clock) (C.answers result.clock))
        (λ terms. IsReportOf terms options.now.workers (all_placed script.now)
        (span (S.told resources.store) (S.told result.store)) text)) }
    ensures ended { IfErr result.value (λ why.
        IsOnTerms options.now (span (C.answers resources.clock) (C.answers result.clock))
        (IsEnded why options.now.workers (all_placed script.now)
        (span (S.told resources.store) (S.told result.store)))) }
    ensures stop { IfErr result.value (λ stop.
        IsLoadStop stop (span (S.told resources.store) (S.told result.store))) }
    ensures asks { asks_clock (Some (asked.Run options.now)) ≡ false → result.clock ≡ resources.clock }
{
    let Resources { store, mut clock } = resources;
    let mask = mask_by(options.ids, &mut clock);
    let crew = Crew {
        rt: host.rt,
        gate: host.gate,
        workers: options.workers,
    };
    match options.time {
        Some(milliseconds) => {
            moments_have_times(milliseconds);
            let fixed = FixedClock { milliseconds };
            let Returned {
                value,
                store,
                clock: _,
            } = run_by(
                alloc,
                &crew,
                script,
                mask,
                Resources {
                    store,
                    clock: fixed,
                },
            );
            Returned {
                value,
                store,
                clock,
            }
        }
        None => run_by(alloc, &crew, script, mask, Resources { store, clock }),
    }
}
