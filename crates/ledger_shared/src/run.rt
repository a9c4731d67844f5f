//! A script's run by several workers, from a tail to a tail.
ghost use Rattle.std.specs.Prelude.{◌≡◌, ◌<◌, ◌≤◌, [], vec_capacity, IfErr, IfOk};
ghost use Rattle.ledger_model.specs.Script.{all_placed};
ghost use Rattle.ledger_shared.specs.Behind.{Keeps};
ghost use Rattle.ledger_shared.specs.Ran.{AllHaveRun};
ghost use Rattle.ledger_shared.specs.Sessions.{AreNumbered, job_count};

use crate::crew::{Crew, Deal};
use crate::desks::run_desks;
use crate::ledger::{Closed, Ledger, NotMade, Pass};
use crate::session::count_jobs;
use crate::worker::Worker;
use containers::Sequence;
use ion_values::OutOfMemory;
use ledger_core::Tail;
use ledger_model::{Outcomes, PlacedOutcome, Session};
use outside::{Clock, Gate, JournalStore};
use std::alloc::Global;
use std::sync::Wait;
use std::thread::Threads;

/// What a run leaves: the tail, and the outcomes of all jobs in the script's order.
#[derive(Drop)]
pub struct AllRan<S: JournalStore, C: Clock> {
    pub tail: Tail<S, C>,
    pub outcomes: Outcomes,
}

/// What the workers of a run give back: their passes, and the outcomes of all jobs.
#[derive(Drop)]
pub(crate) struct Lists<S: JournalStore, C: Clock> {
    pub(crate) passes: Vec<Pass<S, C>>,
    pub(crate) outcomes: Vec<PlacedOutcome>,
}

/// Runs the script's sessions on the tail, each worker in a thread of its own where one can be made.
///
/// The first of N workers runs the sessions 1, 1 + N, 1 + 2N and so on; the second one 2, 2 + N and so on. Each
/// session is run whole and in order. A worker for whom no session is left does nothing.
///
/// All room is made before the first transaction begins. If memory runs out there, nothing is run, and the tail comes
/// back.
pub fn run_all<S: JournalStore + Send, C: Clock + Send, G: Gate + Sync, R: Threads + Wait + Sync>(
    crew: &Crew<'_, R, G>,
    alloc: Global,
    script: &[Session],
    tail: Tail<S, C>,
) -> Result<AllRan<S, C>, NotMade<S, C>>
    requires some { 0 < crew.now.workers }
    requires few { AreNumbered script.now }
    ensures ran { IfOk result (λ r. AllHaveRun S.told C.answers C.always crew.now.workers (all_placed script.now) tail
        r.tail r.outcomes) }
    ensures refused { IfErr result (λ e. Keeps S.told C.answers C.always tail e.tail []) }
{
    tail.blocks();
    let deal = Deal {
        script,
        workers: crew.workers,
    };
    let Ok(mut lists) = make_lists(alloc, &deal) else {
        return Err(NotMade { tail });
    };
    let (ledger, pass) = Ledger::new(alloc, tail)?;
    let worker = Worker::new(alloc, &ledger, crew.gate, pass);
    let ran = run_desks(crew.rt, alloc, &deal, worker, &mut lists);
    let Lists { passes, outcomes } = lists;
    let Closed { tail, entries: _ } = ledger.close(crew.rt, passes);
    match ran {
        Ok(()) => Ok(AllRan {
            tail,
            outcomes: Sequence::from_vec(outcomes),
        }),
        Err(OutOfMemory) => Err(NotMade { tail }),
    }
}

/// Lists with room for the passes of all workers, and for the outcomes of all jobs.
fn make_lists<S: JournalStore, C: Clock>(
    alloc: Global,
    deal: &Deal<'_>,
) -> Result<Lists<S, C>, OutOfMemory>
    requires few { AreNumbered deal.now.script.now }
    ensures empty { IfOk result (λ made. (made.passes.items ≡ []) × (made.outcomes.items ≡ [])) }
    ensures space { IfOk result (λ made. deal.now.workers ≤ vec_capacity made.passes) }
    ensures room { IfOk result (λ made. job_count deal.now.script.now ≤ vec_capacity made.outcomes) }
{
    let passes = Vec::with_capacity(alloc, deal.workers as usize)?;
    let outcomes = Vec::with_capacity(alloc, count_jobs(deal.script))?;
    Ok(Lists { passes, outcomes })
}
