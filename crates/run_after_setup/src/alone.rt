//! A transaction that is run alone.
ghost use Rattle.std.specs.Prelude.{◌≡◌, ◌<◌, [], ◌∷◌, ◌++◌, IfErr, IfOk, vec_capacity, vec_len};
ghost use Rattle.ledger_shared.specs.Ran.{AllHaveRun};

use ledger_core::Tail;
use ledger_model::{Job, Outcome};
use ledger_shared::{Closed, Crew, Ledger, NotMade, Pass, Worker};
use outside::{Clock, Gate, JournalStore};
use ql_types::Place;
use session_driver::run_job;
use std::alloc::Global;
use std::sync::Wait;

/// A transaction that runs first and alone: its job, and its place in the script.
#[derive(Drop)]
pub struct Setup<'a> {
    pub job: &'a Job,
    pub place: Place,
}

/// What is left of a transaction that was run alone: the tail, and the transaction's outcome.
#[derive(Drop)]
pub struct AloneRan<S: JournalStore, C: Clock> {
    pub tail: Tail<S, C>,
    pub outcome: Outcome,
}

/// Runs the transaction on the tail, by one worker in this thread.
///
/// All room is made before. If memory runs out there, nothing is run, and the tail comes back.
pub fn run_alone<S: JournalStore, C: Clock, G: Gate, R: Wait + Sync>(
    crew: &Crew<'_, R, G>,
    alloc: Global,
    setup: &Setup<'_>,
    tail: Tail<S, C>,
) -> Result<AloneRan<S, C>, NotMade<S, C>>
    ensures ran { IfOk result (λ r. AllHaveRun S.told C.answers C.always 1
        (record { place = setup.now.place; job = setup.now.job.now } ∷ []) tail
        r.tail (record { place = setup.now.place; outcome = r.outcome } ∷ [])) }
    ensures refused { IfErr result (λ e. e.tail ≡ tail) }
{
    let mut passes = Vec::new(alloc);
    if passes.reserve(1).is_err() {
        return Err(NotMade { tail });
    }
    match Ledger::new(alloc, tail) {
        Ok((ledger, pass)) => {
            let mut worker = Worker::new(alloc, &ledger, crew.gate, pass);
            let outcome = run_job(&mut worker, crew.rt, setup.job, setup.place);
            keep(&mut passes, worker.into_pass());
            let Closed { tail, entries: _ } = ledger.close(crew.rt, passes);
            Ok(AloneRan { tail, outcome })
        }
        Err(NotMade { tail }) => Err(NotMade { tail }),
    }
}

/// Keeps a pass. There is room for it.
fn keep<S: JournalStore, C: Clock>(passes: &mut Vec<Pass<S, C>>, pass: Pass<S, C>)
    requires { vec_len passes.old < vec_capacity passes.old }
    ensures { passes.new.items ≡ passes.old.items ++ pass ∷ [] }
{
    passes.push(pass).unwrap();
}
