//! A transaction alone, and then a script's sessions by several workers.
ghost use Rattle.std.specs.Prelude.{◌≡◌, ◌<◌, ◌⊎◌, IfErr, IfOk};
ghost use Rattle.ledger_model.specs.Script.{all_placed};
ghost use Rattle.ledger_shared.specs.Sessions.{AreNumbered};
ghost use Rattle.run_after_setup.specs.FirstRuns.{HasBegun, HaveAllRun};

use crate::alone::{AloneRan, Setup, run_alone};
use ledger_core::Tail;
use ledger_model::Session;
use ledger_shared::{AllRan, Crew, NotMade, run_all};
use outside::{Clock, Gate, JournalStore};
use std::alloc::Global;
use std::sync::Wait;
use std::thread::Threads;

/// Runs the transaction of session 0 alone, and then the script's sessions as `run_all` does.
///
/// The outcomes are those of the sessions. If memory runs out before the transaction, nothing is run; if it runs out
/// after it, the transaction alone is.
pub fn run_behind_first<
    S: JournalStore + Send,
    C: Clock + Send,
    G: Gate + Sync,
    R: Threads + Wait + Sync,
>(
    crew: &Crew<'_, R, G>,
    alloc: Global,
    setup: &Setup<'_>,
    script: &[Session],
    tail: Tail<S, C>,
) -> Result<AllRan<S, C>, NotMade<S, C>>
    requires some { 0 < crew.now.workers }
    requires few { AreNumbered script.now }
    requires zeroth { setup.now.place.session ≡ 0 }
    ensures ran { IfOk result (λ r. HaveAllRun S.told C.answers C.always crew.now.workers
        (record { place = setup.now.place; job = setup.now.job.now })
        (all_placed script.now) tail r.outcomes r.tail) }
    ensures refused { IfErr result (λ e. HasBegun S.told C.answers C.always
        (record { place = setup.now.place; job = setup.now.job.now }) tail e.tail
        ⊎ (e.tail ≡ tail)) }
{
    match run_alone(crew, alloc, setup, tail) {
        Ok(AloneRan { tail, outcome: _ }) => run_all(crew, alloc, script, tail),
        Err(NotMade { tail }) => Err(NotMade { tail }),
    }
}
