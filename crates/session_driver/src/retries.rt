//! The attempts of a job.
ghost use Rattle.std.specs.Prelude.{◌≡◌};
ghost use Rattle.ledger_model.specs.declared.script.Job.{Job};
ghost use Rattle.ledger_model.specs.declared.outcome.Outcome.{Outcome};
ghost use Rattle.ql_types.specs.declared.Place.{Place};
ghost use Rattle.session_driver.specs.Retries.{Retried, is_conflict};

use ledger_model::{Job, Outcome};
use ql_types::Place;
use std::sync::Wait;

/// What runs a job's transaction.
pub trait Link {
    /// What may come of an attempt: the link before it, the job, its place in the script, the outcome, and
    /// the link after it.
    ghost attempted: { Self → Job → Place → Outcome → Self → Type 0 };

    /// Runs the job's transaction once, from its begin to its end.
    fn attempt<R: Wait + Sync>(&mut self, rt: &R, job: &Job, place: Place) -> Outcome
        ensures { attempted self.old job.now place result self.new };
}

/// Runs a job's transaction, and runs it again after a conflict, as often as its `retries` say at most. The
/// answer is that of the last attempt. It takes no memory of its own.
pub fn run_job<L: Link, R: Wait + Sync>(link: &mut L, rt: &R, job: &Job, place: Place) -> Outcome
    ensures { Retried L.attempted job.now place link.old result link.new }
{
    'retries: for retry in 0..job.retries {
        let outcome = link.attempt(rt, job, place);
        if !is_conflict(&outcome) {
            return outcome;
        }
    }
    link.attempt(rt, job, place)
}

fn is_conflict(outcome: &Outcome) -> bool
    ensures { result ≡ is_conflict outcome.now }
{
    matches!(outcome, Outcome::Conflict { .. })
}
