//! The entries that a run of several workers leaves as one history, and what such a run claims of its blocks and of its
//! outcomes: definitions, and laws of them.
#![tactic(auto)]

ghost use Rattle.laws_history.specs.Alone.{NoneConflicts, OneWorkerInOrder};
ghost use Rattle.laws_history.specs.Claims.{BlocksAreTold, DenialsAreTold};
ghost use Rattle.laws_history.specs.Passes.{PassesWork};
ghost use Rattle.laws_history.specs.Refusals.{StatementsAreRefused};
ghost use Rattle.laws_history.specs.Runs.{RunsFit};
ghost use Rattle.laws_history.specs.Seen.{MachinesLeaveRight, RunsAreLegal};
ghost use Rattle.laws_history.specs.Steps.{CommitsEndAttempts};
ghost use Rattle.laws_history.specs.Tried.{TriedFit};

/// The blocks that a run of entries leaves are one serial history behind those of its opening.
pub fn runs_are_legal()
    ensures { RunsAreLegal }
{}

/// Whatever events come to a machine, the entries that they leave are right.
pub fn machines_leave_right()
    ensures { MachinesLeaveRight }
{}

/// A commit at a machine, whatever other events came before, ends an attempt at its job's transaction.
pub fn commits_end_attempts()
    ensures { CommitsEndAttempts }
{}

/// The passes with which the ledger of a run is closed are those of the run's workers.
pub fn passes_work()
    ensures { PassesWork }
{}

/// A run by any number of workers, whose entries are one right history in which each entry is one worker's own, meets
/// what is claimed of it.
pub fn runs_fit()
    ensures { RunsFit }
{}

/// All blocks that a store is left with are blocks of the run's jobs.
///
/// The store may hold the block of a commit that it refused behind the run's blocks.
pub fn tried_fit()
    ensures { TriedFit }
{}

/// Each block that a run made is told as committed, so no outcome leaves one out.
pub fn blocks_are_told()
    ensures { BlocksAreTold }
{}

/// What the rules deny of each job is told as its outcome, and nothing else is told as denied.
///
/// No block of the run is that of such a job.
pub fn denials_are_told()
    ensures { DenialsAreTold }
{}

/// Where one worker runs all jobs, the claim leaves no room for a conflict.
pub fn none_conflicts()
    ensures { NoneConflicts }
{}

/// A run by one worker has no conflict, and its numbers and its blocks come in the script's order.
pub fn one_worker_in_order()
    ensures { OneWorkerInOrder }
{}

/// A refused statement has a code from 1 to 12, or from 15 to 18.
pub fn statements_are_refused()
    ensures { StatementsAreRefused }
{}
