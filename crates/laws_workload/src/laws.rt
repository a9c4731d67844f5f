//! The laws.
ghost use Rattle.laws_workload.specs.Joining.{WorkersJoin};
ghost use Rattle.laws_workload.specs.Adding.{MadeRunsAddUp};
ghost use Rattle.laws_workload.specs.First.{FirstIsOver};

/// A made workload's history has a document for each transaction of its sessions.
///
/// Their amounts come to the sum of the workload's amounts. It is so if the run on an empty journal has made a block
/// for each transaction.
pub fn made_runs_add_up()
    ensures { MadeRunsAddUp }
{}

/// A job that was run alone and the sessions that were run after it are one run.
///
/// The workers of the sessions are the workers of that run, and the worker of session 0 has run the job first.
pub fn workers_join()
    ensures { WorkersJoin }
{}

/// A job that ran first and alone was over when each of the others began.
pub fn first_is_over()
    ensures { FirstIsOver }
{}
