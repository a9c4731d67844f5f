//! What is so of made workloads by their definitions.
ghost use Rattle.workload.specs.Laws.{MadeHistoriesAddUp};

/// Where the documents of the table `made` are those of the workload, in any order, the history has as many documents
/// as the workload's sessions have transactions, and their amounts come to the sum of the workload's amounts.
pub fn made_histories_add_up()
    ensures { MadeHistoriesAddUp }
{}
