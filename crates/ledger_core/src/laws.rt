//! Each call of a tail and of its transactions is an event of the machine of all interleavings, whose laws so hold of
//! the tail's blocks.
ghost use Rattle.ledger_core.specs.Steps.{BeginIsStep, CommitIsStep, ExecuteIsStep, ExecuteKeepsOpen, SpentIsStep};

/// A begin draws the machine's next number, and its transaction is open there with the others.
pub fn begins_are_steps()
    ensures { BeginIsStep }
{}

/// A begin for which no number is left is refused there too.
pub fn spent_numbers_are_steps()
    ensures { SpentIsStep }
{}

/// A statement returns what the machine returns, and all transactions stay open there.
pub fn statements_are_steps()
    ensures { ExecuteIsStep }
{}

/// A commit ends as the machine's does, leaves its blocks and closes its transaction alone.
pub fn commits_are_steps()
    ensures { CommitIsStep }
{}

/// A statement leaves its transaction fit for a commit, whatever it returns.
pub fn statements_keep_open()
    ensures { ExecuteKeepsOpen }
{}
