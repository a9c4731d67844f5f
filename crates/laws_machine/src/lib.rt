//! The core of the ledger as a machine of events: transactions begin, execute, commit and abort in any order. That
//! its blocks are one serial history is a law over every list of events, whatever store, memory and threads serve
//! them.
#![tactic(auto)]

ghost use Rattle.laws_machine.specs.Entries.{EntriesAreRun};
ghost use Rattle.laws_machine.specs.History.{CommitIsMade, CommitsStandOnce, ConflictComesExactly, ExecuteIsRun, HistoryStaysLegal};

/// Whatever events come to an undamaged journal, its blocks stay undamaged, and each new one is what its
/// transaction means at its place.
pub fn history_stays_legal()
    ensures { HistoryStaysLegal }
{}

/// The new blocks are those of the accepted commits, in order, each under its own transaction's id, and no
/// two blocks have one id.
pub fn commits_stand_once()
    ensures { CommitsStandOnce }
{}

/// What an open transaction's statements came to is the run of what it was asked, on the blocks at its
/// begin, whatever was committed since.
pub fn execute_is_run()
    ensures { ExecuteIsRun }
{}

/// A commit is in conflict exactly where a block behind the transaction's begin touches something that its
/// statements read, and names the first such block with the first such item.
pub fn conflict_comes_exactly()
    ensures { ConflictComesExactly }
{}

/// The block with which a commit comes to its store is that of the transaction's statements behind all
/// blocks.
pub fn commit_is_made()
    ensures { CommitIsMade }
{}

/// The entries that a machine's events leave are a run, and its blocks are the machine's.
pub fn entries_are_run()
    ensures { EntriesAreRun }
{}
