//! The laws.
ghost use Rattle.laws_wrong_runs.specs.Laws.{BlocksAreAnswered, ConflictsAreFirst};

/// Each block that a run made has its own statements' answers.
///
/// They are those that the statements have on the blocks before it, and so are its changes.
pub fn blocks_are_answered()
    ensures { BlocksAreAnswered }
{}

/// A conflict names the first block that touched what the transaction read.
///
/// That block stands behind those on which the transaction ran, and the item is the first that it touches of those
/// read.
pub fn conflicts_are_first()
    ensures { ConflictsAreFirst }
{}
