ghost use Rattle.laws_footprint.specs.Conflicts.{ConflictIsFirst};
ghost use Rattle.laws_footprint.specs.Covered.{FootprintCovers, FootprintRestricts};
ghost use Rattle.laws_footprint.specs.Following.{FollowingTouches};
ghost use Rattle.laws_footprint.specs.Framed.{CoveredRowsAreFramed, MeaningIsKept, NameIsFramed, RowsAreFramed};
ghost use Rattle.laws_footprint.specs.Framed.{SourceIsStill, StatementIsFramed, TransactionIsFramed};
ghost use Rattle.laws_footprint.specs.Naming.{NamedAreUnrevised};
ghost use Rattle.laws_footprint.specs.Journalled.{UndamagedFollow};
ghost use Rattle.laws_footprint.specs.Own.{OwnIsApart, StillnessOfOwn};
ghost use Rattle.laws_footprint.specs.Restriction.{FrameOfRows, Restriction};
ghost use Rattle.laws_footprint.specs.RunIsOwn.{RunIsKept, RunIsSettled, RunOwnsAll};
ghost use Rattle.laws_footprint.specs.Stillness.{DocumentsAreStill, Stillness, StillnessWithPending};

/// A conflict names the first block that touches something of the footprint, with the first such item;
/// where there is none no block does.
pub fn conflict_is_first()
    ensures { ConflictIsFirst }
{}

/// What a block touches that follows the state before it is told by the tables of its own revisions.
pub fn following_touches()
    ensures { FollowingTouches }
{}

/// Where each source's rows are cut to those that are read, FROM keeps the same rows, if a row that isn't
/// read stands behind those that are only in combinations on which ON and WHERE aren't true.
pub fn restriction()
    ensures { Restriction }
{}

/// FROM keeps the same rows of two states at which each source gives the same rows of those that are read.
pub fn frame_of_rows()
    ensures { FrameOfRows }
{}

/// A row that meets no item of its source stands, behind rows that are read, only in combinations on which ON
/// and WHERE aren't true.
pub fn footprint_covers()
    ensures { FootprintCovers }
{}

/// FROM keeps the same rows over those rows of its sources that are read.
pub fn footprint_restricts()
    ensures { FootprintRestricts }
{}

/// Blocks that touch none of the items leave the rows of a user view that meet one of them as they are.
pub fn stillness()
    ensures { Stillness }
{}

/// Behind blocks that touch none of the items a document has the same latest revision, or it meets none of
/// them before and behind the blocks.
pub fn documents_are_still()
    ensures { DocumentsAreStill }
{}

/// Blocks that touch none of the items leave these rows as they are also with pending changes of documents
/// of which the blocks have no revision.
pub fn stillness_with_pending()
    ensures { StillnessWithPending }
{}

/// Blocks of other transactions have no revision of the documents that a transaction inserts.
pub fn own_is_apart()
    ensures { OwnIsApart }
{}

/// Blocks that touch none of the items leave the rows of a user view that meet one of them as they are,
/// with the transaction's own insertions pending.
pub fn stillness_of_own()
    ensures { StillnessOfOwn }
{}

/// Blocks that touch nothing of a statement's footprint have no revision of the documents that its rows
/// name, where no change of them was pending.
pub fn named_are_unrevised()
    ensures { NamedAreUnrevised }
{}

/// A name that no block touches names the same table behind them, with the same indexes.
pub fn name_is_framed()
    ensures { NameIsFramed }
{}

/// Blocks that touch neither the name of a source's table nor any of the items leave its rows that meet one of
/// them as they are: of a user view, with what pends, of a committed view, and of a history.
pub fn source_is_still()
    ensures { SourceIsStill }
{}

/// A FROM gives the same rows behind blocks that touch none of its tables' names and
/// no item of a list that covers its conditions.
pub fn covered_rows_are_framed()
    ensures { CoveredRowsAreFramed }
{}

/// Blocks that touch nothing of what a FROM reads leave its rows as they are, and what it reads.
pub fn rows_are_framed()
    ensures { RowsAreFramed }
{}

/// Blocks that touch nothing of a statement's footprint leave its answer, its effects and its footprint
/// as they are, or why it is refused.
pub fn statement_is_framed()
    ensures { StatementIsFramed }
{}

/// Blocks that touch nothing of a transaction's footprint leave what all its statements answer, do and
/// read as it is.
pub fn transaction_is_framed()
    ensures { TransactionIsFramed }
{}

/// A block that is what its transaction means on its base is what it means behind later blocks that touch
/// nothing of its footprint.
pub fn meaning_is_kept()
    ensures { MeaningIsKept }
{
    transaction_is_framed();
}

/// The blocks of an undamaged journal follow one another, and the numbers of their documents' ids fit.
pub fn undamaged_follow()
    ensures { UndamagedFollow }
{}

/// The tables that a run created have ids of its transaction's number, and so have the documents that pend,
/// but for those of which the state has a revision.
pub fn run_owns_all()
    ensures { RunOwnsAll }
{}

/// Blocks that touch nothing of a transaction's footprint have no revision of the documents that pend of it,
/// where they follow one another and none of them is the transaction's.
pub fn run_is_settled()
    ensures { RunIsSettled }
{}

/// Blocks that touch nothing of a transaction's footprint leave what it comes to as it is, where they
/// follow one another and none of them is the transaction's.
pub fn run_is_kept()
    ensures { RunIsKept }
{}
