//! What a stop of the machine at any moment leaves of a journal's store: one invariant over the store's whole
//! content, kept by each step of a commit, and what it says of every crash image. All of it is definitions and laws
//! of them.
#![tactic(auto)]

ghost use Rattle.laws_crash.specs.Lines.{FrontsAreTorn, NoFrontIsALine};
ghost use Rattle.laws_crash.specs.Passed.{SafePassesRecover};
ghost use Rattle.laws_crash.specs.Pending.{NothingPendingLeavesAll};
ghost use Rattle.laws_crash.specs.Sound.{SafeRecovers, UnmarkedRecovers};
ghost use Rattle.laws_crash.specs.Steps.{AppendAndSyncSeals, AppendKeeps, CutAndSyncSettles, CutKeeps, LoweredKeeps};
ghost use Rattle.laws_crash.specs.Steps.{MarkKeeps, ReloadIsSound, SyncKeeps, TryKeeps};

use journal_text::written_on_one_line;

/// If nothing is pending in a store, every image is the bytes that it holds.
pub fn nothing_pending_leaves_all()
    ensures { NothingPendingLeavesAll }
{}

/// A proper front part of a block's line has no line feed.
pub fn fronts_are_torn()
    ensures { FrontsAreTorn }
{
    written_on_one_line();
}

/// A proper front part of a block's line is no block's line.
pub fn no_front_is_a_line()
    ensures { NoFrontIsALine }
{
    written_on_one_line();
}

/// A store that is reloaded with nothing pending meets the invariant.
pub fn reload_is_sound()
    ensures { ReloadIsSound }
{}

/// A mark for a cut keeps the invariant.
pub fn mark_keeps()
    ensures { MarkKeeps }
{}

/// A further block that may have come to the store keeps the invariant.
pub fn try_keeps()
    ensures { TryKeeps }
{}

/// A cut to the blocks' lines keeps the invariant.
pub fn cut_keeps()
    ensures { CutKeeps }
{}

/// A cut that failed and left the bytes keeps the invariant.
pub fn lowered_keeps()
    ensures { LoweredKeeps }
{}

/// A sync keeps the invariant.
pub fn sync_keeps()
    ensures { SyncKeeps }
{}

/// A cut and a sync after it leave the blocks' lines alone, with nothing pending.
pub fn cut_and_sync_settles()
    ensures { CutAndSyncSettles }
{}

/// An append of the next block's line, or of a front part of it, keeps the invariant.
pub fn append_keeps()
    ensures { AppendKeeps }
{}

/// An append of the next block's line and a sync after it leave the lines with that block, with nothing pending.
pub fn append_and_sync_seals()
    ensures { AppendAndSyncSeals }
{}

/// Each image at a safe moment recovers to the blocks, or to them and one that was tried.
pub fn safe_recovers()
    ensures { SafeRecovers }
{
    written_on_one_line();
}

/// If no cut is marked, each image recovers to the blocks alone.
pub fn unmarked_recovers()
    ensures { UnmarkedRecovers }
{}

/// If each moment of a stretch is safe, what a stop left at any of them recovers.
pub fn safe_passes_recover()
    ensures { SafePassesRecover }
{
    safe_recovers();
}
