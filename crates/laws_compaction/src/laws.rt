ghost use Rattle.laws_compaction.specs.Laws.{CompactionKeeps};

/// The compacted journal passes all checks, has the same hashes, digests and state, and stays when compacted again.
pub fn compaction_keeps()
    ensures { CompactionKeeps }
{}
