//! Journals rebuilt from the records of their streams.
ghost use Rattle.std.specs.Prelude.{◌≡◌, List, [], IfOk, OnOk};
ghost use Rattle.std.specs.BTreeMap as tree;
ghost use Rattle.std.specs.Ordering.{nat_cmp};
ghost use Rattle.ledger_model.specs.Script.{each};
ghost use Rattle.stream_out.specs.declared.record.Record as model;
ghost use Rattle.stream_out.specs.declared.record.Record.TheVariants as kind;
ghost use Rattle.stream_out.specs.Replays as spec;

use crate::record::{Details, Record, RevisionSummary, Summary};
use crate::same::{same_details, same_hash, same_summary};
use block_copies::{block_with, copy_info, copy_revision};
use containers::Sequence;
use ion_values::OutOfMemory;
use ledger_model::{Block, Blocks, Revision, Revisions};
use std::alloc::{AllocFailed, Global};
use std::collections::BTreeMap;

/// Why a record isn't kept.
#[derive(Clone, Copy, Debug, PartialEq, Eq)]
pub enum ReplayFault {
    /// What is kept of the block of this number differs from the record.
    Differs { sequence: u64 },
    /// The record's number is below the number of the first block.
    Below { sequence: u64, from: u64 },
    OutOfMemory,
}

impl<T: Drop> From<AllocFailed<T>> for ReplayFault {
    ghost use Rattle.std.specs.Prelude.{◌≡◌};
    ghost use Rattle.stream_out.specs.declared.replay.ReplayFault.TheVariants as fails;

    ghost from_gives = { λ _ e. e ≡ fails.OutOfMemory };

    fn from(_error: AllocFailed<T>) -> ReplayFault {
        ReplayFault::OutOfMemory
    }
}

impl From<OutOfMemory> for ReplayFault {
    ghost use Rattle.std.specs.Prelude.{◌≡◌};
    ghost use Rattle.stream_out.specs.declared.replay.ReplayFault.TheVariants as fails;

    ghost from_gives = { λ _ e. e ≡ fails.OutOfMemory };

    fn from(_error: OutOfMemory) -> ReplayFault {
        ReplayFault::OutOfMemory
    }
}

/// The blocks of a journal from a number on, rebuilt from records of its stream. Summaries are kept by their numbers,
/// and details by their numbers and documents.
#[derive(Drop)]
pub struct Replay {
    from: u64,
    summaries: BTreeMap<u64, Summary>,
    details: BTreeMap<(u64, u128), Details>,
    blocks: Blocks,
}

impl Replay {
    /// No records, for the blocks from this number on. It takes no memory.
    pub fn new(alloc: Global, from: u64) -> Replay
        ensures from { result.from ≡ from }
        ensures holds { spec.Holds [] result }
        ensures settled { spec.IsSettled [] result }
    {
        Replay {
            from,
            summaries: BTreeMap::new(alloc),
            details: BTreeMap::new(alloc),
            blocks: Blocks::new(alloc),
        }
    }

    /// The blocks that are rebuilt so far, in order.
    pub fn blocks(&self) -> &Blocks
        ensures { result.now ≡ self.now.blocks }
    {
        &self.blocks
    }

    /// A copy of the revision that is listed for the block of this number, if its details are kept.
    fn revision_of(
        &self,
        alloc: Global,
        sequence: u64,
        listed: &RevisionSummary,
    ) -> Result<Option<Revision>, OutOfMemory>
        ensures { IfOk result (λ found. found
            ≡ spec.revision_by (spec.kept_details self.now sequence listed.now.document.raw) listed.now) }
    {
        let Some(details) = self.details.get(&(sequence, listed.document.raw)) else {
            return Ok(None);
        };
        if !same_hash(&details.revision.hash, &listed.hash) {
            return Ok(None);
        }
        let revision = copy_revision(alloc, &details.revision)?;
        Ok(Some(revision))
    }

    /// Copies of the revisions that are listed for the block of this number, if the details of each are kept.
    fn revisions_of(
        &self,
        alloc: Global,
        sequence: u64,
        listed: &[RevisionSummary],
    ) -> Result<Option<Revisions>, OutOfMemory>
        ensures { IfOk result (λ found. found
            ≡ each (λ l. spec.revision_by (spec.kept_details self.now sequence l.document.raw) l) listed.now) }
    {
        let mut revisions = Vec::with_capacity(alloc, listed.len())?;
        'revisions: for one in listed {
            let found = self.revision_of(alloc, sequence, one)?;
            match found {
                Some(revision) => revisions.push(revision)?,
                None => return Ok(None),
            }
        }
        Ok(Some(Sequence::from_vec(revisions)))
    }

    /// The block of this number, if all of it is kept.
    fn block_of(&self, alloc: Global, sequence: u64) -> Result<Option<Block>, OutOfMemory>
        ensures { IfOk result (λ found. found ≡ spec.kept_block self.now sequence) }
    {
        let Some(summary) = self.summaries.get(&sequence) else {
            return Ok(None);
        };
        let Some(revisions) = self.revisions_of(alloc, sequence, summary.listed.as_slice())? else {
            return Ok(None);
        };
        let info = copy_info(alloc, &summary.block.info)?;
        Ok(Some(block_with(&summary.block, info, revisions)))
    }

    /// Rebuilds each block that can stand next.
    fn settle(&mut self, alloc: Global) -> Result<(), OutOfMemory>
        ensures from { self.new.from ≡ self.old.from }
        ensures holds { (told : List model.Record) → spec.Holds told self.old → spec.Holds told self.new }
        ensures settled { (told : List model.Record) → spec.Holds told self.old
            → OnOk result (spec.IsSettled told self.new) }
    {
        'rebuilt: while let Some(next) = self.from.checked_add(self.blocks.len()) {
            let Some(block) = self.block_of(alloc, next)? else {
                return Ok(());
            };
            self.blocks.push(block)?;
        }
        Ok(())
    }

    /// Whether the place of a summary is free, if the summary can be kept.
    fn admits_summary(&self, summary: &Summary) -> Result<bool, ReplayFault>
        ensures { spec.Admits self.now.from (kind.Summary summary.now)
            (tree.get nat_cmp self.now.summaries (spec.number_of summary.now)) summary.now result }
    {
        let number = summary.block.header.address.sequence;
        if number < self.from {
            let from = self.from;
            return Err(ReplayFault::Below {
                sequence: number,
                from,
            });
        }
        let Some(kept) = self.summaries.get(&number) else {
            return Ok(true);
        };
        if same_summary(kept, summary) {
            Ok(false)
        } else {
            Err(ReplayFault::Differs { sequence: number })
        }
    }

    /// Keeps a summary.
    fn keep_summary(&mut self, summary: Summary) -> Result<(), ReplayFault>
        ensures from { self.new.from ≡ self.old.from }
        ensures keeps { (kept : List model.Record) → spec.Holds kept self.old
            → spec.Keeps kept (kind.Summary summary) self.old result self.new }
    {
        if !self.admits_summary(&summary)? {
            return Ok(());
        }
        let sequence = summary.block.header.address.sequence;
        self.summaries.insert(sequence, summary)?;
        Ok(())
    }

    /// Whether the place of the details of a revision is free, if they can be kept.
    fn admits_details(&self, details: &Details) -> Result<bool, ReplayFault>
        ensures { spec.Admits self.now.from (kind.Details details.now) (spec.kept_details self.now
            (spec.details_number details.now) (spec.document_of details.now)) details.now result }
    {
        let sequence = details.revision.address.sequence;
        if sequence < self.from {
            let from = self.from;
            return Err(ReplayFault::Below { sequence, from });
        }
        let place = (sequence, details.revision.metadata.id.raw);
        let Some(kept) = self.details.get(&place) else {
            return Ok(true);
        };
        if same_details(kept, details) {
            Ok(false)
        } else {
            Err(ReplayFault::Differs { sequence })
        }
    }

    /// Keeps the details of a revision.
    fn keep_details(&mut self, details: Details) -> Result<(), ReplayFault>
        ensures from { self.new.from ≡ self.old.from }
        ensures keeps { (kept : List model.Record) → spec.Holds kept self.old
            → spec.Keeps kept (kind.Details details) self.old result self.new }
    {
        if !self.admits_details(&details)? {
            return Ok(());
        }
        let sequence = details.revision.address.sequence;
        let place = (sequence, details.revision.metadata.id.raw);
        self.details.insert(place, details)?;
        Ok(())
    }

    fn keep(&mut self, told: Record) -> Result<(), ReplayFault>
        ensures from { self.new.from ≡ self.old.from }
        ensures keeps { (kept : List model.Record) → spec.Holds kept self.old
            → spec.Keeps kept told self.old result self.new }
    {
        match told {
            Record::Created => Ok(()),
            Record::Completed => Ok(()),
            Record::Summary(summary) => self.keep_summary(summary),
            Record::Details(details) => self.keep_details(details),
        }
    }

    /// Takes in a record of the stream, and rebuilds each block that is then whole. `Below` comes exactly if the
    /// record's number is below the first one, and `Differs` exactly if what is kept in its place isn't equal; after
    /// both nothing has changed. After `OutOfMemory` the record may be kept: deliver it again.
    pub fn deliver(&mut self, alloc: Global, told: Record) -> Result<(), ReplayFault>
        ensures from { self.new.from ≡ self.old.from }
        ensures delivers { (kept : List model.Record) → spec.Holds kept self.old
            → spec.Delivers kept told self.old result self.new }
    {
        self.keep(told)?;
        self.settle(alloc)?;
        Ok(())
    }
}

/// Law: of each delivery of an undamaged journal's stream no record is refused, and what is rebuilt are the journal's
/// blocks up to the first of which a record is lost.
pub fn deliveries_rebuild()
    ensures { spec.DeliveriesRebuild }
{}
