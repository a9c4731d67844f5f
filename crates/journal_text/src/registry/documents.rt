//! The latest revisions of documents.
ghost use Rattle.std.specs.Prelude.{◌≡◌, ◌+◌, ◌==◌, ◌&&◌, List, [], ◌∷◌, ◌++◌, OnOk};
ghost use Rattle.std.specs.List.{filter};
ghost use Rattle.ledger_model.specs.State.{Recorded, recorded_in};
ghost use Rattle.ledger_model.specs.Follows as spec;
ghost use Rattle.ledger_model.specs.Follows.{continues, document_ids, is_latest_at, is_new, latest_of};
ghost use Rattle.journal_text.specs.Stands.{DocumentsStand, latest_from};

use ion_values::OutOfMemory;
use ledger_model::{Content, Revision};
use ql_types::{BlockAddress, DocId, TableId};
use std::alloc::Global;
use std::collections::BTreeMap;

/// A document's latest revision: its block, its table, its version, and whether it keeps the document.
#[derive(Clone, Copy)]
struct Latest {
    address: BlockAddress,
    table: TableId,
    version: u64,
    is_kept: bool,
}

/// The latest revision of each document.
#[derive(Drop)]
pub(crate) struct Documents {
    latest: BTreeMap<u128, Latest>,
}

/// Whether the revision keeps its document.
fn is_kept(content: &Content) -> bool
    ensures { result ≡ spec.is_kept content.now }
{
    match content {
        Content::Deleted => false,
        Content::Kept(_) | Content::Redacted(_) => true,
    }
}

/// Whether a version comes next behind another one.
fn is_next(last: u64, version: u64) -> bool
    ensures { result ≡ (version == last + 1) }
{
    match last.checked_add(1) {
        Some(next) => version == next,
        None => false,
    }
}

impl Latest {
    /// What is kept of this revision of a document of this table.
    fn of(table: TableId, revision: &Revision) -> Latest
        ensures { result ≡ latest_from (record { table = table; revision = revision.now }) }
    {
        Latest {
            address: revision.address,
            table,
            version: revision.metadata.version,
            is_kept: is_kept(&revision.content),
        }
    }

    /// Whether a revision of a document of this table can come next.
    fn is_continued(&self, table: TableId, revision: &Revision) -> bool
        ensures { result ≡ ((table.raw == self.now.table.raw) && (revision.now.metadata.version == self.now.version + 1)
            && self.now.is_kept) }
    {
        table.raw == self.table.raw
            && is_next(self.version, revision.metadata.version)
            && self.is_kept
    }
}

impl Documents {
    /// No documents. It takes no memory.
    pub(super) fn new(alloc: Global) -> Documents
        ensures { DocumentsStand [] result }
    {
        Documents {
            latest: BTreeMap::new(alloc),
        }
    }

    /// Whether the revision, of a document of this table, is a new document's first or another one's next.
    pub(super) fn is_continued(&self, table: TableId, revision: &Revision) -> bool
        ensures { (revisions : List Recorded) → DocumentsStand revisions self.now
            → result ≡ continues (record { table = table; revision = revision.now })
            (latest_of revisions revision.now.metadata.id.raw) }
    {
        match self.latest.get(&revision.metadata.id.raw) {
            Some(latest) => latest.is_continued(table, revision),
            None => revision.metadata.version == 0 && is_kept(&revision.content),
        }
    }

    /// Whether the document's latest revision is in the block at this address.
    pub(super) fn is_latest(&self, address: &BlockAddress, id: DocId) -> bool
        ensures { (revisions : List Recorded) → DocumentsStand revisions self.now
            → result ≡ is_latest_at revisions address.now id }
    {
        match self.latest.get(&id.raw) {
            Some(latest) => {
                latest.address.strand.raw == address.strand.raw
                    && latest.address.sequence == address.sequence
            }
            None => false,
        }
    }

    /// Puts the id of the revision's document behind the ids, if the document is new.
    fn add_if_new(&self, ids: &mut Vec<u128>, revision: &Revision) -> Result<(), OutOfMemory>
        ensures { (before : List Recorded) → DocumentsStand before self.now → OnOk result (ids.new.items ≡ ids.old.items
            ++ filter (is_new before) (revision.now.metadata.id.raw ∷ [])) }
    {
        let id = revision.metadata.id.raw;
        if self.latest.contains_key(&id) {
            return Ok(());
        }
        ids.push(id)?;
        Ok(())
    }

    /// Puts the ids of new documents behind other ids, once for each revision.
    pub(super) fn add_new_ids(
        &self,
        ids: &mut Vec<u128>,
        revisions: &[Revision],
    ) -> Result<(), OutOfMemory>
        ensures { (before : List Recorded) → DocumentsStand before self.now → OnOk result (ids.new.items ≡ ids.old.items
            ++ filter (is_new before) (document_ids revisions.now)) }
    {
        'revisions: for revision in revisions {
            self.add_if_new(ids, revision)?;
        }
        Ok(())
    }

    /// Takes in revisions, each with its table.
    pub(super) fn record(
        &mut self,
        tables: &[TableId],
        revisions: &[Revision],
    ) -> Result<(), OutOfMemory>
        ensures { (before : List Recorded) → DocumentsStand before self.old
            → OnOk result (DocumentsStand (before ++ recorded_in tables.now revisions.now) self.new) }
    {
        let shorter = tables.len().min(revisions.len());
        'revisions: for at in 0..shorter {
            let revision = &revisions[at];
            let latest = Latest::of(tables[at], revision);
            self.latest.insert(revision.metadata.id.raw, latest)?;
        }
        Ok(())
    }
}
