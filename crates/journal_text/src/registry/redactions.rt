//! The revisions that blocks redact.
ghost use Rattle.std.specs.Prelude.{◌≡◌, List, [], true, IfOk};
ghost use Rattle.std.specs.List.{list_any};
ghost use Rattle.ledger_model.specs.declared.block.Schema.{Schema};
ghost use Rattle.ledger_model.specs.declared.block.Schema.TheVariants as change;
ghost use Rattle.ledger_model.specs.declared.block.Block.{Block};
ghost use Rattle.ledger_model.specs.Follows.{is_redacted_in};
ghost use Rattle.ledger_model.specs.State.{recorded_in, redacts, state};
ghost use Rattle.journal_text.specs.Stands.{AreTaken, DocumentsStand, IsTaken, RedactionsStand, are_placed, has_named};

use crate::registry::documents::Documents;
use ion_values::OutOfMemory;
use ledger_model::{Block, Revision, Schema};
use ql_types::{BlockAddress, DocId, TableId};
use std::alloc::Global;
use std::collections::BTreeSet;

/// A revision, by its block, its table and its document.
#[derive(Clone, Copy)]
struct Place {
    address: BlockAddress,
    table: TableId,
    document: DocId,
}

/// The revisions that are redacted: of each the strand and the place of its block, its table and its document.
#[derive(Drop)]
pub(crate) struct Redactions {
    revisions: BTreeSet<(u128, u64, u128, u128)>,
}

impl Place {
    /// Whether it is this one, a revision of a document of this table.
    fn is(&self, table: TableId, revision: &Revision) -> bool
        ensures { result ≡ redacts (record { table = table; revision = revision.now })
            (change.Redact self.now.address self.now.table self.now.document) }
    {
        revision.address.strand.raw == self.address.strand.raw
            && revision.address.sequence == self.address.sequence
            && table.raw == self.table.raw
            && revision.metadata.id.raw == self.document.raw
    }

    /// Whether the block has it.
    fn is_in(&self, block: &Block) -> bool
        ensures { result ≡ list_any (λ r. redacts r (change.Redact self.now.address self.now.table self.now.document))
            (recorded_in block.now.info.tables block.now.revisions) }
    {
        let tables = block.info.tables.as_slice();
        let revisions = block.revisions.as_slice();
        let shorter = tables.len().min(revisions.len());
        'revisions: for at in 0..shorter {
            if self.is(tables[at], &revisions[at]) {
                return true;
            }
        }
        false
    }

    /// Whether one of the blocks has it at its place.
    fn is_among(&self, before: &[Block]) -> bool
        ensures { result ≡ has_named before.now (change.Redact self.now.address self.now.table self.now.document) }
    {
        match before.get(self.address.sequence as usize) {
            Some(block) => self.is_in(block),
            None => false,
        }
    }
}

impl Redactions {
    /// Nothing is redacted. It takes no memory.
    pub(super) fn new(alloc: Global) -> Redactions
        ensures { RedactionsStand [] [] result }
    {
        Redactions {
            revisions: BTreeSet::new(alloc),
        }
    }

    /// Whether the revision, of a document of this table, is redacted. It takes no memory.
    pub(super) fn has(&self, table: TableId, revision: &Revision) -> bool
        ensures { (blocks : List Block) → RedactionsStand blocks [] self.now
            → result ≡ is_redacted_in blocks (record { table = table; revision = revision.now }) }
    {
        self.revisions.contains(&(
            revision.address.strand.raw,
            revision.address.sequence,
            table.raw,
            revision.metadata.id.raw,
        ))
    }

    /// Takes in the redaction of a revision, if it can be redacted, and returns whether it can.
    fn redact(
        &mut self,
        documents: &Documents,
        before: &[Block],
        at: Place,
    ) -> Result<bool, OutOfMemory>
        requires { are_placed 0 before.now ≡ true }
        ensures { (earlier : List Schema) → RedactionsStand before.now earlier self.old
            → DocumentsStand (state before.now).revisions documents.now → IfOk result (λ free.
            IsTaken before.now earlier (change.Redact at.address at.table at.document) free self.new) }
    {
        if documents.is_latest(&at.address, at.document) {
            return Ok(false);
        }
        if !at.is_among(before) {
            return Ok(false);
        }
        let Place {
            address,
            table,
            document,
        } = at;
        let is_new = self.revisions.insert((
            address.strand.raw,
            address.sequence,
            table.raw,
            document.raw,
        ))?;
        Ok(is_new)
    }

    /// Takes in a change, and returns whether it follows, if it is a redaction. Earlier changes of its block count as
    /// taken in; any other change is accepted.
    fn change(
        &mut self,
        documents: &Documents,
        before: &[Block],
        change: &Schema,
    ) -> Result<bool, OutOfMemory>
        requires { are_placed 0 before.now ≡ true }
        ensures { (earlier : List Schema) → RedactionsStand before.now earlier self.old
            → DocumentsStand (state before.now).revisions documents.now
            → IfOk result (λ free. IsTaken before.now earlier change.now free self.new) }
    {
        match change {
            Schema::Redact {
                address,
                table,
                document,
            } => self.redact(
                documents,
                before,
                Place {
                    address: *address,
                    table: *table,
                    document: *document,
                },
            ),
            Schema::Create { .. } | Schema::Index { .. } | Schema::Drop { .. } => Ok(true),
        }
    }

    /// Takes in the changes of a block in order, and returns whether all its redactions follow. It stops at the first
    /// that doesn't.
    pub(super) fn change_all(
        &mut self,
        documents: &Documents,
        before: &[Block],
        schema: &[Schema],
    ) -> Result<bool, OutOfMemory>
        requires { are_placed 0 before.now ≡ true }
        ensures { RedactionsStand before.now [] self.old → DocumentsStand (state before.now).revisions documents.now
            → IfOk result (λ free. AreTaken before.now schema.now free self.new) }
    {
        'changes: for change in schema {
            if !self.change(documents, before, change)? {
                return Ok(false);
            }
        }
        Ok(true)
    }
}
