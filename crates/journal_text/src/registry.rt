//! What the blocks of a journal left, for the checks of the next one.
ghost use Rattle.std.specs.Prelude.{◌≡◌, ℕ, ◌&&◌, List, [], ◌∷◌, ◌++◌, true, IfOk};
ghost use Rattle.std.specs.List.{list_all};
ghost use Rattle.ledger_model.specs.declared.block.Block.{Block};
ghost use Rattle.ledger_model.specs.State.{state, recorded_in};
ghost use Rattle.ledger_model.specs.Damages.{has_address, has_id};
ghost use Rattle.ledger_model.specs.HashesAsked.{unasked};
ghost use Rattle.ledger_model.specs.Follows.{all_differ, created_ids, document_ids, follows_blocks, has_table};
ghost use Rattle.ledger_model.specs.Follows.{ids_follow, is_of, made_ids, revision_follows};
ghost use Rattle.journal_text.specs.Stands.{HasKeys, Stands, has_transaction};

mod documents;
mod ids;
mod redactions;
mod tables;
mod unasked;

use crate::registry::documents::Documents;
use crate::registry::redactions::Redactions;
use crate::registry::tables::Tables;
use ion_values::OutOfMemory;
use ledger_model::{Block, Header, Revision};
use ql_types::{StrandId, TableId, TxId};
use std::alloc::Global;
use std::collections::BTreeSet;

/// The transactions, the tables, the documents and the redactions of the blocks so far, to be looked up.
#[derive(Drop)]
pub(crate) struct Registry {
    transactions: BTreeSet<u128>,
    tables: Tables,
    documents: Documents,
    redactions: Redactions,
}

impl Registry {
    /// The registry of no blocks. It takes no memory.
    pub(crate) fn new(alloc: Global) -> Registry
        ensures { (strand : ℕ) → Stands strand [] result }
    {
        Registry {
            transactions: BTreeSet::new(alloc),
            tables: Tables::new(alloc),
            documents: Documents::new(alloc),
            redactions: Redactions::new(alloc),
        }
    }

    /// Whether a block so far has this transaction. It takes no memory.
    pub(crate) fn has_transaction(&self, tx: TxId) -> bool
        ensures { (strand : ℕ) (before : List Block) → Stands strand before self.now
            → result ≡ has_transaction before tx.raw }
    {
        self.transactions.contains(&tx.raw)
    }

    /// Takes in a block if it follows these blocks, of which the registry is, and returns whether it does.
    ///
    /// The block's id is in order. If it doesn't follow, or memory runs out, the registry is of no more use.
    pub(crate) fn admit(
        &mut self,
        alloc: Global,
        strand: StrandId,
        before: &[Block],
        block: &Block,
    ) -> Result<bool, OutOfMemory>
        requires stands { Stands strand.raw before.now self.old }
        requires address { has_address strand.raw before.now block.now ≡ true }
        requires id { has_id strand.raw before.now block.now ≡ true }
        ensures follows { IfOk result (λ b. b ≡ follows_blocks strand.raw before.now block.now) }
        ensures stands { IfOk result (λ b. b ≡ true → Stands strand.raw (before.now ++ block.now ∷ []) self.new) }
    {
        if !self.has_ids(alloc, strand, block)? {
            return Ok(false);
        }
        if !self.has_revisions(alloc, block)? {
            return Ok(false);
        }
        let changes = block.info.schema.as_slice();
        if !self.tables.change_all(alloc, changes)? {
            return Ok(false);
        }
        if !self
            .redactions
            .change_all(&self.documents, before, changes)?
        {
            return Ok(false);
        }
        self.documents
            .record(block.info.tables.as_slice(), block.revisions.as_slice())?;
        self.transactions.insert(block.header.tx.raw)?;
        Ok(true)
    }

    /// The number of the first of these blocks, of which the registry is, with a hash that isn't asked for.
    ///
    /// It stands for data that no block redacts, or for statements although neither the block nor a later one redacts
    /// anything. It takes no memory.
    pub(crate) fn unasked(&self, blocks: &[Block]) -> Option<u64>
        ensures { (strand : ℕ) → Stands strand blocks.now self.now → result ≡ unasked blocks.now }
    {
        unasked::first(&self.redactions, blocks)
    }

    /// Whether the block made the ids of its new tables and documents, no two of them equal.
    fn has_ids(&self, alloc: Global, strand: StrandId, block: &Block) -> Result<bool, OutOfMemory>
        ensures { (before : List Block) → Stands strand.raw before self.now → has_id strand.raw before block.now ≡ true
            → IfOk result (λ b. b ≡ ids_follow strand.raw (made_ids (state before) block.now) block.now.header.tx.raw) }
    {
        let mut made = ids::created(alloc, block.info.schema.as_slice())?;
        self.documents
            .add_new_ids(&mut made, block.revisions.as_slice())?;
        let made = made.as_slice();
        if !ids::are_made_by(strand, block.header.tx, made) {
            return Ok(false);
        }
        let differ = ids::all_differ(alloc, made)?;
        Ok(differ)
    }

    /// Whether each revision follows what the blocks so far left, and no document has two.
    fn has_revisions(&self, alloc: Global, block: &Block) -> Result<bool, OutOfMemory>
        ensures { (strand : ℕ) (before : List Block) → Stands strand before self.now
            → IfOk result (λ b. b ≡ (list_all (revision_follows (state before) block.now)
            (recorded_in block.now.info.tables block.now.revisions) && all_differ (document_ids block.now.revisions))) }
    {
        let created = ids::created(alloc, block.info.schema.as_slice())?;
        let created = ids::set_of(alloc, created.as_slice())?;
        if !self.have_all(&created, block) {
            return Ok(false);
        }
        let documents = ids::of_documents(alloc, block.revisions.as_slice())?;
        let differ = ids::all_differ(alloc, documents.as_slice())?;
        Ok(differ)
    }

    /// Whether each revision of the block, which created these tables, follows what the blocks so far left.
    fn have_all(&self, created: &BTreeSet<u128>, block: &Block) -> bool
        ensures { (strand : ℕ) (before : List Block) → Stands strand before self.now
            → HasKeys created.now (created_ids block.now.info.schema)
            → result ≡ list_all (revision_follows (state before) block.now)
            (recorded_in block.now.info.tables block.now.revisions) }
    {
        let tables = block.info.tables.as_slice();
        let revisions = block.revisions.as_slice();
        let shorter = tables.len().min(revisions.len());
        'revisions: for at in 0..shorter {
            if !self.has_revision(created, block, tables[at], &revisions[at]) {
                return false;
            }
        }
        true
    }

    /// Whether the revision, of a document of this table, follows what the blocks so far left; its block created these
    /// tables.
    fn has_revision(
        &self,
        created: &BTreeSet<u128>,
        block: &Block,
        table: TableId,
        revision: &Revision,
    ) -> bool
        ensures { (strand : ℕ) (before : List Block) → Stands strand before self.now
            → HasKeys created.now (created_ids block.now.info.schema)
            → result ≡ revision_follows (state before) block.now (record { table = table; revision = revision.now }) }
    {
        if !is_of(&block.header, revision) {
            return false;
        }
        if !self.has_table(created, table) {
            return false;
        }
        self.documents.is_continued(table, revision)
    }

    /// Whether the table is active before the block or one of those that it created.
    fn has_table(&self, created: &BTreeSet<u128>, table: TableId) -> bool
        ensures { (strand : ℕ) (before : List Block) (ids : List ℕ) → Stands strand before self.now
            → HasKeys created.now ids → result ≡ has_table (state before).tables ids table }
    {
        if self.tables.is_active(table) {
            return true;
        }
        created.contains(&table.raw)
    }
}

/// Whether the revision has its block's address, time and transaction.
fn is_of(header: &Header, revision: &Revision) -> bool
    ensures { result ≡ is_of header.now revision.now }
{
    revision.address.strand.raw == header.address.strand.raw
        && revision.address.sequence == header.address.sequence
        && revision.metadata.time == header.time
        && revision.metadata.tx.raw == header.tx.raw
}
