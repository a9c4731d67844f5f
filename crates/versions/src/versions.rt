//! A version of the state after a list of blocks.
ghost use Rattle.std.specs.Prelude.{◌≡◌, length, map, slice_get, true, Some, option_map, IfOk};
ghost use Rattle.std.specs.List.{filter, filter_map};
ghost use Rattle.std.specs.Option.{option_copied};
ghost use Rattle.ledger_model.specs.Follows.{has_index, latest_of, named_by};
ghost use Rattle.ledger_model.specs.Run.{active_count};
ghost use Rattle.ledger_model.specs.SchemaChanges.{index_count};
ghost use Rattle.ledger_model.specs.State.{active_table, after, draft_of, empty, state};
ghost use Rattle.ledger_model.specs.Views.{latest};
ghost use Rattle.versions.specs.ByTable.{revisions_in};
ghost use Rattle.versions.specs.Held.{drafts_lent, indexed_of, recorded_lent, recorded_of, table_of};
ghost use Rattle.versions.specs.Filing.{places_from};
ghost use Rattle.versions.specs.Indexes.{documents_with, has_key_in};
ghost use Rattle.versions.specs.Live.{AllFit, AreLast, is_live, live_of};
ghost use Rattle.versions.specs.Lookups.{documents_of, last_among, last_of_each, name_of, those_among};
ghost use Rattle.versions.specs.Places.{numbers_of, place_in};
ghost use Rattle.versions.specs.Histories.{revisions_of};

use crate::documents::Documents;
use crate::kept::Kept;
use crate::recorded::Recorded;
use crate::tables::{
    Indexed, Table, active_count, active_table, has_index, index_count, name_of, tables_after,
};
use containers::Sequence;
use ion_values::{Key, OutOfMemory, Text};
use ledger_model::{Block, Revision, Schema};
use pql_model::DocIds;
use ql_types::{DocId, TableId};
use std::alloc::Global;
use std::marker::Model;

/// The state after a list of blocks, which contracts see as the state. It is never changed.
#[derive(Drop)]
pub struct Versions {
    alloc: Global,
    tables: Kept<Table>,
    documents: Documents,
}

impl Model for Versions {
    ghost use Rattle.std.specs.Prelude.{map};
    ghost use Rattle.ledger_model.specs.State.{State};
    ghost use Rattle.versions.specs.Held.{indexed_of, recorded_of, state_code, table_of};

    ghost Value = { State };

    ghost coded = { state_code };

    ghost view = { λ v. record {
      revisions = map recorded_of v.documents.0;
      tables = map table_of v.tables;
      indexes = map indexed_of v.documents.1;
    } };
}

impl Versions {
    /// The state before the first block. It takes no memory.
    pub fn empty(alloc: Global) -> Versions
        ensures { result ≡ empty }
    {
        Versions {
            alloc,
            tables: Kept::new(),
            documents: Documents::new(alloc),
        }
    }

    /// The state after one block more, as a new version. The block's revisions are copied, and those that it redacts
    /// are made anew; all others are shared, but for some hundred pointers a revision and, over many blocks, the square
    /// root of the number of documents. Tables and indexes are copied where the block changes the schema.
    pub fn after(&self, block: &Block) -> Result<Versions, OutOfMemory>
        ensures { IfOk result (λ v. v ≡ after self.now block.now) }
    {
        let changes = block.info.schema.as_slice();
        let tables = tables_after(self.alloc, &self.tables, changes)?;
        let documents = self.documents.redacted_all(changes)?;
        let documents = documents.with_all(
            block.info.tables.as_slice(),
            block.revisions.as_slice(),
        )?;
        let documents = documents.indexed_all(changes)?;
        Ok(Versions {
            alloc: self.alloc,
            tables,
            documents,
        })
    }

    /// The version of these blocks.
    pub fn of(alloc: Global, blocks: &[Block]) -> Result<Versions, OutOfMemory>
        ensures { IfOk result (λ version. version ≡ state blocks.now) }
    {
        let mut version = Versions::empty(alloc);
        'admitted: for block in blocks {
            let next = version.after(block)?;
            version = next;
        }
        Ok(version)
    }

    /// The same version once more. One more owner of it may be refused.
    pub fn share(&self) -> Result<Versions, OutOfMemory>
        ensures { IfOk result (λ v. v ≡ self.now) }
    {
        Ok(Versions {
            alloc: self.alloc,
            tables: self.tables.share()?,
            documents: self.documents.share()?,
        })
    }

    /// All tables in the order in which they were made.
    pub fn tables(&self) -> &[Table]
        ensures { map table_of result.now ≡ self.now.tables }
    {
        self.tables.as_slice()
    }

    /// The active table of a name, or None where no active table has it.
    pub fn table(&self, name: &Text) -> Option<TableId>
        ensures { result ≡ active_table self.now.tables name.now }
    {
        active_table(self.tables(), name.as_str())
    }

    /// The name with which this table was made, or None if no table has the id.
    ///
    /// The table may be inactive.
    pub fn name(&self, table: TableId) -> Option<&Text>
        ensures { option_copied result ≡ name_of self.now.tables table }
    {
        name_of(self.tables(), table)
    }

    /// How many tables are active.
    pub fn active(&self) -> u64
        ensures { result ≡ active_count self.now.tables }
    {
        active_count(self.tables())
    }

    /// All fields with an index, in the order in which these were made.
    pub fn all_indexes(&self) -> &[Indexed]
        ensures { map indexed_of result.now ≡ self.now.indexes }
    {
        self.documents.indexes()
    }

    /// How many fields of the table have an index.
    pub fn indexes(&self, table: TableId) -> u64
        ensures { result ≡ index_count self.now.indexes table }
    {
        index_count(self.documents.indexes(), table)
    }

    /// Whether the field of the table has an index.
    pub fn has_index(&self, table: TableId, field: &Text) -> bool
        ensures { result ≡ has_index self.now.indexes table field.now }
    {
        has_index(self.documents.indexes(), table, field.as_str())
    }

    /// The latest revision of a document with its table, or None if no revision has the id.
    ///
    /// It may be the one that deletes the document.
    pub fn recorded(&self, id: DocId) -> Option<&Recorded>
        ensures { option_map recorded_of (option_copied result) ≡ latest_of self.now.revisions id.raw }
    {
        self.documents.shelf().last_of(id)
    }

    /// The latest revision of a document, also the one that deletes it, or None where no revision has the id.
    pub fn latest(&self, id: DocId) -> Option<&Revision>
        ensures { option_copied result ≡ option_map (λ r. r.revision) (latest_of self.now.revisions id.raw) }
    {
        match self.documents.shelf().last_of(id) {
            Some(recorded) => Some(&recorded.revision),
            None => None,
        }
    }

    /// The document's revision of this version, or None where there is none. A document's versions count its
    /// revisions from 0, where blocks follow one another.
    pub fn revision(&self, id: DocId, version: u64) -> Option<&Revision>
        ensures { option_copied result ≡ option_map (λ r. r.revision)
            (slice_get (revisions_of self.now.revisions id.raw) version) }
    {
        match self.documents.shelf().revision(id, version) {
            Some(recorded) => Some(&recorded.revision),
            None => None,
        }
    }

    /// The first revision that the change redacts, with its table, or None where there is none.
    pub fn named(&self, change: &Schema) -> Option<&Recorded>
        ensures { option_map recorded_of (option_copied result) ≡ named_by self.now.revisions change.now }
    {
        match change {
            Schema::Redact { document, .. } => self.documents.shelf().named(change, *document),
            Schema::Create { .. } | Schema::Index { .. } | Schema::Drop { .. } => None,
        }
    }

    /// The document's table, or None where no revision has the id.
    pub fn table_of(&self, id: DocId) -> Option<TableId>
        ensures { result ≡ option_map (λ r. r.table) (latest_of self.now.revisions id.raw) }
    {
        match self.documents.shelf().last_of(id) {
            Some(recorded) => Some(recorded.table),
            None => None,
        }
    }

    /// The table's revision of this number in block order, counted from 0, or None where the table has no more.
    pub fn revision_at(&self, table: TableId, i: u64) -> Option<&Revision>
        ensures { option_copied result ≡ option_map (λ r. r.revision)
            (slice_get (revisions_in self.now.revisions table) i) }
    {
        match self.documents.shelf().revision_at(table, i) {
            Some(recorded) => Some(&recorded.revision),
            None => None,
        }
    }

    /// The ids of the table's documents that aren't deleted, in order of first insertion.
    pub fn documents(&self, table: TableId) -> Result<DocIds, OutOfMemory>
        ensures { IfOk result (λ ids. ids ≡ documents_of self.now.revisions table) }
    {
        self.documents.shelf().documents(table)
    }

    /// The ids of the table's documents that aren't deleted and whose latest content has the key in its first field
    /// of the name, in order of first insertion.
    pub fn with_key(&self, table: TableId, field: &Text, key: &Key) -> Result<DocIds, OutOfMemory>
        requires { has_index self.now.indexes table field.now ≡ true }
        ensures { IfOk result (λ ids. ids ≡ documents_with self.now.revisions table field.now key.now) }
    {
        self.documents.with_key(table, field, key)
    }

    /// The latest revision of each document, with its table, in order of first insertion. They are lent.
    pub fn newest(&self, alloc: Global) -> Result<Sequence<&Recorded>, OutOfMemory>
        ensures drafts { IfOk result (λ all. drafts_lent all ≡ latest (map draft_of self.now.revisions)) }
        ensures last { IfOk result (λ all. map (λ r. Some r) (recorded_lent all) ≡ last_of_each self.now.revisions) }
    {
        let all = self.documents.shelf().newest(alloc)?;
        Ok(all)
    }

    /// The same of these documents alone. An id that no revision has counts for nothing.
    pub fn newest_among(
        &self,
        alloc: Global,
        ids: &[DocId],
    ) -> Result<Sequence<&Recorded>, OutOfMemory>
        ensures drafts { IfOk result (λ all. drafts_lent all
            ≡ those_among ids.now (latest (map draft_of self.now.revisions))) }
        ensures last { IfOk result (λ all. map (λ r. Some r) (recorded_lent all)
            ≡ last_among ids.now self.now.revisions) }
    {
        let all = self.documents.shelf().newest_among(alloc, ids)?;
        Ok(all)
    }

    /// The place of a document among all, in order of first insertion, or None if no revision has the id.
    pub fn place(&self, id: DocId) -> Option<u64>
        ensures { result ≡ place_in (numbers_of (latest (map draft_of self.now.revisions))) id.raw }
    {
        self.documents.shelf().place(id)
    }

    /// The places of the table's documents that aren't deleted, in their order.
    pub fn places_of(&self, alloc: Global, table: TableId) -> Result<Sequence<u64>, OutOfMemory>
        ensures { IfOk result (λ places. places
            ≡ places_from (is_live table) 0 (latest (map draft_of self.now.revisions))) }
    {
        let places = self.documents.shelf().places_of(alloc, table)?;
        Ok(places)
    }

    /// The places of the documents of which `with_key` gives the ids, in their order.
    pub fn places_with(
        &self,
        alloc: Global,
        table: TableId,
        field: &Text,
        key: &Key,
    ) -> Result<Sequence<u64>, OutOfMemory>
        requires { has_index self.now.indexes table field.now ≡ true }
        ensures { IfOk result (λ places. places ≡ places_from (has_key_in table field.now key.now) 0
            (latest (map draft_of self.now.revisions))) }
    {
        let places = self.documents.places_with(alloc, table, field, key)?;
        Ok(places)
    }

    /// The latest revisions at these places, in the same order, lent.
    pub fn newest_at(
        &self,
        alloc: Global,
        places: &[u64],
    ) -> Result<Sequence<&Recorded>, OutOfMemory>
        ensures drafts { IfOk result (λ all. drafts_lent all
            ≡ filter_map (λ at. slice_get (latest (map draft_of self.now.revisions)) at) places.now) }
        ensures last { IfOk result (AreLast self.now.revisions) }
    {
        let all = self.documents.shelf().newest_at(alloc, places)?;
        Ok(all)
    }

    /// The latest revisions of the table's documents that aren't deleted, in order of first insertion, lent.
    ///
    /// It goes over these documents alone.
    pub fn newest_of(
        &self,
        alloc: Global,
        table: TableId,
    ) -> Result<Sequence<&Recorded>, OutOfMemory>
        ensures drafts { IfOk result (λ all.
            drafts_lent all ≡ live_of table (latest (map draft_of self.now.revisions))) }
        ensures last { IfOk result (AreLast self.now.revisions) }
    {
        let places = self.places_of(alloc, table)?;
        let all = self.newest_at(alloc, places.as_slice())?;
        Ok(all)
    }

    /// The latest revisions of the documents of which `with_key` gives the ids, in the same order, lent.
    pub fn newest_with(
        &self,
        alloc: Global,
        table: TableId,
        field: &Text,
        key: &Key,
    ) -> Result<Sequence<&Recorded>, OutOfMemory>
        requires { has_index self.now.indexes table field.now ≡ true }
        ensures { IfOk result (λ all. drafts_lent all
            ≡ filter (has_key_in table field.now key.now) (latest (map draft_of self.now.revisions))) }
    {
        let places = self.places_with(alloc, table, field, key)?;
        let all = self.newest_at(alloc, places.as_slice())?;
        Ok(all)
    }

    /// The numbers of all documents' ids are within their range. It does nothing.
    pub fn ids_fit(&self)
        ensures { AllFit self.now.revisions }
    {
        self.documents.shelf().ids_fit();
    }

    /// How many revisions there are, of all documents.
    pub fn revision_count(&self) -> u64
        ensures { result ≡ length self.now.revisions }
    {
        self.documents.shelf().count()
    }

    /// The revision at a place in block order, counted from 0, with its document's table, or None past the last one.
    #[tactic(auto, using(crate::proofs::LastOnes::kept_at))]
    pub fn recorded_at(&self, place: u64) -> Option<&Recorded>
        ensures { option_map recorded_of (option_copied result) ≡ slice_get self.now.revisions place }
    {
        self.documents.shelf().at(place)
    }
}
