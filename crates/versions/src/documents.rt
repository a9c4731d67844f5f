//! All revisions and the fields with an index, with the postings of each index beside them.
ghost use Rattle.std.specs.Prelude.{◌≡◌, [], ◌∷◌, ◌++◌, map, true, IfOk};
ghost use Rattle.ledger_model.specs.Follows.{has_index};
ghost use Rattle.ledger_model.specs.State.{all_indexed, draft_of, indexed, recorded_in, revisions_after};
ghost use Rattle.ledger_model.specs.Views.{latest};
ghost use Rattle.versions.specs.Filing.{places_from};
ghost use Rattle.versions.specs.Held.{indexed_of, recorded_of};
ghost use Rattle.versions.specs.Indexes.{documents_with, has_key_in};
ghost use Rattle.versions.specs.Redactions.{IsOfDocument, all_changed};

use crate::indexes::{built, indexes_with, tree_on};
use crate::kept::Kept;
use crate::live::{ids_at, listed};
use crate::recorded::{Recorded, record};
use crate::shelf::Shelf;
use crate::tables::{Indexed, copy_indexes};
use containers::Sequence;
use index_post::Postings;
use ion_values::{Key, OutOfMemory, Text};
use ledger_model::{Revision, Schema};
use pql_model::DocIds;
use pvec::Shared;
use ql_types::{DocId, TableId};
use std::alloc::Global;
use std::marker::Model;

/// All revisions and all indexed fields, each in its order, and each index's postings.
///
/// Contracts see the first two as a pair.
#[derive(Drop)]
pub(crate) struct Documents {
    alloc: Global,
    shelf: Shelf,
    indexes: Kept<Indexed>,
    trees: Kept<Shared<Postings>>,
}

impl Model for Documents {
    ghost use Rattle.std.specs.Coded.{coded_list, coded×};
    ghost use Rattle.std.specs.Prelude.{List};
    ghost use Rattle.versions.specs.contracts.recorded.Recorded as recorded;
    ghost use Rattle.versions.specs.contracts.tables.Indexed as indexed;
    ghost use Rattle.versions.specs.declared.recorded.Recorded.{Recorded};
    ghost use Rattle.versions.specs.declared.tables.Indexed.{Indexed};
    ghost use Rattle.versions.specs.Indexes.{AreIndexes};
    ghost use Rattle.versions.specs.Newest.{newest};

    ghost Value = { List Recorded × List Indexed };

    ghost coded = { coded× (coded_list recorded.the_row.coded) (coded_list indexed.the_row.coded) };

    ghost view = { λ d. (d.shelf, d.indexes) };

    ghost invariant = { λ d. AreIndexes (newest d.shelf) d.indexes d.trees };
}

impl Documents {
    /// No revisions and no indexes. It takes no memory.
    pub(crate) fn new(alloc: Global) -> Documents
        ensures { result ≡ ([], []) }
    {
        Documents {
            alloc,
            shelf: Shelf::new(alloc),
            indexes: Kept::new(),
            trees: Kept::new(),
        }
    }

    /// These documents once more. One more owner of them may be refused.
    pub(crate) fn share(&self) -> Result<Documents, OutOfMemory>
        ensures { IfOk result (λ same. same ≡ self.now) }
    {
        Ok(Documents {
            alloc: self.alloc,
            shelf: self.shelf.share()?,
            indexes: self.indexes.share()?,
            trees: self.trees.share()?,
        })
    }

    /// All revisions with what is kept beside them.
    pub(crate) fn shelf(&self) -> &Shelf
        ensures { result.now ≡ self.now.0 }
    {
        &self.shelf
    }

    /// All fields with an index.
    pub(crate) fn indexes(&self) -> &[Indexed]
        ensures { result.now ≡ self.now.1 }
    {
        self.indexes.as_slice()
    }

    /// The documents with one revision more.
    fn push(&self, item: Recorded) -> Result<Documents, OutOfMemory>
        ensures { IfOk result (λ new. new ≡ (self.now.0 ++ item ∷ [], self.now.1)) }
    {
        let trees = indexes_with(
            self.alloc,
            self.indexes.as_slice(),
            self.trees.as_slice(),
            self.shelf.latest(),
            &item,
        )?;
        let trees = Kept::from_vec(self.alloc, trees)?;
        let shelf = self.shelf.push(item)?;
        let indexes = self.indexes.share()?;
        Ok(Documents {
            alloc: self.alloc,
            shelf,
            indexes,
            trees,
        })
    }

    /// The documents with a block's revisions more, each with its table.
    pub(crate) fn with_all(
        &self,
        tables: &[TableId],
        revisions: &[Revision],
    ) -> Result<Documents, OutOfMemory>
        ensures revisions { IfOk result (λ new. map recorded_of new.0 ≡ map recorded_of self.now.0
            ++ recorded_in tables.now revisions.now) }
        ensures indexes { IfOk result (λ new. new.1 ≡ self.now.1) }
    {
        let mut new = self.share()?;
        'revisions: for (at, revision) in revisions.iter().enumerate() {
            let Some(table) = tables.get(at) else {
                return Ok(new);
            };
            new = new.push(record(self.alloc, *table, revision)?)?;
        }
        Ok(new)
    }

    /// The documents after a change, which redacts none but of this document, and not its latest revision.
    fn redacted(&self, change: &Schema, id: DocId) -> Result<Documents, OutOfMemory>
        requires { IsOfDocument change.now id }
        ensures { IfOk result (λ new. new ≡ (all_changed change.now self.now.0, self.now.1)) }
    {
        let shelf = self.shelf.redacted(change, id)?;
        let indexes = self.indexes.share()?;
        let trees = self.trees.share()?;
        Ok(Documents {
            alloc: self.alloc,
            shelf,
            indexes,
            trees,
        })
    }

    fn redacted_one(&self, change: &Schema) -> Result<Documents, OutOfMemory>
        ensures { IfOk result (λ new. new ≡ (all_changed change.now self.now.0, self.now.1)) }
    {
        match change {
            Schema::Redact { document, .. } => self.redacted(change, *document),
            Schema::Create { .. } | Schema::Index { .. } | Schema::Drop { .. } => {
                let same = self.share()?;
                Ok(same)
            }
        }
    }

    /// The documents after the redactions among the changes.
    pub(crate) fn redacted_all(&self, changes: &[Schema]) -> Result<Documents, OutOfMemory>
        ensures revisions { IfOk result (λ new. map recorded_of new.0
            ≡ revisions_after changes.now (map recorded_of self.now.0)) }
        ensures indexes { IfOk result (λ new. new.1 ≡ self.now.1) }
    {
        let mut new = self.share()?;
        'changes: for change in changes {
            new = new.redacted_one(change)?;
        }
        Ok(new)
    }

    /// The documents with one index more.
    fn indexed(&self, index: Indexed) -> Result<Documents, OutOfMemory>
        ensures { IfOk result (λ new. new ≡ (self.now.0, self.now.1 ++ index ∷ [])) }
    {
        let tree = built(self.alloc, &index, self.shelf.latest())?;
        let trees = trees_with(self.alloc, self.trees.as_slice(), tree)?;
        let indexes = indexes_and(self.alloc, self.indexes.as_slice(), index)?;
        let shelf = self.shelf.share()?;
        Ok(Documents {
            alloc: self.alloc,
            shelf,
            indexes,
            trees,
        })
    }

    /// The documents with the indexes more that the changes make.
    pub(crate) fn indexed_all(&self, changes: &[Schema]) -> Result<Documents, OutOfMemory>
        ensures revisions { IfOk result (λ new. new.0 ≡ self.now.0) }
        ensures indexes { IfOk result (λ new. map indexed_of new.1
            ≡ all_indexed (map indexed_of self.now.1) changes.now) }
    {
        let mut new = self.share()?;
        'changes: for change in changes {
            new = new.indexed_one(change)?;
        }
        Ok(new)
    }

    fn indexed_one(&self, change: &Schema) -> Result<Documents, OutOfMemory>
        ensures revisions { IfOk result (λ new. new.0 ≡ self.now.0) }
        ensures indexes { IfOk result (λ new. map indexed_of new.1 ≡ indexed (map indexed_of self.now.1) change.now) }
    {
        match change {
            Schema::Create { .. } | Schema::Drop { .. } | Schema::Redact { .. } => self.share(),
            Schema::Index { field, table } => {
                let field = field.copy(self.alloc)?;
                self.indexed(Indexed {
                    table: *table,
                    field,
                })
            }
        }
    }

    /// The ids of the table's documents that aren't deleted and whose latest content has the key in its first field
    /// of the name, in order of first insertion.
    pub(crate) fn with_key(
        &self,
        table: TableId,
        field: &Text,
        key: &Key,
    ) -> Result<DocIds, OutOfMemory>
        requires { has_index (map indexed_of self.now.1) table field.now ≡ true }
        ensures { IfOk result (λ ids. ids ≡ documents_with (map recorded_of self.now.0) table field.now key.now) }
    {
        let Some(tree) = tree_on(
            self.indexes.as_slice(),
            self.trees.as_slice(),
            table,
            field.as_str(),
        ) else {
            unreachable!()
        };
        let ids = ids_at(self.alloc, self.shelf.latest(), tree.of(key))?;
        Ok(ids)
    }

    /// The places of these documents among all, in their order.
    pub(crate) fn places_with(
        &self,
        alloc: Global,
        table: TableId,
        field: &Text,
        key: &Key,
    ) -> Result<Sequence<u64>, OutOfMemory>
        requires { has_index (map indexed_of self.now.1) table field.now ≡ true }
        ensures { IfOk result (λ places. places ≡ places_from (has_key_in table field.now key.now) 0
            (latest (map draft_of (map recorded_of self.now.0)))) }
    {
        let Some(tree) = tree_on(
            self.indexes.as_slice(),
            self.trees.as_slice(),
            table,
            field.as_str(),
        ) else {
            unreachable!()
        };
        let places = listed(alloc, tree.of(key))?;
        Ok(places)
    }
}

/// The trees with one more at the end.
fn trees_with(
    alloc: Global,
    trees: &[Shared<Postings>],
    tree: Postings,
) -> Result<Kept<Shared<Postings>>, OutOfMemory>
    ensures { IfOk result (λ new. new ≡ trees.now ++ tree ∷ []) }
{
    let new = single_more(alloc, trees, Shared::new(alloc, tree)?)?;
    Kept::from_vec(alloc, new)
}

fn single_more(
    alloc: Global,
    trees: &[Shared<Postings>],
    tree: Shared<Postings>,
) -> Result<Vec<Shared<Postings>>, OutOfMemory>
    ensures { IfOk result (λ new. new.items ≡ trees.now ++ tree ∷ []) }
{
    let mut new = Vec::with_capacity(alloc, trees.len().saturating_add(1))?;
    'trees: for one in trees {
        new.push(one.share()?)?;
    }
    new.push(tree)?;
    Ok(new)
}

/// The indexes with one more at the end.
fn indexes_and(
    alloc: Global,
    indexes: &[Indexed],
    index: Indexed,
) -> Result<Kept<Indexed>, OutOfMemory>
    ensures { IfOk result (λ new. new ≡ indexes.now ++ index ∷ []) }
{
    let mut new = copy_indexes(alloc, indexes)?;
    new.push(index)?;
    Kept::from_vec(alloc, new)
}
