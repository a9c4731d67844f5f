//! Documents that a transaction touches, each with one revision.
ghost use Rattle.std.specs.Prelude.{◌≡◌, nat_eq, map, option_map, None, IfOk, OnOk};
ghost use Rattle.std.specs.Option.{option_copied};
ghost use Rattle.indexmap.specs.IndexMap.{insert_entry};
ghost use Rattle.ledger_model.specs.Run.{nothing};
ghost use Rattle.ledger_model.specs.Follows.{is_kept};
ghost use Rattle.ledger_model.specs.Writing.{if_active, revised, revised_by, touch};
ghost use Rattle.versions.specs.Held.{recorded_of, table_of};
ghost use Rattle.txn_core.specs.Effects.{both, effect_of};
ghost use Rattle.txn_core.specs.Inserts.{so_far};
ghost use Rattle.txn_core.specs.Writes.{Stands, Touches, again_by, has_room_in, mark_of, marks_of};

use crate::answers::named_id;
use crate::effect::Effect;
use crate::limits::MOST_TOUCHED;
use crate::log::Log;
use crate::transaction::Txn;
use indexmap::IndexMap;
use ion_values::OutOfMemory;
use ledger_model::{Content, Draft};
use ql_types::{DocId, TableId};
use std::alloc::Global;
use versions::{Recorded, Table, is_active};

/// A document that the transaction has touched: its table, the version of its revision that pends, and whether that one
/// has content.
#[derive(Clone, Copy)]
pub(crate) struct Mark {
    pub table: TableId,
    pub version: u64,
    pub live: bool,
}

/// Documents that the transaction has touched, by their ids, in order of first touch.
pub(crate) type Marks = IndexMap<u128, Mark>;

/// What a statement has done so far to documents, with the tables, and all documents that the transaction has touched
/// by then.
#[derive(Drop)]
pub(crate) struct Touching {
    pub tables: Vec<Table>,
    pub marks: Marks,
    pub effect: Effect,
}

impl Touching {
    /// Whether this document may be touched: it was before, or there is room for one more.
    pub(crate) fn has_room_for(&self, id: DocId) -> bool
        ensures { result ≡ has_room_in self.now.marks.entries id }
    {
        self.marks.get(&id.raw).is_some() || self.marks.len() < MOST_TOUCHED
    }

    /// Adds the document's revision.
    fn add(&mut self, alloc: Global, draft: Draft) -> Result<(), OutOfMemory>
        ensures tables { OnOk result (self.new.tables ≡ self.old.tables) }
        ensures marks { OnOk result (self.new.marks.entries ≡ insert_entry nat_eq self.old.marks.entries draft.id.raw
            (mark_of draft)) }
        ensures effect { OnOk result (effect_of self.new.effect ≡ both (effect_of self.old.effect) (touch draft)) }
    {
        let row = named_id(alloc, "documentId", draft.id.raw)?;
        self.marks.insert(draft.id.raw, mark_of(&draft))?;
        self.effect.rows.push(row)?;
        self.effect.log.push(draft)?;
        Ok(())
    }
}

fn mark_of(draft: &Draft) -> Mark
    ensures { result ≡ mark_of draft.now }
{
    Mark {
        table: draft.table,
        version: draft.version,
        live: is_kept(&draft.content),
    }
}

/// Whether it isn't that of a deleted document.
fn is_kept(content: &Content) -> bool
    ensures { result ≡ is_kept content.now }
{
    match content {
        Content::Deleted => false,
        Content::Kept(_) | Content::Redacted(_) => true,
    }
}

/// The documents that the pending revisions are of.
#[tactic(auto, using(crate::proofs::Touched::marks_newest))]
fn marks_of(alloc: Global, log: &Log) -> Result<Marks, OutOfMemory>
    ensures { IfOk result (λ marks. marks.entries ≡ marks_of log.now) }
{
    let newest = log.newest(alloc)?;
    let marks = marks_lent(alloc, newest.as_slice())?;
    Ok(marks)
}

fn marks_lent(alloc: Global, newest: &[&Draft]) -> Result<Marks, OutOfMemory>
    ensures { IfOk result (λ marks. marks.entries ≡ marks_of (map (λ d. d.now) newest.now)) }
{
    let mut marks = IndexMap::new(alloc);
    'drafts: for draft in newest {
        marks.insert(draft.id.raw, mark_of(draft))?;
    }
    Ok(marks)
}

impl Txn {
    /// A statement that has touched nothing so far.
    pub(crate) fn touching(&self, alloc: Global) -> Result<Touching, OutOfMemory>
        ensures stands { IfOk result (λ now. Stands self.now now) }
        ensures nothing { IfOk result (λ now. effect_of now.effect ≡ nothing) }
    {
        let tables = self.tables_now(alloc)?;
        let marks = marks_of(alloc, &self.done.log)?;
        let effect = Effect::new(alloc);
        Ok(Touching {
            tables,
            marks,
            effect,
        })
    }

    /// Gives the document this content, where it isn't deleted and its table is active.
    pub(crate) fn touch(
        &self,
        alloc: Global,
        touching: &mut Touching,
        id: DocId,
        content: Content,
    ) -> Result<(), OutOfMemory>
        requires { Stands self.now touching.old }
        ensures { OnOk result (Touches self.now id content touching.old touching.new) }
    {
        match self.revised(touching, id, content)? {
            Some(draft) => {
                touching.add(alloc, draft)?;
                Ok(())
            }
            None => Ok(()),
        }
    }

    /// The revision that a touch gives to the document, or None where it is deleted or its table isn't active.
    fn revised(
        &self,
        touching: &Touching,
        id: DocId,
        content: Content,
    ) -> Result<Option<Draft>, OutOfMemory>
        requires { Stands self.now touching.now }
        ensures { IfOk result (λ d.
            d ≡ revised self.now.base (so_far self.now (effect_of touching.now.effect)) id content) }
    {
        let tables = touching.tables.as_slice();
        match touching.marks.get(&id.raw) {
            Some(mark) => {
                let draft = again(*mark, id, content);
                Ok(if_active(tables, draft))
            }
            None => {
                let draft = next(self.base.recorded(id), content)?;
                Ok(if_active(tables, draft))
            }
        }
    }
}

/// The pending revision of a document that was touched before, with another content, or None where it is deleted.
fn again(mark: Mark, id: DocId, content: Content) -> Option<Draft>
    ensures { result ≡ again_by content id mark }
{
    if !mark.live {
        return None;
    }
    Some(Draft {
        table: mark.table,
        id,
        version: mark.version,
        content,
    })
}

/// The revision after a committed one, or None where that one deletes the document, or there is none.
fn next(last: Option<&Recorded>, content: Content) -> Result<Option<Draft>, OutOfMemory>
    ensures { IfOk result (λ d. d ≡ revised_by content None (option_map recorded_of (option_copied last.entry))) }
{
    let Some(last) = last else {
        return Ok(None);
    };
    if !is_kept(&last.revision.content) {
        return Ok(None);
    }
    let metadata = &last.revision.metadata;
    Ok(Some(Draft {
        table: last.table,
        id: metadata.id,
        version: metadata.version.checked_add(1).ok_or(OutOfMemory)?,
        content,
    }))
}

/// The revision, where its table is active.
fn if_active(tables: &[Table], draft: Option<Draft>) -> Option<Draft>
    ensures { result ≡ if_active (map table_of tables.now) draft }
{
    match draft {
        Some(draft) if is_active(tables, draft.table) => Some(draft),
        _ => None,
    }
}
