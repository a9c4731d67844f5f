//! What a block touches, by its own changes and by what stands in the state behind all blocks.
ghost use Rattle.std.specs.Prelude.{◌≡◌, ◌==◌, IfOk};
ghost use Rattle.std.specs.List.{find, list_any};
ghost use Rattle.std.specs.Option.{option_copied};
ghost use Rattle.ledger_model.specs.State.{recorded_in};
ghost use Rattle.laws_footprint.specs.Following as following;
ghost use Rattle.laws_footprint.specs.Touches as touches;
ghost use Rattle.occ_check.specs.Behind as behind;

use ion_values::{Key, OutOfMemory, Text};
use ledger_model::{Block, Content, Item, Revision, Schema};
use pql_model::has_key;
use ql_types::{DocId, TableId};
use std::alloc::Global;
use versions::Versions;

/// All blocks, and the state after them.
#[derive(Clone, Copy)]
pub(crate) struct Journal<'a> {
    pub blocks: &'a [Block],
    pub now: &'a Versions,
}

/// Whether the block touches the item.
pub(crate) fn block_touches(
    alloc: Global,
    journal: Journal<'_>,
    block: &Block,
    item: &Item,
) -> Result<bool, OutOfMemory>
    ensures { IfOk result (λ touches.
        touches ≡ behind.block_touches journal.entry.blocks.now journal.entry.now.now block.now item.now) }
{
    if changes_touch(journal.now, block.info.schema.as_slice(), item) {
        return Ok(true);
    }
    let (tables, revisions) = (block.info.tables.as_slice(), block.revisions.as_slice());
    let touched = revisions_touch(alloc, journal, tables, revisions, item)?;
    Ok(touched)
}

/// Whether one of the changes of the schema touches the item.
fn changes_touch(now: &Versions, changes: &[Schema], item: &Item) -> bool
    ensures { result ≡ list_any (behind.change_touches now.now.tables item.now) changes.now }
{
    'changes: for change in changes {
        if change_touches(now, change, item) {
            return true;
        }
    }
    false
}

fn change_touches(now: &Versions, change: &Schema, item: &Item) -> bool
    ensures { result ≡ behind.change_touches now.now.tables item.now change.now }
{
    match item {
        Item::TableName { name } => changes_name(now, change, name.as_str()),
        Item::TableList => changes_list(change),
        Item::Table { table } => redacts_in(change, *table),
        Item::Doc { table, id } => redacts_document(change, *table, *id),
        Item::IndexValue { .. } => false,
    }
}

/// Whether the change redacts a revision in the table.
fn redacts_in(change: &Schema, table: TableId) -> bool
    ensures { result ≡ touches.redacts_in table change.now }
{
    match change {
        Schema::Redact { table: own, .. } => own.raw == table.raw,
        Schema::Create { .. } | Schema::Index { .. } | Schema::Drop { .. } => false,
    }
}

/// Whether the change redacts a revision of the table's document.
fn redacts_document(change: &Schema, table: TableId, id: DocId) -> bool
    ensures { result ≡ touches.redacts_document table id.raw change.now }
{
    match change {
        Schema::Redact {
            table: own,
            document,
            ..
        } => own.raw == table.raw && document.raw == id.raw,
        Schema::Create { .. } | Schema::Index { .. } | Schema::Drop { .. } => false,
    }
}

/// Whether a table of that name is created or dropped, or an index made on it.
fn changes_name(now: &Versions, change: &Schema, name: &str) -> bool
    ensures { result ≡ behind.changes_name now.now.tables name.now change.now }
{
    match change {
        Schema::Create { name: made, .. } | Schema::Drop { name: made, .. } => {
            made.as_str() == name
        }
        Schema::Index { table, .. } => is_name(now.name(*table), name),
        Schema::Redact { .. } => false,
    }
}

fn is_name(made: Option<&Text>, name: &str) -> bool
    ensures { result ≡ behind.is_name name.now (option_copied made.entry) }
{
    match made {
        Some(made) => made.as_str() == name,
        None => false,
    }
}

/// Whether a table is created or dropped.
fn changes_list(change: &Schema) -> bool
    ensures { result ≡ touches.touches_list change.now }
{
    matches!(change, Schema::Create { .. } | Schema::Drop { .. })
}

/// Whether one of the revisions, each of a document of its table, touches the item.
fn revisions_touch(
    alloc: Global,
    journal: Journal<'_>,
    tables: &[TableId],
    revisions: &[Revision],
    item: &Item,
) -> Result<bool, OutOfMemory>
    ensures { IfOk result (λ touch. touch ≡ list_any
        (behind.revision_touches journal.entry.blocks.now journal.entry.now.now item.now)
        (recorded_in tables.now revisions.now)) }
{
    'revisions: for (at, revision) in revisions.iter().enumerate() {
        let Some(table) = tables.get(at) else {
            return Ok(false);
        };
        if revision_touches(alloc, journal, *table, revision, item)? {
            return Ok(true);
        }
    }
    Ok(false)
}

fn revision_touches(
    alloc: Global,
    journal: Journal<'_>,
    own: TableId,
    revision: &Revision,
    item: &Item,
) -> Result<bool, OutOfMemory>
    ensures { IfOk result (λ touches. touches
        ≡ behind.revision_touches journal.entry.blocks.now journal.entry.now.now item.now
        (record { table = own; revision = revision.now })) }
{
    match item {
        Item::TableName { .. } | Item::TableList => Ok(false),
        Item::Table { table } => Ok(own.raw == table.raw),
        Item::Doc { table, id } => Ok(own.raw == table.raw && revision.metadata.id.raw == id.raw),
        Item::IndexValue { table, field, key } => {
            if own.raw != table.raw {
                return Ok(false);
            }
            let changes = changes_key(alloc, journal, revision, field.as_str(), key)?;
            Ok(changes)
        }
    }
}

/// Whether the revision's document had the key before it, or has it with it.
fn changes_key(
    alloc: Global,
    journal: Journal<'_>,
    revision: &Revision,
    field: &str,
    key: &Key,
) -> Result<bool, OutOfMemory>
    ensures { IfOk result (λ changes. changes ≡
        behind.changes_key journal.entry.blocks.now journal.entry.now.now field.now key.now revision.now) }
{
    if had_key(alloc, journal, revision, field, key)? {
        return Ok(true);
    }
    let has = content_has_key(alloc, &revision.content, field, key)?;
    Ok(has)
}

/// Whether the document had the key before this revision.
fn had_key(
    alloc: Global,
    journal: Journal<'_>,
    revision: &Revision,
    field: &str,
    key: &Key,
) -> Result<bool, OutOfMemory>
    ensures { IfOk result (λ had. had ≡ touches.has_key_in field.now key.now
        (behind.content_of (behind.earlier journal.entry.blocks.now journal.entry.now.now revision.now.metadata.id.raw
        revision.now.metadata.version))) }
{
    match earlier(journal, revision.metadata.id, revision.metadata.version) {
        Some(earlier) => content_has_key(alloc, &earlier.content, field, key),
        None => Ok(false),
    }
}

/// The first of the revisions that is of the document.
fn of_document(revisions: &[Revision], id: DocId) -> Option<&Revision>
    ensures { option_copied result ≡ find (λ r. r.metadata.id.raw == id.raw) revisions.now }
{
    revisions
        .iter()
        .find(|revision| revision.metadata.id.raw == id.raw)
}

/// The revision as its block has it, where a later block may have redacted it.
fn stored<'a>(blocks: &'a [Block], revision: &Revision) -> Option<&'a Revision>
    ensures { option_copied result ≡ behind.stored blocks.now revision.now }
{
    let block = blocks.get(revision.address.sequence as usize)?;
    of_document(block.revisions.as_slice(), revision.metadata.id)
}

/// The document's revision of the version before this one, as its block has it.
fn earlier<'a>(journal: Journal<'a>, id: DocId, version: u64) -> Option<&'a Revision>
    ensures { option_copied result ≡ behind.earlier journal.entry.blocks.now journal.entry.now.now id.raw version }
{
    if version == 0 {
        return None;
    }
    let revision = journal.now.revision(id, version - 1)?;
    stored(journal.blocks, revision)
}

fn content_has_key(
    alloc: Global,
    content: &Content,
    field: &str,
    key: &Key,
) -> Result<bool, OutOfMemory>
    ensures { IfOk result (λ has. has ≡ touches.has_key_in field.now key.now (touches.kept content.now)) }
{
    match content {
        Content::Kept(value) => has_key(alloc, key, field, value),
        Content::Deleted | Content::Redacted(_) => Ok(false),
    }
}
