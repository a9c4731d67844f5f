//! What versions tell, by the ids of tables and documents.
use crate::blocks::{Page, page_of, value_in};
use crate::journals::{Version, continued, version_of};
use containers::Text;
use ion_values::Key;
use ledger_model::{Content, Schema};
use pql_model::{DocIds, Probe, Tables, View};
use ql_types::{DocId, TableId};
use std::alloc::Global;
use txn_core::{Log, TableViews};
use versions::{
    Indexed, Table, Versions, active_table, change_all, copy_content, copy_indexes, copy_tables,
    has_index, index_all,
};
use view_rows::view_rows;

/// The tables `t0` and `t1`.
const ZERO: TableId = TableId { raw: 0 };

const ONE: TableId = TableId { raw: 1 };

/// The table `t0` is dropped, and `t1` has an index on `a`, a deleted document and another one.
const DROPPED: &str =
    "tables 2, drop t0 0 / index a 1 / put 1 2 0 1 {a:1}, put 1 3 0 1 {a:2} / put 1 2 1 1 -";

/// The document 2 has four revisions, and 3 has one.
const CHANGED: &str = "tables 2 / put 1 2 0 1 {n:1} / put 1 3 0 1 {n:2} / put 1 2 1 2 {n:3} / \
put 1 2 2 4 {n:4} / put 1 2 3 4 {n:5}";

const DELETED: &str = "tables 2 / index a 1 / put 1 2 0 1 {a:1}, put 1 3 0 1 {a:2} / put 1 2 1 1 -";

const MANY: &str =
    "put 1 5 0 1 {} / put 1 3 0 1 {} / put 1 9 0 1 {} / put 1 4 0 1 {} / put 1 3 0 1 {} / \
put 1 8 0 1 {} / put 1 7 0 1 {} / put 1 9 0 1 {} / put 1 6 0 1 {}";

fn documents(version: &Version, table: TableId) -> Option<DocIds> {
    version.get().documents(table).ok()
}

/// How many documents there are in the table.
fn document_count(version: &Version, table: TableId) -> Option<u64> {
    Some(documents(version, table)?.len() as u64)
}

/// How many documents there are in all tables, with those that are deleted.
fn newest(alloc: Global, version: &Version) -> Option<u64> {
    match version.get().newest(alloc) {
        Ok(all) => Some(all.len() as u64),
        Err(_) => None,
    }
}

/// The version of the document's latest revision.
fn latest(version: &Versions, raw: u128) -> Option<u64> {
    Some(version.latest(DocId { raw })?.metadata.version)
}

/// The number of the document's table.
fn table_of(version: &Versions, raw: u128) -> Option<u128> {
    Some(version.table_of(DocId { raw })?.raw)
}

/// Whether the table was made with the name.
fn is_made(version: &Versions, table: TableId, name: &str) -> bool {
    match version.name(table) {
        Some(made) => made.as_str() == name,
        None => false,
    }
}

/// Whether the table is the active one of the name.
fn is_called(alloc: Global, version: &Version, table: TableId, name: &str) -> bool {
    let Ok(name) = Text::from_text(alloc, name) else {
        return false;
    };
    match version.get().table(&name) {
        Some(found) => found.raw == table.raw,
        None => false,
    }
}

fn are_names(version: &Versions) -> bool {
    is_made(version, ZERO, "t0")
        && is_made(version, ONE, "t1")
        && !is_made(version, ONE, "t0")
        && !is_made(version, TableId { raw: 2 }, "t1")
}

fn are_indexes(version: &Versions, field: &Text) -> bool {
    version.indexes(ZERO) == 0
        && version.indexes(ONE) == 1
        && version.has_index(ONE, field)
        && !version.has_index(ZERO, field)
}

fn are_latest(version: &Versions) -> bool {
    latest(version, 2) == Some(1) && latest(version, 3) == Some(0) && latest(version, 4) == None
}

fn are_tables(version: &Versions) -> bool {
    version.active() == 1 && table_of(version, 2) == Some(1) && table_of(version, 4) == None
}

fn are_counted(alloc: Global, version: &Version) -> bool {
    newest(alloc, version) == Some(2)
        && document_count(version, ONE) == Some(1)
        && document_count(version, ZERO) == Some(0)
}

/// Whether the version with a dropped table tells so.
fn is_dropped(alloc: Global, version: &Version) -> Option<bool> {
    let field = Text::from_text(alloc, "a").ok()?;
    let versions = version.get();
    let is_found = are_names(versions) && are_latest(versions) && are_tables(versions);
    Some(is_found && are_indexes(versions, &field) && are_counted(alloc, version))
}

/// How many rows of the view meet the probe.
fn met(
    alloc: Global,
    version: &Version,
    table: TableId,
    view: &View,
    probe: &Probe,
) -> Option<usize> {
    match view_rows(alloc, version.get(), table, view, probe) {
        Ok(rows) => Some(rows.len()),
        Err(_) => None,
    }
}

/// The history since the third day.
fn history(alloc: Global) -> View {
    View::History {
        start: value_in(alloc, "2020-01-03T"),
        end: None,
    }
}

/// Whether one row of each view and three of the history are of the document 2, and none of the history of `t0`.
fn are_shown(alloc: Global, version: &Version) -> bool {
    let (since, second) = (history(alloc), Probe::Id(DocId { raw: 2 }));
    met(alloc, version, ONE, &View::User, &second) == Some(1)
        && met(alloc, version, ONE, &View::Committed, &second) == Some(1)
        && met(alloc, version, ONE, &since, &second) == Some(3)
        && met(alloc, version, ZERO, &since, &Probe::All) == Some(0)
}

/// How many rows a transaction without changes sees of the table of this name.
fn seen(alloc: Global, version: &Version, name: &str, view: &View) -> Option<usize> {
    let version = version.get();
    let log = Log::new(alloc);
    let views = TableViews::new(version.tables(), version, &log);
    let name = Text::from_text(alloc, name).ok()?;
    match views.rows(alloc, &name, view, &Probe::All) {
        Ok(rows) => Some(rows.len()),
        Err(_) => None,
    }
}

/// Whether a transaction sees the two documents of `t1`, and none of a table that isn't there.
fn are_seen(alloc: Global, version: &Version) -> bool {
    seen(alloc, version, "t1", &View::User) == Some(2)
        && seen(alloc, version, "t2", &View::User) == Some(0)
        && seen(alloc, version, "t2", &View::Committed) == Some(0)
}

/// The table's documents with the key in the field, where that has an index.
fn with_key(version: &Version, table: TableId, field: &Text, key: &Key) -> Option<DocIds> {
    let versions = version.get();
    if !versions.has_index(table, field) {
        return None;
    }
    versions.with_key(table, field, key).ok()
}

/// The first document of `t1` with the number in the field `a`.
fn with_number(alloc: Global, version: &Version, number: i128) -> Option<u128> {
    let key = Key::Number {
        coefficient: number,
        exponent: 0,
    };
    let field = Text::from_text(alloc, "a").ok()?;
    let ids = with_key(version, ONE, &field, &key)?;
    let id = ids.as_slice().first()?;
    Some(id.raw)
}

/// The document and the version of a table's revision.
fn revision_at(version: &Version, table: TableId, i: u64) -> Option<(u128, u64)> {
    let revision = version.get().revision_at(table, i)?;
    Some((revision.metadata.id.raw, revision.metadata.version))
}

/// Whether the version with a deleted document tells so.
fn is_deleted(alloc: Global, version: &Version) -> bool {
    with_number(alloc, version, 1) == None
        && with_number(alloc, version, 2) == Some(3)
        && revision_at(version, ONE, 0) == Some((2, 0))
        && revision_at(version, ONE, 2) == Some((2, 1))
        && revision_at(version, ONE, 3) == None
        && revision_at(version, ZERO, 0) == None
}

/// Whether the version behind it tells what came with its block.
fn is_changed(alloc: Global, version: &Version) -> bool {
    with_number(alloc, version, 2) == None
        && with_number(alloc, version, 5) == Some(3)
        && revision_at(version, ONE, 3) == Some((3, 1))
}

/// Whether the table's documents are those of these ids, each with a space behind it.
fn has_documents(alloc: Global, version: &Version, ids: &str) -> Option<bool> {
    let documents = documents(version, ONE)?;
    let mut told = String::new(alloc);
    for document in documents.as_slice() {
        let text = format!(in alloc; "{} ", document.raw).ok()?;
        told.push_str(text.as_str()).ok()?;
    }
    Some(told.as_str() == ids)
}

/// Whether the version has these documents in `t1`.
fn are_documents(alloc: Global, version: &Version, ids: &str) -> bool {
    has_documents(alloc, version, ids) == Some(true)
}

/// Whether `t1` has the documents `then` behind the blocks, and a version, and a share of it, those of `ids` before.
fn are_behind(alloc: Global, journal: &str, ids: &str, blocks: &str, then: &str) -> Option<bool> {
    let version = version_of(alloc, journal)?;
    let share = version.share(alloc)?;
    let later = continued(alloc, &version, blocks)?;
    let are_before = are_documents(alloc, &version, ids) && are_documents(alloc, &share, ids);
    let are_later = are_documents(alloc, &later, then) && is_called(alloc, &later, ONE, "t1");
    Some(are_before && are_later)
}

/// Whether a version, and a share of it, stays as it was behind a block more.
fn is_kept(alloc: Global) -> Option<bool> {
    let version = version_of(alloc, DELETED)?;
    let share = version.share(alloc)?;
    let later = continued(alloc, &version, "put 1 3 1 1 {a:5}")?;
    Some(is_deleted(alloc, &version) && is_deleted(alloc, &share) && is_changed(alloc, &later))
}

/// Whether a copy of the tables loses `t0` alone.
fn are_dropped(alloc: Global, tables: &[Table], changes: &[Schema]) -> Option<bool> {
    let mut tables = copy_tables(alloc, tables).ok()?;
    change_all(alloc, &mut tables, changes).ok()?;
    Some(active_table(&tables, "t0").is_none() && active_table(&tables, "t1").is_some())
}

/// Whether a copy of the indexes has one on `b` behind that on `a`.
fn are_indexed(alloc: Global, indexes: &[Indexed], changes: &[Schema]) -> Option<bool> {
    let mut indexes = copy_indexes(alloc, indexes).ok()?;
    index_all(alloc, &mut indexes, changes).ok()?;
    Some(has_index(&indexes, ONE, "a") && has_index(&indexes, ONE, "b"))
}

/// Whether copies are changed by the block, and the version has no index on `b`.
fn are_copies_changed(alloc: Global, version: &Version, page: &Page) -> bool {
    let changes = page.block.get().info.schema.as_slice();
    are_dropped(alloc, version.get().tables(), changes) == Some(true)
        && are_indexed(alloc, version.get().all_indexes(), changes) == Some(true)
        && !has_index(version.get().all_indexes(), ONE, "b")
}

/// Whether tables and indexes are changed in copies, and the table `t0` of the version and of a share stays.
fn are_copied(alloc: Global) -> Option<bool> {
    let version = version_of(alloc, "tables 2, index a 1 / put 1 2 0 1 {a:1}")?;
    let share = version.share(alloc)?;
    let page = page_of(alloc, "drop t0 0, index b 1")?;
    let is_changed = are_copies_changed(alloc, &version, &page)
        && is_called(alloc, &version, ZERO, "t0");
    let is_shared = are_copies_changed(alloc, &share, &page)
        && is_called(alloc, &share, ZERO, "t0");
    Some(is_changed && is_shared)
}

/// Whether the version with a dropped table, and a share of it, tells so.
fn are_dropped_told(alloc: Global) -> Option<bool> {
    let version = version_of(alloc, DROPPED)?;
    let share = version.share(alloc)?;
    Some(is_dropped(alloc, &version) == Some(true) && is_dropped(alloc, &share) == Some(true))
}

/// Whether the version with a changed document, and a share of it, shows so.
fn are_changed_shown(alloc: Global) -> Option<bool> {
    let version = version_of(alloc, CHANGED)?;
    let share = version.share(alloc)?;
    Some(are_shown(alloc, &version) && are_shown(alloc, &share) && are_seen(alloc, &version))
}

#[test]
fn a_version_tells_what_its_blocks_say(rt: HostRuntime) {
    let alloc = rt.alloc();
    assert_eq!(rt; are_dropped_told(alloc), Some(true));
    assert_eq!(rt; are_changed_shown(alloc), Some(true));
    assert_eq!(rt; are_copied(alloc), Some(true));
}

#[test]
fn a_version_stays_as_it_was(rt: HostRuntime) {
    let alloc = rt.alloc();
    assert_eq!(rt; is_kept(alloc), Some(true));
    let one = "tables 2 / put 1 2 0 1 {a:1}";
    assert_eq!(rt;
        are_behind(alloc, one, "2 ", "put 1 3 0 1 {a:2}", "2 3 "),
        Some(true)
    );
    assert_eq!(rt;
        are_behind(alloc, "tables 2", "", MANY, "5 3 9 4 8 7 6 "),
        Some(true)
    );
}

fn is_deletion_copied(alloc: Global) -> bool {
    matches!(copy_content(alloc, &Content::Deleted), Ok(Content::Deleted))
}

#[test]
fn a_deletion_is_copied(rt: HostRuntime) {
    assert!(rt; is_deletion_copied(rt.alloc()));
}
