//! Documents with their latest revisions, a transaction's pending ones counted.
ghost use Rattle.std.specs.Prelude.{◌≡◌, ◌++◌, length, map, IfOk, OnOk};
ghost use Rattle.ledger_model.specs.Run.{is_left, left_of};
ghost use Rattle.ledger_model.specs.State.{draft_of};
ghost use Rattle.ledger_model.specs.Views.{put, latest, latest_from};
ghost use Rattle.txn_core.specs.Narrow.{AllAmong};
ghost use Rattle.txn_core.specs.Seen.{place_in};
ghost use Rattle.versions.specs.Lookups.{those_among};
ghost use Rattle.view_rows.specs.Seen.{drafts_seen, draft_seen};

use crate::log::Log;
use containers::Sequence;
use ion_values::OutOfMemory;
use ledger_model::{Content, Draft, Drafts};
use pql_model::DocIds;
use ql_types::DocId;
use std::alloc::Global;
use versions::Versions;
use view_rows::{Seen, all_committed, pending};

/// The place of a document among others.
fn place_of(documents: &[Seen<'_>], id: DocId) -> Option<usize>
    ensures { result ≡ place_in (drafts_seen documents.now) id.raw }
{
    for (at, document) in documents.iter().enumerate() {
        if document.id.raw == id.raw {
            return Some(at);
        }
    }
    None
}

/// Puts a revision in the place of its document's earlier one, or at the end.
pub(crate) fn put<'a>(
    documents: &mut Sequence<Seen<'a>>,
    draft: Seen<'a>,
) -> Result<(), OutOfMemory>
    ensures { OnOk result (drafts_seen documents.new ≡ put (drafts_seen documents.old) (draft_seen draft.entry)) }
{
    match place_of(documents.as_slice(), draft.id) {
        Some(at) => {
            documents.set(at, draft);
            Ok(())
        }
        None => documents.push(draft),
    }
}

/// Puts pending revisions in, one after another.
fn put_all<'a>(documents: &mut Sequence<Seen<'a>>, log: &'a [Draft]) -> Result<(), OutOfMemory>
    ensures { OnOk result (drafts_seen documents.new ≡ latest_from (drafts_seen documents.old) log.now) }
{
    'pending: for draft in log {
        put(documents, pending(draft))?;
    }
    Ok(())
}

/// Puts revisions in that are lent one by one, one after another.
fn put_lent<'a>(documents: &mut Sequence<Seen<'a>>, newest: &[&'a Draft]) -> Result<(), OutOfMemory>
    ensures { OnOk result (drafts_seen documents.new
        ≡ latest_from (drafts_seen documents.old) (map (λ d. d.now) newest.now)) }
{
    'newest: for draft in newest {
        put(documents, pending(draft))?;
    }
    Ok(())
}

/// Puts pending revisions in, one after another, of each document the last one alone.
fn put_log<'a>(
    alloc: Global,
    documents: &mut Sequence<Seen<'a>>,
    log: &'a Log,
) -> Result<(), OutOfMemory>
    ensures { OnOk result (drafts_seen documents.new ≡ latest_from (drafts_seen documents.old) log.now) }
{
    let newest = log.newest(alloc)?;
    put_lent(documents, newest.as_slice())?;
    Ok(())
}

/// How many documents the revisions are of, those of the second list counted.
pub(crate) fn count_touched(alloc: Global, log: &Log, more: &[Draft]) -> Result<usize, OutOfMemory>
    ensures { IfOk result (λ count. count ≡ length (latest (log.now ++ more.now))) }
{
    let mut documents = Sequence::new(alloc);
    put_log(alloc, &mut documents, log)?;
    put_all(&mut documents, more)?;
    Ok(documents.len())
}

/// These documents, each with its latest revision, in order of first insertion: those of the version under the pending
/// revisions, whose documents are all among them.
pub(crate) fn latest_among<'a>(
    alloc: Global,
    base: &'a Versions,
    ids: &[DocId],
    log: &'a Log,
) -> Result<Sequence<Seen<'a>>, OutOfMemory>
    requires { AllAmong ids.now log.now }
    ensures { IfOk result (λ documents. drafts_seen documents ≡
        those_among ids.now (latest (map draft_of base.now.revisions ++ log.now))) }
{
    let recorded = base.newest_among(alloc, ids)?;
    let mut documents = all_committed(alloc, recorded.as_slice())?;
    put_log(alloc, &mut documents, log)?;
    Ok(documents)
}

/// The place of a document among pending ones.
fn draft_place(documents: &[Draft], id: DocId) -> Option<usize>
    ensures { result ≡ place_in documents.now id.raw }
{
    for (at, document) in documents.iter().enumerate() {
        if document.id.raw == id.raw {
            return Some(at);
        }
    }
    None
}

/// Puts a revision in the place of its document's earlier one, or at the end.
fn put_draft(documents: &mut Drafts, draft: Draft) -> Result<(), OutOfMemory>
    ensures { OnOk result (documents.new ≡ put documents.old draft) }
{
    match draft_place(documents.as_slice(), draft.id) {
        Some(at) => {
            documents.set(at, draft);
            Ok(())
        }
        None => documents.push(draft),
    }
}

/// The documents in order of first touch, each with its latest revision.
fn latest(alloc: Global, log: Vec<Draft>) -> Result<Drafts, OutOfMemory>
    ensures { IfOk result (λ documents. documents ≡ latest log.items) }
{
    let mut documents = Sequence::new(alloc);
    'drafts: for draft in log {
        put_draft(&mut documents, draft)?;
    }
    Ok(documents)
}

/// The revisions that are left of those that pend, each with its document's last content, in order of first touch.
pub(crate) fn left_of(alloc: Global, log: Vec<Draft>) -> Result<Drafts, OutOfMemory>
    ensures { IfOk result (λ left. left ≡ left_of log.items) }
{
    let documents = latest(alloc, log)?;
    let mut left = Sequence::new(alloc);
    'drafts: for draft in documents.into_vec() {
        if is_left(&draft) {
            left.push(draft)?;
        }
    }
    Ok(left)
}

/// Whether the revision is left: it isn't that of a new document that was deleted again.
pub(crate) fn is_left(draft: &Draft) -> bool
    ensures { result ≡ is_left draft.now }
{
    match draft.content {
        Content::Deleted => draft.version != 0,
        Content::Kept(_) | Content::Redacted(_) => true,
    }
}
