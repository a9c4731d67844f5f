//! Pending revisions, with the last one of each document at hand.
ghost use Rattle.std.specs.Prelude.{◌≡◌, ◌+◌, [], ◌++◌, List, length, map, slice_get, IfOk, OnOk, OnErr};
ghost use Rattle.std.specs.List.{cons_option, filter_map};
ghost use Rattle.std.specs.Option.{option_copied};
ghost use Rattle.ledger_model.specs.Views.{latest};
ghost use Rattle.ledger_model.specs.declared.block.Draft as draft;
ghost use Rattle.txn_core.specs.Logs.{AreTouched, place_touched, put_touched};

use containers::Sequence;
use ion_values::OutOfMemory;
use ledger_model::Draft;
use ql_types::DocId;
use std::alloc::Global;
use std::marker::Model;

/// A document with pending revisions, and the place of the last of them.
#[derive(Clone, Copy)]
pub(crate) struct Touched {
    pub id: DocId,
    pub place: usize,
}

/// Pending revisions in order, which contracts see as their list, and the documents that they are of, in order of first
/// touch.
#[derive(Drop)]
pub struct Log {
    alloc: Global,
    drafts: Vec<Draft>,
    touched: Sequence<Touched>,
}

impl Model for Log {
    ghost use Rattle.std.specs.Prelude.{List};
    ghost use Rattle.std.specs.Coded.{coded_list};
    ghost use Rattle.ledger_model.specs.contracts.block.Draft as draft;
    ghost use Rattle.ledger_model.specs.declared.block.Draft.{Draft};
    ghost use Rattle.txn_core.specs.Logs.{AreTouched};

    ghost Value = { List Draft };

    ghost coded = { coded_list draft.the_row.coded };

    ghost view = { λ l. l.drafts.items };

    ghost invariant = { λ l. AreTouched l.drafts.items l.touched };
}

impl Log {
    /// No revisions. It takes no memory.
    pub fn new(alloc: Global) -> Log
        ensures { result ≡ [] }
    {
        Log {
            alloc,
            drafts: Vec::new(alloc),
            touched: Sequence::new(alloc),
        }
    }

    /// The revisions in order, lent.
    pub(crate) fn as_slice(&self) -> &[Draft]
        ensures { result.now ≡ self.now }
    {
        self.drafts.as_slice()
    }

    /// The revisions in order.
    pub(crate) fn into_vec(self) -> Vec<Draft>
        ensures { result.items ≡ self }
    {
        let Log { drafts, .. } = self;
        drafts
    }

    /// The documents that the revisions are of, in order of first touch.
    #[tactic(auto, using(crate::proofs::Logged::ids_touched))]
    pub(crate) fn touched(&self) -> &[Touched]
        ensures { map (λ t. t.id) result.now ≡ map (λ (d : draft.Draft). d.id) (latest self.now) }
    {
        self.touched.as_slice()
    }

    /// The last revision of each document, in order of first touch, lent.
    #[tactic(auto, using(crate::proofs::Logged::newest_touched))]
    pub(crate) fn newest(&self, alloc: Global) -> Result<Sequence<&Draft>, OutOfMemory>
        ensures { IfOk result (λ all. map (λ d. d.now) all ≡ latest self.now) }
    {
        let all = drafts_at(alloc, self.drafts.as_slice(), self.touched.as_slice())?;
        Ok(all)
    }

    /// Appends the revisions. If memory runs out, all is unchanged.
    pub(crate) fn append(&mut self, more: Vec<Draft>) -> Result<(), OutOfMemory>
        ensures all { OnOk result (self.new ≡ self.old ++ more.items) }
        ensures same { OnErr result (self.new ≡ self.old) }
    {
        let mut more = more;
        let count = self.drafts.len();
        let touched = touched_after(self.alloc, self.touched.as_slice(), count, more.as_slice())?;
        self.drafts.append(&mut more)?;
        self.touched = touched;
        Ok(())
    }
}

/// The revisions at the documents' places, lent.
fn drafts_at<'a>(
    alloc: Global,
    drafts: &'a [Draft],
    touched: &[Touched],
) -> Result<Sequence<&'a Draft>, OutOfMemory>
    ensures { IfOk result (λ all.
        map (λ d. d.now) all ≡ filter_map (λ t. slice_get drafts.now t.place) touched.now) }
{
    let mut all = Sequence::new(alloc);
    'touched: for document in touched {
        push_some(&mut all, draft_at(drafts, document.place))?;
    }
    Ok(all)
}

/// The revision at a place, if there is one.
fn draft_at(drafts: &[Draft], place: usize) -> Option<&Draft>
    ensures { option_copied result ≡ slice_get drafts.now place }
{
    drafts.get(place)
}

/// Puts the revision at the end, if there is one.
fn push_some<'a>(all: &mut Sequence<&'a Draft>, draft: Option<&'a Draft>) -> Result<(), OutOfMemory>
    ensures { OnOk result (map (λ d. d.now) all.new ≡ map (λ d. d.now) all.old
        ++ cons_option (option_copied draft.entry) []) }
{
    match draft {
        None => Ok(()),
        Some(draft) => {
            all.push(draft)?;
            Ok(())
        }
    }
}

/// The place of a document among others.
fn place_of(touched: &[Touched], id: DocId) -> Option<usize>
    ensures { result ≡ place_touched touched.now id.raw }
{
    for (at, document) in touched.iter().enumerate() {
        if document.id.raw == id.raw {
            return Some(at);
        }
    }
    None
}

/// Puts a document in the place of the same one, or at the end.
#[tactic(auto, using(crate::proofs::Logged::touched_within))]
fn put(touched: &mut Sequence<Touched>, document: Touched) -> Result<(), OutOfMemory>
    ensures { OnOk result (touched.new ≡ put_touched touched.old document) }
{
    match place_of(touched.as_slice(), document.id) {
        Some(at) => {
            touched.set(at, document);
            Ok(())
        }
        None => touched.push(document),
    }
}

/// The documents once more.
fn copied(alloc: Global, touched: &[Touched]) -> Result<Sequence<Touched>, OutOfMemory>
    ensures { IfOk result (λ new. new ≡ touched.now) }
{
    let mut new = Sequence::new(alloc);
    'touched: for document in touched {
        new.push(*document)?;
    }
    Ok(new)
}

fn place_behind(place: usize) -> Result<usize, OutOfMemory>
    ensures { IfOk result (λ next. next ≡ place + 1) }
{
    place.checked_add(1).ok_or(OutOfMemory)
}

/// The documents after more revisions, where there were `count`.
fn touched_after(
    alloc: Global,
    touched: &[Touched],
    count: usize,
    more: &[Draft],
) -> Result<Sequence<Touched>, OutOfMemory>
    ensures { IfOk result (λ new. (log : List draft.Draft) → length log ≡ count → AreTouched log touched.now
        → AreTouched (log ++ more.now) new) }
{
    let mut new = copied(alloc, touched)?;
    let mut place = count;
    'more: for draft in more {
        put(
            &mut new,
            Touched {
                id: draft.id,
                place,
            },
        )?;
        place = place_behind(place)?;
    }
    Ok(new)
}
