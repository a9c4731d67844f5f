//! All revisions, with the latest one of each document and the places of each document's revisions beside them.
ghost use Rattle.std.specs.Prelude.{◌≡◌, ◌<◌, ◌^◌, [], ◌∷◌, ◌++◌, length, map, slice_get, Some, option_and_then, option_map, IfOk};
ghost use Rattle.std.specs.Arc.{arc_value};
ghost use Rattle.std.specs.List.{filter_map};
ghost use Rattle.std.specs.Option.{option_copied};
ghost use Rattle.ledger_model.specs.Follows.{latest_of, named_by};
ghost use Rattle.ledger_model.specs.State.{draft_of};
ghost use Rattle.ledger_model.specs.Views.{latest};
ghost use Rattle.versions.specs.Held.{drafts_lent, recorded_lent, recorded_of};
ghost use Rattle.versions.specs.ByTable.{revisions_in};
ghost use Rattle.versions.specs.Histories.{revisions_of};
ghost use Rattle.versions.specs.Filing.{places_from};
ghost use Rattle.versions.specs.Live.{AllFit, AreLast, is_live};
ghost use Rattle.versions.specs.Lookups.{documents_of, last_among, last_of_each, those_among};
ghost use Rattle.versions.specs.Newest.{id_of, newest};
ghost use Rattle.versions.specs.Places.{numbers_of, place_in};
ghost use Rattle.versions.specs.Redactions.{IsOfDocument, all_changed};

use crate::by_table::{ByTable, place_of, table_entered};
use crate::histories::{Histories, entered, history_at, place_at};
use crate::latest::Latest;
use crate::live::{Live, ids_at, listed, live_after};
use crate::recorded::Recorded;
use crate::redactions::{changed_in, named_in};
use containers::Sequence;
use index_post::Filed;
use ion_values::OutOfMemory;
use ledger_model::Schema;
use pmap::PMap;
use pql_model::DocIds;
use pvec::PVec;
use ql_types::{DocId, TableId};
use std::alloc::Global;
use std::marker::Model;
use std::sync::Arc;

/// All revisions in order, which contracts see as their list, the latest one of each document, the places of each
/// document's revisions and of those of each table, and the places of the table's documents that aren't deleted.
#[derive(Drop)]
pub(crate) struct Shelf {
    alloc: Global,
    pub(crate) revisions: PVec<Recorded>,
    pub(crate) latest: Latest,
    histories: Histories,
    by_table: ByTable,
    live: Live,
}

impl Model for Shelf {
    ghost use Rattle.std.specs.Coded.{coded_list};
    ghost use Rattle.std.specs.Prelude.{List};
    ghost use Rattle.versions.specs.contracts.recorded.Recorded as recorded;
    ghost use Rattle.versions.specs.declared.recorded.Recorded.{Recorded};
    ghost use Rattle.versions.specs.Live.{IsWhole};

    ghost Value = { List Recorded };

    ghost coded = { coded_list recorded.the_row.coded };

    ghost view = { λ s. s.revisions };

    ghost invariant = { λ s. IsWhole s.revisions s.latest s.histories s.by_table s.live };
}

impl Shelf {
    /// No revisions. It takes no memory.
    pub(crate) fn new(alloc: Global) -> Shelf
        ensures { result ≡ [] }
    {
        Shelf {
            alloc,
            revisions: PVec::new(alloc),
            latest: Latest::new(alloc),
            histories: PVec::new(alloc),
            by_table: PMap::new(alloc),
            live: Filed::new(alloc),
        }
    }

    /// This shelf once more. One more owner of it may be refused.
    pub(crate) fn share(&self) -> Result<Shelf, OutOfMemory>
        ensures { IfOk result (λ same. same ≡ self.now) }
    {
        Ok(Shelf {
            alloc: self.alloc,
            revisions: self.revisions.share()?,
            latest: self.latest.share()?,
            histories: self.histories.share()?,
            by_table: self.by_table.share()?,
            live: self.live.share()?,
        })
    }

    /// The revisions with one more.
    pub(crate) fn push(&self, item: Recorded) -> Result<Shelf, OutOfMemory>
        ensures { IfOk result (λ new. new ≡ self.now ++ item ∷ []) }
    {
        id_fits(&item);
        let id = item.revision.metadata.id;
        let spot = self.latest.spot(id);
        let live = live_after(self.alloc, &self.live, &spot, &item)?;
        let document = self.latest.place_of(id);
        let table = item.table;
        let (place, same_place) = two(self.alloc, self.revisions.len())?;
        let (one, other) = two(self.alloc, item)?;
        let revisions = self.revisions.push(one)?;
        let latest = self.latest.put(other)?;
        let histories = entered(self.alloc, &self.histories, document, place)?;
        let by_table = table_entered(self.alloc, &self.by_table, table, same_place)?;
        Ok(Shelf {
            alloc: self.alloc,
            revisions,
            latest,
            histories,
            by_table,
            live,
        })
    }

    /// The revisions after a change, which redacts none but of this document, and not its latest.
    pub(crate) fn redacted(&self, change: &Schema, id: DocId) -> Result<Shelf, OutOfMemory>
        requires { IsOfDocument change.now id }
        ensures { IfOk result (λ new. new ≡ all_changed change.now self.now) }
    {
        let history = history_at(&self.histories, self.latest.place_of(id));
        let revisions = changed_in(self.alloc, &self.revisions, history, change)?;
        let latest = self.latest.share()?;
        let histories = self.histories.share()?;
        let by_table = self.by_table.share()?;
        let live = self.live.share()?;
        Ok(Shelf {
            alloc: self.alloc,
            revisions,
            latest,
            histories,
            by_table,
            live,
        })
    }

    /// The latest revision of each document.
    pub(crate) fn latest(&self) -> &Latest
        ensures { result.now ≡ newest self.now }
    {
        &self.latest
    }

    /// The latest revision of each document, in order of first insertion, lent.
    #[tactic(auto, using(crate::proofs::Newest::lent_newest, crate::proofs::LastOnes::lent_last))]
    pub(crate) fn newest(&self, alloc: Global) -> Result<Sequence<&Recorded>, OutOfMemory>
        ensures drafts { IfOk result (λ all. drafts_lent all ≡ latest (map draft_of (map recorded_of self.now))) }
        ensures last { IfOk result (λ all. map (λ r. Some r) (recorded_lent all)
            ≡ last_of_each (map recorded_of self.now)) }
    {
        let all = self.latest.all(alloc)?;
        Ok(all)
    }

    /// The same of these documents alone. An id that no revision has counts for nothing.
    pub(crate) fn newest_among(
        &self,
        alloc: Global,
        ids: &[DocId],
    ) -> Result<Sequence<&Recorded>, OutOfMemory>
        ensures drafts { IfOk result (λ all. drafts_lent all
            ≡ those_among ids.now (latest (map draft_of (map recorded_of self.now)))) }
        ensures last { IfOk result (λ all. map (λ r. Some r) (recorded_lent all)
            ≡ last_among ids.now (map recorded_of self.now)) }
    {
        let all = self.latest.among(alloc, ids)?;
        Ok(all)
    }

    /// The latest revisions at these places among those of all documents, lent.
    #[tactic(auto, using(crate::proofs::OneTable::lent_places, crate::proofs::OneTable::lent_last_at))]
    pub(crate) fn newest_at(
        &self,
        alloc: Global,
        places: &[u64],
    ) -> Result<Sequence<&Recorded>, OutOfMemory>
        ensures drafts { IfOk result (λ all. drafts_lent all ≡ filter_map (λ at.
            slice_get (latest (map draft_of (map recorded_of self.now))) at) places.now) }
        ensures last { IfOk result (AreLast (map recorded_of self.now)) }
    {
        let all = self.latest.at_places(alloc, places)?;
        Ok(all)
    }

    /// The places of the table's documents that aren't deleted, in their order.
    pub(crate) fn places_of(
        &self,
        alloc: Global,
        table: TableId,
    ) -> Result<Sequence<u64>, OutOfMemory>
        ensures { IfOk result (λ places. places
            ≡ places_from (is_live table) 0 (latest (map draft_of (map recorded_of self.now)))) }
    {
        let places = listed(alloc, self.live.of(&table))?;
        Ok(places)
    }

    /// The place of a document, or None where there is no revision of it.
    pub(crate) fn place(&self, id: DocId) -> Option<u64>
        ensures { result ≡ place_in (numbers_of (latest (map draft_of (map recorded_of self.now)))) id.raw }
    {
        self.latest.place_of(id)
    }

    /// The numbers of all ids are within their range. It does nothing.
    pub(crate) fn ids_fit(&self)
        ensures { AllFit (map recorded_of self.now) }
    {
        let _count = self.revisions.len();
    }

    /// How many revisions there are.
    pub(crate) fn count(&self) -> u64
        ensures { result ≡ length self.now }
    {
        self.revisions.len()
    }

    /// The revision at a place in block order, or None past the last one.
    pub(crate) fn at(&self, place: u64) -> Option<&Recorded>
        ensures { option_copied result ≡ slice_get self.now place }
    {
        self.revisions.get(place)
    }

    /// The last revision of a document, or None where there is none.
    #[tactic(auto, using(crate::proofs::Lookups::document_last))]
    pub(crate) fn last_of(&self, id: DocId) -> Option<&Recorded>
        ensures { option_map recorded_of (option_copied result) ≡ latest_of (map recorded_of self.now) id.raw }
    {
        self.latest.document(id)
    }

    /// The revision of this number of a document, counted from 0, or None where there is none.
    pub(crate) fn revision(&self, id: DocId, number: u64) -> Option<&Recorded>
        ensures { option_map recorded_of (option_copied result)
            ≡ slice_get (revisions_of (map recorded_of self.now) id.raw) number }
    {
        let place = place_at(&self.histories, self.latest.place_of(id), number);
        at_place(&self.revisions, place)
    }

    /// The first revision that the change redacts, which is of this document, or None where there is none.
    pub(crate) fn named(&self, change: &Schema, id: DocId) -> Option<&Recorded>
        requires { IsOfDocument change.now id }
        ensures { option_map recorded_of (option_copied result)
            ≡ named_by (map recorded_of self.now) change.now }
    {
        let history = history_at(&self.histories, self.latest.place_of(id));
        named_in(&self.revisions, history, change)
    }

    /// The revision of this number of a table in block order, counted from 0, or None where it has no more.
    pub(crate) fn revision_at(&self, table: TableId, i: u64) -> Option<&Recorded>
        ensures { option_map recorded_of (option_copied result)
            ≡ slice_get (revisions_in (map recorded_of self.now) table) i }
    {
        let place = place_of(&self.by_table, table, i);
        at_place(&self.revisions, place)
    }

    /// The ids of the table's documents that aren't deleted, in order of first insertion.
    pub(crate) fn documents(&self, table: TableId) -> Result<DocIds, OutOfMemory>
        ensures { IfOk result (λ ids. ids ≡ documents_of (map recorded_of self.now) table) }
    {
        let ids = ids_at(self.alloc, &self.latest, self.live.of(&table))?;
        Ok(ids)
    }
}

/// The number of the document's id is within its range. It does nothing.
fn id_fits(recorded: &Recorded)
    ensures { id_of recorded.now < 2 ^ 128 }
{
    let _raw = recorded.revision.metadata.id.raw;
}

/// The revision at a place, if there is one.
fn at_place(revisions: &PVec<Recorded>, place: Option<u64>) -> Option<&Recorded>
    ensures { option_copied result ≡ option_and_then (slice_get revisions.now) place }
{
    revisions.get(place?)
}

/// Two owners of a value.
fn two<T: Drop>(alloc: Global, value: T) -> Result<(Arc<T>, Arc<T>), OutOfMemory>
    ensures { IfOk result (λ both. (arc_value both.0 ≡ value) × (arc_value both.1 ≡ value)) }
{
    let one = Arc::new(alloc, value)?;
    let other = Arc::try_clone(&one)?;
    Ok((one, other))
}
