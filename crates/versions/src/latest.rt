//! The latest revision of each document.
ghost use Rattle.std.specs.Prelude.{◌≡◌, [], ◌∷◌, ◌++◌, length, map, slice_set, slice_get, Some, None, option_and_then, IfOk, OnOk};
ghost use Rattle.std.specs.List.{cons_option, filter, filter_map};
ghost use Rattle.std.specs.Map.{keys_of};
ghost use Rattle.std.specs.Option.{IfSome, option_copied};
ghost use Rattle.std.specs.Arc.{arc_value};
ghost use Rattle.versions.specs.Filing.{IsSpot, places_from};
ghost use Rattle.versions.specs.Lookups.{AreApart, document_in, is_one_of};
ghost use Rattle.versions.specs.Newest.{id_of, put};
ghost use Rattle.versions.specs.Places.{ids_of, is_behind, last_with, place_in, put_place};

use crate::recorded::Recorded;
use containers::Sequence;
use ion_values::OutOfMemory;
use pmap::PMap;
use pvec::PVec;
use ql_types::{DocId, Steps};
use std::alloc::Global;
use std::collections::BTreeMap;
use std::marker::Model;
use std::sync::Arc;

/// Where a document stands among the latest revisions or will stand, and what stands there now.
#[derive(Drop)]
pub(crate) struct Spot<'a> {
    pub(crate) at: u64,
    pub(crate) old: Option<&'a Recorded>,
}

/// Places of documents, each of which leads to itself.
type Places = BTreeMap<u64, u64>;

/// The latest revision of each document, in order of first insertion, and the place of each document among them.
#[derive(Drop)]
pub(crate) struct Latest {
    alloc: Global,
    documents: PVec<Recorded>,
    places: PMap<DocId, u64>,
}

impl Model for Latest {
    ghost use Rattle.std.specs.Prelude.{List};
    ghost use Rattle.std.specs.Coded.{coded_list};
    ghost use Rattle.versions.specs.contracts.recorded.Recorded as recorded;
    ghost use Rattle.versions.specs.declared.recorded.Recorded.{Recorded};
    ghost use Rattle.versions.specs.Places.{ArePlaces, ids_of};

    ghost Value = { List Recorded };

    ghost coded = { coded_list recorded.the_row.coded };

    ghost view = { λ l. l.documents };

    ghost invariant = { λ l. ArePlaces l.places (ids_of l.documents) };
}

impl Latest {
    /// No documents. It takes no memory.
    pub(crate) fn new(alloc: Global) -> Latest
        ensures { result ≡ [] }
    {
        Latest {
            alloc,
            documents: PVec::new(alloc),
            places: PMap::new(alloc),
        }
    }

    /// This list once more. One more owner of it may be refused.
    pub(crate) fn share(&self) -> Result<Latest, OutOfMemory>
        ensures { IfOk result (λ same. same ≡ self.now) }
    {
        Ok(Latest {
            alloc: self.alloc,
            documents: self.documents.share()?,
            places: self.places.share()?,
        })
    }

    /// How many documents there are.
    pub(crate) fn len(&self) -> u64
        ensures { result ≡ length self.now }
    {
        self.documents.len()
    }

    /// The latest revision of the document at a place, or None past the end.
    pub(crate) fn get(&self, at: u64) -> Option<&Recorded>
        ensures { option_copied result ≡ slice_get self.now at }
    {
        self.documents.get(at)
    }

    /// The revisions in order, lent.
    pub(crate) fn all(&self, alloc: Global) -> Result<Sequence<&Recorded>, OutOfMemory>
        ensures { IfOk result (λ all. map (λ r. r.now) all ≡ self.now) }
    {
        let all = all_lent(alloc, &self.documents)?;
        Ok(all)
    }

    /// The revisions at the places in their order, lent.
    pub(crate) fn at_places(
        &self,
        alloc: Global,
        places: &[u64],
    ) -> Result<Sequence<&Recorded>, OutOfMemory>
        ensures { IfOk result (λ all.
            map (λ r. r.now) all ≡ filter_map (λ at. slice_get self.now at) places.now) }
    {
        let mut all = Sequence::new(alloc);
        'places: for at in places {
            push_some(&mut all, self.get(*at))?;
        }
        Ok(all)
    }

    /// The places of these documents. An id of none of them has no place.
    fn places_of(&self, ids: &[DocId]) -> Result<Places, OutOfMemory>
        requires { AreApart self.now }
        ensures { IfOk result (λ places. keys_of places.entries ≡ places_from (is_one_of ids.now) 0 self.now) }
    {
        let mut places = BTreeMap::new(self.alloc);
        'ids: for id in ids {
            put_place(&mut places, self.place_of(*id))?;
        }
        Ok(places)
    }

    /// The latest revision of the document at a place, if there is a place.
    fn get_at(&self, at: Option<u64>) -> Option<&Recorded>
        ensures { option_copied result ≡ option_and_then (slice_get self.now) at }
    {
        self.get(at?)
    }

    /// The revisions of these documents in order, lent, if the ids are in this order too. An id of none of them counts
    /// for nothing.
    fn in_order(
        &self,
        alloc: Global,
        ids: &[DocId],
    ) -> Result<Option<Sequence<&Recorded>>, OutOfMemory>
        requires { AreApart self.now }
        ensures { IfOk result (λ found. IfSome found (λ all.
            map (λ r. r.now) all ≡ filter (is_one_of ids.now) self.now)) }
    {
        let mut all = Sequence::new(alloc);
        let mut last = None;
        'ids: for id in ids {
            let place = self.place_of(*id);
            if !is_behind(last, place) {
                return Ok(None);
            }
            push_some(&mut all, self.get_at(place))?;
            last = last_with(last, place);
        }
        Ok(Some(all))
    }

    /// The revisions of these documents in order, lent. An id of none of them counts for nothing.
    ///
    /// It is quickest if the ids are in order.
    pub(crate) fn among(
        &self,
        alloc: Global,
        ids: &[DocId],
    ) -> Result<Sequence<&Recorded>, OutOfMemory>
        requires { AreApart self.now }
        ensures { IfOk result (λ all. map (λ r. r.now) all ≡ filter (is_one_of ids.now) self.now) }
    {
        if let Some(found) = self.in_order(alloc, ids)? {
            return Ok(found);
        }
        let set = self.places_of(ids)?;
        let all = lent_at(alloc, &self.documents, set)?;
        Ok(all)
    }

    /// The place of a document, or None where it isn't among them.
    pub(crate) fn place_of(&self, id: DocId) -> Option<u64>
        ensures { result ≡ place_in (ids_of self.now) id.raw }
    {
        self.places.get(&id, &mut Steps { taken: 0 }).copied()
    }

    /// Where a document stands or will stand, and what stands there now.
    pub(crate) fn spot(&self, id: DocId) -> Spot<'_>
        ensures { IsSpot self.now id.raw result.at (option_copied result.old) }
    {
        match self.place_of(id) {
            Some(at) => Spot {
                at,
                old: self.get(at),
            },
            None => Spot {
                at: self.len(),
                old: None,
            },
        }
    }

    /// The latest revision of a document, or None where it isn't among them.
    #[tactic(auto, using(crate::proofs::Lookups::document_at, crate::proofs::Lookups::document_nowhere))]
    pub(crate) fn document(&self, id: DocId) -> Option<&Recorded>
        ensures { option_copied result ≡ document_in self.now id.raw }
    {
        match self.place_of(id) {
            Some(at) => self.get(at),
            None => None,
        }
    }

    /// The documents with a revision more: in the place of its document's earlier one, or at the end.
    pub(crate) fn put(&self, item: Arc<Recorded>) -> Result<Latest, OutOfMemory>
        ensures { IfOk result (λ new. new ≡ put self.now (arc_value item)) }
    {
        match self.place_of(item.revision.metadata.id) {
            Some(at) => self.replace(at, item),
            None => self.append(item),
        }
    }

    /// The documents with a later revision of the one at this place.
    fn replace(&self, at: u64, item: Arc<Recorded>) -> Result<Latest, OutOfMemory>
        requires { place_in (ids_of self.now) (id_of (arc_value item)) ≡ Some at }
        ensures { IfOk result (λ new. new ≡ slice_set self.now at (arc_value item)) }
    {
        let documents = self.documents.set(at, item)?;
        let places = self.places.share()?;
        Ok(Latest {
            alloc: self.alloc,
            documents,
            places,
        })
    }

    /// The documents with the first revision of another one at the end.
    fn append(&self, item: Arc<Recorded>) -> Result<Latest, OutOfMemory>
        requires { place_in (ids_of self.now) (id_of (arc_value item)) ≡ None }
        ensures { IfOk result (λ new. new ≡ self.now ++ arc_value item ∷ []) }
    {
        let id = Arc::new(self.alloc, item.revision.metadata.id)?;
        let place = Arc::new(self.alloc, self.documents.len())?;
        let places = self.places.insert(id, place)?;
        let documents = self.documents.push(item)?;
        Ok(Latest {
            alloc: self.alloc,
            documents,
            places,
        })
    }
}

/// The documents in order, lent.
fn all_lent(alloc: Global, documents: &PVec<Recorded>) -> Result<Sequence<&Recorded>, OutOfMemory>
    ensures { IfOk result (λ all. map (λ r. r.now) all ≡ documents.now) }
{
    let mut all = Sequence::new(alloc);
    'documents: for at in 0..documents.len() {
        let Some(document) = documents.get(at) else {
            unreachable!()
        };
        all.push(document)?;
    }
    Ok(all)
}

/// Whether the place is behind the last one, if there are both.
fn is_behind(last: Option<u64>, place: Option<u64>) -> bool
    ensures { result ≡ is_behind last place }
{
    match (last, place) {
        (Some(last), Some(place)) => last < place,
        _ => true,
    }
}

/// The last place, with this one behind it.
fn last_with(last: Option<u64>, place: Option<u64>) -> Option<u64>
    ensures { result ≡ last_with last place }
{
    match place {
        None => last,
        Some(place) => Some(place),
    }
}

/// Puts this place among the others, if there is one.
fn put_place(places: &mut Places, at: Option<u64>) -> Result<(), OutOfMemory>
    ensures { OnOk result (places.new.entries ≡ put_place at places.old.entries) }
{
    match at {
        None => Ok(()),
        Some(at) => {
            places.insert(at, at)?;
            Ok(())
        }
    }
}

/// The documents at the places, in their order, lent.
fn lent_at(
    alloc: Global,
    documents: &PVec<Recorded>,
    places: Places,
) -> Result<Sequence<&Recorded>, OutOfMemory>
    ensures { IfOk result (λ all.
        map (λ r. r.now) all ≡ filter_map (λ at. slice_get documents.now at) (keys_of places.entries)) }
{
    let mut all = Sequence::new(alloc);
    'places: for at in places.into_keys() {
        push_some(&mut all, documents.get(at))?;
    }
    Ok(all)
}

/// Puts the document at the end, if there is one.
fn push_some<'a>(
    all: &mut Sequence<&'a Recorded>,
    document: Option<&'a Recorded>,
) -> Result<(), OutOfMemory>
    ensures { OnOk result (map (λ r. r.now) all.new ≡ map (λ r. r.now) all.old
        ++ cons_option (option_copied document.entry) []) }
{
    match document {
        None => Ok(()),
        Some(document) => {
            all.push(document)?;
            Ok(())
        }
    }
}
