//! A transaction with what its block has wherever that comes to stand.
ghost use Rattle.std.specs.Prelude.{◌≡◌, IfOk, IfSome, IsTrue};
ghost use Rattle.ql_types.specs.Ids.{raw_id};
ghost use Rattle.ledger_model.specs.Whole.{place_fits};
ghost use Rattle.laws_validity.specs.Makes.{IsWithinAll};
ghost use Rattle.txn_core.specs.Effects.{finished_of};
ghost use Rattle.ledger_core.specs.NextBlock.{hashed_of};

use crate::hashed_drafts::{Hashed, hash_txn};
use ion_values::OutOfMemory;
use ledger_model::{Item, Said};
use ql_types::{Place, TxId};
use std::alloc::Global;
use std::marker::Model;
use txn_core::{Finished, Txn};

/// A transaction that is to be committed. With it comes what its block has wherever that stands: the field of the
/// statements, and what the revisions have of their contents, with the hashes. Contracts see the transaction.
#[derive(Drop)]
pub struct Prepared {
    txn: Txn,
    /// None if it is still to be made.
    hashed: Option<Hashed>,
}

impl Model for Prepared {
    ghost use Rattle.std.specs.Prelude.{◌≡◌, IfSome};
    ghost use Rattle.ledger_core.specs.NextBlock.{hashed_of};
    ghost use Rattle.txn_core.specs.Opened.{Opened, opened_code};

    ghost Value = { Opened };

    ghost coded = { opened_code };

    ghost view = { λ p. p.txn };

    ghost invariant = { λ p. IfSome p.hashed (λ made. made ≡ hashed_of p.txn.done) };
}

/// The transaction with what can be made of its block before its turn. It changes nothing that the commit returns: if
/// memory runs out, all of it is made at the commit.
pub fn prepare(alloc: Global, txn: Txn) -> Prepared
    ensures { result ≡ txn }
{
    let hashed = hash_txn(alloc, &txn).ok();
    Prepared { txn, hashed }
}

impl Prepared {
    /// The transaction with nothing made of its block. It takes no memory.
    pub(crate) fn unmade(txn: Txn) -> Prepared
        ensures { result ≡ txn }
    {
        Prepared { txn, hashed: None }
    }

    /// The transaction's id.
    pub fn tx(&self) -> TxId
        ensures { result.raw ≡ raw_id self.now.begun.mask self.now.begun.number 0 }
    {
        self.txn.tx()
    }

    /// On how many blocks it ran.
    pub(crate) fn since(&self) -> u64
        ensures { result ≡ self.now.since }
    {
        self.txn.since()
    }

    /// Its statements that were done, in order, with their answers.
    pub(crate) fn said(&self) -> &[Said]
        ensures { result.now ≡ self.now.done.said }
    {
        self.txn.said()
    }

    /// What its statements read, in order, repeats kept.
    pub(crate) fn footprint(&self) -> &[Item]
        ensures { result.now ≡ self.now.done.footprint }
    {
        self.txn.footprint()
    }

    /// Whether a statement of it was refused.
    pub(crate) fn is_ended(&self) -> bool
        ensures { result ≡ self.now.ended }
    {
        self.txn.is_ended()
    }

    /// What the transaction keeps is within its ranges. It does nothing.
    pub(crate) fn is_within(&self)
        ensures place { IsTrue (place_fits self.now.place) }
        ensures kept { IsWithinAll self.now.done }
    {
        place_is_within(self.txn.place());
        self.txn.is_within();
    }

    /// What the transaction becomes a block of, and what of it is hashed.
    pub(crate) fn finish(self, alloc: Global) -> Result<(Finished, Hashed), OutOfMemory>
        ensures finished { IfOk result (λ made. made.0 ≡ finished_of self) }
        ensures hashed { IfOk result (λ made. made.1 ≡ hashed_of self.done) }
    {
        let Prepared { txn, hashed } = self;
        let hashed = hashed_of(alloc, hashed, &txn)?;
        let finished = txn.finish(alloc)?;
        Ok((finished, hashed))
    }
}

/// What the transaction's block has hashed: what is made, or else new.
fn hashed_of(alloc: Global, made: Option<Hashed>, txn: &Txn) -> Result<Hashed, OutOfMemory>
    requires { IfSome made (λ made. made ≡ hashed_of txn.now.done) }
    ensures { IfOk result (λ made. made ≡ hashed_of txn.now.done) }
{
    match made {
        Some(made) => Ok(made),
        None => hash_txn(alloc, txn),
    }
}

/// That a place is within its range. It does nothing.
#[tactic(auto, using(crate::proofs::Bounds::place_within))]
fn place_is_within(place: Place)
    ensures { IsTrue (place_fits place) }
{
    let _ = (place.session, place.transaction);
}
