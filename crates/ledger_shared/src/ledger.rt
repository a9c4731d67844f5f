//! The ledger that threads share, and the calls on it.
ghost use Rattle.std.specs.Prelude.{◌≡◌, ℕ, ◌<◌, List, [], ◌++◌, All, map, length, vec_len, Some};
ghost use Rattle.std.specs.Prelude.{IfOk, IfErr, OnOk, OnErr};
ghost use mathlib.Core.List.{IsPrefix};
ghost use Rattle.turn_lock.specs.History.{AreWhole, OwnedOnce, ShareNothing, after_split, newborn, split_off};
ghost use Rattle.turn_lock.specs.History.{with_seen};
ghost use Rattle.turn_lock.specs.Rule.{Each};
ghost use Rattle.turn_lock.specs.Seats.{known, own, seen};
ghost use Rattle.laws_machine.specs.Entries.{Entry};
ghost use Rattle.laws_history.specs.Steps.{knows_behind};
ghost use Rattle.ledger_shared.specs.Acknowledged.{KeepsBlock};
ghost use Rattle.ledger_shared.specs.Behind.{IsRightFor, Keeps};
ghost use Rattle.ledger_shared.specs.Calls.{Begins, Commits, Extends};
ghost use Rattle.ledger_shared.specs.Known.{Calls, MayCommit, MayJoin};
ghost use Rattle.ledger_shared.specs.Ledgers.{HasTurn, IsPass, begins_with, opened_of};
ghost use Rattle.ledger_shared.specs.Told.{all_told};

use crate::entry::Entries;
use crate::shared::Shared;
use ion_values::OutOfMemory;
use ledger_core::{BeginFault, CommitFault, Receipt, Tail, prepare};
use outside::{Clock, JournalStore};
use ql_types::{Hash32, Place};
use std::alloc::Global;
use std::sync::Wait;
use turn_lock::{Counted, Turns, Unmade};
use txn_core::Txn;

/// What a thread calls the ledger with. Contracts see in it a beginning of the ledger's entries that was seen, and
/// those that were made with it.
pub type Pass<S: JournalStore, C: Clock> = turn_lock::Pass<Shared<S, C>>;

/// Memory ran out. The tail comes back.
#[derive(Drop)]
pub struct NotMade<S: JournalStore, C: Clock> {
    pub tail: Tail<S, C>,
}

/// What is left of a ledger: its tail, and its entries in order.
#[derive(Drop)]
pub struct Closed<S: JournalStore, C: Clock> {
    pub tail: Tail<S, C>,
    pub entries: Entries,
}

/// A ledger of several threads. They share it by reference, each with a pass of its own.
#[derive(Drop)]
pub struct Ledger<S: JournalStore, C: Clock> {
    turns: Turns<Shared<S, C>>,
}

impl<S: JournalStore, C: Clock> Ledger<S, C> {
    /// A ledger of this tail, and its first pass. Refused only if memory runs out.
    pub fn new(alloc: Global, tail: Tail<S, C>) -> Result<(Ledger<S, C>, Pass<S, C>), NotMade<S, C>>
        ensures pass { IfOk result (λ made. IsPass S.told made.0 made.1) }
        ensures opened { IfOk result (λ made. opened_of made.0 ≡ tail) }
        ensures known { IfOk result (λ made. known made.1 ≡ newborn) }
        ensures refused { IfErr result (λ e. e.tail ≡ tail) }
    {
        let shared = Shared::new(alloc, tail);
        match Turns::new(alloc, shared) {
            Ok((turns, pass)) => Ok((Ledger { turns }, pass)),
            Err(Unmade { state }) => Err(NotMade {
                tail: state.into_tail(),
            }),
        }
    }

    /// Begins a transaction at this place of the script, on all blocks that stand. It may wait for the turn.
    pub fn begin<R: Wait>(
        &self,
        rt: &R,
        alloc: Global,
        pass: &mut Pass<S, C>,
        place: Place,
    ) -> Result<Txn, BeginFault>
        requires { IsPass S.told self.now pass.old }
        ensures pass { IsPass S.told self.now pass.new }
        ensures begins { Calls (known pass.old) (known pass.new) (λ front added.
            Begins (begins_with S.told self.now) front place result added) }
        ensures opens { IfOk result (λ txn. MayCommit (begins_with S.told self.now)
            (known pass.new) txn) }
    {
        let mut shared = self.turns.take(rt, pass);
        let before = shared.count();
        let result = shared.begin(alloc, place);
        self.put_back(pass, shared, before);
        result
    }

    /// Commits a transaction that was begun with this pass. It may wait for the turn. If nothing was pending in the
    /// store at the tail's reload, no stop of the machine takes the block of an Ok away.
    pub fn commit<R: Wait>(
        &self,
        rt: &R,
        alloc: Global,
        pass: &mut Pass<S, C>,
        txn: Txn,
        digest: Hash32,
    ) -> Result<Receipt, CommitFault>
        requires pass { IsPass S.told self.now pass.old }
        requires opens { MayCommit (begins_with S.told self.now)
            (known pass.old) txn }
        ensures pass { IsPass S.told self.now pass.new }
        ensures commits { Calls (known pass.old) (known pass.new) (λ front added.
            Commits (begins_with S.told self.now) front txn (Some digest)
            result added) }
        ensures kept { IfOk result (λ receipt. KeepsBlock S.told C.answers C.always (opened_of self.now)
            receipt (seen pass.new)) }
    {
        self.commit_with(rt, alloc, pass, txn, Some(digest))
    }

    /// Commits with the digest that is sent, if one is. What hangs on no earlier block is made before the
    /// turn is taken.
    pub(crate) fn commit_with<R: Wait>(
        &self,
        rt: &R,
        alloc: Global,
        pass: &mut Pass<S, C>,
        txn: Txn,
        sent: Option<Hash32>,
    ) -> Result<Receipt, CommitFault>
        requires pass { IsPass S.told self.now pass.old }
        requires opens { MayCommit (begins_with S.told self.now)
            (known pass.old) txn }
        ensures pass { IsPass S.told self.now pass.new }
        ensures commits { Calls (known pass.old) (known pass.new) (λ front added.
            Commits (begins_with S.told self.now) front txn sent result added) }
        ensures kept { IfOk result (λ receipt. KeepsBlock S.told C.answers C.always (opened_of self.now)
            receipt (seen pass.new)) }
    {
        let prepared = prepare(alloc, txn);
        let mut shared = self.turns.take(rt, pass);
        let before = shared.count();
        let result = shared.commit(alloc, prepared, sent);
        shared.is_home();
        self.put_back(pass, shared, before);
        result
    }

    /// Gives the turn back. An entry more than before is told to the pass.
    fn put_back(&self, pass: &mut Pass<S, C>, shared: Shared<S, C>, before: u64)
        requires pass { HasTurn S.told self.now pass.old }
        requires opened { shared.opened ≡ opened_of self.now }
        requires before { before ≡ length (seen pass.old) }
        requires joins { Extends (seen pass.old) shared.entries
            (λ added. MayJoin (seen pass.old) (own pass.old) added) }
        ensures pass { IsPass S.told self.now pass.new }
        ensures known { (added : List Entry) → shared.entries ≡ seen pass.old ++ added
            → known pass.new ≡ knows_behind (known pass.old) (seen pass.old) added }
    {
        if shared.count() == before {
            self.turns.give(pass, shared);
        } else {
            self.turns.step(pass, &shared);
            self.turns.give(pass, shared);
        }
    }

    /// A further pass, which has seen as much and made nothing.
    pub fn split(&self, pass: &mut Pass<S, C>) -> Result<Pass<S, C>, OutOfMemory>
        requires { IsPass S.told self.now pass.old }
        ensures pass { IsPass S.told self.now pass.new }
        ensures further { IfOk result (λ other. IsPass S.told self.now other) }
        ensures split { IfOk result (λ other. known other ≡ split_off (known pass.old)) }
        ensures known { OnOk result (known pass.new ≡ after_split (known pass.old)) }
        ensures refused { OnErr result (known pass.new ≡ known pass.old) }
    {
        self.turns.split(pass)
    }

    /// Brings two passes to one list of what was seen, which begins with what either had seen.
    pub fn meet(&self, a: &mut Pass<S, C>, b: &mut Pass<S, C>) -> Result<(), OutOfMemory>
        requires a { IsPass S.told self.now a.old }
        requires b { IsPass S.told self.now b.old }
        ensures a { IsPass S.told self.now a.new }
        ensures b { IsPass S.told self.now b.new }
        ensures one { OnOk result (seen a.new ≡ seen b.new) }
        ensures known_a { known a.new ≡ with_seen (known a.old) (seen a.new) }
        ensures known_b { known b.new ≡ with_seen (known b.old) (seen b.new) }
        ensures longer { OnOk result (IsPrefix (seen a.old) (seen a.new) × IsPrefix (seen b.old) (seen b.new)) }
        ensures apart { OnOk result (ShareNothing (own a.new) (own b.new)) }
        ensures refused { OnErr result ((known a.new ≡ known a.old) × (known b.new ≡ known b.old)) }
    {
        self.turns.meet(a, b)
    }

    /// Ends the ledger, with all its passes, of which there is one at least. It may wait for the turn, and takes no
    /// memory.
    pub fn close<R: Wait>(self, rt: &R, passes: Vec<Pass<S, C>>) -> Closed<S, C>
        requires some { 0 < vec_len passes }
        requires each { All (IsPass S.told self) passes.items }
        ensures keeps { Keeps S.told C.answers C.always (opened_of self) result.tail
            (all_told result.tail.standing.mask result.entries.items.items) }
        ensures right { IsRightFor S.told (opened_of self)
            (all_told result.tail.standing.mask result.entries.items.items) }
        ensures seen { Each (λ p. IsPrefix (seen p)
            (all_told result.tail.standing.mask result.entries.items.items)) passes.items }
        ensures once { AreWhole (map known passes.items)
            → OwnedOnce (all_told result.tail.standing.mask result.entries.items.items) (map known passes.items) }
    {
        let Ledger { turns } = self;
        let shared = turns.close(rt, passes);
        let parts = shared.into_parts();
        Closed {
            tail: parts.0,
            entries: parts.1,
        }
    }
}
