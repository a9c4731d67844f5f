//! What stands behind the turn.
ghost use Rattle.std.specs.Prelude.{◌≡◌, ℕ, [], Some, slice_get, option_map};
ghost use Rattle.ql_types.specs.Ids.{transaction_in};
ghost use Rattle.ledger_model.specs.declared.block.Block.{Block};
ghost use Rattle.laws_machine.specs.Entries.{sealed};
ghost use Rattle.ledger_shared.specs.Behind.{IsRightFor, Keeps, opening_of};
ghost use Rattle.ledger_shared.specs.Calls.{Begins, Commits, Extends, IsOpen, refusal_of};
ghost use Rattle.ledger_shared.specs.Told.{all_told, told};

use crate::entry::{Entries, Entry};
use ledger_core::{BeginFault, CommitFault, Prepared, Receipt, Tail, Uncommitted};
use ledger_model::{Block, Blocks};
use outside::{Clock, JournalStore};
use ql_types::{Hash32, Place, TxId};
use std::alloc::Global;
use std::marker::Model;
use std::snapshot::Snapshot;
use turn_lock::Counted;
use txn_core::Txn;

/// An entry as contracts see it. No value of it is made.
pub struct Told {
    made: (),
}

impl Model for Told {
    ghost use Rattle.std.specs.Prelude.{None};
    ghost use Rattle.laws_machine.specs.Entries.{Entry, wanted};
    ghost use Rattle.ledger_shared.specs.EntryCode.{entry_code};

    ghost Value = { Entry };

    ghost coded = { entry_code };

    ghost view = { λ _. wanted 0 None };
}

/// The tail, the entries since the ledger was made, and, for contracts alone, the tail as it was then.
#[derive(Drop)]
pub struct Shared<S: JournalStore, C: Clock> {
    pub(crate) tail: Tail<S, C>,
    pub(crate) entries: Entries,
    opened: Snapshot<Tail<S, C>>,
}

impl<S: JournalStore, C: Clock> Model for Shared<S, C> {
    ghost use Rattle.ledger_shared.specs.Behind.{Keeps, SharedHeld, shared_code};
    ghost use Rattle.ledger_shared.specs.Told.{all_told};

    ghost Value = { SharedHeld S C };

    ghost coded = { shared_code S.code C.code };

    ghost view = { λ s. record {
      tail = s.tail;
      opened = s.opened.value;
      entries = all_told s.tail.standing.mask s.entries.items.items;
    } };

    ghost invariant = { λ s. Keeps S.told C.answers C.always s.opened.value s.tail
        (all_told s.tail.standing.mask s.entries.items.items) };
}

impl<S: JournalStore, C: Clock> Shared<S, C> {
    /// The tail without entries. It takes no memory.
    pub(crate) fn new(alloc: Global, tail: Tail<S, C>) -> Shared<S, C>
        ensures { result ≡ record { tail = tail; opened = tail; entries = [] } }
    {
        tail.blocks();
        let opened = Snapshot::of(&tail);
        Shared {
            tail,
            entries: Entries::new(alloc),
            opened,
        }
    }

    /// The tail.
    pub(crate) fn into_tail(self) -> Tail<S, C>
        ensures { result ≡ self.tail }
    {
        let Shared {
            tail,
            entries: _,
            opened: _,
        } = self;
        tail
    }

    /// The tail and the entries.
    pub(crate) fn into_parts(self) -> (Tail<S, C>, Entries)
        ensures tail { result.0 ≡ self.tail }
        ensures entries { all_told self.tail.standing.mask result.1.items.items ≡ self.entries }
        ensures keeps { Keeps S.told C.answers C.always self.opened self.tail self.entries }
    {
        let Shared {
            tail,
            entries,
            opened: _,
        } = self;
        (tail, entries)
    }

    /// That the entries are right behind the opening. It does nothing.
    fn is_right(&self)
        ensures { IsRightFor S.told self.now.opened self.now.entries }
    {
        self.tail.blocks();
    }

    /// What is true of the tail after the entries. It does nothing.
    pub(crate) fn is_home(&self)
        ensures keeps { Keeps S.told C.answers C.always self.now.opened self.now.tail self.now.entries }
        ensures right { IsRightFor S.told self.now.opened self.now.entries }
    {
        self.tail.blocks();
        self.is_right();
    }

    /// Begins a transaction of the tail, and appends its entry to the others.
    pub(crate) fn begin(&mut self, alloc: Global, place: Place) -> Result<Txn, BeginFault>
        ensures opened { self.new.opened ≡ self.old.opened }
        ensures begins { Extends self.old.entries self.new.entries
            (Begins (opening_of S.told self.old.opened) self.old.entries place result) }
    {
        self.entries.make_room()?;
        let txn = self.tail.begin(alloc, place)?;
        self.entries.add(Entry::Begun {
            place,
            tx: txn.tx(),
            since: txn.since(),
        });
        Ok(txn)
    }

    /// Commits a transaction on the tail with the digest that is sent, if one is.
    ///
    /// The entry of the commit, if there is one, is appended to the others.
    pub(crate) fn commit(
        &mut self,
        alloc: Global,
        txn: Prepared,
        sent: Option<Hash32>,
    ) -> Result<Receipt, CommitFault>
        requires { IsOpen (opening_of S.told self.old.opened) self.old.entries txn }
        ensures opened { self.new.opened ≡ self.old.opened }
        ensures commits { Extends self.old.entries self.new.entries
            (Commits (opening_of S.told self.old.opened) self.old.entries txn sent result) }
    {
        self.entries.make_room()?;
        let tx = txn.tx();
        match self.tail.try_commit(alloc, txn, sent) {
            Ok(receipt) => {
                let entry = sealed_entry(tx, self.tail.blocks(), receipt.block);
                self.entries.add(entry);
                Ok(receipt)
            }
            Err(Uncommitted { fault, tried }) => match refused_entry(tx, &fault, tried) {
                Some(entry) => {
                    self.entries.add(entry);
                    Err(fault)
                }
                None => Err(fault),
            },
        }
    }
}

/// The entry of a transaction that was sealed as the block of this number.
fn sealed_entry(tx: TxId, blocks: &Blocks, block: u64) -> Entry
    requires { (made : Block) × (slice_get blocks.now.list block ≡ Some made) }
    ensures { (mask : ℕ) (made : Block) → slice_get blocks.now.list block ≡ Some made
        → told mask result ≡ sealed (transaction_in mask tx.raw) made }
{
    let made = Snapshot::of(blocks.get(block).unwrap());
    Entry::Sealed { tx, block, made }
}

/// The entry of a transaction whose commit was refused, if that makes one.
fn refused_entry(tx: TxId, fault: &CommitFault, tried: Option<Snapshot<Block>>) -> Option<Entry>
    ensures { (mask : ℕ) → option_map (told mask) result
        ≡ refusal_of (transaction_in mask tx.raw) fault.now (option_map (λ b. b.value) tried) }
{
    match fault {
        CommitFault::StoreFault { count } => match tried {
            Some(made) => Some(Entry::Failed {
                tx,
                count: *count,
                made,
            }),
            None => None,
        },
        CommitFault::OutOfMemory => Some(Entry::Wanted { tx, tried }),
        _ => None,
    }
}

impl<S: JournalStore, C: Clock> Counted for Shared<S, C> {
    type Opening = Tail<S, C>;

    type Entry = Told;

    ghost use Rattle.ledger_shared.specs.Behind.{IsRightFor};
    ghost use Rattle.ledger_shared.specs.Told.{opened_by, used_by};

    ghost opening = { λ s. s.opened };

    ghost entries = { λ s. s.entries };

    ghost is_right = { IsRightFor S.told };

    ghost opens = { opened_by };

    ghost uses = { used_by };

    fn count(&self) -> u64 {
        self.entries.len()
    }

    fn known(&self) {
        self.is_right();
    }
}
