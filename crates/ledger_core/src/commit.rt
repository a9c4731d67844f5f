//! The commit of an open transaction.
ghost use Rattle.std.specs.Prelude.{◌≡◌, ◌≤◌, true, false, length, Some, None, IfOk, IfErr, OnOk, option_map};
ghost use Rattle.outside.specs.Told.{held};
ghost use Rattle.txn_core.specs.Opened.{Opened};
ghost use Rattle.ledger_core.specs.Committing.{Checked, IsAnswer, IsFound, IsOpenOn, IsTried, conflict_of};
ghost use Rattle.ledger_core.specs.Committing.{digest_of, is_own, told_end};
ghost use Rattle.ledger_core.specs.Images.{CommitKeeps, came_with};
ghost use Rattle.ledger_core.specs.Leaving.{Asked, CommitLeaves};
ghost use Rattle.ledger_core.specs.Tails.{Leaves};

use crate::appending::{MOST_BLOCKS, Receipt, Unkept};
use crate::prepared::Prepared;
use crate::tail::Tail;
use ion_time::clamped;
use ion_values::{IonTime, OutOfMemory};
use journal_keeper::SettleFault;
use ledger_model::{Block, Named, Said};
use occ_check::first_conflict;
use outside::{Clock, JournalStore};
use ql_types::{Hash32, TxId};
use session_driver::{fold_statement, start_digest};
use std::alloc::Global;
use std::snapshot::Snapshot;
use thiserror::Error;
use txn_core::Txn;

/// Why a transaction wasn't committed.
#[derive(Debug, Drop, Error)]
pub enum CommitFault {
    #[error("a statement of the transaction was refused")]
    EndedTxn,
    #[error("the digest isn't that of the transaction's statements")]
    DigestDiffers { mine: Hash32, given: Hash32 },
    /// Of the blocks after the first `since`, on which it began, this is the first that touched something that it
    /// read.
    #[error("a block after the first {since} touched what the transaction read")]
    Conflict { since: u64, named: Named },
    #[error("there are {blocks} blocks, as many as there can be")]
    JournalFull { blocks: u64 },
    /// The store failed in its last call, and had failed `count` times by then.
    #[error("the store failed, {count} times so far")]
    StoreFault { count: u64 },
    #[error("out of memory")]
    OutOfMemory,
}

/// Why a transaction wasn't committed. Contracts see the block that it was to become, if its line had come to the
/// store.
#[derive(Drop)]
pub struct Uncommitted {
    pub fault: CommitFault,
    pub tried: Option<Snapshot<Block>>,
}

impl From<OutOfMemory> for CommitFault {
    ghost use Rattle.std.specs.Prelude.{◌≡◌};
    ghost use Rattle.ledger_core.specs.declared.commit.CommitFault.TheVariants as fails;

    ghost from_gives = { λ _ e. e ≡ fails.OutOfMemory };

    fn from(_error: OutOfMemory) -> CommitFault {
        CommitFault::OutOfMemory
    }
}

impl From<SettleFault> for CommitFault {
    ghost use Rattle.std.specs.Prelude.{◌≡◌};
    ghost use Rattle.ledger_core.specs.Committing.{fault_of};

    ghost from_gives = { λ fault e. e ≡ fault_of fault };

    fn from(fault: SettleFault) -> CommitFault {
        match fault {
            SettleFault::StoreFault { count } => CommitFault::StoreFault { count },
            SettleFault::OutOfMemory => CommitFault::OutOfMemory,
        }
    }
}

impl<S: JournalStore, C: Clock> Tail<S, C> {
    /// Commits an open transaction as the next block. It returns `EndedTxn` if a statement of it was refused,
    /// `DigestDiffers` if the digest isn't that of its statements, `Conflict` if a block after its begin touched
    /// something that it read, `JournalFull` if there are 2^32 - 1 blocks, in this order, and `StoreFault` if the store
    /// fails. After a fault the blocks are as before; the transaction is spent in any case. The block's time is the
    /// clock's, or the last block's if that is later.
    pub fn commit(
        &mut self,
        alloc: Global,
        txn: Txn,
        digest: Hash32,
    ) -> Result<Receipt, CommitFault>
        requires { IsOpenOn self.old.standing txn }
        ensures commits { CommitLeaves S.told C.answers C.always self.old self.new txn (Some digest) result }
        ensures still { (other : Opened) → IsOpenOn self.old.standing other
            → (other.begun.number ≡ txn.begun.number → ⊥) → IsOpenOn self.new.standing other }
    {
        self.commit_with(alloc, Prepared::unmade(txn), Some(digest))
    }

    /// Commits an open transaction as the next block, with the digest that is sent, if one is.
    pub(crate) fn commit_with(
        &mut self,
        alloc: Global,
        txn: Prepared,
        sent: Option<Hash32>,
    ) -> Result<Receipt, CommitFault>
        requires { IsOpenOn self.old.standing txn }
        ensures { CommitLeaves S.told C.answers C.always self.old self.new txn sent result }
    {
        match self.try_commit(alloc, txn, sent) {
            Ok(receipt) => Ok(receipt),
            Err(uncommitted) => Err(uncommitted.fault),
        }
    }

    /// Commits an open transaction as the next block, with the digest that is sent, if one is. If it had come to its
    /// store, contracts see the block whose line it was to become.
    pub fn try_commit(
        &mut self,
        alloc: Global,
        txn: Prepared,
        sent: Option<Hash32>,
    ) -> Result<Receipt, Uncommitted>
        requires { IsOpenOn self.old.standing txn }
        ensures commits { CommitLeaves S.told C.answers C.always self.old self.new txn sent (told_end result) }
        ensures tried { IfErr result (λ e. IsTried self.old.standing txn sent
            (Asked S.told C.answers C.always self.old self.new) e.fault (option_map (λ b. b.value) e.tried)) }
        ensures left { IfErr result (λ e. Leaves self.old.standing.blocks (option_map (λ b. b.value) e.tried)
            (held (S.told self.old.store)) (held (S.told self.new.store))) }
        ensures images { CommitKeeps S.told result (came_with result) self.old self.new }
    {
        match self.checked(alloc, &txn, sent) {
            Ok(()) => {}
            Err(fault) => return Err(Uncommitted { fault, tried: None }),
        }
        self.is_tail();
        let time = self.time();
        txn.is_within();
        match self.append_next(alloc, txn, time) {
            Ok(receipt) => Ok(receipt),
            Err(Unkept { fault, tried }) => Err(Uncommitted {
                fault: CommitFault::from(fault),
                tried,
            }),
        }
    }

    /// The clock's time. The clock is asked once.
    fn time(&mut self) -> IonTime
        ensures answer { IsAnswer (C.answers self.old.clock) (C.answers self.new.clock)
            (C.always self.old.clock) result }
        ensures always { C.always self.new.clock ≡ C.always self.old.clock }
        ensures same { self.new ≡ record self.old { clock = self.new.clock } }
    {
        clamped(self.clock.now())
    }
}

impl<S: JournalStore, C> Tail<S, C> {
    /// Checks an open transaction before memory and the store are asked for its block.
    #[tactic(auto, using(crate::proofs::Bounds::bound))]
    fn checked(
        &self,
        alloc: Global,
        txn: &Prepared,
        sent: Option<Hash32>,
    ) -> Result<(), CommitFault>
        requires { txn.now.since ≤ length self.now.standing.blocks }
        ensures { Checked self.now.standing txn.now sent result }
    {
        if txn.is_ended() {
            return Err(CommitFault::EndedTxn);
        }
        self.check_digest(alloc, txn, sent)?;
        self.check_conflict(alloc, txn, sent)?;
        let blocks = self.blocks().len();
        if blocks >= MOST_BLOCKS {
            return Err(CommitFault::JournalFull { blocks });
        }
        Ok(())
    }

    /// Checks the digest that is sent, if one is.
    fn check_digest(
        &self,
        alloc: Global,
        txn: &Prepared,
        sent: Option<Hash32>,
    ) -> Result<(), CommitFault>
        requires { txn.now.ended ≡ false }
        ensures own { OnOk result (is_own txn.now sent ≡ true) }
        ensures found { IfErr result (λ fault. IsFound self.now.standing txn.now sent fault) }
    {
        if let Some(given) = sent {
            let mine = own_digest(alloc, txn.tx(), txn.said())?;
            if mine.bytes != given.bytes {
                return Err(CommitFault::DigestDiffers { mine, given });
            }
        }
        Ok(())
    }

    /// Checks whether a block after the transaction's begin touched something that it read.
    fn check_conflict(
        &self,
        alloc: Global,
        txn: &Prepared,
        sent: Option<Hash32>,
    ) -> Result<(), CommitFault>
        requires goes_on { txn.now.ended ≡ false }
        requires own { is_own txn.now sent ≡ true }
        requires stood { txn.now.since ≤ length self.now.standing.blocks }
        ensures free { OnOk result (conflict_of self.now.standing txn.now ≡ None) }
        ensures found { IfErr result (λ fault. IsFound self.now.standing txn.now sent fault) }
    {
        let since = txn.since();
        match first_conflict(alloc, txn.footprint(), self.blocks(), since, &self.version)? {
            Some(named) => Err(CommitFault::Conflict { since, named }),
            None => Ok(()),
        }
    }
}

/// The digest of the transaction of this id with these statements.
pub fn own_digest(alloc: Global, tx: TxId, said: &[Said]) -> Result<Hash32, OutOfMemory>
    ensures { IfOk result (λ digest. digest ≡ digest_of tx said.now) }
{
    let mut digest = start_digest(alloc, tx)?;
    'said: for said in said {
        digest = fold_statement(alloc, digest, said.text.as_str(), said.params.as_slice())?;
    }
    Ok(digest)
}
