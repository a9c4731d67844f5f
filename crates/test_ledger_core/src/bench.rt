//! A bench with the tail of a journal in memory, of which contracts tell nothing: what holds a tail itself is dear to
//! prove.
ghost use Rattle.laws_history.specs.Standings.{Standing};
ghost use Rattle.ledger_core.specs.Committing.{IsOpenOn};

use crate::statements::asked_of;
use crate::stores::store_of;
use ledger_core::{CommitFault, LoadFault, Receipt, Tail};
use ledger_model::Request;
use outside::{MemoryStore, SetClock};
use proof_model::Digest;
use ql_types::{Hash, Hash32, IdMask, Place, TxId};
use session_driver::{fold_statement, start_digest};
use std::alloc::Global;
use std::marker::Model;
use txn_core::Txn;

const MASK: IdMask = IdMask { bits: 0 };

const PLACE: Place = Place {
    session: 1,
    transaction: 1,
};

/// No transaction's digest.
const NO_HASH: Hash32 = Hash32 { bytes: [0; 32] };

/// The beginning of 2020 in UTC.
const START: i64 = 1_577_836_800_000;

/// A tail over a store in memory. It stands on the heap, so that what lets a bench go doesn't let each part of a tail
/// go.
#[derive(Drop)]
pub(crate) struct Bench {
    tail: Box<Tail<MemoryStore, SetClock>>,
}

impl Model for Bench {
    ghost use Rattle.std.specs.Prelude.{ℕ};

    ghost Value = { ℕ };

    ghost view = { λ _. 0 };
}

/// How many blocks there are, the digest of the journal, and the root of the tree over the hashes of its blocks.
#[derive(Clone, Copy)]
pub(crate) struct Found {
    pub(crate) blocks: u64,
    pub(crate) digest: Option<Digest>,
    pub(crate) root: Hash,
}

/// Does the statements in the transaction.
fn ask_all(alloc: Global, txn: &mut Txn, asked: &[Request])
    ensures { (s : Standing) → IsOpenOn s txn.old → IsOpenOn s txn.new }
{
    'asked: for request in asked {
        let _answer = txn.execute(alloc, request.text.as_str(), request.params.as_slice());
    }
}

/// The digest of the transaction of this id with these statements.
fn own_digest(alloc: Global, tx: TxId, asked: &[Request]) -> Option<Hash32> {
    let mut digest = start_digest(alloc, tx).ok()?;
    for request in asked {
        let (text, params) = (request.text.as_str(), request.params.as_slice());
        digest = fold_statement(alloc, digest, text, params).ok()?;
    }
    Some(digest)
}

/// The digest of the transaction of this id, or `NO_HASH` if memory runs out.
fn digest_of(alloc: Global, tx: TxId, asked: &[Request]) -> Hash32 {
    match own_digest(alloc, tx, asked) {
        Some(digest) => digest,
        None => NO_HASH,
    }
}

/// How the commit of a transaction with these statements ends.
fn committed(
    alloc: Global,
    tail: &mut Tail<MemoryStore, SetClock>,
    asked: &[Request],
) -> Option<Result<Receipt, CommitFault>> {
    let Ok(txn) = tail.begin(alloc, PLACE) else {
        return None;
    };
    let mut txn = txn;
    ask_all(alloc, &mut txn, asked);
    let sent = digest_of(alloc, txn.tx(), asked);
    Some(tail.commit(alloc, txn, sent))
}

/// The bench with this tail, or None if memory runs out.
fn bench_with(alloc: Global, tail: Tail<MemoryStore, SetClock>) -> Option<Bench> {
    let tail = Box::new(alloc, tail).ok()?;
    Some(Bench { tail })
}

impl Bench {
    /// The bench with what the store holds, or why there is none. None comes only if memory runs out.
    pub(crate) fn load(
        alloc: Global,
        store: MemoryStore,
        clock: SetClock,
    ) -> Option<Result<Bench, LoadFault<MemoryStore, SetClock>>> {
        match Tail::reload(alloc, store, clock, MASK) {
            Ok(tail) => Some(Ok(bench_with(alloc, tail)?)),
            Err(fault) => Some(Err(fault)),
        }
    }

    /// How the commit of a transaction with these statements ends.
    pub(crate) fn commit(
        &mut self,
        alloc: Global,
        asked: &[Request],
    ) -> Option<Result<Receipt, CommitFault>> {
        committed(alloc, &mut *self.tail, asked)
    }

    /// What the journal comes to.
    pub(crate) fn found(&self) -> Found {
        Found {
            blocks: self.tail.blocks().len(),
            digest: self.tail.digest(),
            root: self.tail.grown().root(),
        }
    }

    /// How many blocks there are, and the store.
    pub(crate) fn into_parts(self) -> (u64, MemoryStore) {
        let Bench { tail } = self;
        let (blocks, store, _) = Box::into_inner(tail).into_parts();
        (blocks.len(), store)
    }
}

/// A clock that stands at this time.
pub(crate) fn clock_at(alloc: Global, time: i64) -> Option<SetClock> {
    let mut times = Vec::new(alloc);
    times.push(time).ok()?;
    Some(SetClock::new(times))
}

/// The bench with what the store holds, at the beginning of 2020 in UTC.
pub(crate) fn bench_of(alloc: Global, store: MemoryStore) -> Option<Bench> {
    let clock = clock_at(alloc, START)?;
    Bench::load(alloc, store, clock)?.ok()
}

/// The bench of an empty store, whose call after `passes` fails.
pub(crate) fn empty_bench(alloc: Global, passes: u64) -> Option<Bench> {
    let store = store_of(alloc, "", passes, 0)?;
    bench_of(alloc, store)
}

/// Makes statements a transaction of their own.
pub(crate) fn make(alloc: Global, bench: &mut Bench, told: &str) -> Option<()> {
    let asked = asked_of(alloc, told)?;
    bench.commit(alloc, asked.as_slice())?.ok()?;
    Some(())
}
