//! A journal as it was read from a store.
ghost use Rattle.std.specs.Prelude.{◌≡◌, ◌+◌, ◌≤◌, ◌-◌, None, true, length, slice_get, IfOk, OnOk, IfErr, IfSome};
ghost use Rattle.std.specs.Prelude.{MatchResult};
ghost use Rattle.outside.specs.Told.{held};
ghost use Rattle.ledger_model.specs.Damages.{Undamaged};
ghost use Rattle.ledger_model.specs.HashesAsked.{AreAsked};
ghost use Rattle.ledger_model.specs.Journal.{journal_bytes};
ghost use Rattle.journal_text.specs.Feeding.{taken};
ghost use Rattle.journal_text.specs.Reading.{IsFault};
ghost use Rattle.proof_model.specs.Issued.{IsAccepted, IsDigest, proof_for};
ghost use Rattle.proof_issue.specs.Refusals.{IsRefused, past_end, refusal};
ghost use Rattle.journal_reader.specs.Loads.{IsCause, IsLoaded, IsRead};

use crate::cause::LoadCause;
use crate::chain::Chain;
use crate::reading::{Stored, read_stored, read_stored_by, wide_piece};
use journal_text::JournalFault;
use ledger_model::Blocks;
use outside::JournalStore;
use proof_issue::{NoSuch, digest, prove, prove_grown};
use proof_model::{Digest, Proof, undamaged_is_chained};
use std::alloc::Global;
use std::marker::Model;
use std::thread::Threads;

/// A journal: the blocks of its whole lines, the length of these lines, and whether more bytes stand after them.
#[derive(Drop)]
pub struct Journal {
    /// The blocks, and the tree over their hashes.
    chain: Chain,
    /// The length of their lines, in bytes.
    size: u64,
    rest: bool,
}

impl Model for Journal {
    ghost use Rattle.journal_reader.specs.Journals.{IsSound, JournalRead, journal_code};

    ghost Value = { JournalRead };

    ghost coded = { journal_code };

    ghost view = { λ j. record { blocks = j.chain.list; size = j.size; rest = j.rest } };

    ghost invariant = { λ j. IsSound (record { blocks = j.chain.list; size = j.size; rest = j.rest }) };
}

impl Journal {
    /// Reads the store to its end and returns the journal that it holds. It is read by pieces, and no byte of it
    /// changes. It returns `Damaged` at the journal's first damage, and `StoreFault` only if the store failed.
    pub fn read<S: JournalStore>(alloc: Global, store: &mut S) -> Result<Journal, LoadCause>
        ensures journal { IfOk result (λ j. IsLoaded (held (S.told store.old)) j.blocks j.rest) }
        ensures content { (S.told store.new).content ≡ (S.told store.old).content }
        ensures later { (S.told store.old).faults ≤ (S.told store.new).faults }
        ensures fine { OnOk result ((S.told store.new).faults ≡ (S.told store.old).faults) }
        ensures cause { IfErr result (λ cause. IsCause cause (S.told store.old) (S.told store.new)) }
    {
        let stored = read_stored(alloc, store)?;
        Ok(journal_of(alloc, stored)?)
    }

    /// Reads the store to its end and returns the journal that it holds, as `read` does. Each line is read by itself,
    /// by as many threads as `workers` says where they can be made.
    pub fn read_by<S: JournalStore, R: Threads + Sync>(
        rt: &R,
        workers: u32,
        alloc: Global,
        store: &mut S,
    ) -> Result<Journal, LoadCause>
        ensures journal { IfOk result (λ j. IsLoaded (held (S.told store.old)) j.blocks j.rest) }
        ensures content { (S.told store.new).content ≡ (S.told store.old).content }
        ensures later { (S.told store.old).faults ≤ (S.told store.new).faults }
        ensures fine { OnOk result ((S.told store.new).faults ≡ (S.told store.old).faults) }
        ensures cause { IfErr result (λ cause. IsCause cause (S.told store.old) (S.told store.new)) }
    {
        let mut piece = wide_piece(alloc)?;
        let stored = read_stored_by(rt, workers, alloc, store, piece.as_mut_slice())?;
        Ok(journal_of(alloc, stored)?)
    }

    /// The blocks of the journal. It takes no memory.
    pub fn blocks(&self) -> &Blocks
        ensures blocks { result.now.list ≡ self.now.blocks }
        ensures undamaged { Undamaged self.now.blocks }
        ensures asked { AreAsked self.now.blocks }
    {
        self.chain.blocks()
    }

    /// The digest of the journal with this tip, counted from 0. There is none exactly if no block has the tip's number.
    /// With the last block as the tip it hashes nothing.
    pub fn digest(&self, alloc: Global, tip: u64) -> Result<Digest, NoSuch>
        ensures digest { IfOk result (λ d. IsDigest self.now.blocks tip d) }
        ensures refused { MatchResult result (λ _. past_end self.now.blocks tip ≡ None)
            (λ e. IsRefused (past_end self.now.blocks tip) e) }
    {
        undamaged_is_chained();
        if self.ends_at(tip) {
            match self.chain.digest() {
                Some(digest) => Ok(digest),
                None => unreachable!(),
            }
        } else {
            digest(alloc, self.blocks(), tip)
        }
    }

    /// The proof of the revision at an index of the block of this number, for the digest with this tip. If there is
    /// no such digest or revision, it returns the first reason.
    pub fn prove(&self, alloc: Global, sequence: u64, index: u32, tip: u64) -> Result<Proof, NoSuch>
        ensures proof { IfOk result (λ p. IfSome (slice_get self.now.blocks sequence)
            (λ b. p ≡ proof_for self.now.blocks b sequence index tip)) }
        ensures accepted { IfOk result (λ p. IsAccepted self.now.blocks sequence index tip p) }
        ensures refused { MatchResult result (λ _. refusal self.now.blocks sequence index tip ≡ None)
            (λ e. IsRefused (refusal self.now.blocks sequence index tip) e) }
    {
        undamaged_is_chained();
        if self.ends_at(tip) {
            prove_grown(alloc, self.blocks(), self.chain.tree(), sequence, index)
        } else {
            prove(alloc, self.blocks(), sequence, index, tip)
        }
    }

    /// Whether the last block has this number.
    fn ends_at(&self, tip: u64) -> bool
        ensures { result ≡ true → length self.now.blocks ≡ tip + 1 }
    {
        let count = self.chain.blocks().len();
        0 < count && count - 1 == tip
    }

    /// The blocks of the journal. It takes no memory.
    pub fn into_blocks(self) -> Blocks
        ensures blocks { result.list ≡ self.blocks }
        ensures asked { AreAsked self.blocks }
        ensures undamaged { Undamaged self.blocks }
    {
        let Journal {
            chain,
            size: _,
            rest: _,
        } = self;
        chain.into_blocks()
    }

    /// The chain of the blocks, the length of their lines, and whether more bytes stand after them. It takes no memory.
    pub fn into_parts(self) -> (Chain, u64, bool)
        ensures blocks { result.0.list ≡ self.blocks }
        ensures asked { AreAsked self.blocks }
        ensures size { result.1 ≡ length (journal_bytes self.blocks) }
        ensures rest { result.2 ≡ self.rest }
        ensures undamaged { Undamaged self.blocks }
    {
        let Journal { chain, size, rest } = self;
        (chain, size, rest)
    }
}

/// The journal of the bytes that were read.
fn journal_of(alloc: Global, stored: Stored) -> Result<Journal, JournalFault>
    requires reads { stored.reader.damaged ≡ None }
    requires size { stored.size ≡ length (taken stored.reader) }
    ensures read { IfOk result (λ j. IsRead (taken stored.reader) j.blocks j.rest) }
    ensures fault { IfErr result (IsFault (taken stored.reader)) }
{
    let Stored {
        reader,
        size: read_to,
    } = stored;
    let (listed, size) = reader.end()?;
    let chain = Chain::of(alloc, listed)?;
    Ok(Journal {
        chain,
        size,
        rest: size < read_to,
    })
}
