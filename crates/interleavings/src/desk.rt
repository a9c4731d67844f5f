//! The tail of a journal in memory, and the transactions that are open on it, by name.
ghost use Rattle.std.specs.Prelude.{◌≡◌, ◌++◌, ◌<◌, [], ◌∷◌, length, IfOk, OnOk, MatchOption};
ghost use Rattle.std.specs.List.{AllByRecursion};
ghost use Rattle.ledger_core.specs.Committing.{IsOpenOn, tx_of};
ghost use Rattle.interleavings.specs.Lines as line;
ghost use Rattle.interleavings.specs.Desks.{Aborts, Answers, AreOpen, Begins, Commits, Executes, IsAnother, IsNowhere, IsServed, StandsAt, commit_line, execute_line, has_name, named, opened, sent, without};
ghost use Rattle.interleavings.specs.Runs.{IsFresh};

use crate::events::{Event, Times};
use crate::lines::{
    put_aborted, put_answer, put_begun, put_committed, put_conflict, put_digest_differs, put_ended,
    put_footprint, put_ids_spent, put_journal_full, put_nothing, put_refused, put_store_fault,
};
use ion_values::{OutOfMemory, Text, Value};
use ledger_core::{BeginFault, CommitFault, Receipt, Tail, own_digest};
use ledger_model::{Answer, Refusal};
use outside::{MemoryStore, SetClock};
use ql_types::{Hash32, IdMask, Place};
use std::alloc::Global;
use txn_core::Txn;

/// An open transaction and its name.
#[derive(Drop)]
pub struct OpenTxn {
    pub name: Text,
    pub txn: Txn,
}

/// A tail over a store in memory, and the transactions that were begun on it and are open.
#[derive(Drop)]
pub struct Desk {
    pub tail: Tail<MemoryStore, SetClock>,
    pub transactions: Vec<OpenTxn>,
}

/// A desk over an empty journal, whose clock answers these times.
pub fn desk_of(alloc: Global, times: Times) -> Result<Desk, OutOfMemory>
    requires { 0 < length times }
    ensures none { IfOk result (λ desk. desk.transactions.items ≡ []) }
    ensures fresh { IfOk result (λ desk. IsFresh times desk.tail) }
{
    let store = MemoryStore::new(alloc, Vec::new(alloc), Vec::new(alloc));
    let clock = SetClock::new(times.into_vec());
    match Tail::reload(alloc, store, clock, IdMask { bits: 0 }) {
        Ok(tail) => Ok(Desk {
            tail,
            transactions: Vec::new(alloc),
        }),
        Err(_) => Err(OutOfMemory),
    }
}

fn has_name(txn: &OpenTxn, name: &Text) -> bool
    ensures { result ≡ has_name name.now txn.now }
{
    txn.name.as_str() == name.as_str()
}

/// The index of the first transaction of this name.
#[tactic(auto, using(crate::proofs::Places::looks_start, crate::proofs::Places::looks_next, crate::proofs::Places::looks_at, crate::proofs::Places::looks_none))]
fn place_of(list: &[OpenTxn], name: &Text) -> Option<usize>
    ensures { MatchOption result (IsNowhere name.now list.now) (λ at. StandsAt name.now list.now at) }
{
    'txns: for at in 0..list.len() {
        if has_name(&list[at], name) {
            return Some(at);
        }
    }
    None
}

/// Takes the first transaction of this name out of the list.
#[tactic(auto, using(crate::proofs::Places::taken_txn, crate::proofs::Places::taken_rest))]
fn take_named(list: &mut Vec<OpenTxn>, name: &Text) -> Option<Txn>
    ensures found { result ≡ named name.now list.old.items }
    ensures rest { list.new.items ≡ without name.now list.old.items }
{
    let at = place_of(list.as_slice(), name)?;
    let taken = list.remove(at);
    Some(taken.txn)
}

/// The digest that a commit sends: the one that is given, or the transaction's own.
fn sent(alloc: Global, txn: &Txn, given: Option<Hash32>) -> Result<Hash32, OutOfMemory>
    ensures { IfOk result (λ digest. digest ≡ sent txn.now given) }
{
    match given {
        Some(digest) => Ok(digest),
        None => own_digest(alloc, txn.tx(), txn.said()),
    }
}

/// The line that answers a statement.
fn executed_line(alloc: Global, answered: &Result<Answer, Refusal>) -> Result<Text, OutOfMemory>
    ensures { IfOk result (λ said. said ≡ execute_line answered.now) }
{
    let mut said = Text::new(alloc);
    match answered {
        Ok(answer) => put_answer(alloc, &mut said, answer.rows.as_slice())?,
        Err(cause) => put_refused(alloc, &mut said, cause)?,
    }
    Ok(said)
}

/// Appends how the commit of the transaction of this name ended. Out of memory has no line.
fn put_ending(
    alloc: Global,
    out: &mut Text,
    name: &Text,
    footprint: &Text,
    committed: &Result<Receipt, CommitFault>,
) -> Result<(), OutOfMemory>
    ensures said { OnOk result (out.new ≡ out.old ++ commit_line name.now footprint.now committed.now) }
    ensures served { OnOk result (IsServed committed.now) }
{
    match committed {
        Ok(receipt) => put_committed(alloc, out, receipt, footprint),
        Err(CommitFault::EndedTxn) => put_ended(alloc, out, name),
        Err(CommitFault::DigestDiffers { mine, given }) => {
            put_digest_differs(alloc, out, mine, given)
        }
        Err(CommitFault::Conflict { since, named }) => {
            put_conflict(alloc, out, *since, named, footprint)
        }
        Err(CommitFault::JournalFull { blocks }) => put_journal_full(alloc, out, *blocks),
        Err(CommitFault::StoreFault { count }) => put_store_fault(alloc, out, *count),
        Err(CommitFault::OutOfMemory) => Err(OutOfMemory),
    }
}

/// The text of what a transaction read.
fn footprint_text(alloc: Global, txn: &Txn) -> Result<Text, OutOfMemory>
    ensures { IfOk result (λ text. text ≡ line.footprint txn.now.done.footprint) }
{
    let mut text = Text::new(alloc);
    put_footprint(alloc, &mut text, txn.footprint())?;
    Ok(text)
}

/// The line that tells of no transaction of this name.
fn nothing_line(alloc: Global, name: &Text) -> Result<Text, OutOfMemory>
    ensures { IfOk result (λ said. said ≡ line.nothing name.now) }
{
    let mut said = Text::new(alloc);
    put_nothing(alloc, &mut said, name)?;
    Ok(said)
}

/// The line that tells of a transaction that was begun.
fn begun_line(alloc: Global, name: &Text, txn: &Txn) -> Result<Text, OutOfMemory>
    ensures { IfOk result (λ said. said ≡ line.begun name.now (tx_of txn.now).raw txn.now.since) }
{
    let mut said = Text::new(alloc);
    put_begun(alloc, &mut said, name, txn.tx(), txn.since())?;
    Ok(said)
}

/// The line that tells that no number is left.
fn spent_line(alloc: Global, last: u64) -> Result<Text, OutOfMemory>
    ensures { IfOk result (λ said. said ≡ line.ids_spent last) }
{
    let mut said = Text::new(alloc);
    put_ids_spent(alloc, &mut said, last)?;
    Ok(said)
}

/// The line of a transaction that was aborted.
fn aborted_line(alloc: Global, name: &Text) -> Result<Text, OutOfMemory>
    ensures { IfOk result (λ said. said ≡ line.aborted name.now) }
{
    let mut said = Text::new(alloc);
    put_aborted(alloc, &mut said, name)?;
    Ok(said)
}

/// The line that tells how a commit ended.
fn ending_line(
    alloc: Global,
    name: &Text,
    footprint: &Text,
    committed: &Result<Receipt, CommitFault>,
) -> Result<Text, OutOfMemory>
    ensures said { IfOk result (λ said. said ≡ commit_line name.now footprint.now committed.now) }
    ensures served { OnOk result (IsServed committed.now) }
{
    let mut said = Text::new(alloc);
    put_ending(alloc, &mut said, name, footprint, committed)?;
    Ok(said)
}

impl Desk {
    /// Does what the event says, and returns its line. If memory runs out, nothing is known of the desk.
    pub fn answer(&mut self, alloc: Global, event: Event) -> Result<Text, OutOfMemory>
        requires { AreOpen self.old.tail.standing self.old.transactions.items }
        ensures sound { OnOk result (AreOpen self.new.tail.standing self.new.transactions.items) }
        ensures answers { IfOk result (λ said.
            Answers self.old.tail self.old.transactions.items event said self.new.tail self.new.transactions.items) }
    {
        match event {
            Event::Begin { name, place } => self.begin(alloc, name, place),
            Event::Execute { name, text, params } => {
                self.execute(alloc, name, &text, params.as_slice())
            }
            Event::Commit { name, digest } => self.commit(alloc, &name, digest),
            Event::Abort { name } => self.abort(alloc, &name),
        }
    }

    /// Puts an open transaction behind the others.
    #[tactic(auto, using(crate::proofs::Lists::behind_open))]
    fn keep(&mut self, name: Text, txn: Txn) -> Result<(), OutOfMemory>
        requires sound { AreOpen self.old.tail.standing self.old.transactions.items }
        requires own { IsOpenOn self.old.tail.standing txn }
        requires another { AllByRecursion (IsAnother txn) self.old.transactions.items }
        ensures sound { OnOk result (AreOpen self.new.tail.standing self.new.transactions.items) }
        ensures kept { OnOk result (self.new.transactions.items ≡ self.old.transactions.items ++ opened name txn ∷ []) }
        ensures tail { self.new.tail ≡ self.old.tail }
    {
        self.transactions.push(OpenTxn { name, txn })?;
        Ok(())
    }

    /// Begins a transaction of this name; one that is open already is dropped.
    fn begin(&mut self, alloc: Global, name: Text, place: Place) -> Result<Text, OutOfMemory>
        requires { AreOpen self.old.tail.standing self.old.transactions.items }
        ensures sound { OnOk result (AreOpen self.new.tail.standing self.new.transactions.items) }
        ensures answers { IfOk result (λ said.
            Begins self.old.tail self.old.transactions.items name place said self.new.tail
            self.new.transactions.items) }
    {
        let _ = take_named(&mut self.transactions, &name);
        match self.tail.begin(alloc, place) {
            Ok(txn) => {
                let said = begun_line(alloc, &name, &txn)?;
                self.keep(name, txn)?;
                Ok(said)
            }
            Err(BeginFault::IdsSpent { last }) => spent_line(alloc, last),
            Err(BeginFault::OutOfMemory) => Err(OutOfMemory),
        }
    }

    /// Does a statement of the transaction of this name.
    fn execute(
        &mut self,
        alloc: Global,
        name: Text,
        text: &Text,
        params: &[Value],
    ) -> Result<Text, OutOfMemory>
        requires { AreOpen self.old.tail.standing self.old.transactions.items }
        ensures sound { OnOk result (AreOpen self.new.tail.standing self.new.transactions.items) }
        ensures answers { IfOk result (λ said. Executes (named name self.old.transactions.items) self.old.tail
            self.old.transactions.items name text.now params.now said self.new.tail self.new.transactions.items) }
    {
        let Some(txn) = take_named(&mut self.transactions, &name) else {
            return nothing_line(alloc, &name);
        };
        let mut txn = txn;
        let answered = txn.execute(alloc, text.as_str(), params);
        let said = executed_line(alloc, &answered)?;
        self.keep(name, txn)?;
        Ok(said)
    }

    /// Commits the transaction of this name, with its own digest or with this one.
    fn commit(
        &mut self,
        alloc: Global,
        name: &Text,
        digest: Option<Hash32>,
    ) -> Result<Text, OutOfMemory>
        requires { AreOpen self.old.tail.standing self.old.transactions.items }
        ensures sound { OnOk result (AreOpen self.new.tail.standing self.new.transactions.items) }
        ensures answers { IfOk result (λ said. Commits (named name.now self.old.transactions.items) self.old.tail
            self.old.transactions.items name.now digest said self.new.tail self.new.transactions.items) }
    {
        let Some(txn) = take_named(&mut self.transactions, name) else {
            return nothing_line(alloc, name);
        };
        let footprint = footprint_text(alloc, &txn)?;
        let digest = sent(alloc, &txn, digest)?;
        let committed = self.tail.commit(alloc, txn, digest);
        let said = ending_line(alloc, name, &footprint, &committed)?;
        Ok(said)
    }

    /// Drops the transaction of this name.
    fn abort(&mut self, alloc: Global, name: &Text) -> Result<Text, OutOfMemory>
        requires { AreOpen self.old.tail.standing self.old.transactions.items }
        ensures sound { OnOk result (AreOpen self.new.tail.standing self.new.transactions.items) }
        ensures answers { IfOk result (λ said. Aborts (named name.now self.old.transactions.items) self.old.tail
            self.old.transactions.items name.now said self.new.tail self.new.transactions.items) }
    {
        let Some(_) = take_named(&mut self.transactions, name) else {
            return nothing_line(alloc, name);
        };
        aborted_line(alloc, name)
    }
}
