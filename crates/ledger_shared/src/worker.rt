//! A worker of the ledger: an attempt at a job's transaction with its pass.
ghost use Rattle.std.specs.Prelude.{◌≡◌, false, None, IfOk, OnErr, OnOk};
ghost use Rattle.txn_core.specs.Opened.{Opened};
ghost use Rattle.ledger_model.specs.Run.{start};
ghost use Rattle.ledger_model.specs.declared.script.Job.{Job};
ghost use Rattle.ql_types.specs.declared.Place.{Place};
ghost use Rattle.turn_lock.specs.History.{after_split, split_off};
ghost use Rattle.turn_lock.specs.Seats.{Rests, known};
ghost use Rattle.ledger_shared.specs.Behind.{IsRightFor, opening_of};
ghost use Rattle.ledger_shared.specs.Desks.{IsOf};
ghost use Rattle.ledger_shared.specs.Known.{MayCommit};
ghost use Rattle.ledger_shared.specs.Ledgers.{IsPass, opened_of, table_of};
ghost use Rattle.ledger_shared.specs.Workers.{Ends, IsDone, TellsDenial, Tries};

use crate::denials::denied;
use crate::ledger::{Ledger, Pass};
use crate::runner::{Runner, Runs};
use ion_values::OutOfMemory;
use ledger_core::{BeginFault, outcome_of};
use ledger_model::{Denial, Job, Outcome};
use outside::{Clock, Gate, JournalStore, Step};
use ql_types::Place;
use session_driver::Link;
use std::alloc::Global;
use std::marker::Model;
use std::sync::Wait;
use txn_core::{Ran, Txn};

/// A worker: its ledger, the pass with which it runs its transactions, and what runs their statements.
#[derive(Drop)]
pub struct Worker<'a, S: JournalStore, C: Clock, G: Gate> {
    ledger: &'a Ledger<S, C>,
    pass: Pass<S, C>,
    runner: Runner<'a, G>,
}

impl<'a, S: JournalStore, C: Clock, G: Gate> Model for Worker<'a, S, C, G> {
    ghost use Rattle.turn_lock.specs.Seats.{known};
    ghost use Rattle.ledger_shared.specs.Ledgers.{IsPass, opened_of, table_of};
    ghost use Rattle.ledger_shared.specs.Workers.{WorkerHeld, worker_code};

    ghost Value = { WorkerHeld S C };

    ghost coded = { worker_code S.code C.code };

    ghost view = { λ w. record {
      table = table_of w.ledger.now;
      opened = opened_of w.ledger.now;
      known = known w.pass;
    } };

    ghost invariant = { λ w. IsPass S.told w.ledger.now w.pass };
}

impl<'a, S: JournalStore, C: Clock, G: Gate> Worker<'a, S, C, G> {
    /// A worker of the ledger with a pass of it.
    pub fn new(
        alloc: Global,
        ledger: &'a Ledger<S, C>,
        gate: &'a G,
        pass: Pass<S, C>,
    ) -> Worker<'a, S, C, G>
        requires { IsPass S.told ledger.now pass }
        ensures { result ≡ record {
          table = table_of ledger.now;
          opened = opened_of ledger.now;
          known = known pass;
        } }
    {
        Worker {
            ledger,
            pass,
            runner: Runner::new(alloc, gate),
        }
    }

    /// A further worker of the same ledger, at the same gate, with a pass that is split from this one's.
    pub(crate) fn another(&mut self) -> Result<Worker<'a, S, C, G>, OutOfMemory>
        ensures table { self.new.table ≡ self.old.table }
        ensures opened { self.new.opened ≡ self.old.opened }
        ensures of { IfOk result (λ w. IsOf self.old.table self.old.opened w) }
        ensures split { IfOk result (λ w. w.known ≡ split_off self.old.known) }
        ensures known { OnOk result (self.new.known ≡ after_split self.old.known) }
        ensures refused { OnErr result (self.new.known ≡ self.old.known) }
    {
        let pass = self.ledger.split(&mut self.pass)?;
        Ok(Worker {
            ledger: self.ledger,
            pass,
            runner: Runner::new(self.runner.alloc, self.runner.gate),
        })
    }

    /// The outcome of a transaction of which this is denied.
    fn deny(&self, denial: &Denial) -> Outcome
        ensures { TellsDenial denial.now result }
    {
        denied(self.runner.alloc, denial)
    }

    /// The pass.
    pub fn into_pass(self) -> Pass<S, C>
        ensures pass { Rests (IsRightFor S.told) self.entry.table self.entry.opened result }
        ensures known { known result ≡ self.entry.known }
    {
        let Worker {
            ledger: _,
            pass,
            runner: _,
        } = self;
        pass
    }
}

/// The parts of an attempt.
trait Steps {
    /// That a transaction may be run.
    ghost may_run: { Self → Opened → Type 0 };

    /// That a job's transaction is done at the place, and is to be committed.
    ghost may_finish: { Self → Job → Place → Opened → Type 0 };

    /// Runs the job's transaction once, from its begin to its end.
    fn run_once<R: Wait + Sync>(&mut self, rt: &R, job: &Job, place: Place) -> Outcome
        requires admitted { job.now.denied ≡ None };

    /// Runs the job's statements as the transaction that has begun, and commits or aborts it.
    fn run<R: Wait + Sync>(&mut self, rt: &R, job: &Job, place: Place, txn: Txn) -> Outcome
        requires may { may_run self.old txn }
        requires fresh { txn.done ≡ start }
        requires goes_on { txn.ended ≡ false }
        requires at { txn.place ≡ place }
        requires admitted { job.now.denied ≡ None };

    /// Commits the job's transaction, whose statements are all done.
    fn finish<R: Wait + Sync>(&mut self, rt: &R, job: &Job, place: Place, txn: Txn) -> Outcome
        requires done { may_finish self.old job.now place txn };
}

impl<'a, S: JournalStore, C: Clock, G: Gate> Steps for Worker<'a, S, C, G> {
    ghost use Rattle.ledger_shared.specs.Behind.{opening_of};
    ghost use Rattle.ledger_shared.specs.Known.{MayCommit};
    ghost use Rattle.ledger_shared.specs.Workers.{IsDone};

    ghost may_run = { λ w t. MayCommit (opening_of S.told w.opened) w.known t };

    ghost may_finish = { λ w job place t. IsDone (opening_of S.told w.opened) job place t w.known };

    fn run_once<R: Wait + Sync>(&mut self, rt: &R, job: &Job, place: Place) -> Outcome
        requires admitted { job.now.denied ≡ None }
        ensures { Tries S.told self.old job.now place result self.new }
    {
        self.runner.gate.at(rt, place, Step::BeforeBegin);
        match self
            .ledger
            .begin(rt, self.runner.alloc, &mut self.pass, place)
        {
            Ok(txn) => self.run(rt, job, place, txn),
            Err(BeginFault::IdsSpent { last }) => Outcome::IdsSpent { last },
            Err(BeginFault::OutOfMemory) => Outcome::OutOfMemory,
        }
    }

    fn run<R: Wait + Sync>(&mut self, rt: &R, job: &Job, place: Place, txn: Txn) -> Outcome
        requires may { MayCommit (opening_of S.told self.old.opened) self.old.known txn }
        requires fresh { txn.done ≡ start }
        requires goes_on { txn.ended ≡ false }
        requires at { txn.place ≡ place }
        requires admitted { job.now.denied ≡ None }
        ensures table { self.new.table ≡ self.old.table }
        ensures opened { self.new.opened ≡ self.old.opened }
        ensures ends { Ends (opening_of S.told self.old.opened) job.now place txn self.old.known result self.new.known }
    {
        let tx = txn.tx();
        let since = txn.since();
        match self
            .runner
            .run_gated(rt, place, txn, job.statements.as_slice())
        {
            Ok(Ran::Done(txn)) => {
                if job.abort {
                    Outcome::Aborted { tx, since }
                } else {
                    self.finish(rt, job, place, txn)
                }
            }
            Ok(Ran::Refused { statement, cause }) => Outcome::Refused {
                tx,
                since,
                statement,
                cause,
            },
            Err(OutOfMemory) => Outcome::OutOfMemory,
        }
    }

    fn finish<R: Wait + Sync>(&mut self, rt: &R, job: &Job, place: Place, txn: Txn) -> Outcome
        requires done { IsDone (opening_of S.told self.old.opened) job.now place txn self.old.known }
        ensures table { self.new.table ≡ self.old.table }
        ensures opened { self.new.opened ≡ self.old.opened }
        ensures ends { (first : Opened) → first.begun ≡ txn.begun → first.base ≡ txn.base → first.since ≡ txn.since
            → first.place ≡ txn.place
            → Ends (opening_of S.told self.old.opened) job.now place first self.old.known result self.new.known }
    {
        let tx = txn.tx();
        let since = txn.since();
        self.runner.gate.at(rt, place, Step::BeforeCommit);
        let result = self
            .ledger
            .commit_with(rt, self.runner.alloc, &mut self.pass, txn, job.digest);
        outcome_of(tx, since, result)
    }
}

impl<'a, S: JournalStore, C: Clock, G: Gate> Link for Worker<'a, S, C, G> {
    ghost use Rattle.ledger_shared.specs.Workers.{Tries};

    ghost attempted = { Tries S.told };

    fn attempt<R: Wait + Sync>(&mut self, rt: &R, job: &Job, place: Place) -> Outcome {
        match &job.denied {
            Some(denial) => self.deny(denial),
            None => self.run_once(rt, job, place),
        }
    }
}
