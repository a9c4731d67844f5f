//! All workers of a ledger, each in a thread of its own.
ghost use Rattle.std.specs.Prelude.{◌≡◌, ℕ, ◌+◌, ◌%◌, ◌<◌, ◌≤◌, ◌^◌, length, slice_index_or, OnOk};
ghost use Rattle.ledger_model.specs.Script.{all_placed};
ghost use Rattle.ledger_shared.specs.declared.workers.Desk.{Desk};
ghost use Rattle.ledger_shared.specs.Desks.{HasRoom, HaveRoom};
ghost use Rattle.ledger_shared.specs.Dealt.{HasRun};
ghost use Rattle.ledger_shared.specs.Sessions.{AreNumbered};

use crate::crew::{Deal, Share};
use crate::session::dealt_count;
use crate::worker::Worker;
use ion_values::OutOfMemory;
use ledger_model::{PlacedOutcome, Session};
use outside::{Clock, Gate, JournalStore};
use std::sync::Wait;
use std::thread;
use std::thread::Threads;

/// A worker with the outcomes of its jobs, in order.
#[derive(Drop)]
pub struct Desk<'a, S: JournalStore, C: Clock, G: Gate> {
    pub worker: Worker<'a, S, C, G>,
    pub outcomes: Vec<PlacedOutcome>,
}

impl<'a, S: JournalStore, C: Clock, G: Gate> Desk<'a, S, C, G> {
    /// Makes room for the outcomes of the jobs that are dealt to this worker. Its place is counted from 0.
    pub(crate) fn make_room(&mut self, deal: &Deal<'_>, place: u32) -> Result<(), OutOfMemory>
        requires some { 0 < deal.now.workers }
        requires few { AreNumbered deal.now.script.now }
        requires counted { place + 1 < 2 ^ 32 }
        ensures worker { self.new.worker ≡ self.old.worker }
        ensures items { self.new.outcomes.items ≡ self.old.outcomes.items }
        ensures room { OnOk result (HasRoom deal.now.workers deal.now.script.now place self.new) }
    {
        let share = Share {
            workers: deal.workers,
            rest: (place + 1) % deal.workers,
        };
        let jobs = dealt_count(deal.script, share);
        self.outcomes.reserve_exact(jobs)?;
        Ok(())
    }

    /// Runs the sessions of this worker. Its place among the workers is counted from 0.
    fn run<R: Wait + Sync>(&mut self, rt: &R, script: &[Session], workers: u32, place: u32)
        requires some { 0 < workers }
        requires few { AreNumbered script.now }
        requires counted { place + 1 < 2 ^ 32 }
        requires room { HasRoom workers script.now place self.old }
        ensures { HasRun S.told workers ((place + 1) % workers) (all_placed script.now) self.old.worker
            self.old.outcomes.items self.new.worker self.new.outcomes.items }
    {
        let share = Share {
            workers,
            rest: (place + 1) % workers,
        };
        self.worker.run_dealt(rt, script, share, &mut self.outcomes);
    }
}

/// Runs the script with a worker at each desk, each in a thread of its own.
///
/// The first of N workers runs the sessions 1, 1 + N, 1 + 2N and so on; the second one 2, 2 + N and so on. Each
/// session is run whole. Each list of outcomes has room for those of the jobs that are dealt to its worker.
pub fn run_workers<
    'a,
    S: JournalStore + Send,
    C: Clock + Send,
    G: Gate + Sync,
    R: Threads + Wait + Sync,
>(rt: &R, script: &[Session], desks: &mut [Desk<'a, S, C, G>])
    requires some { 0 < length desks.old }
    requires counted { length desks.old < 2 ^ 32 }
    requires few { AreNumbered script.now }
    requires room { HaveRoom (length desks.old) script.now desks.old }
    ensures { (i : ℕ) (d : Desk S C G) → i < length desks.old
        → HasRun S.told (length desks.old) ((i + 1) % length desks.old) (all_placed script.now)
        (slice_index_or desks.old i d).worker (slice_index_or desks.old i d).outcomes.items
        (slice_index_or desks.new i d).worker (slice_index_or desks.new i d).outcomes.items }
{
    let threads = desks.len();
    let workers = threads as u32;
    thread::for_each_mut(
        rt,
        desks,
        threads,
        &|place: usize, desk: &mut Desk<S, C, G>|
            requires { (place + 1 < 2 ^ 32) × (0 < workers) × AreNumbered script.now
                × HasRoom workers script.now place desk.old }
            ensures { HasRun S.told workers ((place + 1) % workers) (all_placed script.entry.now) desk.old.worker
                desk.old.outcomes.items desk.new.worker desk.new.outcomes.items }
        { desk.run(rt, script, workers, place as u32) },
    );
}
