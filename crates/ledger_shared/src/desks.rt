//! The desks of a run, one for each worker: they are set up, used and cleared again.
ghost use Rattle.std.specs.Prelude.{◌≡◌, ◌+◌, ◌-◌, ◌<◌, ◌≤◌, ◌^◌, ℕ, [], ◌∷◌, ◌++◌, map, length};
ghost use Rattle.std.specs.Prelude.{vec_capacity, vec_len, OnErr, OnOk};
ghost use Rattle.atomic_table.specs.Seated.{TableId};
ghost use Rattle.turn_lock.specs.History.{AreWhole, newborn};
ghost use Rattle.turn_lock.specs.Rule.{Each};
ghost use Rattle.turn_lock.specs.Seats.{Rests, known};
ghost use Rattle.ledger_model.specs.Script.{all_placed};
ghost use Rattle.ledger_core.specs.Tails.{TailHeld};
ghost use Rattle.ledger_shared.specs.declared.workers.Desk.{Desk};
ghost use Rattle.ledger_shared.specs.Behind.{IsRightFor, opening_of};
ghost use Rattle.ledger_shared.specs.Desks.{AreReady, HasRoom, HaveEnded, HaveRoom, HaveWorked, IsAt, IsIdle, knowns};
ghost use Rattle.ledger_shared.specs.Sessions.{AreNumbered, job_count};

use crate::crew::Deal;
use crate::ledger::Pass;
use crate::merging::merge;
use crate::room::put;
use crate::run::Lists;
use crate::worker::Worker;
use crate::workers::{Desk, run_workers};
use ion_values::OutOfMemory;
use ledger_model::{PlacedOutcome, Session};
use outside::{Clock, Gate, JournalStore};
use std::alloc::Global;
use std::sync::Wait;
use std::thread::Threads;

/// Adds a desk for the worker at this place, counted from 0. It has room for the outcomes of the jobs that are
/// dealt to the worker; if memory runs out, the desk is added without that room.
fn add_desk<'a, S: JournalStore, C: Clock, G: Gate>(
    alloc: Global,
    deal: &Deal<'_>,
    place: u32,
    worker: Worker<'a, S, C, G>,
    desks: &mut Vec<Desk<'a, S, C, G>>,
) -> Result<(), OutOfMemory>
    requires some { 0 < deal.now.workers }
    requires few { AreNumbered deal.now.script.now }
    requires counted { place + 1 < 2 ^ 32 }
    requires space { vec_len desks.old < vec_capacity desks.old }
    ensures added { (d : Desk S C G) × (desks.new.items ≡ desks.old.items ++ d ∷ []) × (d.worker ≡ worker.entry)
        × (d.outcomes.items ≡ []) × OnOk result (HasRoom deal.now.workers deal.now.script.now place d) }
    ensures len { vec_len desks.new ≡ vec_len desks.old + 1 }
    ensures space { vec_capacity desks.old ≤ vec_capacity desks.new }
{
    let mut desk = Desk {
        worker,
        outcomes: Vec::new(alloc),
    };
    let made = desk.make_room(deal, place);
    put(desks, desk);
    made
}

/// Adds desks for all workers but the last one. Their passes are split from the last worker's pass. If memory runs
/// out, only some of them are added.
fn add_others<'a, S: JournalStore, C: Clock, G: Gate>(
    alloc: Global,
    deal: &Deal<'_>,
    last: &mut Worker<'a, S, C, G>,
    desks: &mut Vec<Desk<'a, S, C, G>>,
) -> Result<(), OutOfMemory>
    requires some { 0 < deal.now.workers }
    requires few { AreNumbered deal.now.script.now }
    requires empty { desks.old.items ≡ [] }
    requires space { deal.now.workers ≤ vec_capacity desks.old }
    requires known { last.old.known ≡ newborn }
    ensures table { last.new.table ≡ last.old.table }
    ensures opened { last.new.opened ≡ last.old.opened }
    ensures own { last.new.known.own ≡ [] }
    ensures idle { Each (IsIdle last.old.table last.old.opened) desks.new.items }
    ensures whole { AreWhole (knowns desks.new.items ++ last.new.known ∷ []) }
    ensures space { vec_len desks.new < vec_capacity desks.new }
    ensures most { vec_len desks.new ≤ deal.now.workers - 1 }
    ensures all { OnOk result (vec_len desks.new ≡ deal.now.workers - 1) }
    ensures room { OnOk result (HaveRoom deal.now.workers deal.now.script.now desks.new.items) }
{
    'desks: for place in 0..deal.workers - 1 {
        let worker = last.another()?;
        add_desk(alloc, deal, place, worker, desks)?;
    }
    Ok(())
}

/// Adds desks for all workers. This worker gets the last one, and the passes of the others are split from its pass.
/// If memory runs out, only some desks are added, which hold all passes.
fn set_up<'a, S: JournalStore, C: Clock, G: Gate>(
    alloc: Global,
    deal: &Deal<'_>,
    worker: Worker<'a, S, C, G>,
    desks: &mut Vec<Desk<'a, S, C, G>>,
) -> Result<(), OutOfMemory>
    requires some { 0 < deal.now.workers }
    requires few { AreNumbered deal.now.script.now }
    requires empty { desks.old.items ≡ [] }
    requires space { deal.now.workers ≤ vec_capacity desks.old }
    requires known { worker.known ≡ newborn }
    ensures ready { AreReady worker.entry.table worker.entry.opened desks.new.items }
    ensures some { 0 < vec_len desks.new }
    ensures most { vec_len desks.new ≤ deal.now.workers }
    ensures all { OnOk result (vec_len desks.new ≡ deal.now.workers) }
    ensures room { OnOk result (HaveRoom deal.now.workers deal.now.script.now desks.new.items) }
{
    let mut last = worker;
    let others = add_others(alloc, deal, &mut last, desks);
    let own = add_desk(alloc, deal, deal.workers - 1, last, desks);
    others?;
    own
}

/// Takes the passes out of the desks, in order.
fn clear<'a, S: JournalStore, C: Clock, G: Gate>(
    mut desks: Vec<Desk<'a, S, C, G>>,
    passes: &mut Vec<Pass<S, C>>,
)
    requires empty { passes.old.items ≡ [] }
    requires space { vec_len desks ≤ vec_capacity passes.old }
    ensures each { (table : TableId) (opened : TailHeld S C) → Each (IsAt table opened) desks.entry.items
        → Each (Rests (IsRightFor S.told) table opened) passes.new.items }
    ensures known { map known passes.new.items ≡ knowns desks.entry.items }
{
    'desks: while let Some(desk) = desks.pop() {
        let Desk {
            worker,
            outcomes: _,
        } = desk;
        put(passes, worker.into_pass());
    }
    passes.reverse();
}

/// Runs the script with a worker at each desk. The outcomes of all jobs are put into the list, which has room for
/// them, in the script's order.
fn work<'a, S: JournalStore + Send, C: Clock + Send, G: Gate + Sync, R: Threads + Wait + Sync>(
    rt: &R,
    script: &[Session],
    desks: &mut [Desk<'a, S, C, G>],
    outcomes: &mut Vec<PlacedOutcome>,
)
    requires some { 0 < length desks.old }
    requires counted { length desks.old < 2 ^ 32 }
    requires few { AreNumbered script.now }
    requires room { HaveRoom (length desks.old) script.now desks.old }
    requires ready { (table : TableId) × (opened : TailHeld S C) × AreReady table opened desks.old }
    requires empty { outcomes.old.items ≡ [] }
    requires space { job_count script.now ≤ vec_capacity outcomes.old }
    ensures { (table : TableId) (opened : TailHeld S C) → AreReady table opened desks.old
        → HaveEnded S.told table opened (length desks.old) (all_placed script.now) desks.new outcomes.new.items }
{
    run_workers(rt, script, desks);
    merge(script, desks, outcomes);
}

/// Runs the script's sessions, each worker in a thread of its own. This worker is the last one, and the others have
/// passes that are split from its pass.
///
/// All passes are put into the lists in the order of their workers, and the outcomes of all jobs in the script's
/// order. There is room for both. If memory runs out, nothing is run.
pub(crate) fn run_desks<
    'a,
    S: JournalStore + Send,
    C: Clock + Send,
    G: Gate + Sync,
    R: Threads + Wait + Sync,
>(
    rt: &R,
    alloc: Global,
    deal: &Deal<'_>,
    worker: Worker<'a, S, C, G>,
    lists: &mut Lists<S, C>,
) -> Result<(), OutOfMemory>
    requires some { 0 < deal.now.workers }
    requires few { AreNumbered deal.now.script.now }
    requires known { worker.known ≡ newborn }
    requires empty { (lists.old.passes.items ≡ []) × (lists.old.outcomes.items ≡ []) }
    requires space { deal.now.workers ≤ vec_capacity lists.old.passes }
    requires room { job_count deal.now.script.now ≤ vec_capacity lists.old.outcomes }
    ensures some { 0 < vec_len lists.new.passes }
    ensures each { Each (Rests (IsRightFor S.told) worker.entry.table worker.entry.opened) lists.new.passes.items }
    ensures whole { AreWhole (map known lists.new.passes.items) }
    ensures idle { OnErr result (Each (λ k. k.own ≡ []) (map known lists.new.passes.items)) }
    ensures worked { OnOk result (HaveWorked (opening_of S.told worker.entry.opened) deal.now.workers
        (all_placed deal.now.script.now) (map known lists.new.passes.items) lists.new.outcomes.items) }
{
    let Ok(mut desks) = Vec::with_capacity(alloc, deal.workers as usize) else {
        put(&mut lists.passes, worker.into_pass());
        return Err(OutOfMemory);
    };
    match set_up(alloc, deal, worker, &mut desks) {
        Ok(()) => {
            work(rt, deal.script, desks.as_mut_slice(), &mut lists.outcomes);
            clear(desks, &mut lists.passes);
            Ok(())
        }
        Err(OutOfMemory) => {
            clear(desks, &mut lists.passes);
            Err(OutOfMemory)
        }
    }
}
