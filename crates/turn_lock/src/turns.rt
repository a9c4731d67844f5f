//! The lock, and the calls on it.
ghost use Rattle.std.specs.Prelude.{◌≡◌, ℕ, ◌<◌, ◌≤◌, List, [], ◌∷◌, ◌++◌, All, map, length, vec_len, Some, None, IfOk, IfErr, OnOk, OnErr};
ghost use mathlib.Core.List.{IsPrefix};
ghost use Rattle.turn_lock.specs.History.{MayAdd, UsesStand, ShareNothing, AreWhole, OwnedOnce, with_entry, with_seen, after_split, split_off, newborn};
ghost use Rattle.turn_lock.specs.Rule.{Each};
ghost use Rattle.turn_lock.specs.Seats.{IsSized, Rests, HoldsTurn, known, seen, own};

use crate::counted::Counted;
use crate::law::{Board, Pass};
use crate::plays::Next;
use crate::steps::{gather, hand_back, level, note, open_table, seize, shut, take_out};
use crate::waiters::Waiters;
use containers::OutOfMemory;
use std::alloc::Global;
use std::marker::Brand;
use std::snapshot::Snapshot;
use std::sync::Wait;

/// The allocator had no memory left. The state comes back.
#[derive(Drop)]
pub struct Unmade<T> {
    pub state: T,
}

/// The lock. Threads share it by reference, each with a pass of its own.
#[derive(Drop)]
pub struct Turns<T: Counted> {
    table: Board<T>,
    waiters: Waiters,
    ghost sized: { IsSized table.shared.table_id },
}

impl<T: Counted> Turns<T> {
    /// A lock round the state, and its first pass. The state's list is empty, and its opening is the lock's from then
    /// on.
    ///
    /// Refused only if memory runs out.
    pub fn new(alloc: Global, state: T) -> Result<(Turns<T>, Pass<T>), Unmade<T>>
        requires { T.entries state ≡ [] }
        ensures pass { IfOk result (λ made. Rests T.is_right made.0.table.shared.table_id
            (T.opening made.0.table.shared.key.value) made.1) }
        ensures opening { IfOk result (λ made. T.opening made.0.table.shared.key.value ≡ T.opening state) }
        ensures known { IfOk result (λ made. known made.1 ≡ newborn) }
        ensures refused { IfErr result (λ e. e.state ≡ state) }
    {
        state.known();
        let about = Snapshot::of(&state);
        let (table, pass) = open_table(alloc, state, &about)?;
        let waiters = Waiters::new();
        Ok((Turns { table, waiters }, pass))
    }

    /// Takes the turn, with the state. It may wait.
    pub fn take<R: Wait>(&self, rt: &R, pass: &mut Pass<T>) -> T
        requires { Rests T.is_right self.now.table.shared.table_id
            (T.opening self.now.table.shared.key.value) pass.old }
        ensures pass { HoldsTurn T.is_right self.now.table.shared.table_id
            (T.opening self.now.table.shared.key.value) pass.new }
        ensures opening { T.opening result ≡ T.opening self.now.table.shared.key.value }
        ensures entries { T.entries result ≡ seen pass.new }
        ensures known { known pass.new ≡ with_seen (known pass.old) (seen pass.new) }
        ensures longer { IsPrefix (seen pass.old) (seen pass.new) }
        ensures uses { UsesStand T.opens T.uses (seen pass.new) (own pass.new) }
    {
        seize(rt, &self.table.shared, &self.waiters, pass)
    }

    /// Adds the state's last entry to the history. The pass holds the turn.
    pub fn step(&self, pass: &mut Pass<T>, state: &T)
        requires pass { HoldsTurn T.is_right self.now.table.shared.table_id
            (T.opening self.now.table.shared.key.value) pass.old }
        requires opening { T.opening state.now ≡ T.opening self.now.table.shared.key.value }
        requires entry { (e : T.Entry) × (T.entries state.now ≡ seen pass.old ++ e ∷ [])
            × MayAdd T.opens T.uses (seen pass.old) (own pass.old) e }
        ensures pass { HoldsTurn T.is_right self.now.table.shared.table_id
            (T.opening self.now.table.shared.key.value) pass.new }
        ensures known { (e : T.Entry) → T.entries state.now ≡ seen pass.old ++ e ∷ [] →
            known pass.new ≡ with_entry (known pass.old) e }
    {
        note::<T, Brand>(&self.table.shared, pass, state);
    }

    /// Gives the turn back, with the state.
    pub fn give(&self, pass: &mut Pass<T>, state: T)
        requires pass { HoldsTurn T.is_right self.now.table.shared.table_id
            (T.opening self.now.table.shared.key.value) pass.old }
        requires opening { T.opening state ≡ T.opening self.now.table.shared.key.value }
        requires entries { T.entries state ≡ seen pass.old }
        ensures pass { Rests T.is_right self.now.table.shared.table_id
            (T.opening self.now.table.shared.key.value) pass.new }
        ensures known { known pass.new ≡ known pass.old }
    {
        hand_back(&self.table.shared, &self.waiters, pass, state);
    }

    /// A further pass, which has seen as much and owns nothing.
    pub fn split(&self, pass: &mut Pass<T>) -> Result<Pass<T>, OutOfMemory>
        requires { Rests T.is_right self.now.table.shared.table_id
            (T.opening self.now.table.shared.key.value) pass.old }
        ensures pass { Rests T.is_right self.now.table.shared.table_id
            (T.opening self.now.table.shared.key.value) pass.new }
        ensures further { IfOk result (λ other. Rests T.is_right self.now.table.shared.table_id
            (T.opening self.now.table.shared.key.value) other) }
        ensures split { IfOk result (λ other. known other ≡ split_off (known pass.old)) }
        ensures known { OnOk result (known pass.new ≡ after_split (known pass.old)) }
        ensures refused { OnErr result (known pass.new ≡ known pass.old) }
    {
        Ok(self.table.shared.split_seat::<Next>(pass))
    }

    /// Brings two passes to one list of what was seen, which begins with what either had seen.
    pub fn meet(&self, a: &mut Pass<T>, b: &mut Pass<T>) -> Result<(), OutOfMemory>
        requires a { Rests T.is_right self.now.table.shared.table_id (T.opening self.now.table.shared.key.value) a.old }
        requires b { Rests T.is_right self.now.table.shared.table_id (T.opening self.now.table.shared.key.value) b.old }
        ensures a { Rests T.is_right self.now.table.shared.table_id (T.opening self.now.table.shared.key.value) a.new }
        ensures b { Rests T.is_right self.now.table.shared.table_id (T.opening self.now.table.shared.key.value) b.new }
        ensures one { OnOk result (seen a.new ≡ seen b.new) }
        ensures known_a { known a.new ≡ with_seen (known a.old) (seen a.new) }
        ensures known_b { known b.new ≡ with_seen (known b.old) (seen b.new) }
        ensures longer { OnOk result (IsPrefix (seen a.old) (seen a.new) × IsPrefix (seen b.old) (seen b.new)) }
        ensures apart { OnOk result (ShareNothing (own a.new) (own b.new)) }
        ensures refused { OnErr result ((known a.new ≡ known a.old) × (known b.new ≡ known b.old)) }
    {
        level(&self.table.shared, a, b);
        Ok(())
    }

    /// Ends the lock, and gives the state. It takes the turn with each pass but the last and gives it back, joins
    /// these passes into the last one, and takes the turn with that one for good. There is a pass. It may wait.
    pub fn close<R: Wait>(self, rt: &R, mut passes: Vec<Pass<T>>) -> T
        requires some { 0 < vec_len passes }
        requires each { All (Rests T.is_right self.table.shared.table_id (T.opening self.table.shared.key.value))
            passes.items }
        ensures opening { T.opening result ≡ T.opening self.table.shared.key.value }
        ensures right { T.is_right (T.opening self.table.shared.key.value) (T.entries result) }
        ensures seen { Each (λ p. IsPrefix (seen p) (T.entries result)) passes.items }
        ensures once { AreWhole (map known passes.items) → OwnedOnce (T.entries result) (map known passes.items) }
    {
        let Turns { table, waiters } = self;
        let mut last = passes.pop().unwrap();
        gather(rt, &table.shared, &waiters, &mut last, passes);
        let state = seize(rt, &table.shared, &waiters, &mut last);
        shut(&table.shared, &mut last, state);
        take_out(table, last)
    }
}
