//! What passes do at the table.
ghost use Rattle.std.specs.Prelude.{◌≡◌, ℕ, ◌^◌, ◌<◌, [], ◌∷◌, ◌++◌, length, map, slice_index_or, Some, None, IsSome, IfOk, IfErr};
ghost use mathlib.Core.List.{IsPrefix};
ghost use Rattle.turn_lock.specs.declared.view.Turn.TheVariants.{Away, Got, Held, Shut};
ghost use Rattle.turn_lock.specs.declared.view.Known.{Known};
ghost use Rattle.turn_lock.specs.History.{with_seen, with_entry, MayAdd, IsPart, Grows, AllGrow, ShareNothing, newborn};
ghost use Rattle.turn_lock.specs.Rule.{IsTold, Each, viewed};
ghost use Rattle.turn_lock.specs.Seats.{IsSeat, IsSized, Rests, known, seen, own};

use crate::counted::Counted;
use crate::law::{Board, Pass, Top};
use crate::plays::{Add, Close, Give, Keep, Look, Noted, Part, Sit, Take, Tie};
use crate::turns::Unmade;
use crate::waiters::Waiters;
use atomic_table::{Refused, Table};
use std::alloc::{AllocFailed, Global};
use std::mem;
use std::snapshot::Snapshot;
use std::sync::Wait;

// The state in a slot of its own.
fn lay<T>(alloc: Global, state: T) -> Result<Vec<Option<T>>, Unmade<T>>
    ensures ok { IfOk result (λ slots. slots.items ≡ Some state ∷ []) }
    ensures refused { IfErr result (λ e. e.state ≡ state) }
{
    let mut slots = Vec::new(alloc);
    match slots.push(Some(state)) {
        Ok(()) => Ok(slots),
        Err(AllocFailed { value }) => {
            slots.destroy_empty();
            Err(Unmade {
                state: value.unwrap(),
            })
        }
    }
}

// The state out of its slot again.
fn unlay<T>(mut slots: Vec<Option<T>>) -> Unmade<T>
    requires one { length slots.items ≡ 1 }
    requires there { IsSome (slice_index_or slots.items 0 None) }
    ensures { Some result.state ≡ slice_index_or slots.items 0 None }
{
    let state = slots.pop().unwrap().unwrap();
    slots.destroy_empty();
    Unmade { state }
}

// The table of a lock, with the state in its slot, and its first seat.
pub(crate) fn open_table<T: Counted>(
    alloc: Global,
    state: T,
    about: &Snapshot<T>,
) -> Result<(Board<T>, Pass<T>), Unmade<T>>
    requires entries { T.entries state ≡ [] }
    requires right { T.is_right (T.opening state) (T.entries state) }
    requires about { about.now.value ≡ state }
    ensures pass { IfOk result (λ made. Rests T.is_right made.0.shared.table_id
        (T.opening made.0.shared.key.value) made.1) }
    ensures sized { IfOk result (λ made. IsSized made.0.shared.table_id) }
    ensures opening { IfOk result (λ made. T.opening made.0.shared.key.value ≡ T.opening state) }
    ensures known { IfOk result (λ made. known made.1 ≡ newborn) }
    ensures refused { IfErr result (λ e. e.state ≡ state) }
{
    let slots = lay(alloc, state)?;
    match Table::new(alloc, &[0, 0], slots, about) {
        Ok(made) => Ok(made),
        Err(Refused { slots }) => Err(unlay(slots)),
    }
}

// Takes the state out of the slot that was got with the turn, and looks at the count.
fn receive<T: Counted>(top: &Top<T>, pass: &mut Pass<T>) -> T
    requires sized { IsSized top.now.table_id }
    requires pass { (pass.old.table_id ≡ top.now.table_id) × IsPart (known pass.old) }
    requires got { (state : T) × (T.opening state ≡ T.opening top.now.key.value)
        × (pass.old.me ≡ (
          viewed (Some (T.opening top.now.key.value)) (known pass.old) pass.old.me.0.kept
              (Got (T.entries state)),
          (0, Some state) ∷ [],
        )) }
    ensures pass { IsSeat T.is_right top.now.table_id (T.opening top.now.key.value) pass.old.me.0.kept Held
        ((0, None) ∷ []) pass.new }
    ensures seen { known pass.new ≡ with_seen (known pass.old) (T.entries result) }
    ensures opening { T.opening result ≡ T.opening top.now.key.value }
    ensures told { IsTold T.is_right T.opens T.uses (T.opening top.now.key.value)
        (viewed (Some (T.opening top.now.key.value)) (known pass.old) pass.old.me.0.kept Away) (T.entries result) }
{
    let state = top.exchange(pass, 0, None).unwrap();
    top.load::<Look>(pass, 0);
    state
}

// Waits for the turn, and takes it with the state.
pub(crate) fn seize<T: Counted, R: Wait>(
    rt: &R,
    top: &Top<T>,
    waiters: &Waiters,
    pass: &mut Pass<T>,
) -> T
    requires sized { IsSized top.now.table_id }
    requires pass { IsSeat T.is_right top.now.table_id (T.opening top.now.key.value) pass.old.me.0.kept
        Away [] pass.old }
    ensures pass { IsSeat T.is_right top.now.table_id (T.opening top.now.key.value) pass.old.me.0.kept Held
        ((0, None) ∷ []) pass.new }
    ensures seen { known pass.new ≡ with_seen (known pass.old) (T.entries result) }
    ensures opening { T.opening result ≡ T.opening top.now.key.value }
    ensures told { IsTold T.is_right T.opens T.uses (T.opening top.now.key.value)
        (viewed (Some (T.opening top.now.key.value)) (known pass.old) pass.old.me.0.kept Away) (T.entries result) }
{
    'turns: for _ in rt.forever() {
        if top.compare_exchange::<Take>(pass, 1, 0, 1) == 0 {
            return receive(top, pass);
        }
        waiters.sleep(rt, top);
    }
    unreachable!()
}

// Adds the noted entry to the history.
pub(crate) fn note<T: Counted, N: Noted<T::Entry>>(top: &Top<T>, pass: &mut Pass<T>, state: &T)
    requires sized { IsSized top.now.table_id }
    requires pass { IsSeat T.is_right top.now.table_id (T.opening top.now.key.value) [] Held ((0, None) ∷ []) pass.old }
    requires entry { (e : T.Entry) × (N.noted ≡ Some e) × (T.entries state.now ≡ seen pass.old ++ e ∷ [])
        × MayAdd T.opens T.uses (seen pass.old) (own pass.old) e }
    requires opening { T.opening state.now ≡ T.opening top.now.key.value }
    ensures pass { IsSeat T.is_right top.now.table_id (T.opening top.now.key.value) [] Held ((0, None) ∷ []) pass.new }
    ensures entry { (e : T.Entry) → N.noted ≡ Some e → known pass.new ≡ with_entry (known pass.old) e }
{
    let _count = state.count();
    state.known();
    top.fetch_add::<Add<N>>(pass, 0, 1);
}

// Gives the turn back with the state, and wakes one that waits, if there is one.
pub(crate) fn hand_back<T: Counted>(top: &Top<T>, waiters: &Waiters, pass: &mut Pass<T>, state: T)
    requires sized { IsSized top.now.table_id }
    requires pass { IsSeat T.is_right top.now.table_id (T.opening top.now.key.value) pass.old.me.0.kept Held
        ((0, None) ∷ []) pass.old }
    requires state { (T.opening state ≡ T.opening top.now.key.value) × (T.entries state ≡ seen pass.old) }
    ensures pass { IsSeat T.is_right top.now.table_id (T.opening top.now.key.value) pass.old.me.0.kept
        Away [] pass.new }
    ensures same { known pass.new ≡ known pass.old }
{
    let empty = top.exchange(pass, 0, Some(state));
    let None = empty else { unreachable!() };
    top.store::<Give>(pass, 1, 0);
    waiters.wake_one(top);
}

// Leaves the state in the slot, and keeps the turn for good.
pub(crate) fn shut<T: Counted>(top: &Top<T>, pass: &mut Pass<T>, state: T)
    requires sized { IsSized top.now.table_id }
    requires pass { IsSeat T.is_right top.now.table_id (T.opening top.now.key.value) pass.old.me.0.kept Held
        ((0, None) ∷ []) pass.old }
    requires state { (T.opening state ≡ T.opening top.now.key.value) × (T.entries state ≡ seen pass.old) }
    ensures pass { IsSeat T.is_right top.now.table_id (T.opening top.now.key.value) pass.old.me.0.kept
        Shut [] pass.new }
    ensures same { known pass.new ≡ known pass.old }
{
    let hole = top.exchange(pass, 0, Some(state));
    let None = hole else { unreachable!() };
    top.load::<Close>(pass, 0);
}

// Brings two passes to one list of what was seen.
pub(crate) fn level<T: Counted>(top: &Top<T>, a: &mut Pass<T>, b: &mut Pass<T>)
    requires sized { IsSized top.now.table_id }
    requires a { Rests T.is_right top.now.table_id (T.opening top.now.key.value) a.old }
    requires b { Rests T.is_right top.now.table_id (T.opening top.now.key.value) b.old }
    ensures a { Rests T.is_right top.now.table_id (T.opening top.now.key.value) a.new }
    ensures b { Rests T.is_right top.now.table_id (T.opening top.now.key.value) b.new }
    ensures both { (known a.new ≡ with_seen (known a.old) (seen b.new))
        × (known b.new ≡ with_seen (known b.old) (seen b.new)) }
    ensures seen { IsPrefix (seen a.old) (seen b.new) × IsPrefix (seen b.old) (seen b.new) }
    ensures apart { ShareNothing (own a.old) (own b.old) }
{
    let (_, blank) = top.load_new_seat::<Sit>(0);
    let first = mem::replace(a, blank);
    top.join_seat::<Keep>(b, first);
    top.load::<Tie>(b, 0);
    *a = top.split_seat::<Part>(b);
}

// Takes the turn with a pass and gives it back, and joins the pass into the last one.
fn visit<T: Counted, R: Wait>(
    rt: &R,
    top: &Top<T>,
    waiters: &Waiters,
    last: &mut Pass<T>,
    mut pass: Pass<T>,
)
    requires sized { IsSized top.now.table_id }
    requires pass { Rests T.is_right top.now.table_id (T.opening top.now.key.value) pass }
    requires last { IsSeat T.is_right top.now.table_id (T.opening top.now.key.value) last.old.me.0.kept
        Away [] last.old }
    ensures last { IsSeat T.is_right top.now.table_id (T.opening top.now.key.value) last.new.me.0.kept
        Away [] last.new }
    ensures same { known last.new ≡ known last.old }
    ensures kept { (k : Known T.Entry) × Grows (known pass) k × (last.new.me.0.kept ≡ k ∷ last.old.me.0.kept) }
{
    let state = seize(rt, top, waiters, &mut pass);
    hand_back(top, waiters, &mut pass, state);
    top.join_seat::<Keep>(last, pass);
}

// Takes the turn with each pass in turn, and joins them all into the last one.
pub(crate) fn gather<T: Counted, R: Wait>(
    rt: &R,
    top: &Top<T>,
    waiters: &Waiters,
    last: &mut Pass<T>,
    mut passes: Vec<Pass<T>>,
)
    requires sized { IsSized top.now.table_id }
    requires each { Each (Rests T.is_right top.now.table_id (T.opening top.now.key.value)) passes.items }
    requires last { Rests T.is_right top.now.table_id (T.opening top.now.key.value) last.old }
    ensures last { IsSeat T.is_right top.now.table_id (T.opening top.now.key.value) last.new.me.0.kept
        Away [] last.new }
    ensures same { known last.new ≡ known last.old }
    ensures kept { AllGrow (map known passes.items) last.new.me.0.kept }
{
    'passes: while let Some(pass) = passes.pop() {
        visit(rt, top, waiters, last, pass);
    }
}

// The state out of the table of a lock whose turn is held for good.
pub(crate) fn take_out<T: Counted>(table: Board<T>, pass: Pass<T>) -> T
    requires sized { IsSized table.shared.table_id }
    requires pass { IsSeat T.is_right table.shared.table_id (T.opening table.shared.key.value) pass.me.0.kept
        Shut [] pass }
    ensures opening { T.opening result ≡ T.opening table.shared.key.value }
    ensures entries { T.entries result ≡ seen pass }
{
    let mut closed = table.close_with(pass);
    let state = closed.take(0).unwrap();
    closed.free();
    state
}
