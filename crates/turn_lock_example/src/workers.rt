//! What a worker does: it draws a number and gives it back, each in a turn of its own.
ghost use Rattle.std.specs.Prelude.{◌≡◌, ℕ, IfSome, All, IfOk, vec_len};
ghost use Rattle.turn_lock.specs.History.{Opened};
ghost use Rattle.turn_lock.specs.Seats.{Rests, known, seen, own};
ghost use Rattle.turn_lock_example.specs.Marks.{IsRun, IsUnused, opened_by, used_by};

use crate::tally::Tally;
use containers::OutOfMemory;
use std::alloc::Global;
use std::sync::Wait;
use std::thread;
use std::thread::Threads;
use turn_lock::{Pass, Turns};

/// Draws a number. None comes only where no memory is left, or no number.
pub fn draw<R: Wait>(rt: &R, lock: &Turns<Tally>, pass: &mut Pass<Tally>) -> Option<u64>
    requires { Rests IsRun lock.now.table.shared.table_id tt pass.old }
    ensures pass { Rests IsRun lock.now.table.shared.table_id tt pass.new }
    ensures drawn { IfSome result (λ n. Opened opened_by used_by (own pass.new) n × IsUnused (own pass.new) n) }
{
    let mut state = lock.take(rt, pass);
    match state.draw() {
        Ok(number) => {
            lock.step(pass, &state);
            lock.give(pass, state);
            Some(number)
        }
        Err(_) => {
            lock.give(pass, state);
            None
        }
    }
}

/// Gives back a number that was drawn with this pass. It answers whether memory served.
pub fn give_back<R: Wait>(rt: &R, lock: &Turns<Tally>, pass: &mut Pass<Tally>, number: u64) -> bool
    requires pass { Rests IsRun lock.now.table.shared.table_id tt pass.old }
    requires drawn { Opened opened_by used_by (own pass.old) number × IsUnused (own pass.old) number }
    ensures { Rests IsRun lock.now.table.shared.table_id tt pass.new }
{
    let mut state = lock.take(rt, pass);
    match state.give_back(number) {
        Ok(()) => {
            lock.step(pass, &state);
            lock.give(pass, state);
            true
        }
        Err(_) => {
            lock.give(pass, state);
            false
        }
    }
}

/// Draws a number and gives it back.
pub fn round<R: Wait>(rt: &R, lock: &Turns<Tally>, pass: &mut Pass<Tally>)
    requires { Rests IsRun lock.now.table.shared.table_id tt pass.old }
    ensures { Rests IsRun lock.now.table.shared.table_id tt pass.new }
{
    let Some(number) = draw(rt, lock, pass) else {
        return;
    };
    give_back(rt, lock, pass, number);
}

/// Draws a number and gives it back, `rounds` times.
pub fn work<R: Wait>(rt: &R, lock: &Turns<Tally>, pass: &mut Pass<Tally>, rounds: u32)
    requires { Rests IsRun lock.now.table.shared.table_id tt pass.old }
    ensures { Rests IsRun lock.now.table.shared.table_id tt pass.new }
{
    for _ in 0..rounds {
        round(rt, lock, pass);
    }
}

// The lock with two passes of it, which have met.
fn two_passes(alloc: Global) -> Result<(Turns<Tally>, Vec<Pass<Tally>>), OutOfMemory>
    ensures { IfOk result (λ made. All (Rests IsRun made.0.table.shared.table_id tt) made.1.items
        × (vec_len made.1 ≡ 2)) }
{
    let Ok((lock, mut first)) = Turns::new(alloc, Tally::new(alloc)) else {
        return Err(OutOfMemory);
    };
    let mut passes = Vec::with_capacity(alloc, 2)?;
    let mut second = lock.split(&mut first)?;
    lock.meet(&mut first, &mut second)?;
    passes.push(first)?;
    passes.push(second)?;
    Ok((lock, passes))
}

// Each pass works in a thread of its own.
fn all_work<R: Threads + Wait + Sync>(
    rt: &R,
    lock: &Turns<Tally>,
    passes: &mut [Pass<Tally>],
    rounds: u32,
)
    requires { All (Rests IsRun lock.now.table.shared.table_id tt) passes.old }
    ensures { All (Rests IsRun lock.now.table.shared.table_id tt) passes.new }
{
    thread::for_each_mut(
        rt,
        passes,
        2,
        &|_, pass: &mut Pass<Tally>|
            requires { Rests IsRun lock.now.table.shared.table_id tt pass.old }
            ensures { Rests IsRun lock.entry.now.table.shared.table_id tt pass.new }
        { work(rt, lock, pass, rounds) },
    );
}

/// What two workers leave that draw `rounds` numbers each.
pub fn work_by_two<R: Threads + Wait + Sync>(
    rt: &R,
    alloc: Global,
    rounds: u32,
) -> Result<Tally, OutOfMemory> {
    let (lock, mut passes) = two_passes(alloc)?;
    all_work(rt, &lock, passes.as_mut_slice(), rounds);
    Ok(lock.close(rt, passes))
}
