//! Who waits for the turn, and how one of them is woken.
ghost use Rattle.turn_lock.specs.Seats.{IsSized};

use crate::counted::Counted;
use crate::law::Top;
use std::sync::Wait;
use std::sync::atomic::{AtomicU64, Ordering};

/// The count of the threads that sleep, or that go to sleep or were woken just now.
#[derive(Drop)]
pub(crate) struct Waiters {
    count: AtomicU64,
}

impl Waiters {
    /// Nobody waits.
    pub(crate) fn new() -> Waiters {
        Waiters {
            count: AtomicU64::new(0),
        }
    }

    // No wake is lost. A thread counts itself before `park` looks at the word, and whoever gives the turn back frees
    // the word before it reads the count; all these steps stand in one order. If it reads 0, the thread looks after the
    // word was freed: it finds 0 and doesn't sleep, or the 1 of a later holder, who reads the count after it was
    // raised. Else a sleeper is woken, and one that hasn't slept yet looks at the word once more.

    /// Sleeps if the turn is held, until it is given back. It may also return for no reason.
    pub(crate) fn sleep<T: Counted, R: Wait>(&self, rt: &R, top: &Top<T>)
        requires { IsSized top.now.table_id }
    {
        self.count.fetch_add(1, Ordering::SeqCst);
        top.park(rt, 1, 1);
        self.count.fetch_sub(1, Ordering::SeqCst);
    }

    /// Wakes one that sleeps, if somebody waits. The turn was given back before.
    pub(crate) fn wake_one<T: Counted>(&self, top: &Top<T>)
        requires { IsSized top.now.table_id }
    {
        if self.count.load(Ordering::SeqCst) != 0 {
            top.wake_one(1);
        }
    }
}
