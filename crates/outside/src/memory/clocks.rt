//! A clock in memory.
ghost use Rattle.std.specs.Prelude.{◌≡◌, ◌<◌, None, vec_len};
ghost use Rattle.outside.specs.Clocks.{next_time, clock_after, told_answers};

use crate::traits::Clock;
use std::marker::Model;

/// A clock that answers a list of times in turn, and then the last of them again and again.
#[derive(Drop)]
pub struct SetClock {
    times: Vec<i64>,
    calls: u64,
}

impl Model for SetClock {
    ghost use Rattle.std.specs.Prelude.{◌<◌, vec_len};
    ghost use Rattle.outside.specs.Clocks.{ClockHeld};

    ghost Value = { ClockHeld };

    ghost view = { λ c. record { times = c.times.items; calls = c.calls } };

    ghost invariant = { λ c. 0 < vec_len c.times };
}

impl SetClock {
    /// A clock that answers these times, in milliseconds since 1970 in UTC. It needs at least one.
    pub fn new(times: Vec<i64>) -> SetClock
        requires { 0 < vec_len times }
        ensures { result ≡ record { times = times.items; calls = 0 } }
    {
        SetClock { times, calls: 0 }
    }
}

impl Clock for SetClock {
    ghost answers = { told_answers };

    ghost always = { λ _. None };

    fn now(&mut self) -> i64
        ensures answer { result ≡ next_time self.old }
        ensures after { self.new ≡ clock_after self.old }
    {
        let last = self.times.len() - 1;
        let time = self.times[last.min(self.calls as usize)];
        self.calls = self.calls.saturating_add(1);
        time
    }
}
