//! The clock of the system.
ghost use Rattle.std.specs.Prelude.{◌≡◌, ◌/◌, ◌^◌, ◌<◌, None, SomeIff, unwrap_or, pos};
ghost use Rattle.std.specs.Duration.{as_nanos};

use crate::traits::Clock;
use std::time;
use std::time::{Duration, SystemTime, UNIX_EPOCH};

/// The clock of the system. It tells nothing of its answers. Where the system's clock cannot be read, or its
/// reading does not fit, it answers its last answer again, and 0 where it has given none.
#[derive(Drop)]
pub struct SystemClock<R> {
    rt: R,
    last: i64,
}

impl<R> SystemClock<R> {
    /// A clock over this runtime, which is not read yet.
    pub fn new(rt: R) -> SystemClock<R>
        ensures { result ≡ record { rt = rt; last = pos 0 } }
    {
        SystemClock { rt, last: 0 }
    }

    /// The answer for what the system's clock reads.
    fn answer(&mut self, reading: Option<i64>) -> i64
        ensures answer { result ≡ unwrap_or reading self.old.last }
        ensures last { self.new.last ≡ result }
    {
        if let Some(time) = reading {
            self.last = time;
        }
        self.last
    }
}

impl<R: time::Clock> Clock for SystemClock<R> {
    ghost answers = { λ _. None };

    ghost always = { λ _. None };

    fn now(&mut self) -> i64
        ensures last { self.new.last ≡ result }
    {
        let reading = read_clock(&self.rt);
        self.answer(reading)
    }
}

/// What the system's clock reads, in milliseconds since 1970 in UTC, where it can be read and fits.
fn read_clock<R: time::Clock>(rt: &R) -> Option<i64> {
    let reading = SystemTime::now(rt).ok()?;
    milliseconds(reading.duration_since(UNIX_EPOCH).ok()?)
}

/// The whole milliseconds of a duration, where they fit.
fn milliseconds(since: Duration) -> Option<i64>
    ensures { SomeIff result (as_nanos since / 1000000 < 2 ^ 63) (pos (as_nanos since / 1000000)) }
{
    i64::try_from(since.as_millis()).ok()
}
