//! The clock of the system, over one that moves, fails and leaves its range.
use crate::calls::crosses_threads;
use outside::{Clock, SystemClock};
use std::cell::Cell;
use std::time::Duration;
use std::{io, time};

/// A system whose readings are these milliseconds in turn. It cannot be read at `None`, nor behind them.
#[derive(Drop)]
struct Readings<'a> {
    readings: &'a [Option<u64>],
    next: Cell<usize>,
}

impl time::Clock for Readings<'_> {
    fn monotonic(&self) -> io::Result<Duration> {
        self.since_1970()
    }

    fn since_1970(&self) -> io::Result<Duration> {
        let at = self.next.get();
        self.next.set(at.saturating_add(1));
        match self.readings.get(at) {
            Some(Some(reading)) => Ok(Duration::from_millis(*reading)),
            _ => Err(io::Error::from(io::ErrorKind::Other)),
        }
    }
}

#[test]
fn clock_over_a_system_that_moves(rt: HostRuntime) {
    let system = Readings {
        readings: &[
            None,
            Some(1500),
            None,
            Some(2500),
            Some(u64::MAX),
            Some(1000),
        ],
        next: Cell::new(0),
    };
    let mut clock = SystemClock::new(&system);
    for answer in [0, 1500, 1500, 2500, 2500, 1000, 1000] {
        assert_eq!(rt; clock.now(), answer);
    }
}

#[test]
fn clock_of_the_system(rt: HostRuntime) {
    let mut clock = SystemClock::new(&rt);
    crosses_threads(&clock);
    // Any day on which this runs lies past the year 2020.
    assert!(rt; clock.now() > 1_577_836_800_000);
}
