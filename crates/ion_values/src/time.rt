ghost use Rattle.std.specs.Prelude.{◌≡◌};

use crate::time_ranges::{is_time, utc_minutes};
use std::marker::Model;

/// How far a timestamp goes.
#[derive(Clone, Copy, Debug, PartialEq, Eq)]
pub enum Precision {
    Year,
    Month,
    Day,
    Minute,
    Second,
}

/// The parts of a timestamp. `digits` counts the digits of the fraction, `nanos` is the fraction in
/// billionths of a second, and `offset` is the distance from UTC in minutes, None where it is unknown.
#[derive(Clone, Copy, Debug, PartialEq, Eq)]
pub struct TimeParts {
    pub precision: Precision,
    pub year: u16,
    pub month: u8,
    pub day: u8,
    pub hour: u8,
    pub minute: u8,
    pub second: u8,
    pub digits: u8,
    pub nanos: u32,
    pub offset: Option<i16>,
}

/// A part of a timestamp is out of its range.
#[derive(Clone, Copy, Debug, PartialEq, Eq)]
pub struct BadTime;

/// A timestamp.
#[derive(Clone, Copy, Debug, PartialEq, Eq)]
pub struct IonTime {
    parts: TimeParts,
}

impl Model for IonTime {
    ghost use Rattle.ion_values.specs.declared.time.TimeParts.{TimeParts};
    ghost use Rattle.ion_values.specs.Time.{IsTime};

    ghost Value = { TimeParts };

    ghost view = { λ t. t.parts };

    ghost invariant = { λ t. IsTime t.parts };

    ghost inverse = { λ p. record { parts = p } };
}

impl IonTime {
    ghost use Rattle.std.specs.Prelude.{IsTrue, OkIff};
    ghost use Rattle.ion_values.specs.Time.{instant_of, IsTime};

    /// The timestamp of these parts. `BadTime` comes where a part is out of its range: the year is
    /// not one of 1 to 9999, in UTC too; the calendar has no such day; the clock shows no such
    /// time; the offset is a day or more; `nanos` is a second or more or has a digit past
    /// `digits`, of which there are at most 9; or what the precision leaves out is not the first
    /// month or day, the unknown offset and otherwise 0. It takes no memory.
    pub fn new(parts: TimeParts) -> Result<IonTime, BadTime>
        ensures { OkIff result (IsTime parts) parts }
    {
        if is_time(&parts) {
            Ok(IonTime { parts })
        } else {
            Err(BadTime)
        }
    }

    /// The parts. It takes no memory.
    pub fn parts(&self) -> TimeParts
        ensures value { result ≡ self.now }
        ensures within { IsTime result }
    {
        self.parts
    }

    /// The moment at which the written precision begins, in billionths of a second since 1970 in
    /// UTC. The unknown offset counts as UTC. It takes no memory.
    #[tactic(auto, unfolding(crate::specs::Time::is_time))]
    pub fn instant(&self) -> i128
        ensures { result ≡ instant_of self.now }
    {
        let parts = self.parts;
        let rest = u64::from(parts.second) * 1_000_000_000 + u64::from(parts.nanos);
        i128::from(utc_minutes(&parts)) * 60_000_000_000 + i128::from(rest)
    }
}
