//! Where the times of a run's blocks and the mask of its ids come from.
ghost use Rattle.std.specs.Prelude.{◌≡◌, IfSome};
ghost use Rattle.ion_time.specs.Millis.{BeginsAt, nearest};
ghost use Rattle.ion_values.specs.declared.time.TimeParts.{TimeParts};
ghost use Rattle.laws_history.specs.Calls.{span};
ghost use Rattle.cli_model.specs.Clocks.{Answers, GaveFirst, given_by};
ghost use Rattle.ledger_cli.specs.Clocks.{Extends, IsAsked};

use cli_args::IdSource;
use id_seed::from_seed;
use ion_time::clamped;
use outside::Clock;
use ql_types::IdMask;

/// A clock that stands still, at a time in milliseconds since 1970 in UTC.
#[derive(Drop)]
pub struct FixedClock {
    pub milliseconds: i64,
}

impl Clock for FixedClock {
    ghost use Rattle.std.specs.Prelude.{None, Some};

    ghost answers = { λ _. None };

    ghost always = { λ clock. Some clock.milliseconds };

    fn now(&mut self) -> i64 {
        self.milliseconds
    }
}

/// Proves that each moment has a timestamp, taken to the nearest millisecond of the years 0001 to 9999.
pub fn moments_have_times(milliseconds: i64)
    ensures { (time : TimeParts) × BeginsAt (nearest milliseconds) time }
{
    let _time = clamped(milliseconds);
}

/// The mask that the words give the ids of an empty journal. If they give none, the clock is asked.
pub fn mask_by<C: Clock>(ids: IdSource, clock: &mut C) -> IdMask
    ensures given { (later : Answers) → Extends (C.answers clock.new) later
        → IfSome (given_by ids (span (C.answers clock.old) later)) (λ given. given ≡ result.bits) }
    ensures answered { (later : Answers) → Extends (C.answers clock.new) later
        → GaveFirst ids (span (C.answers clock.old) later) }
    ensures extends { Extends (C.answers clock.old) (C.answers clock.new) }
    ensures asks { IsAsked ids clock.old clock.new }
{
    match ids {
        IdSource::Plain => IdMask { bits: 0 },
        IdSource::Seed(seed) => from_seed(seed),
        IdSource::FirstAnswer => from_seed(clock.now().cast_unsigned()),
    }
}
