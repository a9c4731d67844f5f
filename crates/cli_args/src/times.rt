//! Times among the words.
ghost use Rattle.std.specs.Prelude.{◌≡◌};
ghost use Rattle.ion_values.specs.Time.{IsTime};
ghost use Rattle.cli_args.specs.Forms.{Gives};
ghost use Rattle.cli_args.specs.Times.{milliseconds_of, only_timestamp, time_of, timestamp_in};

use crate::WordsFault;
use ion_text::{ReadFault, read_stream};
use ion_values::{Body, IonTime, Value, Values};
use std::alloc::Global;

/// The time that the word names, in whole milliseconds since 1970 in UTC, rounded down. It is refused
/// where the word, read as Ion text, isn't one timestamp without annotations.
#[tactic(auto, unfolding(crate::specs::Times::time_of))]
pub fn time_of(alloc: Global, word: &str) -> Result<i64, WordsFault>
    ensures { Gives result (time_of word.now) }
{
    match read_stream(alloc, word.as_bytes(), 0) {
        Ok(values) => match only_timestamp(&values) {
            Some(time) => Ok(milliseconds_of(&time)),
            None => Err(WordsFault::Refused),
        },
        Err(ReadFault::Ion(_)) => Err(WordsFault::Refused),
        Err(ReadFault::OutOfMemory) => Err(WordsFault::OutOfMemory),
    }
}

/// The timestamp that is the only value.
fn only_timestamp(values: &Values) -> Option<IonTime>
    ensures { result ≡ only_timestamp values.now }
{
    let [value] = values.as_slice() else {
        return None;
    };
    timestamp_in(value)
}

/// The timestamp that a value is, without annotations.
fn timestamp_in(value: &Value) -> Option<IonTime>
    ensures { result ≡ timestamp_in value.now }
{
    if !value.annotations.is_empty() {
        return None;
    }
    match &value.body {
        Body::Timestamp(time) => Some(*time),
        _ => None,
    }
}

/// The whole milliseconds since 1970 in UTC, rounded down.
#[tactic(auto, unfolding(crate::specs::Times::milliseconds_of))]
fn milliseconds_of(time: &IonTime) -> i64
    ensures { result ≡ milliseconds_of time.now }
{
    let _in_range = time.parts();
    time.instant().div_euclid(1_000_000) as i64
}
