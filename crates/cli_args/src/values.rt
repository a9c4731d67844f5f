//! The values among what was found in a command's words.
ghost use Rattle.std.specs.Prelude.{◌≡◌, option_map, codes, IfOk};
ghost use Rattle.clap.specs.Words.{first_of};
ghost use Rattle.cli_args.specs.Forms.{Gives, rows_in};
ghost use Rattle.cli_args.specs.Numbers.{count_of, number_of};
ghost use Rattle.cli_args.specs.Times.{time_of};
ghost use Rattle.cli_args.specs.Words as spec;
ghost use Rattle.cli_args.specs.Words.{at_will};

use crate::numbers::{count_of, number_of, small_number_of};
use crate::times::time_of;
use crate::{IdSource, WordsFault};
use clap::ArgMatches;
use ion_values::{OutOfMemory, Text};
use std::alloc::Global;

/// The most workers of a run.
const MOST_WORKERS: u32 = 64;

/// How many workers there are where the words say nothing.
const WORKERS: u32 = 4;

/// The word that was given for an argument.
fn word_of<'a>(found: &ArgMatches<'a>, name: &str) -> Option<&'a str>
    ensures { option_map (λ word. word.now) result ≡ first_of name.now (rows_in found.now) }
{
    found.get_str(name)
}

/// Whether the flag stands among the words.
fn has_flag(found: &ArgMatches<'_>, name: &str) -> bool
    ensures { result ≡ spec.has_flag name.now (rows_in found.now) }
{
    match word_of(found, name) {
        Some(told) => told == "true",
        None => false,
    }
}

/// The number that was given for an option, if one was. None comes where it can't be read.
pub fn number_at_will(found: &ArgMatches<'_>, name: &str) -> Option<Option<u64>>
    ensures { result ≡ at_will (number_of 64) (first_of name.now (rows_in found.now)) }
{
    match word_of(found, name) {
        Some(word) => Some(Some(number_of(word)?)),
        None => Some(None),
    }
}

/// The number of the first block that is asked for, 0 where the words say nothing.
pub fn from_of(found: &ArgMatches<'_>) -> Option<u64>
    ensures { result ≡ spec.from_of (rows_in found.now) }
{
    match word_of(found, "from") {
        Some(word) => number_of(word),
        None => Some(0),
    }
}

/// The time that was given for an option, if one was.
pub fn time_at_will(
    alloc: Global,
    found: &ArgMatches<'_>,
    name: &str,
) -> Result<Option<i64>, WordsFault>
    ensures { Gives result (at_will time_of (first_of name.now (rows_in found.now))) }
{
    match word_of(found, name) {
        Some(word) => Ok(Some(time_of(alloc, word)?)),
        None => Ok(None),
    }
}

/// A copy of the word that was given for an option, if one was.
pub fn text_at_will(
    alloc: Global,
    found: &ArgMatches<'_>,
    name: &str,
) -> Result<Option<Text>, OutOfMemory>
    ensures { IfOk result (λ text. text ≡ first_of name.now (rows_in found.now)) }
{
    match word_of(found, name) {
        Some(word) => Ok(Some(Text::from_text(alloc, word)?)),
        None => Ok(None),
    }
}

/// The number of 64 bits that stands at a place.
pub fn number_at(found: &ArgMatches<'_>, name: &str) -> Option<u64>
    ensures { result ≡ spec.number_at 64 name.now (rows_in found.now) }
{
    number_of(word_of(found, name)?)
}

/// The number of 32 bits that stands at a place.
pub fn small_number_at(found: &ArgMatches<'_>, name: &str) -> Option<u32>
    ensures { result ≡ spec.number_at 32 name.now (rows_in found.now) }
{
    small_number_of(word_of(found, name)?)
}

/// Where the ids come from. None comes where the seed can't be read, or where plain ids are asked
/// for beside it.
pub fn ids_of(found: &ArgMatches<'_>) -> Option<IdSource>
    ensures { result ≡ spec.ids_of (rows_in found.now) }
{
    let seed = number_at_will(found, "seed")?;
    id_source(seed, has_flag(found, "plain-ids"))
}

fn id_source(seed: Option<u64>, is_plain: bool) -> Option<IdSource>
    ensures { result ≡ spec.id_source seed is_plain }
{
    match (seed, is_plain) {
        (Some(_), true) => None,
        (Some(seed), false) => Some(IdSource::Seed(seed)),
        (None, true) => Some(IdSource::Plain),
        (None, false) => Some(IdSource::FirstAnswer),
    }
}

/// How many of something the word of an argument that has to stand says, from 1 to this many.
pub fn count_at(found: &ArgMatches<'_>, name: &str, most: u32) -> Option<u32>
    ensures { result ≡ spec.count_at most name.now (rows_in found.now) }
{
    count_of(word_of(found, name)?, most)
}

/// The number of workers. None comes where it can't be read, or isn't from 1 to 64.
pub fn workers_of(found: &ArgMatches<'_>) -> Option<u32>
    ensures { result ≡ spec.workers_of (rows_in found.now) }
{
    match word_of(found, "workers") {
        Some(word) => count_of(word, MOST_WORKERS),
        None => Some(WORKERS),
    }
}
