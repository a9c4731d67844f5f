//! The commands, each from the words behind its own.
ghost use Rattle.std.specs.Prelude.{◌≡◌, map, string_bytes, option_map, option_and_then};
ghost use Rattle.cli_args.specs.Forms as form;
ghost use Rattle.cli_args.specs.Forms.{Gives, extract_app, found_in, rows_in};
ghost use Rattle.cli_args.specs.Words as spec;

use crate::forms::{
    audit_form, compact_form, digest_form, export_form, extract_form, found_in, make_form,
    prove_form, replay_form, run_form, stream_form, verify_form,
};
use crate::values::{
    count_at, from_of, ids_of, number_at, number_at_will, small_number_at, text_at_will,
    time_at_will, workers_of,
};
use crate::{Command, MakeOptions, RunOptions, WordsFault};
use clap::ArgMatches;
use std::alloc::Global;

/// The most sessions of a made workload.
const MOST_SESSIONS: u32 = 1024;

/// The most transactions of one of its sessions.
const MOST_TRANSACTIONS: u32 = 1000;

/// The most transactions of all of its sessions.
const MOST_MADE: u64 = 100_000;

/// What the words behind `run` ask for.
pub fn run_in(alloc: Global, words: &[String]) -> Result<Command, WordsFault>
    ensures { Gives result (option_and_then spec.run_of (found_in form.run_app (map string_bytes words.now))) }
{
    let found = found_in(run_form(alloc)?, words)?;
    run_of(alloc, &found)
}

fn run_of(alloc: Global, found: &ArgMatches<'_>) -> Result<Command, WordsFault>
    ensures { Gives result (spec.run_of (rows_in found.now)) }
{
    let ids = ids_of(found).ok_or(WordsFault::Refused)?;
    let time = time_at_will(alloc, found, "at")?;
    let workers = workers_of(found).ok_or(WordsFault::Refused)?;
    let rules = text_at_will(alloc, found, "rules")?;
    Ok(Command::Run(RunOptions {
        ids,
        time,
        workers,
        rules,
    }))
}

/// What the words behind `digest` ask for.
pub fn digest_in(alloc: Global, words: &[String]) -> Result<Command, WordsFault>
    ensures { Gives result (option_and_then spec.digest_of (found_in form.digest_app (map string_bytes words.now))) }
{
    let found = found_in(digest_form(alloc)?, words)?;
    digest_of(&found).ok_or(WordsFault::Refused)
}

fn digest_of(found: &ArgMatches<'_>) -> Option<Command>
    ensures { result ≡ spec.digest_of (rows_in found.now) }
{
    let tip = number_at_will(found, "tip")?;
    Some(Command::Digest { tip })
}

/// What the words behind `prove` ask for.
pub fn prove_in(alloc: Global, words: &[String]) -> Result<Command, WordsFault>
    ensures { Gives result (option_and_then spec.prove_of (found_in form.prove_app (map string_bytes words.now))) }
{
    let found = found_in(prove_form(alloc)?, words)?;
    prove_of(&found).ok_or(WordsFault::Refused)
}

fn prove_of(found: &ArgMatches<'_>) -> Option<Command>
    ensures { result ≡ spec.prove_of (rows_in found.now) }
{
    let sequence = number_at(found, "sequence")?;
    let index = small_number_at(found, "index")?;
    let tip = number_at_will(found, "tip")?;
    Some(Command::Prove {
        sequence,
        index,
        tip,
    })
}

/// What the words behind `verify` ask for.
pub fn verify_in(alloc: Global, words: &[String]) -> Result<Command, WordsFault>
    ensures { Gives result (option_map (λ _. Command.Verify) (found_in form.verify_app (map string_bytes words.now))) }
{
    let _found = found_in(verify_form(alloc), words)?;
    Ok(Command::Verify)
}

/// What the words behind `extract` ask for.
pub fn extract_in(alloc: Global, words: &[String]) -> Result<Command, WordsFault>
    ensures { Gives result (option_map (λ _. Command.Extract) (found_in extract_app (map string_bytes words.now))) }
{
    let _found = found_in(extract_form(alloc), words)?;
    Ok(Command::Extract)
}

/// What the words behind `audit` ask for.
pub fn audit_in(alloc: Global, words: &[String]) -> Result<Command, WordsFault>
    ensures { Gives result (option_map (λ _. Command.Audit) (found_in form.audit_app (map string_bytes words.now))) }
{
    let _found = found_in(audit_form(alloc), words)?;
    Ok(Command::Audit)
}

/// What the words behind `compact` ask for.
pub fn compact_in(alloc: Global, words: &[String]) -> Result<Command, WordsFault>
    ensures { Gives result
        (option_map (λ _. Command.Compact) (found_in form.compact_app (map string_bytes words.now))) }
{
    let _found = found_in(compact_form(alloc), words)?;
    Ok(Command::Compact)
}

/// What the words behind `export` ask for.
pub fn export_in(alloc: Global, words: &[String]) -> Result<Command, WordsFault>
    ensures { Gives result (option_map (λ _. Command.Export) (found_in form.export_app (map string_bytes words.now))) }
{
    let _found = found_in(export_form(alloc), words)?;
    Ok(Command::Export)
}

/// What the words behind `stream` ask for.
pub fn stream_in(alloc: Global, words: &[String]) -> Result<Command, WordsFault>
    ensures { Gives result (option_and_then spec.stream_of (found_in form.stream_app (map string_bytes words.now))) }
{
    let found = found_in(stream_form(alloc)?, words)?;
    stream_of(&found).ok_or(WordsFault::Refused)
}

fn stream_of(found: &ArgMatches<'_>) -> Option<Command>
    ensures { result ≡ spec.stream_of (rows_in found.now) }
{
    let from = from_of(found)?;
    let to = number_at_will(found, "to")?;
    Some(Command::Stream { from, to })
}

/// What the words behind `replay` ask for.
pub fn replay_in(alloc: Global, words: &[String]) -> Result<Command, WordsFault>
    ensures { Gives result (option_map (λ _. Command.Replay) (found_in form.replay_app (map string_bytes words.now))) }
{
    let _found = found_in(replay_form(alloc), words)?;
    Ok(Command::Replay)
}

/// What the words behind `make` ask for.
pub fn make_in(alloc: Global, words: &[String]) -> Result<Command, WordsFault>
    ensures { Gives result (option_and_then spec.make_of (found_in form.make_app (map string_bytes words.now))) }
{
    let found = found_in(make_form(alloc)?, words)?;
    make_of(&found).ok_or(WordsFault::Refused)
}

fn make_of(found: &ArgMatches<'_>) -> Option<Command>
    ensures { result ≡ spec.make_of (rows_in found.now) }
{
    let seed = number_at(found, "seed")?;
    let sessions = count_at(found, "sessions", MOST_SESSIONS)?;
    let transactions = count_at(found, "transactions", MOST_TRANSACTIONS)?;
    let workers = workers_of(found)?;
    make_with(MakeOptions {
        seed,
        sessions,
        transactions,
        workers,
    })
}

/// These options, where the sessions haven't too many transactions.
fn make_with(options: MakeOptions) -> Option<Command>
    ensures { result ≡ spec.make_with options }
{
    let transactions = u64::from(options.sessions) * u64::from(options.transactions);
    if transactions > MOST_MADE {
        return None;
    }
    Some(Command::Make(options))
}
