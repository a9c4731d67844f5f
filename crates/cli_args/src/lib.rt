//! The words of the command line behind the journal's path: which command they name, and what they
//! say of it.
#![tactic(auto)]

ghost use Rattle.std.specs.Prelude.{map, string_bytes};
ghost use Rattle.cli_args.specs.Forms.{Gives};
ghost use Rattle.cli_args.specs.Words.{asked, asked_by};

mod commands;
mod forms;
mod numbers;
mod times;
mod values;

use commands::{
    audit_in, compact_in, digest_in, export_in, extract_in, make_in, prove_in, replay_in, run_in,
    stream_in, verify_in,
};
use ion_values::{OutOfMemory, Text};
use std::alloc::{AllocError, Global};

/// A command of the program, with what its words say of it. Blocks and revisions are counted from 0.
#[derive(Debug, Drop)]
pub enum Command {
    /// Runs the script of the input.
    Run(RunOptions),
    /// Publishes the digest with this tip, or with the last block as tip.
    Digest {
        tip: Option<u64>,
    },
    /// Proves the revision with this index in the block with this number to the digest with this
    /// tip, or with the last block as tip.
    Prove {
        sequence: u64,
        index: u32,
        tip: Option<u64>,
    },
    /// Verifies the digest, the revision and the proof of the input.
    Verify,
    /// Finds the revision of the proof that the input has in the journal.
    Extract,
    /// Counts the blocks and the revisions of the journal.
    Audit,
    /// Writes the lines of the journal without what its blocks redact.
    Compact,
    /// Writes the blocks of the journal in Ion's binary encoding.
    Export,
    /// Writes the journal without what its blocks redact as a stream of records, from the block of one number up to
    /// but without that of another, or to the last.
    Stream {
        from: u64,
        to: Option<u64>,
    },
    /// Writes the lines of the blocks that are rebuilt from the records of the input.
    Replay,
    /// Runs a workload that is made from a seed.
    Make(MakeOptions),
}

/// What the words of `run` say.
#[derive(Debug, Drop)]
pub struct RunOptions {
    /// Where the mask of the ids comes from.
    pub ids: IdSource,
    /// The time that each block is given, in milliseconds since 1970 in UTC, or none, where the
    /// clock is asked.
    pub time: Option<i64>,
    /// How many workers run the sessions, 1 to 64.
    pub workers: u32,
    /// The name of the rules that the input's first value holds, or none if it holds none.
    pub rules: Option<Text>,
}

/// What the words of `make` say.
#[derive(Clone, Copy, Debug, PartialEq, Eq)]
pub struct MakeOptions {
    /// Of the amounts and of the ids.
    pub seed: u64,
    /// How many sessions are made, 1 to 1,024.
    pub sessions: u32,
    /// How many transactions each of them has, 1 to 1,000. All have 100,000 at the most.
    pub transactions: u32,
    /// How many workers run the sessions, 1 to 64.
    pub workers: u32,
}

/// Where the mask comes from that hides the numbers in ids.
#[derive(Clone, Copy, Debug, PartialEq, Eq)]
pub enum IdSource {
    /// The mask is 0.
    Plain,
    /// The mask is that of this seed.
    Seed(u64),
    /// The mask is that of the clock's first answer.
    FirstAnswer,
}

/// Why no command is read.
#[derive(Clone, Copy, Debug, PartialEq, Eq)]
pub enum WordsFault {
    /// The words name no command, or aren't such as may stand behind the command's word.
    Refused,
    OutOfMemory,
}

impl From<AllocError> for WordsFault {
    ghost use Rattle.std.specs.Prelude.{◌≡◌};
    ghost use Rattle.cli_args.specs.declared.WordsFault.TheVariants as fault;

    ghost from_gives = { λ _ e. e ≡ fault.OutOfMemory };

    fn from(_error: AllocError) -> WordsFault {
        WordsFault::OutOfMemory
    }
}

impl From<OutOfMemory> for WordsFault {
    ghost use Rattle.std.specs.Prelude.{◌≡◌};
    ghost use Rattle.cli_args.specs.declared.WordsFault.TheVariants as fault;

    ghost from_gives = { λ _ e. e ≡ fault.OutOfMemory };

    fn from(_error: OutOfMemory) -> WordsFault {
        WordsFault::OutOfMemory
    }
}

/// The command that the words name. The first word is the command's own: `run`, `digest`, `prove`,
/// `verify`, `extract`, `audit`, `compact`, `export`, `stream`, `replay` or `make`. Those behind it are
/// read by `clap`, each option at most once.
/// `Refused` comes exactly where there is no first word or another; where `clap` has a cause to
/// refuse those behind it; where a number isn't decimal digits without a sign and without a zero in
/// front, or passes 64 bits or, for the index of a revision, 32; where the number of workers isn't
/// from 1 to 64, that of sessions from 1 to 1,024 or that of a session's transactions from 1 to
/// 1,000, or the sessions have more than 100,000 transactions; where a time, read as Ion text, isn't
/// one timestamp without annotations; or where both `--seed` and `--plain-ids` stand there.
pub fn command_in(alloc: Global, words: &[String]) -> Result<Command, WordsFault>
    ensures { Gives result (asked (map string_bytes words.now)) }
{
    let Some((word, rest)) = words.split_first() else {
        return Err(WordsFault::Refused);
    };
    asked_by(alloc, word.as_str(), rest)
}

/// What the words behind a command's word ask it for.
fn asked_by(alloc: Global, word: &str, rest: &[String]) -> Result<Command, WordsFault>
    ensures { Gives result (asked_by word.now (map string_bytes rest.now)) }
{
    if word == "run" {
        return run_in(alloc, rest);
    }
    if word == "digest" {
        return digest_in(alloc, rest);
    }
    if word == "prove" {
        return prove_in(alloc, rest);
    }
    if word == "verify" {
        return verify_in(alloc, rest);
    }
    if word == "extract" {
        return extract_in(alloc, rest);
    }
    if word == "audit" {
        return audit_in(alloc, rest);
    }
    if word == "compact" {
        return compact_in(alloc, rest);
    }
    if word == "export" {
        return export_in(alloc, rest);
    }
    if word == "stream" {
        return stream_in(alloc, rest);
    }
    if word == "replay" {
        return replay_in(alloc, rest);
    }
    if word == "make" {
        return make_in(alloc, rest);
    }
    Err(WordsFault::Refused)
}
