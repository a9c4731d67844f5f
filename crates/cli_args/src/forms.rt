//! Which words may stand behind the word of a command, as `clap` reads them.
ghost use Rattle.std.specs.Prelude.{◌≡◌, false, true, map, string_bytes, IfOk};
ghost use Rattle.clap.specs.Words.{app_of, rule_of, with_rule, is_simple_and_free, kind_of};
ghost use Rattle.cli_args.specs.Forms as spec;
ghost use Rattle.cli_args.specs.Forms.{Finds, option_rule, wanted_rule, flag_rule, place_rule, bare_app};

use crate::WordsFault;
use clap::error::ErrorKind;
use clap::{Arg, ArgAction, ArgMatches, Command, Error};
use std::alloc::{AllocError, Global};

/// `run [--seed S] [--plain-ids] [--at TIME] [--workers N] [--rules NAME]`.
#[tactic(auto, unfolding(crate::specs::Forms::run_app))]
pub fn run_form<'a>(alloc: Global) -> Result<Command<'a>, AllocError>
    ensures app { IfOk result (λ form. app_of form ≡ spec.run_app) }
    ensures simple { is_simple_and_free spec.run_app ≡ true }
{
    let form = with(bare(alloc, "run"), option(alloc, "seed"))?;
    let form = with(form, flag(alloc, "plain-ids"))?;
    let form = with(form, option(alloc, "at"))?;
    let form = with(form, option(alloc, "workers"))?;
    with(form, option(alloc, "rules"))
}

/// `digest [--tip N]`.
#[tactic(auto, unfolding(crate::specs::Forms::digest_app))]
pub fn digest_form<'a>(alloc: Global) -> Result<Command<'a>, AllocError>
    ensures app { IfOk result (λ form. app_of form ≡ spec.digest_app) }
    ensures simple { is_simple_and_free spec.digest_app ≡ true }
{
    with(bare(alloc, "digest"), option(alloc, "tip"))
}

/// `prove SEQ INDEX [--tip N]`.
#[tactic(auto, unfolding(crate::specs::Forms::prove_app))]
pub fn prove_form<'a>(alloc: Global) -> Result<Command<'a>, AllocError>
    ensures app { IfOk result (λ form. app_of form ≡ spec.prove_app) }
    ensures simple { is_simple_and_free spec.prove_app ≡ true }
{
    let form = with(bare(alloc, "prove"), place(alloc, "sequence"))?;
    let form = with(form, place(alloc, "index"))?;
    with(form, option(alloc, "tip"))
}

/// `verify`.
#[tactic(auto, unfolding(crate::specs::Forms::verify_app))]
pub fn verify_form<'a>(alloc: Global) -> Command<'a>
    ensures app { app_of result ≡ spec.verify_app }
    ensures simple { is_simple_and_free spec.verify_app ≡ true }
{
    bare(alloc, "verify")
}

/// `extract`.
#[tactic(auto, unfolding(crate::specs::Forms::extract_app))]
pub fn extract_form<'a>(alloc: Global) -> Command<'a>
    ensures app { app_of result ≡ spec.extract_app }
    ensures simple { is_simple_and_free spec.extract_app ≡ true }
{
    bare(alloc, "extract")
}

/// `audit`.
#[tactic(auto, unfolding(crate::specs::Forms::audit_app))]
pub fn audit_form<'a>(alloc: Global) -> Command<'a>
    ensures app { app_of result ≡ spec.audit_app }
    ensures simple { is_simple_and_free spec.audit_app ≡ true }
{
    bare(alloc, "audit")
}

/// `compact`.
#[tactic(auto, unfolding(crate::specs::Forms::compact_app))]
pub fn compact_form<'a>(alloc: Global) -> Command<'a>
    ensures app { app_of result ≡ spec.compact_app }
    ensures simple { is_simple_and_free spec.compact_app ≡ true }
{
    bare(alloc, "compact")
}

/// `export`.
#[tactic(auto, unfolding(crate::specs::Forms::export_app))]
pub fn export_form<'a>(alloc: Global) -> Command<'a>
    ensures app { app_of result ≡ spec.export_app }
    ensures simple { is_simple_and_free spec.export_app ≡ true }
{
    bare(alloc, "export")
}

/// `stream [--from N] [--to M]`.
#[tactic(auto, unfolding(crate::specs::Forms::stream_app))]
pub fn stream_form<'a>(alloc: Global) -> Result<Command<'a>, AllocError>
    ensures app { IfOk result (λ form. app_of form ≡ spec.stream_app) }
    ensures simple { is_simple_and_free spec.stream_app ≡ true }
{
    let form = with(bare(alloc, "stream"), option(alloc, "from"))?;
    with(form, option(alloc, "to"))
}

/// `replay`.
#[tactic(auto, unfolding(crate::specs::Forms::replay_app))]
pub fn replay_form<'a>(alloc: Global) -> Command<'a>
    ensures app { app_of result ≡ spec.replay_app }
    ensures simple { is_simple_and_free spec.replay_app ≡ true }
{
    bare(alloc, "replay")
}

/// `make --seed S --sessions K --transactions N [--workers W]`.
#[tactic(auto, unfolding(crate::specs::Forms::make_app))]
pub fn make_form<'a>(alloc: Global) -> Result<Command<'a>, AllocError>
    ensures app { IfOk result (λ form. app_of form ≡ spec.make_app) }
    ensures simple { is_simple_and_free spec.make_app ≡ true }
{
    let form = with(bare(alloc, "make"), wanted(alloc, "seed"))?;
    let form = with(form, wanted(alloc, "sessions"))?;
    let form = with(form, wanted(alloc, "transactions"))?;
    with(form, option(alloc, "workers"))
}

/// A form that takes no words.
fn bare<'a>(alloc: Global, name: &'a str) -> Command<'a>
    ensures { app_of result ≡ bare_app name.entry.now }
{
    Command::new(alloc, name)
        .no_binary_name(true)
        .disable_help_flag(true)
        .disable_version_flag(true)
}

/// `--name VALUE`, at will.
fn option<'a>(alloc: Global, name: &'a str) -> Arg<'a>
    ensures rule { rule_of result ≡ option_rule name.entry.now }
    ensures local { result.global ≡ false }
{
    Arg::new(alloc, name).long(name).action(ArgAction::Set)
}

/// `--name VALUE`, which has to stand.
fn wanted<'a>(alloc: Global, name: &'a str) -> Arg<'a>
    ensures rule { rule_of result ≡ wanted_rule name.entry.now }
    ensures local { result.global ≡ false }
{
    Arg::new(alloc, name)
        .long(name)
        .action(ArgAction::Set)
        .required(true)
}

/// `--name`, at will.
fn flag<'a>(alloc: Global, name: &'a str) -> Arg<'a>
    ensures rule { rule_of result ≡ flag_rule name.entry.now }
    ensures local { result.global ≡ false }
{
    Arg::new(alloc, name).long(name).action(ArgAction::SetTrue)
}

/// A word that has to stand, by its place.
fn place<'a>(alloc: Global, name: &'a str) -> Arg<'a>
    ensures rule { rule_of result ≡ place_rule name.entry.now }
    ensures local { result.global ≡ false }
{
    Arg::new(alloc, name).action(ArgAction::Set).required(true)
}

/// The form with one more argument.
fn with<'a>(form: Command<'a>, arg: Arg<'a>) -> Result<Command<'a>, AllocError>
    requires { arg.global ≡ false }
    ensures { IfOk result (λ more. app_of more ≡ with_rule (app_of form.entry) (rule_of arg.entry)) }
{
    form.arg(arg)
}

/// What is found in the words that stand behind the command's, or why they aren't of the form.
#[tactic(auto, unfolding(crate::specs::Forms::found_in, crate::specs::Forms::rows_in))]
pub fn found_in<'a>(form: Command<'a>, words: &'a [String]) -> Result<ArgMatches<'a>, WordsFault>
    requires { is_simple_and_free (app_of form) ≡ true }
    ensures { Finds result (app_of form.entry) (map string_bytes words.entry.now) }
{
    match form.try_get_matches_from(words) {
        Ok(matches) => Ok(matches),
        Err(error) => Err(fault_of(&error)),
    }
}

fn fault_of(error: &Error) -> WordsFault
    ensures { result ≡ WordsFault.Refused → ¬ (kind_of error.now ≡ ErrorKind.OutOfMemory) }
{
    if error.kind() == ErrorKind::OutOfMemory {
        WordsFault::OutOfMemory
    } else {
        WordsFault::Refused
    }
}
