//! What a command comes to: an output, or why there is none.
ghost use Rattle.std.specs.Prelude.{◌≡◌, ◌<◌, Some, false};
ghost use Rattle.laws_history.specs.Calls.{span};
ghost use Rattle.laws_history.specs.Streams.{TakesFew};
ghost use Rattle.cli_model.specs.Calls.{outside};
ghost use Rattle.cli_model.specs.Top.{Keeps, asks_clock};
ghost use Rattle.cli_args.specs.declared.Command.TheVariants as asked;
ghost use Rattle.ledger_cli.specs.Ends.{Works};
ghost use Rattle.ledger_cli.specs.Inputs.{ReadsScript};
ghost use Rattle.ledger_cli.specs.Workers.{HasWorkers};

use crate::command_fault::CommandFault;
use crate::extract::extract_input;
use crate::input::read_all;
use crate::judging::judge;
use crate::make::make;
use crate::output::Output;
use crate::question::ask;
use crate::replay::replay_input;
use crate::returned::{Host, Resources, Returned};
use crate::run::run_script;
use crate::stream::stream_journal;
use crate::verify::verify_input;
use cli_args::{Command, RunOptions};
use cli_model::Question;
use containers::Text;
use ledger_model::Script;
use outside::{Clock, Gate, JournalStore, Source};
use std::alloc::Global;
use std::sync::Wait;
use std::thread::Threads;

/// The output that the command asks for, or why there is none.
pub fn work<
    R: Threads + Wait + Sync,
    So: Source,
    St: JournalStore + Send,
    C: Clock + Send,
    G: Gate + Sync,
>(
    alloc: Global,
    host: &Host<'_, R, G>,
    command: Command,
    source: &mut So,
    resources: Resources<St, C>,
) -> Returned<Result<Output, CommandFault>, St, C>
    requires some { HasWorkers command }
    ensures works { Works (result.store ≡ resources.store) (Some command) result.value
        (outside (span (So.told source.old) (So.told source.new))
        (span (St.told resources.store) (St.told result.store))
        (span (C.answers resources.clock) (C.answers result.clock))) }
    ensures keeps { Keeps (result.store ≡ resources.store) (Some command)
        (outside (span (So.told source.old) (So.told source.new))
        (span (St.told resources.store) (St.told result.store))
        (span (C.answers resources.clock) (C.answers result.clock))) }
    ensures few { TakesFew (span (So.told source.old) (So.told source.new)) }
    ensures asks { asks_clock (Some command) ≡ false → result.clock ≡ resources.clock }
{
    match command {
        Command::Run(options) => run(alloc, host, options, source, resources),
        Command::Digest { tip } => ask(alloc, Question::Digest { tip }, resources),
        Command::Prove {
            sequence,
            index,
            tip,
        } => ask(
            alloc,
            Question::Proof {
                sequence,
                index,
                tip,
            },
            resources,
        ),
        Command::Verify => {
            let Resources { store, clock } = resources;
            Returned {
                value: verify_input(alloc, source),
                store,
                clock,
            }
        }
        Command::Extract => extract_input(alloc, source, resources),
        Command::Audit => ask(alloc, Question::Counts, resources),
        Command::Compact => ask(alloc, Question::Compact, resources),
        Command::Export => ask(alloc, Question::Export, resources),
        Command::Stream { from, to } => stream_journal(alloc, from, to, resources),
        Command::Replay => {
            let Resources { store, clock } = resources;
            Returned {
                value: replay_input(alloc, source),
                store,
                clock,
            }
        }
        Command::Make(options) => make(alloc, host, options, resources),
    }
}

/// The report of the script that the source gives, run with these options.
fn run<
    R: Threads + Wait + Sync,
    So: Source,
    St: JournalStore + Send,
    C: Clock + Send,
    G: Gate + Sync,
>(
    alloc: Global,
    host: &Host<'_, R, G>,
    options: RunOptions,
    source: &mut So,
    resources: Resources<St, C>,
) -> Returned<Result<Output, CommandFault>, St, C>
    requires { 0 < options.workers }
    ensures works { Works (result.store ≡ resources.store) (Some (asked.Run options)) result.value
        (outside (span (So.told source.old) (So.told source.new))
        (span (St.told resources.store) (St.told result.store))
        (span (C.answers resources.clock) (C.answers result.clock))) }
    ensures keeps { Keeps (result.store ≡ resources.store) (Some (asked.Run options))
        (outside (span (So.told source.old) (So.told source.new))
        (span (St.told resources.store) (St.told result.store))
        (span (C.answers resources.clock) (C.answers result.clock))) }
    ensures few { TakesFew (span (So.told source.old) (So.told source.new)) }
    ensures asks { asks_clock (Some (asked.Run options)) ≡ false → result.clock ≡ resources.clock }
{
    match read_script(alloc, &options.rules, source) {
        Ok(script) => run_script(alloc, host, &script, &options, resources),
        Err(why) => {
            let Resources { store, clock } = resources;
            Returned {
                value: Err(why),
                store,
                clock,
            }
        }
    }
}

/// The script that the input spells, under the rules of that name if one is given.
fn read_script<So: Source>(
    alloc: Global,
    rules: &Option<Text>,
    source: &mut So,
) -> Result<Script, CommandFault>
    ensures reads { ReadsScript rules.now result (span (So.told source.old) (So.told source.new)) }
    ensures few { TakesFew (span (So.told source.old) (So.told source.new)) }
{
    let input = read_all(alloc, source)?;
    judge(alloc, rules, &input)
}
