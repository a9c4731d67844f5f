//! The program `interleavings`: it reads events of transactions from standard input and prints what each call of the
//! tail of a journal and of a transaction answers, so that any interleaving of transactions can be tried. The journal
//! is kept in memory and is empty at first. Where the input is no Ion text, no event is done, and the first one is told
//! as the bad one.
//! It ends with status 0 where all events were done, 2 where a value spells none, 4 where the input can't be read, 6
//! where the output can't be written, and 8 where memory is wanted.
#![tactic(auto)]

ghost use Rattle.std.specs.Prelude.{◌≡◌, ◌+◌, ◌<◌, ◌≤◌, ◌^◌, [], None, length, IfOk, IfSome};
ghost use Rattle.ion_model.specs.Read.{read_text};
ghost use Rattle.interleavings.specs.Desks.{Puts};
ghost use Rattle.interleavings.specs.Runs.{Ends, EndsFresh, IsTold, Tells, first_times, times_or};

mod desk;
mod events;
mod lines;

use crate::desk::{Desk, desk_of};
use crate::events::{Times, clock_in, event_in};
use crate::lines::{put_bad_event, put_blocks};
use containers::Sequence;
use ion_text::{ReadFault, read_stream};
use ion_values::{OutOfMemory, Text, Value};
use std::alloc::Global;
use std::io::Read;
use std::process::ExitCode;

/// The deepest nesting of an input.
const DEEPEST: u32 = 80;

/// What the clock answers where the input tells no times: the beginning of 2020, in milliseconds since 1970.
const START_OF_2020: i64 = 1_577_836_800_000;

/// How the events of an input ended: all were done, or one of its values spells none.
#[derive(Clone, Copy)]
enum Ended {
    Done,
    BadEvent,
}

/// Does the events that an input spells, and puts a line for each.
fn answer_input(alloc: Global, input: &[u8], out: &mut Text) -> Result<Ended, OutOfMemory>
    ensures { IfOk result (λ end. Puts out.old out.new (λ said. IsTold (read_text DEEPEST input.now) end said)) }
{
    match read_stream(alloc, input, DEEPEST) {
        Ok(values) => answer_values(alloc, values.as_slice(), out),
        Err(ReadFault::Ion(_)) => {
            put_bad_event(alloc, out, 0)?;
            Ok(Ended::BadEvent)
        }
        Err(ReadFault::OutOfMemory) => Err(OutOfMemory),
    }
}

/// Does the events that values spell, the first of which may spell the times of the clock.
fn answer_values(alloc: Global, values: &[Value], out: &mut Text) -> Result<Ended, OutOfMemory>
    ensures { IfOk result (λ end. Puts out.old out.new (λ said. Tells values.now end said)) }
{
    match times_of(alloc, values)? {
        Some(times) => answer_events(alloc, times, &values[1..], 1, out),
        None => answer_events(alloc, usual_times(alloc)?, values, 0, out),
    }
}

/// The times of the clock where none are told.
fn usual_times(alloc: Global) -> Result<Times, OutOfMemory>
    ensures { IfOk result (λ times. times ≡ times_or None) }
{
    let mut times = Sequence::new(alloc);
    times.push(START_OF_2020)?;
    Ok(times)
}

/// The times of the clock that the first value spells.
fn times_of(alloc: Global, values: &[Value]) -> Result<Option<Times>, OutOfMemory>
    ensures times { IfOk result (λ times. times ≡ first_times values.now) }
    ensures some { IfOk result (λ times. IfSome times (λ list. (0 < length list) × (1 ≤ length values.now))) }
{
    match values.first() {
        Some(first) => clock_in(alloc, first),
        None => Ok(None),
    }
}

/// Does the events that the values spell on an empty journal, the first of which has this number.
fn answer_events(
    alloc: Global,
    times: Times,
    values: &[Value],
    first: u64,
    out: &mut Text,
) -> Result<Ended, OutOfMemory>
    requires some { 0 < length times }
    requires few { first + length values.now < 2 ^ 64 }
    ensures { IfOk result (λ end. Puts out.old out.new (λ said. EndsFresh end times first values.now said)) }
{
    let mut desk = desk_of(alloc, times)?;
    answer_on(alloc, &mut desk, values, first, out)
}

/// Does the events that the values spell, the first of which has this number.
fn answer_on(
    alloc: Global,
    desk: &mut Desk,
    values: &[Value],
    first: u64,
    out: &mut Text,
) -> Result<Ended, OutOfMemory>
    requires none { desk.old.transactions.items ≡ [] }
    requires few { first + length values.now < 2 ^ 64 }
    ensures { IfOk result (λ end. Puts out.old out.new (λ said. Ends end desk.old.tail first values.now said)) }
{
    'events: for (at, value) in values.iter().enumerate() {
        match event_in(alloc, value)? {
            Some(event) => {
                let said = desk.answer(alloc, event)?;
                out.push_str(said.as_str())?;
            }
            None => {
                put_bad_event(alloc, out, first + at as u64)?;
                return Ok(Ended::BadEvent);
            }
        }
    }
    put_blocks(alloc, out, desk.tail.blocks().as_slice())?;
    Ok(Ended::Done)
}

fn main(rt: HostRuntime) -> ExitCode {
    let alloc = rt.alloc();
    let mut input = Vec::new(alloc);
    if rt.reader().read_to_end(&mut input).is_err() {
        return ExitCode::from(4);
    }
    let mut out = Text::new(rt.alloc());
    let status = match answer_input(rt.alloc(), input.as_slice(), &mut out) {
        Ok(Ended::Done) => 0,
        Ok(Ended::BadEvent) => 2,
        Err(OutOfMemory) => 8,
    };
    if rt.print(out.as_str()).is_err() {
        return ExitCode::from(6);
    }
    ExitCode::from(status)
}
