//! The blocks that are rebuilt from the records of an input, which is read in pieces.
ghost use Rattle.std.specs.Prelude.{◌≡◌, ◌++◌, ◌+◌, ℕ, List, [], length, true, IfOk};
ghost use Rattle.std.specs.List.{list_all};
ghost use Rattle.ion_values.specs.Within.{within};
ghost use Rattle.ion_values.specs.declared.value.Value as model;
ghost use Rattle.laws_history.specs.Calls.{span};
ghost use Rattle.laws_history.specs.Streams.{TakesFew};
ghost use Rattle.ledger_cli.specs.Replaying.{CameTo, CourseOf, DeliversNext, Ends, HasDelivered, IsReplaying, Reads, ReplaysInput};

use crate::command_fault::CommandFault;
use crate::input::{LONGEST, PIECE};
use crate::lines::BadInput;
use crate::output::Output;
use ion_pieces::{PieceReader, ReadFault};
use ion_values::{OutOfMemory, Value};
use outside::{OutFault, Source};
use std::alloc::Global;
use stream_out::{Replay, ReplayFault, deliveries_rebuild, read_record};

/// The deepest nesting of the values of records.
const DEEPEST_RECORD: u32 = 257;

/// What the values so far came to.
#[derive(Drop)]
enum Course {
    /// All `count` of them are delivered.
    Delivered { replay: Replay, count: u64 },
    /// One of them isn't, for this cause.
    Stopped(BadInput),
}

/// An input that is read in pieces, and what its values so far came to.
#[derive(Drop)]
struct Reading {
    reader: PieceReader,
    course: Course,
}

/// The number of a value, `more` after the one of number `before`. One past the greatest counts as out of memory.
fn number(before: u64, more: usize) -> Result<u64, OutOfMemory>
    ensures { IfOk result (λ n. n ≡ before + more) }
{
    match before.checked_add(more as u64) {
        Some(n) => Ok(n),
        None => Err(OutOfMemory),
    }
}

/// Delivers the record whose value is the one of this number, or returns why it isn't delivered.
fn deliver_value(
    alloc: Global,
    replay: &mut Replay,
    value: &Value,
    at: u64,
) -> Result<Option<BadInput>, OutOfMemory>
    requires within { within value.now ≡ true }
    requires front { IsReplaying at replay.old }
    ensures { (before : List model.Value) → length before ≡ at → HasDelivered before replay.old
        → DeliversNext before value.now result replay.new }
{
    let found = read_record(alloc, value)?;
    let Some(record) = found else {
        return Ok(Some(BadInput::NotARecord { at }));
    };
    match replay.deliver(alloc, record) {
        Ok(()) => Ok(None),
        Err(ReplayFault::Differs { sequence }) => {
            Ok(Some(BadInput::RecordDiffers { at, sequence }))
        }
        Err(ReplayFault::Below { .. }) => unreachable!(),
        Err(ReplayFault::OutOfMemory) => Err(OutOfMemory),
    }
}

/// Delivers the records of these values, after `count` others, up to the first that isn't delivered.
fn deliver_all(
    alloc: Global,
    mut replay: Replay,
    count: u64,
    values: &[Value],
) -> Result<Course, OutOfMemory>
    requires within { list_all within values.now ≡ true }
    requires front { IsReplaying count replay }
    ensures { IfOk result (λ course. (before : List model.Value) → length before ≡ count → HasDelivered before replay
        → CameTo (before ++ values.now) course) }
{
    'values: for index in 0..values.len() {
        let at = number(count, index)?;
        if let Some(why) = deliver_value(alloc, &mut replay, &values[index], at)? {
            return Ok(Course::Stopped(why));
        }
    }
    let count = number(count, values.len())?;
    Ok(Course::Delivered { replay, count })
}

impl Course {
    /// The course after these values.
    fn with(self, alloc: Global, values: &[Value]) -> Result<Course, OutOfMemory>
        requires within { list_all within values.now ≡ true }
        requires came { (before : List model.Value) × CameTo before self }
        ensures { IfOk result (λ new. (before : List model.Value) → CameTo before self
            → CameTo (before ++ values.now) new) }
    {
        match self {
            Course::Delivered { replay, count } => {
                let new = deliver_all(alloc, replay, count, values)?;
                Ok(new)
            }
            Course::Stopped(why) => Ok(Course::Stopped(why)),
        }
    }
}

impl Reading {
    /// The reading of an input, before its first byte. It takes no memory.
    fn new(alloc: Global) -> Reading
        ensures { Reads [] result }
    {
        Reading {
            reader: PieceReader::new(alloc, DEEPEST_RECORD),
            course: Course::Delivered {
                replay: Replay::new(alloc, 0),
                count: 0,
            },
        }
    }

    /// The reading after one piece more.
    fn take(self, alloc: Global, piece: &[u8]) -> Result<Reading, OutOfMemory>
        requires { (input : List ℕ) × Reads input self }
        ensures { IfOk result (λ new. (input : List ℕ) → Reads input self → Reads (input ++ piece.now) new) }
    {
        let Reading { reader, course } = self;
        let (values, reader) = reader.take(alloc, piece)?;
        let course = course.with(alloc, values.as_slice())?;
        Ok(Reading { reader, course })
    }

    /// What the values of the whole input came to, or its first fault.
    fn finish(self, alloc: Global) -> Result<Course, CommandFault>
        requires { (input : List ℕ) × Reads input self }
        ensures { (input : List ℕ) → Reads input self → Ends input result }
    {
        let Reading { reader, course } = self;
        match reader.finish(alloc) {
            Ok(values) => {
                let course = course.with(alloc, values.as_slice())?;
                Ok(course)
            }
            Err(ReadFault::Ion(fault)) => Err(CommandFault::BadInput(BadInput::Faulty(fault))),
            Err(ReadFault::OutOfMemory) => Err(CommandFault::OutOfMemory),
        }
    }
}

/// Reads the input to its end, and returns what its values came to.
///
/// Faults of the source and of Ion text, and an input that is too long, go before a record that isn't delivered.
fn read_course<So: Source>(alloc: Global, source: &mut So) -> Result<Course, CommandFault>
    ensures came { CourseOf result (span (So.told source.old) (So.told source.new)) }
    ensures few { TakesFew (span (So.told source.old) (So.told source.new)) }
{
    let mut reading = Reading::new(alloc);
    let mut piece = [0u8; PIECE];
    let mut read = 0;
    'pieces: while read <= LONGEST {
        let room = piece.len().min(LONGEST + 1 - read);
        let count = match source.read(&mut piece[..room]) {
            Ok(count) => count,
            Err(OutFault::Failed) => return Err(CommandFault::SourceFailed),
            Err(OutFault::OutOfMemory) => return Err(CommandFault::OutOfMemory),
        };
        if count == 0 {
            let course = reading.finish(alloc)?;
            return Ok(course);
        }
        reading = reading.take(alloc, &piece[..count])?;
        read += count;
    }
    Err(CommandFault::BadInput(BadInput::TooLong))
}

/// Reads the records that the source gives, and returns the lines of the blocks that are rebuilt from them.
pub fn replay_input<So: Source>(alloc: Global, source: &mut So) -> Result<Output, CommandFault>
    ensures replays { ReplaysInput result (span (So.told source.old) (So.told source.new)) }
    ensures few { TakesFew (span (So.told source.old) (So.told source.new)) }
{
    deliveries_rebuild();
    match read_course(alloc, source)? {
        Course::Delivered { replay, .. } => Ok(Output::of_replay(replay)),
        Course::Stopped(why) => Err(CommandFault::BadInput(why)),
    }
}
