//! How a command ends: with its output or an error line, and an exit status.
ghost use Rattle.std.specs.Prelude.{◌≡◌, Err};
ghost use Rattle.laws_history.specs.Calls.{span};
ghost use Rattle.cli_model.specs.Claims as top;
ghost use Rattle.cli_model.specs.Lines.{bad_range_line, damaged_line, input_line, no_such_line, not_empty_line};
ghost use Rattle.cli_model.specs.Lines.{proof_fault_line, unpublished_line};
ghost use Rattle.ledger_cli.specs.Ends.{EndsBy, IsLine, IsOutputEnd, IsOwnLine, WritesMemoryLine, count_line};
ghost use Rattle.ledger_cli.specs.Ends.{status_of};
ghost use Rattle.ledger_cli.specs.Judgements.{cause_of};

use crate::command_fault::CommandFault;
use crate::faults::proof_fault_line;
use crate::lines::{
    BadInput, bad_range_line, damaged_line, input_line, no_such_line, not_empty_line,
};
use crate::output::{Output, write_all, write_count};
use ledger_model::Damage;
use outside::{JournalStore, OutFault, Sink, Source};
use proof_issue::NoSuch;
use proof_verify::ProofFault;
use std::alloc::Global;

/// How a command ends. Its number is the exit status.
#[derive(Clone, Copy, Debug, PartialEq, Eq)]
pub enum Status {
    Done = 0,
    BadWords = 1,
    BadInput = 2,
    Damaged = 3,
    SourceFailed = 4,
    StoreFailed = 5,
    SinkFailed = 6,
    NotAccepted = 7,
    OutOfMemory = 8,
}

/// The exit status.
pub fn number_of(status: Status) -> u8
    ensures { result ≡ top.number_of (status_of status) }
{
    status as u8
}

/// Ends with the output, or with the error line of why there is none.
pub fn end<So: Source, Si: Sink, St: JournalStore>(
    alloc: Global,
    value: Result<Output, CommandFault>,
    source: &So,
    sink: &mut Si,
    store: &St,
) -> Status
    ensures { EndsBy value result (So.told source.now).faults (St.told store.now).faults
        (span (Si.told sink.old) (Si.told sink.new)) }
{
    match value {
        Ok(output) => end_by_output(alloc, sink, output),
        Err(stop) => end_by_stop(alloc, stop, source, sink, store),
    }
}

/// Ends with the error line of why there is no output.
fn end_by_stop<So: Source, Si: Sink, St: JournalStore>(
    alloc: Global,
    stop: CommandFault,
    source: &So,
    sink: &mut Si,
    store: &St,
) -> Status
    ensures { EndsBy (Err stop) result (So.told source.now).faults (St.told store.now).faults
        (span (Si.told sink.old) (Si.told sink.new)) }
{
    match stop {
        CommandFault::BadWords => end_by_line(sink, "{status:1}\n", Status::BadWords),
        CommandFault::BadInput(cause) => end_by_input(alloc, sink, cause),
        CommandFault::NoSuch(refused) => end_by_none(alloc, sink, refused),
        CommandFault::NotEmpty { blocks } => end_by_blocks(alloc, sink, blocks),
        CommandFault::BadRange { from, to } => end_by_range(alloc, sink, from, to),
        CommandFault::NotAccepted(fault) => end_by_fault(alloc, sink, &fault),
        CommandFault::NotPublished => end_unpublished(sink),
        CommandFault::Damaged { sequence, kind } => end_by_damage(alloc, sink, sequence, kind),
        CommandFault::SourceFailed => {
            end_by_count(
                sink,
                "{status:4,faults:",
                source.faults(),
                Status::SourceFailed,
            )
        }
        CommandFault::StoreFailed => {
            end_by_count(
                sink,
                "{status:5,faults:",
                store.faults(),
                Status::StoreFailed,
            )
        }
        CommandFault::OutOfMemory => end_without_memory(sink),
    }
}

/// Ends with the output.
fn end_by_output<Si: Sink>(alloc: Global, sink: &mut Si, output: Output) -> Status
    ensures { IsOutputEnd result (span (Si.told sink.old) (Si.told sink.new)) output }
{
    match output.write(alloc, sink) {
        Ok(()) => Status::Done,
        Err(OutFault::Failed) => Status::SinkFailed,
        Err(OutFault::OutOfMemory) => Status::OutOfMemory,
    }
}

/// Ends with an error line, whether the sink takes it or fails. If the sink has no memory, it isn't asked again.
fn end_by_line<Si: Sink>(sink: &mut Si, line: &str, status: Status) -> Status
    ensures { IsOwnLine result status (span (Si.told sink.old) (Si.told sink.new)) line.now }
{
    match write_all(sink, line.as_bytes()) {
        Ok(()) => status,
        Err(OutFault::Failed) => status,
        Err(OutFault::OutOfMemory) => Status::OutOfMemory,
    }
}

/// Ends with the error line of a failed source or store and the number of its failures.
///
/// The line takes no memory but the sink's.
fn end_by_count<Si: Sink>(sink: &mut Si, front: &str, count: u64, status: Status) -> Status
    ensures { IsOwnLine result status (span (Si.told sink.old) (Si.told sink.new)) (count_line front.now count) }
{
    match write_count(sink, front, count) {
        Ok(()) => status,
        Err(OutFault::Failed) => status,
        Err(OutFault::OutOfMemory) => Status::OutOfMemory,
    }
}

/// Ends with the error line of status 8, whether the sink takes it or not.
fn end_without_memory<Si: Sink>(sink: &mut Si) -> Status
    ensures status { result ≡ Status.OutOfMemory }
    ensures line { WritesMemoryLine (span (Si.told sink.old) (Si.told sink.new)) }
{
    end_by_line(sink, "{status:8}\n", Status::OutOfMemory)
}

/// Ends with the error line of an input that is refused.
fn end_by_input<Si: Sink>(alloc: Global, sink: &mut Si, cause: BadInput) -> Status
    ensures { IsLine result Status.BadInput (span (Si.told sink.old) (Si.told sink.new)) (input_line (cause_of cause)) }
{
    match input_line(alloc, cause) {
        Ok(line) => end_by_line(sink, line.as_str(), Status::BadInput),
        Err(_) => end_without_memory(sink),
    }
}

/// Ends with the error line of a digest or proof that doesn't exist.
fn end_by_none<Si: Sink>(alloc: Global, sink: &mut Si, refused: NoSuch) -> Status
    ensures { IsLine result Status.BadInput (span (Si.told sink.old) (Si.told sink.new)) (no_such_line refused) }
{
    match no_such_line(alloc, refused) {
        Ok(line) => end_by_line(sink, line.as_str(), Status::BadInput),
        Err(_) => end_without_memory(sink),
    }
}

/// Ends with the error line of a journal that must be empty, but has this number of blocks.
fn end_by_blocks<Si: Sink>(alloc: Global, sink: &mut Si, blocks: u64) -> Status
    ensures { IsLine result Status.BadInput (span (Si.told sink.old) (Si.told sink.new)) (not_empty_line blocks) }
{
    match not_empty_line(alloc, blocks) {
        Ok(line) => end_by_line(sink, line.as_str(), Status::BadInput),
        Err(_) => end_without_memory(sink),
    }
}

/// Ends with the error line of a range of blocks that ends before it begins.
fn end_by_range<Si: Sink>(alloc: Global, sink: &mut Si, from: u64, to: u64) -> Status
    ensures { IsLine result Status.BadInput (span (Si.told sink.old) (Si.told sink.new)) (bad_range_line from to) }
{
    match bad_range_line(alloc, from, to) {
        Ok(line) => end_by_line(sink, line.as_str(), Status::BadInput),
        Err(_) => end_without_memory(sink),
    }
}

/// Ends with the error line of a proof that isn't accepted.
fn end_by_fault<Si: Sink>(alloc: Global, sink: &mut Si, fault: &ProofFault) -> Status
    ensures { IsLine result Status.NotAccepted (span (Si.told sink.old) (Si.told sink.new))
        (proof_fault_line fault.now) }
{
    match proof_fault_line(alloc, fault) {
        Ok(line) => end_by_line(sink, line.as_str(), Status::NotAccepted),
        Err(_) => end_without_memory(sink),
    }
}

/// Ends with the error line of a digest that isn't the journal's.
fn end_unpublished<Si: Sink>(sink: &mut Si) -> Status
    ensures { IsOwnLine result Status.NotAccepted (span (Si.told sink.old) (Si.told sink.new)) unpublished_line }
{
    end_by_line(
        sink,
        "{status:7,fault:{kind:NotPublished}}\n",
        Status::NotAccepted,
    )
}

/// Ends with the error line of a damaged journal.
fn end_by_damage<Si: Sink>(alloc: Global, sink: &mut Si, sequence: u64, kind: Damage) -> Status
    ensures { IsLine result Status.Damaged (span (Si.told sink.old) (Si.told sink.new)) (damaged_line sequence kind) }
{
    match damaged_line(alloc, sequence, kind) {
        Ok(line) => end_by_line(sink, line.as_str(), Status::Damaged),
        Err(_) => end_without_memory(sink),
    }
}
