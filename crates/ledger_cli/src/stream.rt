//! The stream of a journal's records.
ghost use Rattle.std.specs.Prelude.{◌≡◌, ◌<◌, ◌≤◌, ◌+◌, ◌++◌, List, length, take, slice_get, Some, IfOk, OnOk};
ghost use Rattle.ledger_model.specs.Compaction.{compacted};
ghost use Rattle.ledger_model.specs.declared.block.Schema as model;
ghost use Rattle.laws_history.specs.Calls.{span};
ghost use Rattle.stream_out.specs.Named.{NamesStand};
ghost use Rattle.stream_out.specs.Streams.{block_records, changes_in, records_of};
ghost use Rattle.cli_model.specs.Streams.{records_text};
ghost use Rattle.ledger_cli.specs.Outputs.{IsWritten};
ghost use Rattle.ledger_cli.specs.Streaming.{IsShown, IsStream, StreamsFrom, Tells, block_text, stream_text};

use crate::command_fault::CommandFault;
use crate::output::Output;
use crate::returned::{Resources, Returned};
use crate::writing::{write_line, write_lines};
use containers::Sequence;
use ion_values::OutOfMemory;
use journal_reader::Journal;
use ledger_model::{Block, Blocks};
use outside::{JournalStore, OutFault, Sink};
use proof_issue::NoSuch;
use redact_tool::{Redactions, compacted_block, front};
use std::alloc::Global;
use std::marker::Model;
use stream_out::{Names, Record, names_in, push_block};

/// The blocks of a journal, of which each is made without what they redact when it is asked for.
#[derive(Drop)]
struct Shown {
    blocks: Blocks,
    redactions: Redactions,
    /// How many blocks there are up to the last that redacts anything.
    front: usize,
}

/// The stream of the blocks of a journal from one number up to but without another. Contracts see it as the lines of
/// its records, each of which is made when it is written.
#[derive(Drop)]
pub struct Stream {
    shown: Shown,
    /// Of the tables that the blocks before the first one created.
    names: Names,
    part: Part,
}

/// The blocks from one number up to but without another.
#[derive(Clone, Copy)]
struct Part {
    from: usize,
    to: usize,
}

impl Model for Stream {
    ghost use Rattle.std.specs.Prelude.{ℕ, List};
    ghost use Rattle.ledger_model.specs.Compaction.{compacted};
    ghost use Rattle.stream_out.specs.Streams.{stream};
    ghost use Rattle.cli_model.specs.Streams.{records_text};
    ghost use Rattle.ledger_cli.specs.Streaming.{IsStream};

    ghost Value = { List ℕ };

    ghost view = { λ s. records_text (stream (compacted s.shown.blocks.list) s.part.from s.part.to) };

    ghost invariant = { λ s. IsStream s.shown s.names s.part };
}

impl Stream {
    /// The stream of these blocks of a journal.
    fn of(alloc: Global, journal: Journal, part: Part) -> Result<Stream, OutOfMemory>
        requires order { part.from ≤ part.to }
        requires there { part.to ≤ length journal.blocks }
        ensures { IfOk result (λ text. text ≡ stream_text part.from part.to journal.blocks) }
    {
        let shown = shown_of(alloc, journal)?;
        let names = names_before(alloc, shown.blocks.as_slice(), part.from)?;
        Ok(Stream { shown, names, part })
    }

    /// Writes the lines of the records, one after another. After a fault a front part of them was written, and not all.
    pub fn write<Si: Sink>(self, alloc: Global, sink: &mut Si) -> Result<(), OutFault>
        ensures { IsWritten result (span (Si.told sink.old) (Si.told sink.new)) self }
    {
        let Stream { shown, names, part } = self;
        write_line(alloc, sink, &Record::Created)?;
        write_part(alloc, sink, &shown, names, part)?;
        write_line(alloc, sink, &Record::Completed)
    }
}

/// The blocks of a journal.
fn shown_of(alloc: Global, journal: Journal) -> Result<Shown, OutOfMemory>
    ensures { IfOk result (λ shown. IsShown shown × (shown.blocks.list ≡ journal.blocks)) }
{
    let blocks = journal.into_blocks();
    let redactions = Redactions::of(alloc, blocks.as_slice())?;
    let front = front(blocks.as_slice());
    Ok(Shown {
        blocks,
        redactions,
        front,
    })
}

/// The names of the tables that the blocks before this number created.
fn names_before(alloc: Global, blocks: &[Block], from: usize) -> Result<Names, OutOfMemory>
    requires { from ≤ length blocks.now }
    ensures { IfOk result (λ names. NamesStand (changes_in (take from (compacted blocks.now))) names) }
{
    let (before, _) = blocks.split_at(from);
    let names = names_in(alloc, before)?;
    Ok(names)
}

/// The block of this number, without what the blocks redact.
fn block_at(alloc: Global, shown: &Shown, at: usize) -> Result<Block, OutOfMemory>
    requires within { at < length shown.now.blocks.list }
    requires shown { IsShown shown.now }
    ensures { IfOk result (λ b. slice_get (compacted shown.now.blocks.list) at ≡ Some b) }
{
    let blocks = shown.blocks.as_slice();
    let block = compacted_block(alloc, &shown.redactions, at < shown.front, &blocks[at])?;
    Ok(block)
}

/// Writes the lines of a block's records. The names are those of the tables that it or a block before it created.
fn write_records_of<Si: Sink>(
    alloc: Global,
    sink: &mut Si,
    names: &Names,
    block: &Block,
) -> Result<(), OutFault>
    ensures { (changes : List model.Schema) → NamesStand changes names.now
        → IsWritten result (span (Si.told sink.old) (Si.told sink.new))
        (records_text (block_records changes block.now)) }
{
    let mut records = Sequence::new(alloc);
    match push_block(alloc, &mut records, names, block) {
        Ok(()) => write_lines(alloc, sink, records.as_slice()),
        Err(_) => Err(OutFault::OutOfMemory),
    }
}

/// The block of this number without what the blocks redact, once the names of the tables that it creates are taken in.
fn next_block(
    alloc: Global,
    shown: &Shown,
    names: &mut Names,
    at: usize,
) -> Result<Block, OutOfMemory>
    requires within { at < length shown.now.blocks.list }
    requires shown { IsShown shown.now }
    ensures block { IfOk result (λ b. slice_get (compacted shown.now.blocks.list) at ≡ Some b) }
    ensures names { IfOk result (λ b. (before : List model.Schema) → NamesStand before names.old
        → NamesStand (before ++ b.info.schema) names.new) }
{
    let block = block_at(alloc, shown, at)?;
    names.record_all(alloc, block.info.schema.as_slice())?;
    Ok(block)
}

/// Writes the lines of the records of the block of this number.
fn write_block<Si: Sink>(
    alloc: Global,
    sink: &mut Si,
    shown: &Shown,
    names: &mut Names,
    at: usize,
) -> Result<(), OutFault>
    requires within { at < length shown.now.blocks.list }
    requires shown { IsShown shown.now }
    ensures written { NamesStand (changes_in (take at (compacted shown.now.blocks.list))) names.old
        → IsWritten result (span (Si.told sink.old) (Si.told sink.new))
        (block_text (compacted shown.now.blocks.list) at) }
    ensures names { NamesStand (changes_in (take at (compacted shown.now.blocks.list))) names.old
        → OnOk result (NamesStand (changes_in (take (at + 1) (compacted shown.now.blocks.list))) names.new) }
{
    match next_block(alloc, shown, names, at) {
        Ok(block) => write_records_of(alloc, sink, names, &block),
        Err(_) => Err(OutFault::OutOfMemory),
    }
}

/// Writes the lines of the records of these blocks.
fn write_part<Si: Sink>(
    alloc: Global,
    sink: &mut Si,
    shown: &Shown,
    names: Names,
    part: Part,
) -> Result<(), OutFault>
    requires { IsStream shown.now names part }
    ensures { IsWritten result (span (Si.told sink.old) (Si.told sink.new))
        (records_text (records_of (compacted shown.now.blocks.list) part.from part.to)) }
{
    let mut names = names;
    'each: for at in part.from..part.to {
        write_block(alloc, sink, shown, &mut names, at)?;
    }
    Ok(())
}

/// The stream of the journal from one block up to but without another, or why there is none.
fn stream_of(
    alloc: Global,
    journal: Journal,
    from: u64,
    to: Option<u64>,
) -> Result<Output, CommandFault>
    ensures { StreamsFrom from to result journal.blocks }
{
    let blocks = journal.blocks().len();
    let to = to.unwrap_or(blocks);
    if blocks < to {
        return Err(CommandFault::NoSuch(NoSuch::Block {
            sequence: to,
            blocks,
        }));
    }
    if to < from {
        return Err(CommandFault::BadRange { from, to });
    }
    let part = Part {
        from: from as usize,
        to: to as usize,
    };
    let stream = Stream::of(alloc, journal, part)?;
    Ok(Output::of_stream(stream))
}

/// The stream of the journal that the store keeps. No byte of the store changes.
fn stream_stored<S: JournalStore>(
    alloc: Global,
    store: &mut S,
    from: u64,
    to: Option<u64>,
) -> Result<Output, CommandFault>
    ensures { Tells from to result (span (S.told store.old) (S.told store.new)) }
{
    match Journal::read(alloc, store) {
        Ok(journal) => {
            journal.blocks();
            stream_of(alloc, journal, from, to)
        }
        Err(cause) => Err(CommandFault::from(cause)),
    }
}

/// The stream of the journal that the store keeps, or why there is none. The clock isn't asked.
pub fn stream_journal<S: JournalStore, C>(
    alloc: Global,
    from: u64,
    to: Option<u64>,
    resources: Resources<S, C>,
) -> Returned<Result<Output, CommandFault>, S, C>
    ensures tells { Tells from to result.value (span (S.told resources.store) (S.told result.store)) }
    ensures clock { result.clock ≡ resources.clock }
{
    let Resources { mut store, clock } = resources;
    let value = stream_stored(alloc, &mut store, from, to);
    Returned {
        value,
        store,
        clock,
    }
}
