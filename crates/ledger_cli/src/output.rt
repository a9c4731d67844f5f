//! Texts and bytes that are written whole.
ghost use Rattle.std.specs.Prelude.{◌≡◌, ◌++◌, OnOk, OnErr};
ghost use Rattle.outside.specs.Causes.{HasCause};
ghost use Rattle.laws_history.specs.Calls.{span};
ghost use Rattle.laws_history.specs.Streams.{Writes, WritesPart, BreaksOff};
ghost use Rattle.cli_model.specs.Outputs.{value_line};
ghost use Rattle.ledger_model.specs.Journal.{journal_bytes};
ghost use Rattle.ledger_cli.specs.Ends.{count_line};
ghost use Rattle.ledger_cli.specs.Outputs.{IsWritten};

use crate::stream::Stream;
use crate::writing::{write_lines, write_piece};
use containers::{Bytes, Sequence};
use ion_text::write;
use ion_values::{OutOfMemory, Text, Value};
use itoa::Buffer;
use outside::{OutFault, Sink};
use std::alloc::Global;
use std::marker::Model;
use stream_out::Replay;

/// Puts the text of a value behind the others, on a line of its own.
pub fn put_line(alloc: Global, text: &mut Text, value: &Value) -> Result<(), OutOfMemory>
    ensures { OnOk result (text.new ≡ text.old ++ value_line value.now) }
{
    let written = write(alloc, value)?;
    text.push_str(written.as_str())?;
    text.push_str("\n")
}

/// What a command writes, in the form in which it is held.
#[derive(Drop)]
enum Held {
    /// All of it.
    Whole(Bytes),
    /// The records, whose lines it is.
    Records(Stream),
    /// Rebuilt blocks, whose lines it is.
    Blocks(Replay),
}

/// What a command writes. Contracts see it as its bytes. The lines of records and of rebuilt blocks are made when they
/// are written, one after another.
#[derive(Drop)]
pub struct Output {
    held: Held,
}

impl Model for Output {
    ghost use Rattle.std.specs.Prelude.{ℕ, List};
    ghost use Rattle.ledger_cli.specs.Outputs.{output_bytes};

    ghost Value = { List ℕ };

    ghost view = { λ o. output_bytes o.held };
}

impl Output {
    /// These bytes. It takes no memory.
    pub fn of_bytes(bytes: Bytes) -> Output
        ensures { result ≡ bytes }
    {
        Output {
            held: Held::Whole(bytes),
        }
    }

    /// The text's bytes. It takes no memory.
    pub fn of_text(text: Text) -> Output
        ensures { result ≡ text }
    {
        Output::of_bytes(Sequence::from_vec(text.into_string().into_bytes()))
    }

    /// The lines of the records of a stream. It takes no memory.
    pub fn of_stream(stream: Stream) -> Output
        ensures { result ≡ stream }
    {
        Output {
            held: Held::Records(stream),
        }
    }

    /// The lines of the blocks of a replay. It takes no memory.
    pub fn of_replay(replay: Replay) -> Output
        ensures { result ≡ journal_bytes replay.blocks.list }
    {
        Output {
            held: Held::Blocks(replay),
        }
    }

    /// Writes all of it, one piece after another. After a fault a front part of it was written, and not all.
    pub fn write<Si: Sink>(self, alloc: Global, sink: &mut Si) -> Result<(), OutFault>
        ensures { IsWritten result (span (Si.told sink.old) (Si.told sink.new)) self }
    {
        let Output { held } = self;
        match held {
            Held::Whole(bytes) => write_piece(sink, bytes.as_slice()),
            Held::Records(stream) => stream.write(alloc, sink),
            Held::Blocks(replay) => write_lines(alloc, sink, replay.blocks().as_slice()),
        }
    }
}

/// Writes all of the text. After a fault a front part of it was written, and not all.
pub fn write_all<Si: Sink>(sink: &mut Si, text: &[u8]) -> Result<(), OutFault>
    ensures written { OnOk result (Writes (span (Si.told sink.old) (Si.told sink.new)) text.now) }
    ensures part { WritesPart (span (Si.told sink.old) (Si.told sink.new)) text.now }
    ensures broken { OnErr result (BreaksOff (span (Si.told sink.old) (Si.told sink.new)) text.now) }
    ensures cause { HasCause (Si.told sink.old).faults (Si.told sink.new).faults result }
{
    let mut at = 0;
    'pieces: while at < text.len() {
        at += sink.write(&text[at..])?;
    }
    Ok(())
}

/// Writes this text, a count in decimal digits, a bracket and a line feed, as `write_all` does. It takes no memory.
pub fn write_count<Si: Sink>(sink: &mut Si, front: &str, count: u64) -> Result<(), OutFault>
    ensures written { OnOk result (Writes (span (Si.told sink.old) (Si.told sink.new)) (count_line front.now count)) }
    ensures broken { OnErr result (BreaksOff (span (Si.told sink.old) (Si.told sink.new))
        (count_line front.now count)) }
    ensures cause { HasCause (Si.told sink.old).faults (Si.told sink.new).faults result }
{
    let mut buffer = Buffer::new();
    let digits = buffer.format(count);
    write_all(sink, front.as_bytes())?;
    write_all(sink, digits.as_bytes())?;
    write_all(sink, b"}\n")?;
    Ok(())
}
