//! Pieces of an output that are written one after another, each made when its turn comes.
ghost use Rattle.std.specs.Prelude.{◌≡◌, IfOk};
ghost use Rattle.std.specs.List.{flat_map};
ghost use Rattle.ion_values.specs.declared.value.Value.{Value};
ghost use Rattle.ledger_model.specs.Journal.{block_value};
ghost use Rattle.stream_out.specs.Records.{record_value};
ghost use Rattle.laws_history.specs.Calls.{span};
ghost use Rattle.cli_model.specs.Outputs.{value_line};
ghost use Rattle.ledger_cli.specs.Outputs.{IsWritten};

use crate::output::write_all;
use ion_values::{OutOfMemory, Text};
use journal_text::line;
use ledger_model::Block;
use outside::{OutFault, Sink};
use std::alloc::Global;
use stream_out::{Record, record_line};

/// What has a value, and is written as its line.
pub trait Lined {
    /// Its value.
    ghost value: { Self → Value };

    /// The line of its value.
    fn line(&self, alloc: Global) -> Result<Text, OutOfMemory>
        ensures { IfOk result (λ line. line ≡ value_line (value self.now)) };
}

impl Lined for Block {
    ghost value = { block_value };

    fn line(&self, alloc: Global) -> Result<Text, OutOfMemory> {
        line(alloc, self)
    }
}

impl Lined for Record {
    ghost value = { record_value };

    fn line(&self, alloc: Global) -> Result<Text, OutOfMemory> {
        record_line(alloc, self)
    }
}

/// Writes all of the text. After a fault a front part of it was written, and not all.
pub fn write_piece<Si: Sink>(sink: &mut Si, text: &[u8]) -> Result<(), OutFault>
    ensures { IsWritten result (span (Si.told sink.old) (Si.told sink.new)) text.now }
{
    write_all(sink, text)
}

/// Writes the line of a block or a record.
pub fn write_line<L: Lined, Si: Sink>(alloc: Global, sink: &mut Si, one: &L) -> Result<(), OutFault>
    ensures { IsWritten result (span (Si.told sink.old) (Si.told sink.new)) (value_line (L.value one.now)) }
{
    match one.line(alloc) {
        Ok(text) => write_piece(sink, text.as_str().as_bytes()),
        Err(_) => Err(OutFault::OutOfMemory),
    }
}

/// Writes the lines of blocks or of records. No more than one is held at a time.
pub fn write_lines<L: Lined, Si: Sink>(
    alloc: Global,
    sink: &mut Si,
    all: &[L],
) -> Result<(), OutFault>
    ensures { IsWritten result (span (Si.told sink.old) (Si.told sink.new))
        (flat_map (λ one. value_line (L.value one)) all.now) }
{
    'lines: for one in all {
        write_line(alloc, sink, one)?;
    }
    Ok(())
}
