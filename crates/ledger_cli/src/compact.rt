//! A journal without the bytes of what its blocks redact.
ghost use Rattle.std.specs.Prelude.{◌≡◌, ◌++◌, IfOk, IfErr, OnOk};
ghost use Rattle.ledger_model.specs.Compaction as spec;
ghost use Rattle.ledger_model.specs.Journal.{journal_bytes, line};
ghost use Rattle.cli_model.specs.declared.Question.TheVariants as asks;
ghost use Rattle.ledger_cli.specs.Stops.{IsAnswerStop};

use crate::command_fault::CommandFault;
use ion_values::{OutOfMemory, Text};
use journal_reader::Journal;
use journal_text::line;
use ledger_model::{Block, Blocks};
use redact_tool::compact;
use std::alloc::Global;

/// The blocks of the journal without what they redact.
pub fn compacted(alloc: Global, journal: &Journal) -> Result<Blocks, OutOfMemory>
    ensures { IfOk result (λ blocks. blocks.list ≡ spec.compacted journal.now.blocks) }
{
    let made = compact(alloc, journal.blocks())?;
    Ok(made)
}

/// Puts the line of a block behind the others.
fn put_block(alloc: Global, text: &mut Text, block: &Block) -> Result<(), OutOfMemory>
    ensures { OnOk result (text.new ≡ text.old ++ line block.now) }
{
    let next = line(alloc, block)?;
    text.push_str(next.as_str())
}

/// The lines of these blocks.
fn lines_of(alloc: Global, blocks: &[Block]) -> Result<Text, OutOfMemory>
    ensures { IfOk result (λ text. text ≡ journal_bytes blocks.now) }
{
    let mut text = Text::new(alloc);
    'lines: for block in blocks {
        put_block(alloc, &mut text, block)?;
    }
    Ok(text)
}

/// The lines of the journal's blocks without what they redact.
pub fn compact_text(alloc: Global, journal: &Journal) -> Result<Text, CommandFault>
    ensures lines { IfOk result (λ text. text ≡ journal_bytes (spec.compacted journal.now.blocks)) }
    ensures stop { IfErr result (λ stop. IsAnswerStop asks.Compact journal.now.blocks stop) }
{
    let blocks = compacted(alloc, journal)?;
    let text = lines_of(alloc, blocks.as_slice())?;
    Ok(text)
}
