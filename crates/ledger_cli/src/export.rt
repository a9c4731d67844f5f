//! The blocks of a journal in Ion's binary encoding.
ghost use Rattle.std.specs.Prelude.{map, IfOk, IfErr};
ghost use Rattle.ledger_model.specs.Journal.{block_value};
ghost use Rattle.cli_model.specs.declared.Question.TheVariants as asks;
ghost use Rattle.cli_model.specs.Exports.{IsExport};
ghost use Rattle.ledger_cli.specs.Stops.{IsAnswerStop};

use crate::command_fault::CommandFault;
use crate::compact::compacted;
use crate::output::Output;
use block_form::to_ion;
use ion_binary_out::{ValueSource, write_each};
use ion_values::{OutOfMemory, Value};
use journal_reader::Journal;
use ledger_model::Block;
use std::alloc::Global;

/// The values of blocks, each made when it is asked for.
#[derive(Drop)]
struct BlockValues<'a> {
    blocks: &'a [Block],
}

impl<'a> ValueSource for BlockValues<'a> {
    ghost values = { λ s. map block_value s.blocks.now };

    fn count(&self) -> usize {
        self.blocks.len()
    }

    fn value_at(&self, alloc: Global, at: usize) -> Result<Value, OutOfMemory> {
        to_ion(alloc, &self.blocks[at])
    }
}

/// The blocks without what they redact, as a stream of values in Ion's binary encoding. No more than one block's value
/// is held at a time.
pub fn export_bytes(alloc: Global, journal: &Journal) -> Result<Output, CommandFault>
    ensures exported { IfOk result (λ bytes. IsExport journal.now.blocks bytes) }
    ensures stop { IfErr result (λ stop. IsAnswerStop asks.Export journal.now.blocks stop) }
{
    let blocks = compacted(alloc, journal)?;
    let values = BlockValues {
        blocks: blocks.as_slice(),
    };
    let bytes = write_each(alloc, &values)?;
    Ok(Output::of_bytes(bytes))
}
