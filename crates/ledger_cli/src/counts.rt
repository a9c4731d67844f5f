//! How much a journal holds.
ghost use Rattle.std.specs.Prelude.{◌≡◌, IfOk, IfErr};
ghost use Rattle.cli_model.specs.declared.Question.TheVariants as asks;
ghost use Rattle.cli_model.specs.Outputs.{counts_text, revision_count};
ghost use Rattle.ledger_cli.specs.Stops.{IsAnswerStop};

use crate::command_fault::CommandFault;
use ion_values::Text;
use ledger_model::{Block, Blocks};
use std::alloc::Global;

/// The number of revisions of the blocks.
fn revision_count(blocks: &[Block]) -> u128
    ensures { result ≡ revision_count blocks.now }
{
    let mut count = 0u128;
    'counted: for block in blocks {
        count += block.revisions.len() as u128;
    }
    count
}

/// The text of the number of blocks and the number of their revisions.
pub fn counts_text(alloc: Global, blocks: &Blocks) -> Result<Text, CommandFault>
    ensures counted { IfOk result (λ text. text ≡ counts_text blocks.now.list) }
    ensures stop { IfErr result (λ stop. IsAnswerStop asks.Counts blocks.now.list stop) }
{
    let number = blocks.len().to_string(alloc)?;
    let revisions = revision_count(blocks.as_slice()).to_string(alloc)?;
    let mut text = Text::new(alloc);
    text.push_str("{blocks:")?;
    text.push_str(number.as_str())?;
    text.push_str(",revisions:")?;
    text.push_str(revisions.as_str())?;
    text.push_str("}\n")?;
    Ok(text)
}
