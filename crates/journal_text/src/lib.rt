//! The text of a journal, a line a block.
#![tactic(auto)]

ghost use Rattle.std.specs.Prelude.{◌≡◌, ◌∷◌, ◌++◌, [], IfOk};
ghost use Rattle.ion_model.specs.Write.{value_text};
ghost use Rattle.ledger_model.specs.Journal.{line};

mod checks;
mod journal;
mod laws;
mod lines;
mod reader;
mod registry;
mod shares;

use block_form::to_ion;
use ion_text::write;
use ion_values::{OutOfMemory, Text, Value};
pub use journal::{JournalFault, read_journal};
pub use laws::{journals_tell, written_on_one_line};
use ledger_model::Block;
pub use reader::JournalReader;
use std::alloc::Global;

/// A block's line in the journal: its value as it is written, and a line feed.
pub fn line(alloc: Global, block: &Block) -> Result<Text, OutOfMemory>
    ensures { IfOk result (λ text. text ≡ line block.now) }
{
    let value = to_ion(alloc, block)?;
    let text = line_of_value(alloc, &value)?;
    Ok(text)
}

/// The line of the block of this value.
pub fn line_of_value(alloc: Global, value: &Value) -> Result<Text, OutOfMemory>
    ensures { IfOk result (λ text. text ≡ value_text value.now ++ 10 ∷ []) }
{
    let mut text = write(alloc, value)?;
    text.push_str("\n")?;
    Ok(text)
}
