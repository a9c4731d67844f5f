//! One line of a journal, read back.
ghost use Rattle.std.specs.Prelude.{◌≡◌, ◌≢◌, [], ◌∷◌, ◌++◌, IfOk, MatchOption};
ghost use Rattle.ion_values.specs.declared.value.Value.{Value};
ghost use Rattle.journal_text.specs.Lines.{GivesOne, IsLineRead};

use block_form::{CheckedBlock, checked_from_ion};
use ion_text::{ReadFault, is_text_of, read_is_within, read_stream, written_is_read};
use ion_values::{OutOfMemory, Value, Values};
use std::alloc::Global;

/// How deep a block nests at most.
const DEEPEST: u32 = 256;

/// The value of a list of one.
fn only(mut values: Values) -> Option<Value>
    ensures { MatchOption result ((v : Value) → values ≢ v ∷ []) (λ v. values ≡ v ∷ []) }
{
    if values.len() == 1 {
        values.pop()
    } else {
        None
    }
}

/// The value that a text gives, where it gives one and no other.
fn only_value(alloc: Global, text: &[u8]) -> Result<Option<Value>, OutOfMemory>
    ensures { IfOk result (λ found. GivesOne text.now found) }
{
    match read_stream(alloc, text, DEEPEST) {
        Ok(values) => Ok(only(values)),
        Err(ReadFault::Ion(_)) => Ok(None),
        Err(ReadFault::OutOfMemory) => Err(OutOfMemory),
    }
}

/// The whole block whose line this text is, with a line feed behind it, and whether its hashes hold. None comes exactly
/// where it is that of no whole block.
pub(crate) fn block_of(alloc: Global, text: &[u8]) -> Result<Option<CheckedBlock>, OutOfMemory>
    ensures { IfOk result (λ found. IsLineRead (text.now ++ 10 ∷ []) found) }
{
    written_is_read();
    read_is_within();
    let Some(value) = only_value(alloc, text)? else {
        return Ok(None);
    };
    if is_text_of(&value, text) {
        let found = checked_from_ion(alloc, value)?;
        Ok(found)
    } else {
        Ok(None)
    }
}
