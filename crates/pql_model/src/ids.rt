//! The texts of ids.
ghost use Rattle.std.specs.Prelude.{◌≡◌, IfOk};
ghost use Rattle.ql_types.specs.Ids as spec;

use containers::{OutOfMemory, Text};
use ql_types::id_digits;
use std::alloc::Global;
use std::str;

/// The 22 digits of an id as a text.
pub fn id_text(alloc: Global, raw: u128) -> Result<Text, OutOfMemory>
    ensures { IfOk result (λ text. text ≡ spec.id_text raw) }
{
    let digits = id_digits(raw);
    // Letters and digits are ASCII, and so UTF-8.
    let text = unsafe { str::from_utf8_unchecked(&digits) };
    Text::from_text(alloc, text)
}
