//! Values as bytes, and their hashes.
ghost use Rattle.std.specs.Prelude.{◌≡◌, IfOk};

use crate::texts::put_digits;
use ion_hash::{hash, serialize};
use ion_values::{OutOfMemory, Text, Value, copy};
use ql_types::Hash32;
use std::alloc::Global;

/// Puts the bytes of a value, in hexadecimal.
pub fn put_bytes(alloc: Global, given: &Value, out: &mut Text) -> Option<()> {
    let bytes = serialize(alloc, given).ok()?;
    put_digits(alloc, bytes.as_slice(), out)
}

/// The hash of a value, and that of its parts put together again: one hash, by the contracts alone.
fn hash_and_hash_again(alloc: Global, value: &Value) -> Result<(Hash32, Hash32), OutOfMemory>
    ensures { IfOk result (λ hashes. hashes.0 ≡ hashes.1) }
{
    let Value { annotations, body } = copy(alloc, value)?;
    let again = Value { annotations, body };
    Ok((hash(alloc, value)?, hash(alloc, &again)?))
}

/// Puts the hash of a value, in hexadecimal.
pub fn put_hash(alloc: Global, given: &Value, out: &mut Text) -> Option<()> {
    let (found, again) = hash_and_hash_again(alloc, given).ok()?;
    if found != again {
        return None;
    }
    put_digits(alloc, found.bytes.as_slice(), out)
}
