//! Bytes that are UTF-8, and offsets.
ghost use Rattle.std.specs.Prelude.{◌≡◌, ◌+◌, true, false, IfOk, IfErr, MatchOption};
ghost use Rattle.std.specs.Str.{is_utf8};
ghost use Rattle.std.specs.Str.Lossy.{utf8_valid_len};
ghost use Rattle.ion_pieces.specs.Checks.{IsChecked};

use ion_text::ReadFault;
use ion_values::{IonFault, IonKind, OutOfMemory};
use simdutf8::compat::from_utf8;

/// Returns Ok if the bytes are UTF-8, and else where they aren't, `at` being the offset of the first of them.
pub fn check_utf8(at: usize, bytes: &[u8]) -> Result<(), ReadFault>
    ensures { IsChecked at bytes.now result }
{
    match ill_formed(bytes) {
        None => Ok(()),
        Some(valid) => Err(ReadFault::Ion(fault(sum(at, valid)?, IonKind::NotUtf8))),
    }
}

/// Where the first bytes begin that aren't UTF-8, if there are any.
fn ill_formed(bytes: &[u8]) -> Option<usize>
    ensures { MatchOption result (is_utf8 bytes.now ≡ true) (λ at. (is_utf8 bytes.now ≡ false)
        × (at ≡ utf8_valid_len bytes.now)) }
{
    match from_utf8(bytes) {
        Ok(_) => None,
        Err(error) => Some(error.valid_up_to()),
    }
}

/// The offset `more` bytes after `at`. One past the greatest number counts as out of memory.
pub fn sum(at: usize, more: usize) -> Result<usize, OutOfMemory>
    ensures { IfOk result (λ sum. sum ≡ at + more) }
{
    match at.checked_add(more) {
        Some(sum) => Ok(sum),
        None => Err(OutOfMemory),
    }
}

/// A text that is refused at this place.
pub fn fault(at: usize, kind: IonKind) -> IonFault
    ensures { result ≡ record { at = at; kind = kind } }
{
    IonFault {
        at: at as u64,
        kind,
    }
}
