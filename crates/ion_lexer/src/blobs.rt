//! Blobs.
ghost use Rattle.std.specs.Prelude.{◌≡◌, ◌≤◌, ◌+◌, Some, length, not, IfOk, IfSome};
ghost use Rattle.std.specs.List.{filter, list_any};
ghost use Rattle.ion_model.specs.Blanks.{is_space};
ghost use Rattle.ion_model.specs.Lobs.{base64_bytes, before_braces};
ghost use Rattle.ion_lexer.specs.Blobs.{hides_none};

use crate::blanks::is_space;
use crate::lobs::closes;
use base64::DecodeAllocError;
use base64::engine::general_purpose::STANDARD;
use containers::{Bytes, OutOfMemory};
use std::alloc::Global;

/// How many bytes stand before the closing braces, or None where they are missing.
pub fn before_braces(bytes: &[u8]) -> Option<usize>
    ensures value { result ≡ before_braces hides_none 0 bytes.now }
    ensures within { IfSome result (λ len. len + 2 ≤ length bytes.now) }
{
    for at in 0..bytes.len() {
        if closes(&bytes[at..]) {
            return Some(at);
        }
    }
    None
}

/// The bytes whose base64 stands between the braces, or None where it is none.
pub fn blob_bytes(alloc: Global, bytes: &[u8]) -> Result<Option<Bytes>, OutOfMemory>
    ensures { IfOk result (λ r. r ≡ base64_bytes (filter (λ b. not (is_space b)) bytes.now)) }
{
    if !has_white(bytes) {
        return base64_bytes(alloc, bytes);
    }
    let digits = without_white(alloc, bytes)?;
    base64_bytes(alloc, digits.as_slice())
}

fn has_white(bytes: &[u8]) -> bool
    ensures { result ≡ list_any is_space bytes.now }
{
    bytes.iter().any(|b| is_space(*b))
}

fn without_white(alloc: Global, bytes: &[u8]) -> Result<Vec<u8>, OutOfMemory>
    ensures { IfOk result (λ v. v.items ≡ filter (λ b. not (is_space b)) bytes.now) }
{
    let digits = bytes
        .iter()
        .copied()
        .filter(|b| !is_space(*b))
        .collect(alloc)?;
    Ok(digits)
}

fn base64_bytes(alloc: Global, text: &[u8]) -> Result<Option<Bytes>, OutOfMemory>
    ensures { IfOk result (λ r. r ≡ base64_bytes text.now) }
{
    match STANDARD.decode(alloc, text) {
        Ok(bytes) => Ok(Some(Bytes::from_vec(bytes))),
        Err(DecodeAllocError::DecodeError(_)) => Ok(None),
        Err(DecodeAllocError::OutOfMemory) => Err(OutOfMemory),
    }
}
