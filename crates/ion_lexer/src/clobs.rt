//! Clobs.
ghost use Rattle.std.specs.Prelude.{◌≡◌, ◌≤◌, ◌<◌, ◌+◌, false, codes, drop, length, slice_index, option_and_then, IfOk, IfSome};
ghost use Rattle.std.specs.Char.{is_ascii};
ghost use Rattle.std.specs.List.{list_all};
ghost use Rattle.ion_model.specs.Blanks.{is_space};
ghost use Rattle.ion_model.specs.Lobs.{before_braces, clob_bytes, clob_content, clob_hides, long_clob, short_clob};
ghost use Rattle.ion_model.specs.Texts.{before, pieces};
ghost use Rattle.ion_lexer.specs.Quotes.{front_of};

use crate::blanks::is_space;
use crate::escapes::behind;
use crate::lobs::{begins_segment, closes, without_white};
use crate::texts::{Content, Quotes, before, pieces};
use containers::{Bytes, OutOfMemory};
use std::alloc::Global;

/// How many bytes stand before the closing braces, or None where they are missing.
pub fn before_clob_braces(bytes: &[u8]) -> Option<usize>
    ensures value { result ≡ before_braces clob_hides 0 bytes.now }
    ensures within { IfSome result (λ len. len + 2 ≤ length bytes.now) }
{
    let mut at = 0;
    while at < bytes.len() {
        let rest = &bytes[at..];
        if closes(rest) {
            return Some(at);
        }
        at += 1 + clob_hides(rest)?;
    }
    None
}

/// How many bytes the first one hides, or None where it hides all.
fn clob_hides(rest: &[u8]) -> Option<usize>
    requires { 0 < length rest.now }
    ensures value { result ≡ clob_hides (slice_index rest.now 0) (drop 1 rest.now) }
    ensures within { IfSome result (λ hidden. hidden < length rest.now) }
{
    match rest {
        [b'"', content @ ..] => {
            let len = before(Quotes::Double, content)?;
            Some(len + 1)
        }
        [b'\'', b'\'', b'\'', content @ ..] => {
            let len = before(Quotes::Triple, content)?;
            Some(len + 5)
        }
        _ => Some(0),
    }
}

/// What stands between the braces of a clob, from its first string on, or None where it is
/// ill-formed.
pub fn clob_bytes(alloc: Global, bytes: &[u8]) -> Result<Option<Bytes>, OutOfMemory>
    ensures { IfOk result (λ r. r ≡ clob_bytes bytes.now) }
{
    match bytes {
        [] => Ok(None),
        [b'"', content @ ..] => short_clob(alloc, content),
        _ => long_clob(alloc, bytes),
    }
}

fn short_clob(alloc: Global, content: &[u8]) -> Result<Option<Bytes>, OutOfMemory>
    ensures { IfOk result (λ r. r ≡ option_and_then (short_clob content.now) (before (codes "\"") false content.now)) }
{
    let Some(len) = before(Quotes::Double, content) else {
        return Ok(None);
    };
    if !is_all_white(&content[len + 1..]) {
        return Ok(None);
    }
    clob_content(alloc, Quotes::Double, &content[..len])
}

fn is_all_white(bytes: &[u8]) -> bool
    ensures { result ≡ list_all is_space bytes.now }
{
    bytes.iter().all(|b| is_space(*b))
}

fn is_all_ascii(bytes: &[u8]) -> bool
    ensures { result ≡ list_all is_ascii bytes.now }
{
    bytes.iter().all(|b| b.is_ascii())
}

fn long_clob(alloc: Global, bytes: &[u8]) -> Result<Option<Bytes>, OutOfMemory>
    ensures { IfOk result (λ r. r ≡ pieces long_clob 0 bytes.now) }
{
    let mut out = Vec::new(alloc);
    let mut rest = bytes;
    'segments: loop {
        let segments = without_white(rest);
        if segments.is_empty() {
            return Ok(Some(Bytes::from_vec(out)));
        }
        if !begins_segment(segments) {
            return Ok(None);
        }
        let content = behind(segments, 3);
        let Some(len) = before(Quotes::Triple, content) else {
            return Ok(None);
        };
        let (text, others) = content.split_at(len);
        let Some(read) = clob_content(alloc, Quotes::Triple, text)? else {
            return Ok(None);
        };
        out.extend_from_slice(read.as_slice())?;
        rest = behind(others, 3);
    }
}

/// What stands between the quotes of a clob, or None where it is ill-formed.
fn clob_content(alloc: Global, quotes: Quotes, bytes: &[u8]) -> Result<Option<Bytes>, OutOfMemory>
    ensures { IfOk result (λ r. r ≡ clob_content (front_of quotes Content.Clob) bytes.now) }
{
    if !is_all_ascii(bytes) {
        return Ok(None);
    }
    let content = pieces(alloc, quotes, Content::Clob, bytes)?;
    Ok(content)
}
