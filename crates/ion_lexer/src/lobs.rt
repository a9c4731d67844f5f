//! Clobs and blobs.
ghost use Rattle.std.specs.Prelude.{◌≡◌, ◌≤◌, ◌+◌, length, codes, drop, nat_eq, IfOk, IfSome, IsTrue};
ghost use Rattle.std.specs.List.{list_all, prefix_len, starts_with};
ghost use Rattle.ion_values.specs.declared.fault.IonKind.TheVariants as fault;
ghost use Rattle.ion_model.specs.declared.Scalar.TheVariants as scalar;
ghost use Rattle.ion_model.specs.Blanks.{is_space};
ghost use Rattle.ion_model.specs.Lobs.{begins_clob, begins_segment, lex_blob, lex_clob, lex_lob, lob_token, without_white};
ghost use Rattle.ion_model.specs.Spans.{span_of};

use crate::blanks::is_space;
use crate::blobs::{before_braces, blob_bytes};
use crate::clobs::{before_clob_braces, clob_bytes};
use crate::escapes::behind;
use ion_model::{Lexed, Scalar, Token};
use ion_values::{IonKind, OutOfMemory};
use std::alloc::Global;

/// The clob or blob in front.
#[tactic(auto, unfolding(ion_model::specs::Lobs::lex_lob))]
pub fn lex_lob(alloc: Global, bytes: &[u8]) -> Result<Lexed, OutOfMemory>
    ensures value { IfOk result (λ l. l ≡ lex_lob bytes.now) }
    ensures within { IfOk result (λ l. span_of l ≤ length bytes.now) }
{
    let rest = behind(bytes, 2);
    if begins_clob(without_white(rest)) {
        lex_clob(alloc, rest)
    } else {
        lex_blob(alloc, rest)
    }
}

fn lex_clob(alloc: Global, rest: &[u8]) -> Result<Lexed, OutOfMemory>
    ensures value { IfOk result (λ l. l ≡ lex_clob rest.now) }
    ensures within { IfOk result (λ l. span_of l ≤ length rest.now + 2) }
{
    let Some(len) = before_clob_braces(rest) else {
        return Ok(Lexed::Cut);
    };
    match clob_bytes(alloc, without_white(&rest[..len]))? {
        Some(bytes) => Ok(Lexed::Token(Token::Scalar(Scalar::Clob(bytes)), len + 3)),
        None => Ok(Lexed::Refused(IonKind::BadToken)),
    }
}

fn lex_blob(alloc: Global, rest: &[u8]) -> Result<Lexed, OutOfMemory>
    ensures value { IfOk result (λ l. l ≡ lex_blob rest.now) }
    ensures within { IfOk result (λ l. span_of l ≤ length rest.now + 2) }
{
    let Some(len) = before_braces(rest) else {
        return Ok(Lexed::Cut);
    };
    match blob_bytes(alloc, &rest[..len])? {
        Some(bytes) => Ok(Lexed::Token(Token::Scalar(Scalar::Blob(bytes)), len + 3)),
        None => Ok(Lexed::Refused(IonKind::BadBase64)),
    }
}

/// Whether the closing braces are in front.
pub fn closes(bytes: &[u8]) -> bool
    ensures value { result ≡ starts_with nat_eq bytes.now (codes "}}") }
    ensures within { IsTrue result → 2 ≤ length bytes.now }
{
    matches!(bytes, [b'}', b'}', ..])
}

fn white_len(bytes: &[u8]) -> usize
    ensures { result ≡ prefix_len is_space bytes.now }
{
    bytes.iter().take_while(|b| is_space(**b)).count()
}

/// The bytes without the white space in front.
pub fn without_white(bytes: &[u8]) -> &[u8]
    ensures { result.now ≡ without_white bytes.now }
{
    behind(bytes, white_len(bytes))
}

fn begins_clob(bytes: &[u8]) -> bool
    ensures { result ≡ begins_clob bytes.now }
{
    matches!(bytes, [b'"', ..]) || begins_segment(bytes)
}

/// Whether the quotes of a segment are in front.
pub fn begins_segment(bytes: &[u8]) -> bool
    ensures { result ≡ begins_segment bytes.now }
{
    matches!(bytes, [b'\'', b'\'', b'\'', ..])
}
