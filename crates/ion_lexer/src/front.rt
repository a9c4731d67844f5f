ghost use Rattle.std.specs.Prelude.{◌≡◌, ◌<◌, ◌≤◌, length, slice_index, IsTrue, IfOk};
ghost use Rattle.std.specs.Char.{is_ascii_digit};
ghost use Rattle.ion_model.specs.Lex.{begins_number, lex_mark, lex_run, lex_at, lex};
ghost use Rattle.ion_model.specs.Blanks.{begins};
ghost use Rattle.ion_model.specs.Spans.{span_of};
ghost use Rattle.ion_lexer.specs.Marks.{is_mark};

use crate::blanks::{block_comment, is_space, line_comment};
use crate::lobs::{begins_segment, lex_lob};
use crate::number::lex_number;
use crate::texts::{lex_quoted, lex_segment, lex_string};
use crate::words::{begins_word, is_operator, lex_operator, lex_word};
use ion_model::{Lexed, Token};
use ion_values::{IonKind, OutOfMemory};
use std::alloc::Global;

/// The token in front of a text, white space or a comment, by its first byte. A text that ends there
/// is cut.
#[tactic(auto, unfolding(ion_model::specs::Lex::lex))]
pub fn lex(alloc: Global, bytes: &[u8]) -> Result<Lexed, OutOfMemory>
    ensures value { IfOk result (λ l. l ≡ lex bytes.now) }
    ensures within { IfOk result (λ l. span_of l ≤ length bytes.now) }
{
    match bytes.first() {
        None => Ok(Lexed::Cut),
        Some(first) => {
            let lexed = lex_at(alloc, *first, bytes)?;
            Ok(lexed)
        }
    }
}

/// What stands in front of a text that begins with this byte.
fn lex_at(alloc: Global, first: u8, bytes: &[u8]) -> Result<Lexed, OutOfMemory>
    requires some { 0 < length bytes.now }
    requires front { first ≡ slice_index bytes.now 0 }
    ensures value { IfOk result (λ l. l ≡ lex_at first bytes.now) }
    ensures within { IfOk result (λ l. span_of l ≤ length bytes.now) }
{
    if is_mark(first) {
        return Ok(lex_mark(first, bytes));
    }
    if is_space(first) {
        return Ok(Lexed::Blank(0));
    }
    if begins(b"//", bytes) {
        return Ok(line_comment(bytes));
    }
    if begins(b"/*", bytes) {
        return Ok(block_comment(bytes));
    }
    if begins(b"{{", bytes) {
        return lex_lob(alloc, bytes);
    }
    if first == b'"' {
        return lex_string(alloc, bytes);
    }
    if begins_segment(bytes) {
        return lex_segment(alloc, bytes);
    }
    if first == b'\'' {
        return lex_quoted(alloc, bytes);
    }
    let run = lex_run(alloc, first, bytes)?;
    Ok(run)
}

/// Whether a mark begins with this byte, and nothing else.
fn is_mark(first: u8) -> bool
    ensures { result ≡ is_mark first }
{
    matches!(first, b',' | b':' | b'[' | b']' | b'(' | b')' | b'}')
}

/// A number, a word or a run of operator characters in front, and else a mark.
fn lex_run(alloc: Global, first: u8, bytes: &[u8]) -> Result<Lexed, OutOfMemory>
    requires some { 0 < length bytes.now }
    requires front { first ≡ slice_index bytes.now 0 }
    ensures value { IfOk result (λ l. l ≡ lex_run first bytes.now) }
    ensures within { IfOk result (λ l. span_of l ≤ length bytes.now) }
{
    if begins_number(first, bytes) {
        return Ok(lex_number(bytes));
    }
    if begins_word(first) {
        return lex_word(alloc, bytes);
    }
    if is_operator(first) {
        return lex_operator(alloc, bytes);
    }
    Ok(lex_mark(first, bytes))
}

/// Whether a text begins with a digit, or with a minus and a digit.
fn begins_number(first: u8, bytes: &[u8]) -> bool
    ensures { result ≡ begins_number first bytes.now }
{
    first.is_ascii_digit() || (first == b'-' && is_digit_at(bytes, 1))
}

/// Whether a digit stands at a place.
fn is_digit_at(bytes: &[u8], at: usize) -> bool
    ensures { result ≡ is_ascii_digit (slice_index bytes.now at) }
{
    match bytes.get(at) {
        Some(b) => b.is_ascii_digit(),
        None => false,
    }
}

/// Whether a text begins with this one.
fn begins(front: &[u8], bytes: &[u8]) -> bool
    ensures value { result ≡ begins front.now bytes.now }
    ensures within { IsTrue result → length front.now ≤ length bytes.now }
{
    bytes.starts_with(front)
}

/// A mark of one byte, or of two.
fn lex_mark(first: u8, bytes: &[u8]) -> Lexed
    requires { 0 < length bytes.now }
    ensures value { result ≡ lex_mark first bytes.now }
    ensures within { span_of result ≤ length bytes.now }
{
    match first {
        b'[' => Lexed::Token(Token::ListOpen, 0),
        b']' => Lexed::Token(Token::ListClose, 0),
        b'(' => Lexed::Token(Token::SexpOpen, 0),
        b')' => Lexed::Token(Token::SexpClose, 0),
        b'{' => Lexed::Token(Token::StructOpen, 0),
        b'}' => Lexed::Token(Token::StructClose, 0),
        b',' => Lexed::Token(Token::Comma, 0),
        _ if begins(b"::", bytes) => Lexed::Token(Token::DoubleColon, 1),
        b':' => Lexed::Token(Token::Colon, 0),
        _ => Lexed::Refused(IonKind::BadToken),
    }
}
