//! The token in front of a text.
ghost use Rattle.std.specs.Prelude.{◌≡◌, ◌<◌, ◌≤◌, ◌∷◌, All, IfOk, false, length, not, slice_index, true};
ghost use Rattle.std.specs.List.{prefix_len};
ghost use Rattle.ion_model.specs.Blanks as blanks;
ghost use Rattle.ion_model.specs.Words as words;
ghost use Rattle.pql_model.specs.Tokens as spec;
ghost use Rattle.pql_lexer.specs.Lexing.{span_of};

use crate::numbers::lex_number;
use crate::quoted::{Quote, backquoted, quoted};
use crate::symbols::lex_symbol;
use containers::{OutOfMemory, Text};
use pql_model::{Lexed, ParseKind, Token};
use std::alloc::Global;

/// What stands in front: white space, a comment, a token or what is refused. `asked` marks `?` stood before.
#[tactic(auto, unfolding(pql_model::specs::Tokens::lex))]
pub fn lex(alloc: Global, asked: u32, bytes: &[u8]) -> Result<Lexed, OutOfMemory>
    ensures value { IfOk result (λ l. l ≡ spec.lex asked bytes.now) }
    ensures within { IfOk result (λ l. span_of l ≤ length bytes.now) }
{
    match bytes {
        [] => Ok(Lexed::Refused(ParseKind::TextEnds)),
        [first, rest @ ..] => lex_at(alloc, asked, *first, rest, bytes),
    }
}

/// What begins with this byte, before the rest.
fn lex_at(
    alloc: Global,
    asked: u32,
    first: u8,
    rest: &[u8],
    bytes: &[u8],
) -> Result<Lexed, OutOfMemory>
    requires { bytes.now ≡ first ∷ rest.now }
    ensures value { IfOk result (λ l. l ≡ spec.lex_at asked first rest.now) }
    ensures within { IfOk result (λ l. span_of l ≤ length bytes.now) }
{
    if is_space(first) {
        return Ok(Lexed::Blank(0));
    }
    if bytes.starts_with(b"--".as_slice()) {
        return Ok(lex_comment(bytes));
    }
    if begins_word(first) {
        return lex_word(alloc, bytes);
    }
    if first.is_ascii_digit() {
        return Ok(lex_number(alloc, bytes));
    }
    if first == b'"' {
        return quoted(alloc, Quote::Name, rest);
    }
    if first == b'\'' {
        return quoted(alloc, Quote::String, rest);
    }
    if first == b'`' {
        return backquoted(alloc, rest);
    }
    if first == b'?' {
        return Ok(Lexed::Token(Token::Parameter(asked), 0));
    }
    Ok(lex_symbol(bytes))
}

fn is_space(b: u8) -> bool
    ensures { result ≡ blanks.is_space b }
{
    b" \t\n\x0b\x0c\r".contains(&b)
}

fn begins_word(b: u8) -> bool
    ensures { result ≡ words.begins_word b }
{
    b.is_ascii_alphabetic() || b == b'_' || b == b'$'
}

fn is_word_char(b: u8) -> bool
    ensures { result ≡ words.is_word_char b }
{
    b.is_ascii_alphanumeric() || b == b'_' || b == b'$'
}

fn is_line_end(b: u8) -> bool
    ensures { result ≡ blanks.is_line_end b }
{
    b == b'\n' || b == b'\r'
}

/// A comment in front, to its line's end.
fn lex_comment(bytes: &[u8]) -> Lexed
    requires some { 0 < length bytes.now }
    requires starts { blanks.is_line_end (slice_index bytes.now 0) ≡ false }
    ensures value { result ≡ spec.lex_comment bytes.now }
    ensures within { span_of result ≤ length bytes.now }
{
    let (_, rest) = bytes.split_at(1);
    Lexed::Blank(line_bytes(rest))
}

/// How many bytes there are before the line's end.
fn line_bytes(bytes: &[u8]) -> usize
    ensures value { result ≡ prefix_len (λ b. not (blanks.is_line_end b)) bytes.now }
    ensures within { result ≤ length bytes.now }
{
    bytes.iter().take_while(|b| !is_line_end(**b)).count()
}

/// A word in front.
fn lex_word(alloc: Global, bytes: &[u8]) -> Result<Lexed, OutOfMemory>
    requires some { 0 < length bytes.now }
    requires begins { words.begins_word (slice_index bytes.now 0) ≡ true }
    ensures value { IfOk result (λ l. l ≡ spec.lex_word bytes.now) }
    ensures within { IfOk result (λ l. span_of l ≤ length bytes.now) }
{
    let (_, rest) = bytes.split_at(1);
    let more = word_chars(rest);
    let (word, _) = bytes.split_at(more + 1);
    let text = ascii(alloc, word)?;
    Ok(Lexed::Token(Token::Word(text), more))
}

/// How many characters of a word stand in front.
fn word_chars(bytes: &[u8]) -> usize
    ensures value { result ≡ prefix_len words.is_word_char bytes.now }
    ensures within { result ≤ length bytes.now }
{
    bytes.iter().take_while(|b| is_word_char(**b)).count()
}

/// The text of ASCII characters.
fn ascii(alloc: Global, bytes: &[u8]) -> Result<Text, OutOfMemory>
    requires { All (λ b. b < 128) bytes.now }
    ensures { IfOk result (λ t. t ≡ bytes.now) }
{
    let mut text = Text::new(alloc);
    for b in bytes {
        text.push(char::from(*b))?;
    }
    Ok(text)
}
