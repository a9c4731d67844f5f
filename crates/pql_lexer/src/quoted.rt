//! Texts between quotes, in which a doubled quote stands for one, and Ion values between backquotes.
ghost use Rattle.std.specs.Prelude.{◌≡◌, ◌≤◌, ◌<◌, ◌+◌, ◌==◌, Ok, false, IfOk, IfSome, length};
ghost use Rattle.std.specs.List.{position};
ghost use Rattle.std.specs.Str.{byte};
ghost use Rattle.pql_model.specs.Tokens as spec;
ghost use Rattle.pql_lexer.specs.Lexing as lexing;
ghost use Rattle.pql_lexer.specs.Lexing.{span_of};

use containers::{OutOfMemory, Text};
use ion_text::{ReadFault, read_stream};
use ion_values::Values;
use pql_model::{Lexed, ParseKind, Token};
use std::alloc::Global;
use std::str;

/// What the quotes round a text make of it.
#[derive(Clone, Copy)]
pub enum Quote {
    /// A name, in double quotes.
    Name,
    /// A string, in single quotes.
    String,
}

fn mark_of(quote: Quote) -> u8
    ensures { result ≡ lexing.mark_of quote }
{
    match quote {
        Quote::Name => b'"',
        Quote::String => b'\'',
    }
}

fn token_of(quote: Quote, text: Text) -> Token
    ensures { result ≡ lexing.token_of quote text }
{
    match quote {
        Quote::Name => Token::Quoted(text),
        Quote::String => Token::String(text),
    }
}

/// A text behind its opening quote.
pub fn quoted(alloc: Global, quote: Quote, bytes: &[u8]) -> Result<Lexed, OutOfMemory>
    ensures value { IfOk result (λ l. l ≡ spec.quoted (lexing.token_of quote) (lexing.mark_of quote) bytes.now) }
    ensures within { IfOk result (λ l. span_of l ≤ length bytes.now + 1) }
{
    let Some(len) = to_quote(mark_of(quote), bytes) else {
        return Ok(Lexed::Refused(ParseKind::NotAToken));
    };
    let text = undoubled(alloc, mark_of(quote), &bytes[..len - 1])?;
    text_token(alloc, quote, len, text.as_slice())
}

/// How many bytes there are to the end of the closing quote, or None where it is missing.
fn to_quote(quote: u8, bytes: &[u8]) -> Option<usize>
    ensures value { result ≡ spec.to_quote quote false bytes.now }
    ensures some { IfSome result (λ len. 0 < len) }
    ensures within { IfSome result (λ len. len ≤ length bytes.now) }
{
    let mut after = false;
    for (at, byte) in bytes.iter().enumerate() {
        if after && *byte != quote {
            return Some(at);
        }
        after = !after && *byte == quote;
    }
    after.then_some(bytes.len())
}

/// The bytes without the second quote of each pair.
fn undoubled(alloc: Global, quote: u8, bytes: &[u8]) -> Result<Vec<u8>, OutOfMemory>
    ensures { IfOk result (λ out. out.items ≡ spec.undoubled quote false bytes.now) }
{
    let mut out = Vec::new(alloc);
    let mut after = false;
    for byte in bytes {
        if after {
            after = false;
        } else {
            out.push(*byte)?;
            after = *byte == quote;
        }
    }
    Ok(out)
}

/// The token of a text, which is UTF-8.
fn text_token(alloc: Global, quote: Quote, more: usize, bytes: &[u8]) -> Result<Lexed, OutOfMemory>
    ensures { IfOk result (λ l. l ≡ spec.text_token (lexing.token_of quote) more bytes.now) }
{
    match str::from_utf8(bytes) {
        Ok(text) => Ok(Lexed::Token(token_of(quote, Text::from_text(alloc, text)?), more)),
        Err(_) => Ok(Lexed::Refused(ParseKind::NotAToken)),
    }
}

/// How deep the values between backquotes may nest.
const MOST_DEPTH: u32 = 64;

/// An Ion value behind its first backquote.
pub fn backquoted(alloc: Global, bytes: &[u8]) -> Result<Lexed, OutOfMemory>
    ensures value { IfOk result (λ l. l ≡ spec.backquoted bytes.now) }
    ensures within { IfOk result (λ l. span_of l ≤ length bytes.now + 1) }
{
    let Some(len) = to_backquote(bytes) else {
        return Ok(Lexed::Refused(ParseKind::NotAToken));
    };
    match read_stream(alloc, &bytes[..len], MOST_DEPTH) {
        Ok(values) => Ok(ion_token(len + 1, values)),
        Err(ReadFault::Ion(_)) => Ok(Lexed::Refused(ParseKind::IonLiteral)),
        Err(ReadFault::OutOfMemory) => Err(OutOfMemory),
    }
}

/// How many bytes stand before the closing backquote, or None where it is missing.
fn to_backquote(bytes: &[u8]) -> Option<usize>
    ensures value { result ≡ position (λ b. b == byte "`") bytes.now }
    ensures within { IfSome result (λ len. len < length bytes.now) }
{
    bytes.iter().position(|b| *b == b'`')
}

/// The token of one value.
fn ion_token(more: usize, values: Values) -> Lexed
    ensures { result ≡ spec.ion_token more (Ok values) }
{
    let mut values = values;
    match values.pop() {
        Some(value) if values.is_empty() => Lexed::Token(Token::Value(value), more),
        _ => Lexed::Refused(ParseKind::IonLiteral),
    }
}
