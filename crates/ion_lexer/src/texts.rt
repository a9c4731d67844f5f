//! Texts between quotes: strings, quoted symbols and the segments of long strings.
ghost use Rattle.std.specs.Prelude.{◌≡◌, ◌≤◌, ◌+◌, ◌-◌, ◌*◌, ◌∷◌, [], false, nat_eq, length, if◌then◌else◌, Some, None, option_map, IfOk, IfSome, IsTrue};
ghost use Rattle.std.specs.List.{prefix_len, starts_with};
ghost use Rattle.std.specs.Str.{is_utf8};
ghost use Rattle.ion_model.specs.Spans.{span_of};
ghost use Rattle.ion_model.specs.Escapes.{piece};
ghost use Rattle.ion_model.specs.Texts.{before, lex_quoted, lex_segment, lex_string, lex_text, long, may_stand, pieces, short, text_token};
ghost use Rattle.ion_lexer.specs.Pieces.{piece_of};
ghost use Rattle.ion_lexer.specs.Quotes.{escape_of, front_of, is_inner, is_plain, mark_of, marks_of, token_of};

use crate::escapes::{Given, Piece, behind, clob_escape, put, text_escape};
use containers::Bytes;
use ion_model::{Lexed, Token};
use ion_values::{IonKind, OutOfMemory, Text};
use std::alloc::Global;
use std::str;

/// The quotes round a text. A text between three quotes is long, the others are short.
#[derive(Clone, Copy)]
pub enum Quotes {
    Double,
    Single,
    Triple,
}

/// What stands between the quotes.
#[derive(Clone, Copy)]
pub enum Content {
    Text,
    Clob,
}

/// The string in front.
#[tactic(auto, unfolding(ion_model::specs::Texts::lex_string))]
pub fn lex_string(alloc: Global, bytes: &[u8]) -> Result<Lexed, OutOfMemory>
    ensures value { IfOk result (λ l. l ≡ lex_string bytes.now) }
    ensures within { IfOk result (λ l. span_of l ≤ length bytes.now) }
{
    lex_text(alloc, Quotes::Double, bytes)
}

/// The quoted symbol in front.
#[tactic(auto, unfolding(ion_model::specs::Texts::lex_quoted))]
pub fn lex_quoted(alloc: Global, bytes: &[u8]) -> Result<Lexed, OutOfMemory>
    ensures value { IfOk result (λ l. l ≡ lex_quoted bytes.now) }
    ensures within { IfOk result (λ l. span_of l ≤ length bytes.now) }
{
    lex_text(alloc, Quotes::Single, bytes)
}

/// The segment of a long string in front.
#[tactic(auto, unfolding(ion_model::specs::Texts::lex_segment))]
pub fn lex_segment(alloc: Global, bytes: &[u8]) -> Result<Lexed, OutOfMemory>
    ensures value { IfOk result (λ l. l ≡ lex_segment bytes.now) }
    ensures within { IfOk result (λ l. span_of l ≤ length bytes.now) }
{
    lex_text(alloc, Quotes::Triple, bytes)
}

fn lex_text(alloc: Global, quotes: Quotes, bytes: &[u8]) -> Result<Lexed, OutOfMemory>
    ensures value { IfOk result (λ l. l ≡ lex_text (marks_of quotes) (front_of quotes Content.Text)
        (token_of quotes) bytes.now) }
    ensures within { IfOk result (λ l. span_of l ≤ length bytes.now) }
{
    let width = width(quotes);
    let rest = behind(bytes, width);
    let len = inner_len(quotes, rest);
    let (text, others) = rest.split_at(len);
    if !closes(quotes, others) {
        return lex_pieces(alloc, quotes, bytes);
    }
    let lexed = plain_token(alloc, quotes, len + (2 * width - 1), text)?;
    Ok(lexed)
}

/// How many bytes in front give themselves and begin no closing quotes.
fn inner_len(quotes: Quotes, bytes: &[u8]) -> usize
    ensures value { result ≡ prefix_len (is_inner quotes) bytes.now }
    ensures within { result ≤ length bytes.now }
{
    bytes.iter().take_while(|b| is_inner(quotes, **b)).count()
}

fn is_inner(quotes: Quotes, byte: u8) -> bool
    ensures { result ≡ is_inner quotes byte }
{
    is_plain(quotes, byte) && byte != mark(quotes)
}

fn mark(quotes: Quotes) -> u8
    ensures { result ≡ mark_of quotes }
{
    match quotes {
        Quotes::Double => b'"',
        Quotes::Single | Quotes::Triple => b'\'',
    }
}

/// The token of a text without escapes.
fn plain_token(
    alloc: Global,
    quotes: Quotes,
    more: usize,
    text: &[u8],
) -> Result<Lexed, OutOfMemory>
    ensures { IfOk result (λ l. l ≡ text_token (token_of quotes) more (Some text.now)) }
{
    match str::from_utf8(text) {
        Ok(text) => {
            let text = Text::from_text(alloc, text)?;
            Ok(Lexed::Token(token_of(quotes, text), more))
        }
        Err(_) => Ok(Lexed::Refused(IonKind::BadToken)),
    }
}

/// A text between such quotes in front, which is read piece by piece.
fn lex_pieces(alloc: Global, quotes: Quotes, bytes: &[u8]) -> Result<Lexed, OutOfMemory>
    ensures value { IfOk result (λ l. l ≡ lex_text (marks_of quotes) (front_of quotes Content.Text)
        (token_of quotes) bytes.now) }
    ensures within { IfOk result (λ l. span_of l ≤ length bytes.now) }
{
    let width = width(quotes);
    let rest = behind(bytes, width);
    let Some(len) = before(quotes, rest) else {
        return Ok(Lexed::Cut);
    };
    let text = pieces(alloc, quotes, Content::Text, &rest[..len])?;
    Ok(text_token(quotes, len + (2 * width - 1), text))
}

fn width(quotes: Quotes) -> usize
    ensures { result ≡ length (marks_of quotes) }
{
    match quotes {
        Quotes::Double | Quotes::Single => 1,
        Quotes::Triple => 3,
    }
}

/// How many bytes stand before the closing quotes, or None where they are missing.
pub fn before(quotes: Quotes, bytes: &[u8]) -> Option<usize>
    ensures value { result ≡ before (marks_of quotes) false bytes.now }
    ensures within { IfSome result (λ len. len + length (marks_of quotes) ≤ length bytes.now) }
{
    let mut hidden = false;
    for (at, byte) in bytes.iter().enumerate() {
        if hidden {
            hidden = false;
            continue;
        }
        if closes(quotes, &bytes[at..]) {
            return Some(at);
        }
        hidden = *byte == b'\\';
    }
    None
}

fn closes(quotes: Quotes, bytes: &[u8]) -> bool
    ensures value { result ≡ starts_with nat_eq bytes.now (marks_of quotes) }
    ensures within { IsTrue result → length (marks_of quotes) ≤ length bytes.now }
{
    match quotes {
        Quotes::Double => matches!(bytes, [b'"', ..]),
        Quotes::Single => matches!(bytes, [b'\'', ..]),
        Quotes::Triple => matches!(bytes, [b'\'', b'\'', b'\'', ..]),
    }
}

/// What a text between such quotes gives, or None where it is ill-formed.
pub fn pieces(
    alloc: Global,
    quotes: Quotes,
    content: Content,
    bytes: &[u8],
) -> Result<Option<Bytes>, OutOfMemory>
    ensures { IfOk result (λ r. r ≡ pieces (front_of quotes content) 0 bytes.now) }
{
    let mut out = Vec::new(alloc);
    let mut rest = bytes;
    'pieces: loop {
        let (plain, others) = rest.split_at(plain_len(quotes, rest));
        out.extend_from_slice(plain)?;
        let Some((byte, more)) = others.split_first() else {
            return Ok(Some(Bytes::from_vec(out)));
        };
        let Some(piece) = front(quotes, content, *byte, more) else {
            return Ok(None);
        };
        put(&mut out, piece.given)?;
        rest = behind(more, piece.more);
    }
}

/// How many bytes in front give themselves.
fn plain_len(quotes: Quotes, bytes: &[u8]) -> usize
    ensures value { result ≡ prefix_len (is_plain quotes) bytes.now }
    ensures within { result ≤ length bytes.now }
{
    bytes.iter().take_while(|b| is_plain(quotes, **b)).count()
}

fn is_plain(quotes: Quotes, byte: u8) -> bool
    ensures { result ≡ is_plain quotes byte }
{
    match quotes {
        Quotes::Double | Quotes::Single => byte != b'\\' && may_stand(byte),
        Quotes::Triple => byte != b'\\' && byte != b'\r',
    }
}

fn may_stand(byte: u8) -> bool
    ensures { result ≡ may_stand byte }
{
    32 <= byte || byte == 9 || byte == 11 || byte == 12
}

/// The piece in front that begins with this byte, or None where it is ill-formed.
fn front(quotes: Quotes, content: Content, byte: u8, more: &[u8]) -> Option<Piece>
    ensures { option_map piece_of result ≡ front_of quotes content byte more.now }
{
    match quotes {
        Quotes::Double | Quotes::Single => short(content, byte, more),
        Quotes::Triple => long(content, byte, more),
    }
}

fn short(content: Content, byte: u8, more: &[u8]) -> Option<Piece>
    ensures { option_map piece_of result ≡ short (escape_of content) byte more.now }
{
    if byte == b'\\' {
        escape(content, more)
    } else if may_stand(byte) {
        Some(itself(byte))
    } else {
        None
    }
}

fn long(content: Content, byte: u8, more: &[u8]) -> Option<Piece>
    ensures { option_map piece_of result ≡ long (escape_of content) byte more.now }
{
    if byte == b'\\' {
        return escape(content, more);
    }
    if byte != b'\r' {
        return Some(itself(byte));
    }
    Some(Piece {
        given: Given::Byte(b'\n'),
        more: if matches!(more, [b'\n', ..]) { 1 } else { 0 },
    })
}

fn itself(byte: u8) -> Piece
    ensures { piece_of result ≡ piece 0 (byte ∷ []) }
{
    Piece {
        given: Given::Byte(byte),
        more: 0,
    }
}

fn escape(content: Content, more: &[u8]) -> Option<Piece>
    ensures { option_map piece_of result ≡ escape_of content more.now }
{
    match content {
        Content::Text => text_escape(more),
        Content::Clob => clob_escape(more),
    }
}

/// The text of bytes that are UTF-8.
fn text_of(bytes: Bytes) -> Option<Text>
    ensures { result ≡ (if is_utf8 bytes then Some bytes else None) }
{
    match String::from_utf8(bytes.into_vec()) {
        Ok(text) => Some(Text::from_string(text)),
        Err(_) => None,
    }
}

fn token_of(quotes: Quotes, text: Text) -> Token
    ensures { result ≡ token_of quotes text }
{
    match quotes {
        Quotes::Double => Token::String(text),
        Quotes::Single => Token::Symbol { text, quoted: true },
        Quotes::Triple => Token::Segment(text),
    }
}

fn text_token(quotes: Quotes, more: usize, bytes: Option<Bytes>) -> Lexed
    ensures { result ≡ text_token (token_of quotes) more bytes }
{
    match bytes.and_then(text_of) {
        Some(text) => Lexed::Token(token_of(quotes, text), more),
        None => Lexed::Refused(IonKind::BadToken),
    }
}
