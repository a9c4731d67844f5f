ghost use Rattle.std.specs.Prelude.{◌≡◌, ◌+◌, ◌<◌, ◌≤◌, All, true, IsTrue, length, slice_index, IfOk};
ghost use Rattle.std.specs.Char.{is_ascii_digit};
ghost use Rattle.std.specs.List.{prefix_len, list_all};
ghost use Rattle.ion_model.specs.Words.{begins_word, is_word_char, kind_of, null_of, typed_null, is_symbol_id, word_of, is_typed, lex_word, is_operator, is_infinity, lex_operator};
ghost use Rattle.ion_model.specs.Spans.{span_of};

use crate::ascii::ascii;
use crate::number::is_stop;
use ion_model::{Lexed, Scalar, Token};
use ion_values::{IonKind, Kind, OutOfMemory};
use std::alloc::Global;

/// A word in front.
pub fn lex_word(alloc: Global, bytes: &[u8]) -> Result<Lexed, OutOfMemory>
    requires some { 0 < length bytes.now }
    requires begins { begins_word (slice_index bytes.now 0) ≡ true }
    ensures value { IfOk result (λ l. l ≡ lex_word bytes.now) }
    ensures within { IfOk result (λ l. span_of l ≤ length bytes.now) }
{
    let (_, rest) = bytes.split_at(1);
    let more = word_chars(rest);
    if is_typed(more, bytes) {
        return Ok(typed_null(bytes));
    }
    let (word, _) = bytes.split_at(more + 1);
    let word = word_of(alloc, word, more)?;
    Ok(word)
}

/// Whether the first word, with `more` bytes after its first one, is `null` with a point
/// behind it.
fn is_typed(more: usize, bytes: &[u8]) -> bool
    ensures value { result ≡ is_typed more bytes.now }
    ensures within { IsTrue result → 5 ≤ length bytes.now }
{
    more == 3 && bytes.starts_with(b"null.".as_slice())
}

/// How many characters of a word stand in front.
fn word_chars(bytes: &[u8]) -> usize
    ensures value { result ≡ prefix_len is_word_char bytes.now }
    ensures within { result ≤ length bytes.now }
{
    bytes.iter().take_while(|b| is_word_char(**b)).count()
}

/// Whether a byte may stand in a word.
fn is_word_char(b: u8) -> bool
    ensures { result ≡ is_word_char b }
{
    b.is_ascii_alphanumeric() || b == b'_' || b == b'$'
}

/// Whether a word may begin with a byte.
pub fn begins_word(b: u8) -> bool
    ensures { result ≡ begins_word b }
{
    b.is_ascii_alphabetic() || b == b'_' || b == b'$'
}

/// A word, with how many bytes follow its first one.
fn word_of(alloc: Global, word: &[u8], more: usize) -> Result<Lexed, OutOfMemory>
    requires { All (λ b. b < 128) word.now }
    ensures value { IfOk result (λ l. l ≡ word_of word.now more) }
    ensures within { IfOk result (λ l. span_of l ≤ more + 1) }
{
    if word == b"null".as_slice() {
        return Ok(Lexed::Token(Token::Scalar(Scalar::Null(Kind::Null)), more));
    }
    if word == b"true".as_slice() {
        return Ok(Lexed::Token(Token::Scalar(Scalar::Bool(true)), more));
    }
    if word == b"false".as_slice() {
        return Ok(Lexed::Token(Token::Scalar(Scalar::Bool(false)), more));
    }
    if word == b"nan".as_slice() {
        return Ok(Lexed::Refused(IonKind::FloatRefused));
    }
    if is_symbol_id(word) {
        return Ok(Lexed::Refused(IonKind::SymbolIdRefused));
    }
    let text = ascii(alloc, word)?;
    Ok(Lexed::Token(
        Token::Symbol {
            text,
            quoted: false,
        },
        more,
    ))
}

/// Whether a word is `$` and digits.
fn is_symbol_id(word: &[u8]) -> bool
    ensures { result ≡ is_symbol_id word.now }
{
    match word.split_first() {
        None => false,
        Some((first, digits)) => *first == b'$' && 1 <= digits.len() && all_digits(digits),
    }
}

/// Whether all are decimal digits.
fn all_digits(bytes: &[u8]) -> bool
    ensures { result ≡ list_all is_ascii_digit bytes.now }
{
    bytes.iter().all(|b| b.is_ascii_digit())
}

/// A null of a type in front, which begins with `null.`.
fn typed_null(bytes: &[u8]) -> Lexed
    requires { 5 ≤ length bytes.now }
    ensures value { result ≡ typed_null bytes.now }
    ensures within { span_of result ≤ length bytes.now }
{
    let (_, rest) = bytes.split_at(5);
    let len = word_chars(rest);
    let (name, _) = rest.split_at(len);
    if name == b"float".as_slice() {
        return Lexed::Refused(IonKind::FloatRefused);
    }
    null_of(kind_of(name), len + 4)
}

/// A null of this type, where there is one.
fn null_of(kind: Option<Kind>, more: usize) -> Lexed
    ensures value { result ≡ null_of kind more }
    ensures within { span_of result ≤ more + 1 }
{
    match kind {
        Some(kind) => Lexed::Token(Token::Scalar(Scalar::Null(kind)), more),
        None => Lexed::Refused(IonKind::BadToken),
    }
}

/// The type with this name, if it isn't float.
fn kind_of(name: &[u8]) -> Option<Kind>
    ensures { result ≡ kind_of name.now }
{
    if name == b"null".as_slice() {
        Some(Kind::Null)
    } else if name == b"bool".as_slice() {
        Some(Kind::Bool)
    } else if name == b"int".as_slice() {
        Some(Kind::Int)
    } else if name == b"decimal".as_slice() {
        Some(Kind::Decimal)
    } else if name == b"timestamp".as_slice() {
        Some(Kind::Timestamp)
    } else if name == b"symbol".as_slice() {
        Some(Kind::Symbol)
    } else if name == b"string".as_slice() {
        Some(Kind::String)
    } else if name == b"clob".as_slice() {
        Some(Kind::Clob)
    } else if name == b"blob".as_slice() {
        Some(Kind::Blob)
    } else if name == b"list".as_slice() {
        Some(Kind::List)
    } else if name == b"sexp".as_slice() {
        Some(Kind::Sexp)
    } else if name == b"struct".as_slice() {
        Some(Kind::Struct)
    } else {
        None
    }
}

/// A run of operator characters in front.
pub fn lex_operator(alloc: Global, bytes: &[u8]) -> Result<Lexed, OutOfMemory>
    requires some { 0 < length bytes.now }
    requires begins { is_operator (slice_index bytes.now 0) ≡ true }
    ensures value { IfOk result (λ l. l ≡ lex_operator bytes.now) }
    ensures within { IfOk result (λ l. span_of l ≤ length bytes.now) }
{
    if is_infinity(bytes) {
        return Ok(Lexed::Refused(IonKind::FloatRefused));
    }
    let (_, rest) = bytes.split_at(1);
    let more = operator_chars(rest);
    let (run, _) = bytes.split_at(more + 1);
    let text = ascii(alloc, run)?;
    Ok(Lexed::Token(Token::Operator(text), more))
}

/// How many operator characters stand in front.
fn operator_chars(bytes: &[u8]) -> usize
    ensures value { result ≡ prefix_len is_operator bytes.now }
    ensures within { result ≤ length bytes.now }
{
    bytes.iter().take_while(|b| is_operator(**b)).count()
}

/// Whether a byte is an operator character.
pub fn is_operator(b: u8) -> bool
    ensures { result ≡ is_operator b }
{
    matches!(
        b,
        b'!' | b'#' | b'%' | b'&' | b'*'..=b'+' | b'-'..=b'/' | b';'..=b'@' | b'^' | b'`' | b'|' | b'~'
    )
}

/// Whether a sign and `inf` stand in front, with a stop or nothing behind them.
fn is_infinity(bytes: &[u8]) -> bool
    ensures { result ≡ is_infinity bytes.now }
{
    if !bytes.starts_with(b"+inf".as_slice()) && !bytes.starts_with(b"-inf".as_slice()) {
        return false;
    }
    match bytes.get(4) {
        Some(behind) => is_stop(*behind),
        None => true,
    }
}
