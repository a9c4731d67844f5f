//! Literals and `?`.
ghost use Rattle.std.specs.Prelude.{◌≡◌, IfOk, is_some};
ghost use Rattle.pql_model.specs.Expressions as spec;
ghost use Rattle.pql_model.specs.Tokens as tokens;

use containers::{OutOfMemory, Sequence};
use ion_values::{Body, Kind, Value, copy};
use pql_model::{Expr, Token};
use std::alloc::Global;

/// The literal or `?` that a token is, copied, or None where it is none.
pub fn constant_of(alloc: Global, token: &Token) -> Result<Option<Expr>, OutOfMemory>
    ensures { IfOk result (λ e. e ≡ spec.constant_of token.now) }
{
    match token {
        Token::Value(value) => Ok(Some(Expr::Value(copy(alloc, value)?))),
        Token::String(text) => {
            let text = text.copy(alloc)?;
            Ok(Some(Expr::Value(plain(alloc, Body::String(text)))))
        }
        Token::Parameter(number) => Ok(Some(Expr::Parameter(*number))),
        Token::Word(text) => Ok(word_constant(alloc, text.as_str())),
        _ => Ok(None),
    }
}

/// The constant that a word is.
fn word_constant(alloc: Global, word: &str) -> Option<Expr>
    ensures { result ≡ spec.word_constant word.now }
{
    if word.eq_ignore_ascii_case("TRUE") {
        return Some(Expr::Value(plain(alloc, Body::Bool(true))));
    }
    if word.eq_ignore_ascii_case("FALSE") {
        return Some(Expr::Value(plain(alloc, Body::Bool(false))));
    }
    if word.eq_ignore_ascii_case("NULL") {
        return Some(Expr::Value(plain(alloc, Body::Null(Kind::Null))));
    }
    if word.eq_ignore_ascii_case("MISSING") {
        return Some(Expr::Missing);
    }
    None
}

/// A value without annotations.
fn plain(alloc: Global, body: Body) -> Value
    ensures { result ≡ tokens.plain body }
{
    Value {
        annotations: Sequence::new(alloc),
        body,
    }
}

/// Whether a token is a literal or a `?`.
pub fn is_constant(token: &Token) -> bool
    ensures { result ≡ is_some (spec.constant_of token.now) }
{
    match token {
        Token::Value(_) => true,
        Token::String(_) => true,
        Token::Parameter(_) => true,
        Token::Word(text) => is_word_constant(text.as_str()),
        _ => false,
    }
}

fn is_word_constant(word: &str) -> bool
    ensures { result ≡ is_some (spec.word_constant word.now) }
{
    word.eq_ignore_ascii_case("TRUE")
        || word.eq_ignore_ascii_case("FALSE")
        || word.eq_ignore_ascii_case("NULL")
        || word.eq_ignore_ascii_case("MISSING")
}
