//! Symbols.
ghost use Rattle.std.specs.Prelude.{◌≡◌, ◌≤◌, IfSome, length};
ghost use Rattle.pql_model.specs.Tokens as spec;
ghost use Rattle.pql_lexer.specs.Lexing.{span_of};

use pql_model::{Lexed, ParseKind, Symbol, Token};

/// The longest symbol in front.
pub fn lex_symbol(bytes: &[u8]) -> Lexed
    ensures value { result ≡ spec.lex_symbol bytes.now }
    ensures within { span_of result ≤ length bytes.now }
{
    if let Some(symbol) = pair_in(bytes) {
        return Lexed::Token(Token::Symbol(symbol), 1);
    }
    match single_in(bytes) {
        Some(symbol) => Lexed::Token(Token::Symbol(symbol), 0),
        None => Lexed::Refused(ParseKind::NotAToken),
    }
}

/// The symbol of two bytes that stands in front.
fn pair_in(bytes: &[u8]) -> Option<Symbol>
    ensures value { result ≡ spec.symbol_in spec.pairs bytes.now }
    ensures within { IfSome result (λ _. 2 ≤ length bytes.now) }
{
    match bytes {
        [b'<', b'<', ..] => Some(Symbol::BagOpen),
        [b'>', b'>', ..] => Some(Symbol::BagClose),
        [b'<', b'>', ..] => Some(Symbol::LessGreater),
        [b'!', b'=', ..] => Some(Symbol::BangEqual),
        [b'<', b'=', ..] => Some(Symbol::LessEqual),
        [b'>', b'=', ..] => Some(Symbol::GreaterEqual),
        [b'|', b'|', ..] => Some(Symbol::Bars),
        _ => None,
    }
}

/// The symbol of one byte that stands in front.
fn single_in(bytes: &[u8]) -> Option<Symbol>
    ensures value { result ≡ spec.symbol_in spec.singles bytes.now }
    ensures within { IfSome result (λ _. 1 ≤ length bytes.now) }
{
    match bytes {
        [b'=', ..] => Some(Symbol::Equal),
        [b'<', ..] => Some(Symbol::Less),
        [b'>', ..] => Some(Symbol::Greater),
        [b'+', ..] => Some(Symbol::Plus),
        [b'-', ..] => Some(Symbol::Minus),
        [b'*', ..] => Some(Symbol::Star),
        [b'/', ..] => Some(Symbol::Slash),
        [b'%', ..] => Some(Symbol::Percent),
        [b'(', ..] => Some(Symbol::Open),
        [b')', ..] => Some(Symbol::Close),
        [b'[', ..] => Some(Symbol::ListOpen),
        [b']', ..] => Some(Symbol::ListClose),
        [b'{', ..] => Some(Symbol::StructOpen),
        [b'}', ..] => Some(Symbol::StructClose),
        [b',', ..] => Some(Symbol::Comma),
        [b':', ..] => Some(Symbol::Colon),
        [b';', ..] => Some(Symbol::Semicolon),
        [b'.', ..] => Some(Symbol::Point),
        [b'@', ..] => Some(Symbol::At),
        _ => None,
    }
}
