//! Words and names among the tokens.
ghost use Rattle.std.specs.Prelude.{◌≡◌};
ghost use Rattle.std.specs.List.{list_any};
ghost use Rattle.std.specs.Str.{str_eq_ignore_ascii_case};
ghost use Rattle.std.specs.Option.{option_copied};
ghost use Rattle.pql_model.specs.Tokens.{spelling};
ghost use Rattle.pql_model.specs.Words as spec;

use pql_model::{Symbol, Token};

/// The reserved words, of which none is a name without quotes.
const RESERVED: [&str; 41] = [
    "SELECT",
    "FROM",
    "WHERE",
    "VALUE",
    "AS",
    "BY",
    "AT",
    "IN",
    "IS",
    "AND",
    "OR",
    "NOT",
    "NULL",
    "MISSING",
    "TRUE",
    "FALSE",
    "LIKE",
    "BETWEEN",
    "JOIN",
    "INNER",
    "CROSS",
    "ON",
    "INSERT",
    "INTO",
    "UPDATE",
    "SET",
    "REMOVE",
    "DELETE",
    "CREATE",
    "DROP",
    "TABLE",
    "INDEX",
    "COUNT",
    "SUM",
    "MIN",
    "MAX",
    "COALESCE",
    "SIZE",
    "CHAR_LENGTH",
    "EXEC",
    "REDACT_REVISION",
];

/// Whether a word is reserved, without regard to case.
#[tactic(auto, unfolding(pql_model::specs::Words::is_reserved))]
pub fn is_reserved(text: &str) -> bool
    ensures { result ≡ spec.is_reserved text.now }
{
    let words: [&str; 41] = RESERVED;
    is_any_of(text, words.as_slice())
}

/// Whether a word is one of these, without regard to case.
fn is_any_of(text: &str, words: &[&str]) -> bool
    ensures { result ≡ list_any (λ word. str_eq_ignore_ascii_case text.now word.now) words.now }
{
    words.iter().any(|word| text.eq_ignore_ascii_case(word))
}

/// Whether a token is this word.
pub fn is_word(token: &Token, word: &str) -> bool
    ensures { result ≡ spec.is_word word.now token.now }
{
    match token {
        Token::Word(text) => text.as_str().eq_ignore_ascii_case(word),
        _ => false,
    }
}

/// Whether a token is the symbol that is spelled so.
pub fn is_symbol(token: &Token, text: &str) -> bool
    ensures { result ≡ spec.is_symbol text.now token.now }
{
    match token {
        Token::Symbol(symbol) => spelling(*symbol) == text,
        _ => false,
    }
}

/// How a symbol is written.
pub fn spelling(symbol: Symbol) -> &'static str
    ensures { result.now ≡ spelling symbol }
{
    match symbol {
        Symbol::BagOpen => "<<",
        Symbol::BagClose => ">>",
        Symbol::LessGreater => "<>",
        Symbol::BangEqual => "!=",
        Symbol::LessEqual => "<=",
        Symbol::GreaterEqual => ">=",
        Symbol::Bars => "||",
        Symbol::Equal => "=",
        Symbol::Less => "<",
        Symbol::Greater => ">",
        Symbol::Plus => "+",
        Symbol::Minus => "-",
        Symbol::Star => "*",
        Symbol::Slash => "/",
        Symbol::Percent => "%",
        Symbol::Open => "(",
        Symbol::Close => ")",
        Symbol::ListOpen => "[",
        Symbol::ListClose => "]",
        Symbol::StructOpen => "{",
        Symbol::StructClose => "}",
        Symbol::Comma => ",",
        Symbol::Colon => ":",
        Symbol::Semicolon => ";",
        Symbol::Point => ".",
        Symbol::At => "@",
    }
}

/// The name that a token is, where it is one.
pub fn name_of(token: &Token) -> Option<&str>
    ensures { option_copied result ≡ spec.name_of token.now }
{
    match token {
        Token::Word(text) if is_reserved(text.as_str()) => None,
        Token::Word(text) => Some(text.as_str()),
        Token::Quoted(text) => Some(text.as_str()),
        _ => None,
    }
}

/// The same behind a point, where a reserved word is a name.
pub fn any_name_of(token: &Token) -> Option<&str>
    ensures { option_copied result ≡ spec.any_name_of token.now }
{
    match token {
        Token::Word(text) => Some(text.as_str()),
        Token::Quoted(text) => Some(text.as_str()),
        _ => None,
    }
}
