//! The tokens of a statement's text.
#![tactic(auto)]

ghost use Rattle.std.specs.Prelude.{◌≡◌, ◌≤◌, ◌<◌, ◌^◌, length, IfOk};
ghost use Rattle.pql_model.specs.Tokens as spec;
ghost use Rattle.pql_lexer.specs.Lexing.{asked_behind};

mod front;
mod numbers;
mod quoted;
mod symbols;

use containers::{OutOfMemory, Sequence};
use front::lex;
use pql_model::{Lexed, Located, Token, Tokens};
use std::alloc::Global;

/// The tokens with their offsets, up to the first that is refused or to the text's end.
pub fn tokens(alloc: Global, text: &[u8]) -> Result<Tokens, OutOfMemory>
    requires { length text.now ≤ 100_000 }
    ensures { IfOk result (λ ts. ts ≡ spec.tokens text.now) }
{
    let mut tokens = Sequence::new(alloc);
    let mut asked = 0;
    let mut at = 0;
    'tokens: while at < text.len() {
        match lex(alloc, asked, &text[at..])? {
            Lexed::Blank(more) => at += more + 1,
            Lexed::Token(token, more) => {
                asked = asked_behind(asked, &token);
                tokens.push(Located { token, at })?;
                at += more + 1;
            }
            Lexed::Refused(kind) => {
                let token = Token::Bad(kind);
                tokens.push(Located { token, at })?;
                return Ok(tokens);
            }
        }
    }
    let token = Token::End;
    tokens.push(Located { token, at })?;
    Ok(tokens)
}

/// How many `?` stood before what follows a token.
fn asked_behind(asked: u32, token: &Token) -> u32
    requires { asked_behind asked token.now < 2 ^ 32 }
    ensures { result ≡ asked_behind asked token.now }
{
    match token {
        Token::Parameter(number) => *number + 1,
        _ => asked,
    }
}
