ghost use Rattle.std.specs.Prelude.{◌≤◌, length};
ghost use Rattle.pql_model.specs.Parse as spec;
ghost use Rattle.pql_expr_parser.specs.Gives.{GivesWhole};

use crate::rules::{broken, sources_of};
use crate::statements::whole_statement;
use containers::Sequence;
use pql_expr_parser::answer::ParseAnswer;
use pql_expr_parser::parser::Parser;
use pql_lexer::tokens;
use pql_model::{ParseKind, Place, Statement};
use std::alloc::Global;

/// How many bytes a text may have.
const MOST_BYTES: usize = 100_000;

/// The statement that a text is. `Fault` tells the first fault: that the text has more than 100,000
/// bytes, which is tested before all else; or the first token that is refused itself, that the grammar
/// can't take at its place, or that nests an expression past 64 levels; or the first one that breaks the
/// rules behind the grammar on names, on targets of changes and on aggregates. `at` is the offset of
/// that token's first byte.
#[tactic(auto, unfolding(pql_model::specs::Parse::parsed))]
pub fn parse(alloc: Global, text: &str) -> Result<Statement, ParseAnswer>
    ensures { GivesWhole result (spec.parsed text.now) }
{
    if text.len() > MOST_BYTES {
        return Err(ParseAnswer::Fault {
            at: 100_000,
            kind: ParseKind::TooLong,
        });
    }
    read_statement(alloc, text.as_bytes())
}

/// The statement of a text that isn't too long.
fn read_statement(alloc: Global, text: &[u8]) -> Result<Statement, ParseAnswer>
    requires { length text.now ≤ 100_000 }
    ensures { GivesWhole result (spec.read_statement text.now) }
{
    let tokens = tokens(alloc, text)?;
    let mut parser = Parser {
        alloc,
        rest: tokens.as_slice(),
        marks: Sequence::new(alloc),
        place: Place::Elsewhere,
    };
    let statement = whole_statement(&mut parser)?;
    match broken(alloc, sources_of(&statement), parser.marks.as_slice())? {
        None => Ok(statement),
        Some(fault) => Err(ParseAnswer::Fault {
            at: fault.at as u64,
            kind: fault.kind,
        }),
    }
}
