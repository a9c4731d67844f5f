//! What a request asks for: its text by the grammar, with as many parameters as it has question marks. Statements that
//! were read are kept, so that a text is read once.
ghost use Rattle.std.specs.Prelude.{◌≡◌, Ok, Err, IfSome, MatchOption};
ghost use Rattle.ledger_model.specs.Statements.{counted};
ghost use Rattle.pql_model.specs.Parse.{parsed};
ghost use Rattle.txn_core.specs.Statements.{read_of};
ghost use Rattle.txn_core.specs.Stops.{Comes};

use crate::stopped::ExecuteFault;
use ion_values::{Text, Value};
use ledger_model::Refusal;
use pql_model::{Statement, parameters};
use pql_parse::{ParseAnswer, parse};
use std::alloc::Global;

/// The most statements that are kept.
const MOST_KEPT: usize = 64;

/// The most bytes of the text of one that is kept.
const LONGEST_KEPT: usize = 4_096;

/// A statement, with the text that it was read of.
#[derive(Drop)]
struct ReadStatement {
    text: Text,
    statement: Statement,
    ghost is: { read_of (parsed text) ≡ Ok statement },
}

/// Statements that were read, each found by its text. Contracts say nothing of which are kept.
#[derive(Drop)]
pub struct Statements {
    kept: Vec<ReadStatement>,
}

impl Statements {
    /// No statements. It takes no memory.
    pub fn new(alloc: Global) -> Statements {
        Statements {
            kept: Vec::new(alloc),
        }
    }

    /// The statement that this text is, if it was kept.
    pub(crate) fn find(&self, text: &str) -> Option<&Statement>
        ensures { IfSome result (λ statement. read_of (parsed text.now) ≡ Ok statement.now) }
    {
        'kept: for read in &self.kept {
            if read.text.as_str() == text {
                return Some(&read.statement);
            }
        }
        None
    }

    /// Keeps the statement that this text is, if the text isn't too long and there is memory for it.
    ///
    /// If as many are kept as can be, they are dropped first.
    pub(crate) fn keep(&mut self, alloc: Global, text: &str, statement: Statement)
        requires { read_of (parsed text.now) ≡ Ok statement }
    {
        if text.len() > LONGEST_KEPT {
            return;
        }
        if self.kept.len() >= MOST_KEPT {
            self.kept.clear();
        }
        if let Ok(text) = Text::from_text(alloc, text) {
            let _ = self.kept.push(ReadStatement { text, statement });
        }
    }
}

/// The statement that a text is. It stops with `ParseFault` where it is none.
pub(crate) fn read_statement(alloc: Global, text: &str) -> Result<Statement, ExecuteFault>
    ensures { Comes result (read_of (parsed text.now)) }
{
    match parse(alloc, text) {
        Ok(statement) => Ok(statement),
        Err(ParseAnswer::Fault { at, kind }) => {
            Err(ExecuteFault::Refused(Refusal::ParseFault { at, kind }))
        }
        Err(ParseAnswer::OutOfMemory) => Err(ExecuteFault::OutOfMemory),
    }
}

/// `ParameterCount` where the statement is given other than one parameter for each question mark.
pub(crate) fn miscounted(statement: &Statement, params: &[Value]) -> Option<Refusal>
    ensures { MatchOption result (counted statement.now params.now ≡ Ok statement.now) (λ cause.
        counted statement.now params.now ≡ Err cause) }
{
    let wanted = parameters(statement);
    if wanted as usize != params.len() {
        return Some(Refusal::ParameterCount {
            wanted: u64::from(wanted),
            given: params.len() as u64,
        });
    }
    None
}
