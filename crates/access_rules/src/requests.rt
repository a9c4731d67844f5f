//! What of a transaction's statements is denied.
ghost use Rattle.std.specs.Prelude.{◌≡◌, IfOk, Some};
ghost use Rattle.pql_model.specs.Parse.{parsed};
ghost use Rattle.access_rules.specs.Demands.{demanded_by, demanded_of, tree};
ghost use Rattle.access_rules.specs.Permission as spec;

use crate::demand::{Demand, Verdict};
use crate::judging::judge;
use crate::rule::Rules;
use crate::statements::demands;
use containers::Text;
use ion_values::{OutOfMemory, Value};
use ledger_model::{Denial, Request};
use pql_model::{Statement, parameters};
use pql_parse::{ParseAnswer, parse};
use std::alloc::Global;

/// What the rules deny a session of a transaction's statements, or None if they allow all.
///
/// It is the first denied demand of the first statement that has one. A text that is no statement demands
/// nothing, nor does one with another number of parameters than question marks. `OutOfMemory` comes also
/// if there are more than 2^32 - 1 statements.
pub fn denied(
    alloc: Global,
    rules: &Rules,
    session: u32,
    asked: &[Request],
) -> Result<Option<Denial>, OutOfMemory>
    ensures { IfOk result (λ denial. denial ≡ spec.denied rules.now session asked.now) }
{
    let mut statement: u32 = 0;
    'requests: for request in asked {
        if statement == u32::MAX {
            return Err(OutOfMemory);
        }
        statement += 1;
        match judge_request(alloc, rules, session, request)? {
            Verdict::Allowed => {}
            Verdict::Denied { demand, rule } => {
                let denial = denial(alloc, statement, demand, rule)?;
                return Ok(Some(denial));
            }
        }
    }
    Ok(None)
}

/// What is denied of the statement of that number, by this rule or by none.
fn denial(
    alloc: Global,
    statement: u32,
    demand: Demand,
    rule: Option<Text>,
) -> Result<Denial, OutOfMemory>
    ensures { IfOk result (λ denial. denial ≡ spec.denial statement demand rule) }
{
    let action = Text::from_text(alloc, demand.action.name())?;
    Ok(Denial {
        statement,
        action,
        table: demand.table,
        rule,
    })
}

/// Whether the rules allow what the request demands.
fn judge_request(
    alloc: Global,
    rules: &Rules,
    session: u32,
    request: &Request,
) -> Result<Verdict, OutOfMemory>
    ensures { IfOk result (λ verdict. verdict ≡ spec.verdict rules.now session (demanded_by request.now)) }
{
    let tree = tree_of(alloc, request.text.as_str())?;
    let verdict = judge_tree(alloc, rules, session, &tree, request.params.as_slice());
    drop(tree);
    verdict
}

/// The statement that a text is, or None if it is no statement.
fn tree_of(alloc: Global, text: &str) -> Result<Option<Statement>, OutOfMemory>
    ensures { IfOk result (λ read. read ≡ tree (parsed text.now)) }
{
    match parse(alloc, text) {
        Ok(statement) => Ok(Some(statement)),
        Err(ParseAnswer::Fault { .. }) => Ok(None),
        Err(ParseAnswer::OutOfMemory) => Err(OutOfMemory),
    }
}

/// Whether the rules allow what the statement with these parameters demands, if there is one.
fn judge_tree(
    alloc: Global,
    rules: &Rules,
    session: u32,
    tree: &Option<Statement>,
    params: &[Value],
) -> Result<Verdict, OutOfMemory>
    ensures { IfOk result (λ verdict. verdict ≡ spec.verdict rules.now session (demanded_of params.now tree.now)) }
{
    match tree {
        Some(statement) => judge_statement(alloc, rules, session, statement, params),
        None => Ok(Verdict::Allowed),
    }
}

/// Whether the rules allow what the statement with these parameters demands.
fn judge_statement(
    alloc: Global,
    rules: &Rules,
    session: u32,
    statement: &Statement,
    params: &[Value],
) -> Result<Verdict, OutOfMemory>
    ensures { IfOk result (λ verdict. verdict ≡ spec.verdict rules.now session
        (demanded_of params.now (Some statement.now))) }
{
    if parameters(statement) as usize != params.len() {
        return Ok(Verdict::Allowed);
    }
    let demands = demands(alloc, statement, params)?;
    judge(alloc, rules, session, &demands)
}
