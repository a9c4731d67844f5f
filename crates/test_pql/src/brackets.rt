//! Expressions of names and operators with their brackets.
use crate::parsing::{expression_of, statement};
use ion_values::{Text, Value};
use pql_model::{Expr, Operator, Statement};
use std::alloc::Global;
use test_rows::text_in;

/// Puts an expression with its brackets.
pub fn put_brackets(alloc: Global, given: &Value, out: &mut Text) -> Option<()> {
    let parsed = statement(alloc, "SELECT VALUE ", text_in(given)?, " FROM t")?;
    put_expression(alloc, &parsed.held, out)
}

fn put_expression(alloc: Global, statement: &Statement, out: &mut Text) -> Option<()> {
    let text = bracketed(alloc, expression_of(statement)?)?;
    out.push_str(text.as_str()).ok()
}

fn sign(op: Operator) -> &'static str {
    match op {
        Operator::Or => "OR",
        Operator::And => "AND",
        Operator::Equal => "=",
        Operator::NotEqual => "<>",
        Operator::Less => "<",
        Operator::AtMost => "<=",
        Operator::Greater => ">",
        Operator::AtLeast => ">=",
        Operator::Concat => "||",
        Operator::Plus => "+",
        Operator::Minus => "-",
        Operator::Times => "*",
        Operator::Divide => "/",
        Operator::Remainder => "%",
    }
}

/// An expression of names and operators with its brackets. Steps of paths are left out.
fn bracketed(alloc: Global, e: &Expr) -> Option<String> {
    match e {
        Expr::Path(path) => String::from_str(alloc, path.first.as_str()).ok(),
        Expr::Negate(e) => of_one(alloc, "-", bracketed(alloc, e.get()), ""),
        Expr::Not(e) => of_one(alloc, "NOT ", bracketed(alloc, e.get()), ""),
        Expr::IsNull(e) => of_one(alloc, "(", bracketed(alloc, e.get()), " IS NULL)"),
        Expr::IsMissing(e) => of_one(alloc, "(", bracketed(alloc, e.get()), " IS MISSING)"),
        Expr::Binary { op, left, right } => {
            let left = bracketed(alloc, left.get());
            of_two(alloc, left, sign(*op), bracketed(alloc, right.get()))
        }
        Expr::IsIn { value, list } => {
            let value = bracketed(alloc, value.get());
            of_two(alloc, value, "IN", bracketed(alloc, list.get()))
        }
        Expr::Like { value, pattern } => {
            let value = bracketed(alloc, value.get());
            of_two(alloc, value, "LIKE", bracketed(alloc, pattern.get()))
        }
        Expr::Between { value, low, high } => {
            let value = bracketed(alloc, value.get());
            let low = bracketed(alloc, low.get());
            let bounds = of_bounds(alloc, low, bracketed(alloc, high.get()));
            of_two(alloc, value, "BETWEEN", bounds)
        }
        _ => String::from_str(alloc, "?").ok(),
    }
}

fn of_one(alloc: Global, before: &str, operand: Option<String>, after: &str) -> Option<String> {
    let operand = operand?;
    format!(in alloc; "{before}{operand}{after}").ok()
}

fn of_two(
    alloc: Global,
    left: Option<String>,
    sign: &str,
    right: Option<String>,
) -> Option<String> {
    let left = left?;
    let right = right?;
    format!(in alloc; "({left} {sign} {right})").ok()
}

fn of_bounds(alloc: Global, low: Option<String>, high: Option<String>) -> Option<String> {
    let low = low?;
    let high = high?;
    format!(in alloc; "{low} AND {high}").ok()
}
