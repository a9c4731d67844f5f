//! Comparisons, IN, LIKE, BETWEEN and IS, one of which may stand behind an operand.
ghost use Rattle.std.specs.Prelude.{◌≡◌, ◌≤◌, ◌<◌, ◌+◌, IfOk, max};
ghost use Rattle.pql_model.specs.declared.expr.Expr.TheVariants as expr;
ghost use Rattle.pql_model.specs.Productions.{token_of};
ghost use Rattle.pql_model.specs.Expressions as spec;
ghost use Rattle.pql_expr_parser.specs.Gives.{seen, tall_of, GivesTall};
ghost use Rattle.pql_expr_parser.specs.Closed as closed;

use crate::answer::ParseAnswer;
use crate::expressions::{Layer, above, binary, operate, read_layer};
use crate::parser::{MeasuredExpr, Parser};
use containers::OutOfMemory;
use pql_model::{Expr, Operator, ParseKind, Symbol, Token};

/// What compares the operand, or the operand alone.
#[tactic(auto, using(crate::proofs::OpenedRelations::related_opens))]
#[cycle(expression)]
pub fn related(
    parser: &mut Parser<'_>,
    below: usize,
    left: MeasuredExpr,
) -> Result<MeasuredExpr, ParseAnswer>
    requires below { below < 64 }
    requires left { left.height ≤ below + 1 }
    ensures exact { GivesTall result parser.new (closed.related below (tall_of left) (seen parser.old)) }
    ensures height { IfOk result (λ m. m.height ≤ below + 1) }
{
    let Some(operator) = comparing_in_front(parser) else {
        return predicated(parser, below, left);
    };
    operate(parser, left.height, below)?;
    let right = read_layer(parser, Layer::Concatenation, below)?;
    let whole = binary(parser, operator, left, right)?;
    Ok(whole)
}

fn comparing_in_front(parser: &Parser<'_>) -> Option<Operator>
    ensures { result ≡ spec.comparing (token_of (seen parser.now)) }
{
    match parser.rest.first() {
        Some(front) => comparing(&front.token),
        None => None,
    }
}

fn comparing(token: &Token) -> Option<Operator>
    ensures { result ≡ spec.comparing token.now }
{
    match token {
        Token::Symbol(Symbol::Equal) => Some(Operator::Equal),
        Token::Symbol(Symbol::LessGreater) => Some(Operator::NotEqual),
        Token::Symbol(Symbol::BangEqual) => Some(Operator::NotEqual),
        Token::Symbol(Symbol::Less) => Some(Operator::Less),
        Token::Symbol(Symbol::LessEqual) => Some(Operator::AtMost),
        Token::Symbol(Symbol::Greater) => Some(Operator::Greater),
        Token::Symbol(Symbol::GreaterEqual) => Some(Operator::AtLeast),
        _ => None,
    }
}

/// The operand with IS, IN, LIKE or BETWEEN behind it, or alone.
#[tactic(auto, using(crate::proofs::OpenedPredicates::predicated_opens))]
#[cycle(expression)]
fn predicated(
    parser: &mut Parser<'_>,
    below: usize,
    left: MeasuredExpr,
) -> Result<MeasuredExpr, ParseAnswer>
    requires below { below < 64 }
    requires left { left.height ≤ below + 1 }
    ensures exact { GivesTall result parser.new (closed.predicated below (tall_of left) (seen parser.old)) }
    ensures height { IfOk result (λ m. m.height ≤ below + 1) }
{
    if !begins_predicate(parser) {
        return Ok(left);
    }
    if left.height > below {
        return Err(parser.refused(ParseKind::TooDeep));
    }
    predicate(parser, below, left)
}

fn begins_predicate(parser: &Parser<'_>) -> bool
    ensures { result ≡ spec.begins_predicate (token_of (seen parser.now)) }
{
    parser.is_word("IS")
        || parser.is_word("NOT")
        || parser.is_word("IN")
        || parser.is_word("LIKE")
        || parser.is_word("BETWEEN")
}

/// IS, or the others with or without NOT.
#[tactic(auto, using(crate::proofs::OpenedPredicates::predicate_opens))]
#[cycle(expression)]
fn predicate(
    parser: &mut Parser<'_>,
    below: usize,
    left: MeasuredExpr,
) -> Result<MeasuredExpr, ParseAnswer>
    requires below { below < 64 }
    requires left { left.height ≤ below }
    ensures exact { GivesTall result parser.new (closed.predicate below (tall_of left) (seen parser.old)) }
    ensures height { IfOk result (λ m. m.height ≤ below + 1) }
{
    if parser.is_word("IS") {
        parser.advance();
        return is_tested(parser, left);
    }
    if parser.is_word("NOT") {
        parser.advance();
        let whole = matched(parser, below, left)?;
        let whole = negated(parser, whole)?;
        return Ok(whole);
    }
    matched(parser, below, left)
}

/// NOT of a whole predicate, which is no level more.
fn negated(parser: &Parser<'_>, whole: MeasuredExpr) -> Result<MeasuredExpr, OutOfMemory>
    ensures { IfOk result (λ m. tall_of m ≡ record { tree = expr.Not whole.tree; height = whole.height }) }
{
    parser.measured(Expr::Not(whole.tree), whole.height)
}

/// What stands behind IS.
#[tactic(auto, using(crate::proofs::OpenedPredicates::is_tested_opens))]
fn is_tested(parser: &mut Parser<'_>, left: MeasuredExpr) -> Result<MeasuredExpr, ParseAnswer>
    requires { left.height ≤ 64 }
    ensures exact { GivesTall result parser.new (closed.is_tested (tall_of left) (seen parser.old)) }
    ensures height { IfOk result (λ m. m.height ≡ left.height + 1) }
{
    if !parser.is_word("NOT") {
        return null_or_missing(parser, left);
    }
    parser.advance();
    let whole = null_or_missing(parser, left)?;
    let whole = negated(parser, whole)?;
    Ok(whole)
}

#[tactic(auto, unfolding(crate::specs::Closed::null_or_missing))]
fn null_or_missing(parser: &mut Parser<'_>, left: MeasuredExpr) -> Result<MeasuredExpr, ParseAnswer>
    requires { left.height ≤ 64 }
    ensures exact { GivesTall result parser.new (closed.null_or_missing (tall_of left) (seen parser.old)) }
    ensures height { IfOk result (λ m. m.height ≡ left.height + 1) }
{
    let height = left.height + 1;
    if parser.is_word("NULL") {
        parser.advance();
        let whole = parser.measured(Expr::IsNull(left.tree), height)?;
        return Ok(whole);
    }
    parser.take_word("MISSING")?;
    let whole = parser.measured(Expr::IsMissing(left.tree), height)?;
    Ok(whole)
}

/// IN, LIKE or BETWEEN.
#[tactic(auto, using(crate::proofs::OpenedPredicates::matched_opens))]
#[cycle(expression)]
fn matched(
    parser: &mut Parser<'_>,
    below: usize,
    left: MeasuredExpr,
) -> Result<MeasuredExpr, ParseAnswer>
    requires below { below < 64 }
    requires left { left.height ≤ below }
    ensures exact { GivesTall result parser.new (closed.matched below (tall_of left) (seen parser.old)) }
    ensures height { IfOk result (λ m. m.height ≤ below + 1) }
{
    if parser.is_word("IN") {
        parser.advance();
        return contained(parser, below, left);
    }
    if parser.is_word("LIKE") {
        parser.advance();
        return patterned(parser, below, left);
    }
    parser.take_word("BETWEEN")?;
    bounded(parser, below, left)
}

/// The list behind IN.
#[tactic(auto, using(crate::proofs::OpenedPredicates::contained_opens))]
#[cycle(expression)]
fn contained(
    parser: &mut Parser<'_>,
    below: usize,
    left: MeasuredExpr,
) -> Result<MeasuredExpr, ParseAnswer>
    requires below { below < 64 }
    requires left { left.height ≤ below }
    ensures exact { GivesTall result parser.new (closed.contained below (tall_of left) (seen parser.old)) }
    ensures height { IfOk result (λ m. m.height ≤ below + 1) }
{
    let list = read_layer(parser, Layer::Concatenation, below)?;
    let whole = is_in(parser, left, list)?;
    Ok(whole)
}

/// The pattern behind LIKE.
#[tactic(auto, using(crate::proofs::OpenedPredicates::patterned_opens))]
#[cycle(expression)]
fn patterned(
    parser: &mut Parser<'_>,
    below: usize,
    left: MeasuredExpr,
) -> Result<MeasuredExpr, ParseAnswer>
    requires below { below < 64 }
    requires left { left.height ≤ below }
    ensures exact { GivesTall result parser.new (closed.patterned below (tall_of left) (seen parser.old)) }
    ensures height { IfOk result (λ m. m.height ≤ below + 1) }
{
    let pattern = read_layer(parser, Layer::Concatenation, below)?;
    let whole = like(parser, left, pattern)?;
    Ok(whole)
}

/// The bounds behind BETWEEN.
#[tactic(auto, using(crate::proofs::OpenedPredicates::bounded_opens))]
#[cycle(expression)]
fn bounded(
    parser: &mut Parser<'_>,
    below: usize,
    left: MeasuredExpr,
) -> Result<MeasuredExpr, ParseAnswer>
    requires below { below < 64 }
    requires left { left.height ≤ below }
    ensures exact { GivesTall result parser.new (closed.bounded below (tall_of left) (seen parser.old)) }
    ensures height { IfOk result (λ m. m.height ≤ below + 1) }
{
    let low = read_layer(parser, Layer::Concatenation, below)?;
    parser.take_word("AND")?;
    upper_bound(parser, below, left, low)
}

/// The bound behind AND.
#[tactic(auto, using(crate::proofs::OpenedPredicates::upper_bound_opens))]
#[cycle(expression)]
fn upper_bound(
    parser: &mut Parser<'_>,
    below: usize,
    left: MeasuredExpr,
    low: MeasuredExpr,
) -> Result<MeasuredExpr, ParseAnswer>
    requires below { below < 64 }
    requires left { left.height ≤ below }
    requires low { low.height ≤ below }
    ensures exact { GivesTall result parser.new (closed.upper_bound below (tall_of left) (tall_of low)
        (seen parser.old)) }
    ensures height { IfOk result (λ m. m.height ≤ below + 1) }
{
    let high = read_layer(parser, Layer::Concatenation, below)?;
    let whole = between(parser, left, low, high)?;
    Ok(whole)
}

fn is_in(
    parser: &Parser<'_>,
    left: MeasuredExpr,
    right: MeasuredExpr,
) -> Result<MeasuredExpr, OutOfMemory>
    requires left { left.height ≤ 64 }
    requires right { right.height ≤ 64 }
    ensures { IfOk result (λ m. tall_of m ≡ record {
      tree = expr.IsIn left.tree right.tree;
      height = max left.height right.height + 1;
    }) }
{
    let height = above(left.height, right.height);
    let tree = Expr::IsIn {
        value: left.tree,
        list: right.tree,
    };
    parser.measured(tree, height)
}

fn like(
    parser: &Parser<'_>,
    left: MeasuredExpr,
    right: MeasuredExpr,
) -> Result<MeasuredExpr, OutOfMemory>
    requires left { left.height ≤ 64 }
    requires right { right.height ≤ 64 }
    ensures { IfOk result (λ m. tall_of m ≡ record {
      tree = expr.Like left.tree right.tree;
      height = max left.height right.height + 1;
    }) }
{
    let height = above(left.height, right.height);
    let tree = Expr::Like {
        value: left.tree,
        pattern: right.tree,
    };
    parser.measured(tree, height)
}

fn between(
    parser: &Parser<'_>,
    value: MeasuredExpr,
    low: MeasuredExpr,
    high: MeasuredExpr,
) -> Result<MeasuredExpr, OutOfMemory>
    requires value { value.height ≤ 64 }
    requires low { low.height ≤ 64 }
    requires high { high.height ≤ 64 }
    ensures { IfOk result (λ m. tall_of m ≡ spec.between (tall_of value) (tall_of low) (tall_of high)) }
{
    let bounds = if low.height < high.height {
        high.height
    } else {
        low.height
    };
    let height = above(value.height, bounds);
    let tree = Expr::Between {
        value: value.tree,
        low: low.tree,
        high: high.tree,
    };
    parser.measured(tree, height)
}
