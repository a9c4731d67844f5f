//! Expressions, layer by layer from the loosest binding to the tightest.
ghost use Rattle.std.specs.Prelude.{◌≡◌, ◌≤◌, ◌<◌, ◌+◌, IfOk, max};
ghost use Rattle.pql_model.specs.Productions.{token_of};
ghost use Rattle.pql_model.specs.Expressions as spec;
ghost use Rattle.pql_expr_parser.specs.Closed as closed;
ghost use Rattle.pql_expr_parser.specs.Gives.{seen, tall_of, Gives, GivesTall, IsFault, Operates};
ghost use Rattle.pql_expr_parser.specs.Layers.{begins_bracket, begins_call, layer_of, operator_in};

use crate::answer::ParseAnswer;
use crate::parser::{MeasuredExpr, Parser};
use crate::predicates::related;
use crate::primaries::primary;
use crate::words::is_word;
use containers::{Boxed, OutOfMemory};
use pql_model::{Expr, Operator, ParseKind, Symbol, Token};

/// How many levels an expression may have.
pub const MOST_LEVELS: usize = 64;

/// The layers of expressions. Behind NOT come the comparisons, whose operands are concatenations.
#[derive(Clone, Copy)]
pub enum Layer {
    Disjunction,
    Conjunction,
    Negation,
    Concatenation,
    Sum,
    Product,
    Unary,
}

/// An expression of a statement.
#[tactic(auto, using(crate::proofs::OpenedBrackets::expression_opens))]
pub fn expression(parser: &mut Parser<'_>) -> Result<Boxed<Expr>, ParseAnswer>
    ensures { Gives result parser.new (spec.expression (seen parser.old)) }
{
    let whole = read_layer(parser, Layer::Disjunction, MOST_LEVELS)?;
    Ok(whole.tree)
}

/// An expression of this layer, of at most `levels` levels.
#[tactic(auto, using(crate::proofs::LayerTurns::layer_turns))]
#[cycle(expression)]
pub fn read_layer(
    parser: &mut Parser<'_>,
    which: Layer,
    levels: usize,
) -> Result<MeasuredExpr, ParseAnswer>
    requires { levels ≤ 64 }
    ensures exact { GivesTall result parser.new (layer_of which levels (seen parser.old)) }
    ensures height { IfOk result (λ m. m.height ≤ levels) }
{
    if levels == 0 {
        return Err(no_level(parser));
    }
    match which {
        Layer::Disjunction => chain(parser, Layer::Disjunction, Layer::Conjunction, levels - 1),
        Layer::Conjunction => chain(parser, Layer::Conjunction, Layer::Negation, levels - 1),
        Layer::Negation => negation(parser, levels - 1),
        Layer::Concatenation => chain(parser, Layer::Concatenation, Layer::Sum, levels - 1),
        Layer::Sum => chain(parser, Layer::Sum, Layer::Product, levels - 1),
        Layer::Product => chain(parser, Layer::Product, Layer::Unary, levels - 1),
        Layer::Unary => unary(parser, levels - 1),
    }
}

/// The fault of an expression for which no level is left: its first token is too deep.
fn no_level(parser: &Parser<'_>) -> ParseAnswer
    ensures { IsFault result (spec.no_level (seen parser.now)) }
{
    if begins_expression(parser) {
        parser.refused(ParseKind::TooDeep)
    } else {
        parser.refused(ParseKind::Unexpected)
    }
}

fn begins_expression(parser: &Parser<'_>) -> bool
    ensures { result ≡ spec.begins_expression (token_of (seen parser.now)) }
{
    if parser.is_constant() || parser.is_name() || begins_bracket(parser) {
        return true;
    }
    parser.is_symbol("-") || parser.is_word("NOT") || begins_call(parser)
}

fn begins_bracket(parser: &Parser<'_>) -> bool
    ensures { result ≡ begins_bracket (token_of (seen parser.now)) }
{
    parser.is_symbol("(")
        || parser.is_symbol("[")
        || parser.is_symbol("<<")
        || parser.is_symbol("{")
}

fn begins_call(parser: &Parser<'_>) -> bool
    ensures { result ≡ begins_call (token_of (seen parser.now)) }
{
    parser.is_word("COALESCE")
        || parser.is_word("SIZE")
        || parser.is_word("CHAR_LENGTH")
        || parser.is_word("COUNT")
        || parser.is_word("SUM")
        || parser.is_word("MIN")
        || parser.is_word("MAX")
}

/// Operands of the tighter layer with operators of this one between them, which group to the left. Each
/// operator is a level above its operands.
#[tactic(auto, using(crate::proofs::Steps::operator_turns))]
#[cycle(expression)]
fn chain(
    parser: &mut Parser<'_>,
    operators: Layer,
    operands: Layer,
    below: usize,
) -> Result<MeasuredExpr, ParseAnswer>
    requires { below < 64 }
    ensures exact { GivesTall result parser.new (spec.chain below (operator_in operators) (layer_of operands below)
        (layer_of operands (below + 1)) (seen parser.old)) }
    ensures height { IfOk result (λ m. m.height ≤ below + 1) }
{
    let mut left = read_layer(parser, operands, below + 1)?;
    let mut more = below + 1;
    'operators: while more > 0 {
        more -= 1;
        let Some(operator) = operator_in_front(parser, operators) else {
            return Ok(left);
        };
        operate(parser, left.height, below)?;
        let right = read_layer(parser, operands, below)?;
        left = binary(parser, operator, left, right)?;
    }
    Ok(left)
}

/// Goes past an operator whose left operand has `height` levels, if one more may stand above it.
pub fn operate(parser: &mut Parser<'_>, height: usize, below: usize) -> Result<(), ParseAnswer>
    ensures { Operates result parser.new height below (seen parser.old) }
{
    if height > below {
        return Err(parser.refused(ParseKind::TooDeep));
    }
    parser.advance();
    Ok(())
}

/// The operator in front, where it is one of this layer.
#[tactic(auto, using(crate::proofs::LayerTurns::operator_at_end))]
fn operator_in_front(parser: &Parser<'_>, layer: Layer) -> Option<Operator>
    ensures { result ≡ operator_in layer (token_of (seen parser.now)) }
{
    match parser.rest.first() {
        Some(front) => operator_in(layer, &front.token),
        None => None,
    }
}

#[tactic(auto, unfolding(crate::specs::Layers::operator_in))]
fn operator_in(layer: Layer, token: &Token) -> Option<Operator>
    ensures { result ≡ operator_in layer token.now }
{
    match layer {
        Layer::Disjunction => by_word(token, "OR", Operator::Or),
        Layer::Conjunction => by_word(token, "AND", Operator::And),
        Layer::Concatenation => joining(token),
        Layer::Sum => additive(token),
        Layer::Product => multiplicative(token),
        Layer::Negation => None,
        Layer::Unary => None,
    }
}

fn by_word(token: &Token, word: &str, operator: Operator) -> Option<Operator>
    ensures { result ≡ spec.by_word word.now operator token.now }
{
    if is_word(token, word) {
        Some(operator)
    } else {
        None
    }
}

fn joining(token: &Token) -> Option<Operator>
    ensures { result ≡ spec.joining token.now }
{
    match token {
        Token::Symbol(Symbol::Bars) => Some(Operator::Concat),
        _ => None,
    }
}

fn additive(token: &Token) -> Option<Operator>
    ensures { result ≡ spec.additive token.now }
{
    match token {
        Token::Symbol(Symbol::Plus) => Some(Operator::Plus),
        Token::Symbol(Symbol::Minus) => Some(Operator::Minus),
        _ => None,
    }
}

fn multiplicative(token: &Token) -> Option<Operator>
    ensures { result ≡ spec.multiplicative token.now }
{
    match token {
        Token::Symbol(Symbol::Star) => Some(Operator::Times),
        Token::Symbol(Symbol::Slash) => Some(Operator::Divide),
        Token::Symbol(Symbol::Percent) => Some(Operator::Remainder),
        _ => None,
    }
}

/// An operator between two operands.
pub fn binary(
    parser: &Parser<'_>,
    op: Operator,
    left: MeasuredExpr,
    right: MeasuredExpr,
) -> Result<MeasuredExpr, OutOfMemory>
    requires left { left.height ≤ 64 }
    requires right { right.height ≤ 64 }
    ensures { IfOk result (λ m. tall_of m ≡ spec.binary op (tall_of left) (tall_of right)) }
{
    let height = above(left.height, right.height);
    let tree = Expr::Binary {
        op,
        left: left.tree,
        right: right.tree,
    };
    parser.measured(tree, height)
}

/// A level above two.
pub fn above(a: usize, b: usize) -> usize
    requires left { a ≤ 64 }
    requires right { b ≤ 64 }
    ensures { result ≡ max a b + 1 }
{
    if a < b { b + 1 } else { a + 1 }
}

/// NOT before a negation, or a comparison.
#[tactic(auto, using(crate::proofs::OpenedRelations::negation_opens))]
#[cycle(expression)]
fn negation(parser: &mut Parser<'_>, below: usize) -> Result<MeasuredExpr, ParseAnswer>
    requires { below < 64 }
    ensures exact { GivesTall result parser.new (closed.negation below (seen parser.old)) }
    ensures height { IfOk result (λ m. m.height ≤ below + 1) }
{
    if !parser.is_word("NOT") {
        return comparison(parser, below);
    }
    parser.descend(below)?;
    parser.advance();
    let inner = read_layer(parser, Layer::Negation, below)?;
    let whole = parser.measured(Expr::Not(inner.tree), inner.height + 1)?;
    Ok(whole)
}

/// An operand, and what compares it.
#[tactic(auto, using(crate::proofs::OpenedRelations::comparison_opens))]
#[cycle(expression)]
fn comparison(parser: &mut Parser<'_>, below: usize) -> Result<MeasuredExpr, ParseAnswer>
    requires { below < 64 }
    ensures exact { GivesTall result parser.new (closed.comparison below (seen parser.old)) }
    ensures height { IfOk result (λ m. m.height ≤ below + 1) }
{
    let left = read_layer(parser, Layer::Concatenation, below + 1)?;
    related(parser, below, left)
}

/// A minus before an operand of the same layer, or what binds tightest.
#[tactic(auto, using(crate::proofs::OpenedBrackets::unary_opens))]
#[cycle(expression)]
fn unary(parser: &mut Parser<'_>, below: usize) -> Result<MeasuredExpr, ParseAnswer>
    requires { below < 64 }
    ensures exact { GivesTall result parser.new (closed.unary below (seen parser.old)) }
    ensures height { IfOk result (λ m. m.height ≤ below + 1) }
{
    if !parser.is_symbol("-") {
        return primary(parser, below);
    }
    parser.descend(below)?;
    parser.advance();
    let inner = read_layer(parser, Layer::Unary, below)?;
    let whole = parser.measured(Expr::Negate(inner.tree), inner.height + 1)?;
    Ok(whole)
}
