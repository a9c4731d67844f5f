//! What binds tightest: constants, brackets, calls and names.
ghost use Rattle.std.specs.Prelude.{◌≡◌, ◌≤◌, ◌<◌, ◌+◌, IfOk, max};
ghost use Rattle.pql_model.specs.declared.expr.Expr.TheVariants as expr;
ghost use Rattle.pql_model.specs.Expressions as spec;
ghost use Rattle.pql_expr_parser.specs.Closed as closed;
ghost use Rattle.pql_expr_parser.specs.Gives.{seen, tall_of, GivesTall};
ghost use Rattle.pql_expr_parser.specs.Parts as parts;

use crate::answer::ParseAnswer;
use crate::expressions::{Layer, read_layer};
use crate::parser::{Measured, MeasuredExpr, Parser};
use crate::paths::path_from;
use containers::{Boxed, OutOfMemory, Sequence};
use pql_model::{Expr, Exprs, Member, Members, ParseKind, Role};

/// A constant, or what begins with a bracket, a word of a call or a name.
#[tactic(auto, using(crate::proofs::OpenedBrackets::primary_opens))]
#[cycle(expression)]
pub fn primary(parser: &mut Parser<'_>, below: usize) -> Result<MeasuredExpr, ParseAnswer>
    requires { below < 64 }
    ensures exact { GivesTall result parser.new (closed.primary below (seen parser.old)) }
    ensures height { IfOk result (λ m. m.height ≤ below + 1) }
{
    match parser.constant()? {
        Some(tree) => {
            parser.advance();
            let whole = parser.measured(tree, 1)?;
            Ok(whole)
        }
        None => bracket(parser, below),
    }
}

/// An expression in round brackets, or what else binds tightest.
#[tactic(auto, using(crate::proofs::OpenedBrackets::bracket_opens))]
#[cycle(expression)]
fn bracket(parser: &mut Parser<'_>, below: usize) -> Result<MeasuredExpr, ParseAnswer>
    requires { below < 64 }
    ensures exact { GivesTall result parser.new (closed.bracket below (seen parser.old)) }
    ensures height { IfOk result (λ m. m.height ≤ below + 1) }
{
    if parser.is_symbol("(") {
        parser.descend(below)?;
        parser.advance();
        return bracketed(parser, below);
    }
    constructed(parser, below)
}

/// A list or a struct, or a call or a name.
#[tactic(auto, using(crate::proofs::OpenedBrackets::constructed_opens))]
#[cycle(expression)]
fn constructed(parser: &mut Parser<'_>, below: usize) -> Result<MeasuredExpr, ParseAnswer>
    requires { below < 64 }
    ensures exact { GivesTall result parser.new (closed.constructed below (seen parser.old)) }
    ensures height { IfOk result (λ m. m.height ≤ below + 1) }
{
    if parser.is_symbol("[") {
        parser.advance();
        let list = enclosed(parser, below, "]")?;
        let whole = list_above(parser, list)?;
        return Ok(whole);
    }
    if parser.is_symbol("<<") {
        parser.advance();
        let list = enclosed(parser, below, ">>")?;
        let whole = list_above(parser, list)?;
        return Ok(whole);
    }
    if parser.is_symbol("{") {
        parser.advance();
        return struct_of(parser, below);
    }
    called(parser, below)
}

fn list_above(parser: &Parser<'_>, list: Measured<Exprs>) -> Result<MeasuredExpr, OutOfMemory>
    requires { list.height ≤ 64 }
    ensures { IfOk result (λ m. tall_of m ≡ spec.above expr.List (tall_of list)) }
{
    parser.measured(Expr::List(list.tree), list.height + 1)
}

/// An expression in round brackets, behind the opening one.
#[tactic(auto, using(crate::proofs::OpenedCalls::bracketed_opens))]
#[cycle(expression)]
fn bracketed(parser: &mut Parser<'_>, below: usize) -> Result<MeasuredExpr, ParseAnswer>
    requires { below < 64 }
    ensures exact { GivesTall result parser.new (closed.bracketed below (seen parser.old)) }
    ensures height { IfOk result (λ m. m.height ≤ below + 1) }
{
    let inner = read_layer(parser, Layer::Disjunction, below)?;
    parser.take_symbol(")")?;
    Ok(Measured {
        tree: inner.tree,
        height: inner.height + 1,
    })
}

/// Expressions up to a closing bracket, or none.
#[tactic(auto, using(crate::proofs::OpenedBrackets::enclosed_opens))]
#[cycle(expression)]
fn enclosed(
    parser: &mut Parser<'_>,
    below: usize,
    close: &str,
) -> Result<Measured<Exprs>, ParseAnswer>
    requires { below < 64 }
    ensures exact { GivesTall result parser.new (closed.enclosed below close.now (seen parser.old)) }
    ensures height { IfOk result (λ m. m.height ≤ below) }
{
    if parser.is_symbol(close) {
        parser.advance();
        return Ok(Measured {
            tree: Sequence::new(parser.alloc),
            height: 0,
        });
    }
    let list = list_of(parser, below)?;
    parser.take_symbol(close)?;
    Ok(list)
}

/// Expressions with commas between them. There are no more of them than tokens.
#[tactic(auto, using(crate::proofs::OpenedCalls::list_of_opens, crate::proofs::Steps::part_turns))]
#[cycle(expression)]
fn list_of(parser: &mut Parser<'_>, below: usize) -> Result<Measured<Exprs>, ParseAnswer>
    requires { below < 64 }
    ensures exact { GivesTall result parser.new (closed.list_of below (seen parser.old)) }
    ensures height { IfOk result (λ m. m.height ≤ below) }
{
    let mut tree = Sequence::new(parser.alloc);
    let mut height = 0;
    let mut more = parser.rest.len();
    'parts: while more > 0 {
        more -= 1;
        let part = read_layer(parser, Layer::Disjunction, below)?;
        height = higher(height, part.height);
        tree.push(part.tree.into_inner())?;
        if !parser.is_symbol(",") {
            return Ok(Measured { tree, height });
        }
        parser.advance();
    }
    Err(parser.refused(ParseKind::Unexpected))
}

/// The larger height.
pub fn higher(a: usize, b: usize) -> usize
    ensures { result ≡ max a b }
{
    if a < b { b } else { a }
}

/// A struct behind its opening brace.
#[tactic(auto, using(crate::proofs::OpenedBrackets::struct_of_opens))]
#[cycle(expression)]
fn struct_of(parser: &mut Parser<'_>, below: usize) -> Result<MeasuredExpr, ParseAnswer>
    requires { below < 64 }
    ensures exact { GivesTall result parser.new (closed.struct_of below (seen parser.old)) }
    ensures height { IfOk result (λ m. m.height ≤ below + 1) }
{
    if parser.is_symbol("}") {
        parser.advance();
        let whole = parser.measured(Expr::Struct(Sequence::new(parser.alloc)), 1)?;
        return Ok(whole);
    }
    let members = members(parser, below)?;
    parser.take_symbol("}")?;
    let whole = parser.measured(Expr::Struct(members.tree), members.height + 1)?;
    Ok(whole)
}

/// Members with commas between them. There are no more of them than tokens.
#[tactic(auto, using(crate::proofs::OpenedBrackets::members_opens, crate::proofs::Steps::part_turns))]
#[cycle(expression)]
fn members(parser: &mut Parser<'_>, below: usize) -> Result<Measured<Members>, ParseAnswer>
    requires { below < 64 }
    ensures exact { GivesTall result parser.new (closed.members below (seen parser.old)) }
    ensures height { IfOk result (λ m. m.height ≤ below) }
{
    let mut tree = Sequence::new(parser.alloc);
    let mut height = 0;
    let mut more = parser.rest.len();
    'parts: while more > 0 {
        more -= 1;
        let part = member(parser, below)?;
        height = higher(height, part.height);
        tree.push(part.tree)?;
        if !parser.is_symbol(",") {
            return Ok(Measured { tree, height });
        }
        parser.advance();
    }
    Err(parser.refused(ParseKind::Unexpected))
}

/// A member: its name as a string, a colon and its value.
#[tactic(auto, using(crate::proofs::OpenedBrackets::member_opens))]
#[cycle(expression)]
fn member(parser: &mut Parser<'_>, below: usize) -> Result<Measured<Member>, ParseAnswer>
    requires { below < 64 }
    ensures exact { GivesTall result parser.new (closed.member below (seen parser.old)) }
    ensures height { IfOk result (λ m. m.height ≤ below) }
{
    let Some(name) = parser.string()? else {
        return Err(parser.refused(ParseKind::Unexpected));
    };
    parser.descend(below)?;
    parser.advance();
    parser.take_symbol(":")?;
    let value = read_layer(parser, Layer::Disjunction, below)?;
    Ok(Measured {
        tree: Member {
            name,
            value: value.tree.into_inner(),
        },
        height: value.height,
    })
}

/// The functions of one argument.
#[derive(Clone, Copy)]
enum Function {
    Size,
    CharLength,
    Count,
    Sum,
    Min,
    Max,
}

/// A call of a function that is no aggregate.
#[tactic(auto, using(crate::proofs::OpenedCalls::called_opens))]
#[cycle(expression)]
fn called(parser: &mut Parser<'_>, below: usize) -> Result<MeasuredExpr, ParseAnswer>
    requires { below < 64 }
    ensures exact { GivesTall result parser.new (closed.called below (seen parser.old)) }
    ensures height { IfOk result (λ m. m.height ≤ below + 1) }
{
    if parser.is_word("COALESCE") {
        parser.descend(below)?;
        parser.advance();
        return coalesce(parser, below);
    }
    if parser.is_word("SIZE") {
        parser.descend(below)?;
        parser.advance();
        return call(parser, below, Function::Size);
    }
    if parser.is_word("CHAR_LENGTH") {
        parser.descend(below)?;
        parser.advance();
        return call(parser, below, Function::CharLength);
    }
    aggregate(parser, below)
}

/// The arguments of COALESCE.
#[tactic(auto, using(crate::proofs::OpenedCalls::coalesce_opens))]
#[cycle(expression)]
fn coalesce(parser: &mut Parser<'_>, below: usize) -> Result<MeasuredExpr, ParseAnswer>
    requires { below < 64 }
    ensures exact { GivesTall result parser.new (closed.coalesce below (seen parser.old)) }
    ensures height { IfOk result (λ m. m.height ≤ below + 1) }
{
    parser.take_symbol("(")?;
    let list = list_of(parser, below)?;
    parser.take_symbol(")")?;
    let whole = parser.measured(Expr::Coalesce(list.tree), list.height + 1)?;
    Ok(whole)
}

/// The argument of a call, behind its word.
#[tactic(auto, using(crate::proofs::OpenedCalls::call_opens))]
#[cycle(expression)]
fn call(
    parser: &mut Parser<'_>,
    below: usize,
    function: Function,
) -> Result<MeasuredExpr, ParseAnswer>
    requires { below < 64 }
    ensures exact { GivesTall result parser.new (closed.call below function (seen parser.old)) }
    ensures height { IfOk result (λ m. m.height ≤ below + 1) }
{
    parser.take_symbol("(")?;
    let argument = bracketed(parser, below)?;
    let whole = parser.measured(applied(function, argument.tree), argument.height)?;
    Ok(whole)
}

fn applied(function: Function, argument: Boxed<Expr>) -> Expr
    ensures { result ≡ parts.applied function argument }
{
    match function {
        Function::Size => Expr::Size(argument),
        Function::CharLength => Expr::CharLength(argument),
        Function::Count => Expr::Count(argument),
        Function::Sum => Expr::Sum(argument),
        Function::Min => Expr::Min(argument),
        Function::Max => Expr::Max(argument),
    }
}

/// A call of an aggregate, with a mark at its word, or a path.
#[tactic(auto, using(crate::proofs::OpenedCalls::aggregate_opens))]
#[cycle(expression)]
fn aggregate(parser: &mut Parser<'_>, below: usize) -> Result<MeasuredExpr, ParseAnswer>
    requires { below < 64 }
    ensures exact { GivesTall result parser.new (closed.aggregate below (seen parser.old)) }
    ensures height { IfOk result (λ m. m.height ≤ below + 1) }
{
    if parser.is_word("COUNT") {
        parser.mark(Role::Aggregate)?;
        parser.advance();
        return count(parser, below);
    }
    if parser.is_word("SUM") {
        return folded(parser, below, Function::Sum);
    }
    if parser.is_word("MIN") {
        return folded(parser, below, Function::Min);
    }
    if parser.is_word("MAX") {
        return folded(parser, below, Function::Max);
    }
    named(parser, below)
}

/// A call of SUM, MIN or MAX, from its word on.
#[tactic(auto, using(crate::proofs::OpenedCalls::folded_opens))]
#[cycle(expression)]
fn folded(
    parser: &mut Parser<'_>,
    below: usize,
    function: Function,
) -> Result<MeasuredExpr, ParseAnswer>
    requires { below < 64 }
    ensures exact { GivesTall result parser.new (closed.folded below function (seen parser.old)) }
    ensures height { IfOk result (λ m. m.height ≤ below + 1) }
{
    parser.descend(below)?;
    parser.mark(Role::Aggregate)?;
    parser.advance();
    call(parser, below, function)
}

/// What stands behind COUNT: a star, or an argument.
#[tactic(auto, using(crate::proofs::OpenedCalls::count_opens))]
#[cycle(expression)]
fn count(parser: &mut Parser<'_>, below: usize) -> Result<MeasuredExpr, ParseAnswer>
    requires { below < 64 }
    ensures exact { GivesTall result parser.new (closed.count below (seen parser.old)) }
    ensures height { IfOk result (λ m. m.height ≤ below + 1) }
{
    parser.take_symbol("(")?;
    if parser.is_symbol("*") {
        parser.advance();
        parser.take_symbol(")")?;
        let whole = parser.measured(Expr::CountAll, 1)?;
        return Ok(whole);
    }
    let argument = bracketed(parser, below)?;
    let tree = applied(Function::Count, argument.tree);
    let whole = parser.measured(tree, argument.height)?;
    Ok(whole)
}

/// A path in an expression, with a mark at its first name.
#[tactic(auto, using(crate::proofs::OpenedPaths::named_opens))]
#[cycle(expression)]
fn named(parser: &mut Parser<'_>, below: usize) -> Result<MeasuredExpr, ParseAnswer>
    requires { below < 64 }
    ensures exact { GivesTall result parser.new (closed.named below (seen parser.old)) }
    ensures height { IfOk result (λ m. m.height ≤ below + 1) }
{
    let Some(first) = parser.front_name()? else {
        return Err(parser.refused(ParseKind::Unexpected));
    };
    let name = first.copy(parser.alloc)?;
    parser.mark(Role::Name(name))?;
    parser.advance();
    let path = path_from(parser, below, first)?;
    let whole = parser.measured(Expr::Path(path.tree), path.height + 1)?;
    Ok(whole)
}
