//! What a SELECT answers.
ghost use Rattle.std.specs.Prelude.{◌≡◌};
ghost use Rattle.pql_model.specs.Grammar as spec;
ghost use Rattle.pql_parse.specs.ClosedStatements as closed;
ghost use Rattle.pql_expr_parser.specs.Gives.{seen, Gives};

use crate::sources::alias;
use containers::{Boxed, Sequence};
use pql_expr_parser::answer::ParseAnswer;
use pql_expr_parser::expressions::expression;
use pql_expr_parser::parser::Parser;
use pql_model::{Expr, Mark, ParseKind, Place, Role, Select, SelectItem, SelectItems};

/// A star, one value, or items.
#[tactic(auto, using(crate::proofs::OpenedStatements::selection_opens))]
pub fn selection(parser: &mut Parser<'_>) -> Result<Boxed<Select>, ParseAnswer>
    ensures { Gives result parser.new (closed.selection (seen parser.old)) }
{
    if parser.is_symbol("*") {
        parser.advance();
        let select = Boxed::new(parser.alloc, Select::Star)?;
        return Ok(select);
    }
    if parser.is_word("VALUE") {
        parser.advance();
        let value = expression(parser)?;
        let select = Boxed::new(parser.alloc, Select::Value(value.into_inner()))?;
        return Ok(select);
    }
    let items = items(parser)?;
    let select = Boxed::new(parser.alloc, Select::Items(items))?;
    Ok(select)
}

/// Items with commas between them. There are no more of them than tokens.
#[tactic(auto, using(crate::proofs::ItemTurns::item_turns))]
fn items(parser: &mut Parser<'_>) -> Result<SelectItems, ParseAnswer>
    ensures { Gives result parser.new (closed.items (seen parser.old)) }
{
    let mut items = Sequence::new(parser.alloc);
    let mut more = parser.rest.len();
    'items: while more > 0 {
        more -= 1;
        let item = item(parser)?;
        items.push(item)?;
        if !parser.is_symbol(",") {
            return Ok(items);
        }
        parser.advance();
    }
    Err(parser.refused(ParseKind::Unexpected))
}

/// An item, with a mark at its first token.
#[tactic(auto, using(crate::proofs::OpenedStatements::item_opens))]
fn item(parser: &mut Parser<'_>) -> Result<SelectItem, ParseAnswer>
    ensures { Gives result parser.new (closed.item (seen parser.old)) }
{
    let at = parser.at();
    let before = parser.marks.len();
    let value = item_value(parser)?;
    let role = item_role(value.get(), before, parser.marks.as_slice());
    parser.mark_at(at, role)?;
    let name = alias(parser)?;
    Ok(SelectItem {
        value: value.into_inner(),
        name,
    })
}

/// The expression of an item.
#[tactic(auto, using(crate::proofs::OpenedStatements::item_value_opens))]
fn item_value(parser: &mut Parser<'_>) -> Result<Boxed<Expr>, ParseAnswer>
    ensures { Gives result parser.new (closed.item_value (seen parser.old)) }
{
    let place = parser.place;
    parser.place = Place::Item;
    let value = expression(parser)?;
    parser.place = place;
    Ok(value)
}

/// The role of an item by the count of marks before it.
fn item_role(value: &Expr, before: usize, marks: &[Mark]) -> Role
    ensures { result ≡ spec.item_role before value.now marks.now }
{
    let own = if before < marks.len() {
        &marks[before..]
    } else {
        &[]
    };
    Role::Item {
        is_whole: is_aggregate(value),
        aggregates: aggregates(own),
    }
}

fn aggregates(marks: &[Mark]) -> usize
    ensures { result ≡ spec.aggregates marks.now }
{
    marks
        .iter()
        .filter(|mark| marks_aggregate(&mark.role))
        .count()
}

fn marks_aggregate(role: &Role) -> bool
    ensures { result ≡ spec.marks_aggregate role.now }
{
    matches!(role, Role::Aggregate)
}

fn is_aggregate(value: &Expr) -> bool
    ensures { result ≡ spec.is_aggregate value.now }
{
    match value {
        Expr::CountAll => true,
        Expr::Count(_) => true,
        Expr::Sum(_) => true,
        Expr::Min(_) => true,
        Expr::Max(_) => true,
        _ => false,
    }
}
