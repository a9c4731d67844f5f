//! What a writing statement does to documents.
ghost use Rattle.pql_parse.specs.ClosedStatements as closed;
ghost use Rattle.pql_expr_parser.specs.Gives.{seen, Gives};

use containers::{Boxed, Sequence};
use pql_expr_parser::answer::ParseAnswer;
use pql_expr_parser::expressions::expression;
use pql_expr_parser::parser::Parser;
use pql_expr_parser::paths::free_path;
use pql_model::{Change, Expr, ParseKind, Path, Role, Setting, Settings};

/// SET, INSERT or REMOVE.
#[tactic(auto, using(crate::proofs::OpenedStatements::change_opens))]
pub fn change(parser: &mut Parser<'_>) -> Result<Boxed<Change>, ParseAnswer>
    ensures { Gives result parser.new (closed.change (seen parser.old)) }
{
    if parser.is_word("SET") {
        parser.advance();
        let settings = settings(parser)?;
        let change = Boxed::new(parser.alloc, Change::Set(settings))?;
        return Ok(change);
    }
    if parser.is_word("INSERT") {
        parser.advance();
        return insertion(parser);
    }
    parser.take_word("REMOVE")?;
    let target = target(parser)?;
    let change = Boxed::new(parser.alloc, Change::Remove { target })?;
    Ok(change)
}

/// Settings with commas between them. There are no more of them than tokens.
#[tactic(auto, using(crate::proofs::ItemTurns::setting_turns))]
fn settings(parser: &mut Parser<'_>) -> Result<Settings, ParseAnswer>
    ensures { Gives result parser.new (closed.settings (seen parser.old)) }
{
    let mut settings = Sequence::new(parser.alloc);
    let mut more = parser.rest.len();
    'settings: while more > 0 {
        more -= 1;
        let setting = setting(parser)?;
        settings.push(setting)?;
        if !parser.is_symbol(",") {
            return Ok(settings);
        }
        parser.advance();
    }
    Err(parser.refused(ParseKind::Unexpected))
}

#[tactic(auto, using(crate::proofs::OpenedStatements::setting_opens))]
fn setting(parser: &mut Parser<'_>) -> Result<Setting, ParseAnswer>
    ensures { Gives result parser.new (closed.setting (seen parser.old)) }
{
    let target = target(parser)?;
    parser.take_symbol("=")?;
    let value = expression(parser)?;
    Ok(Setting {
        target,
        value: value.into_inner(),
    })
}

/// What stands behind INSERT.
#[tactic(auto, using(crate::proofs::OpenedStatements::insertion_opens))]
fn insertion(parser: &mut Parser<'_>) -> Result<Boxed<Change>, ParseAnswer>
    ensures { Gives result parser.new (closed.insertion (seen parser.old)) }
{
    parser.take_word("INTO")?;
    let target = target(parser)?;
    parser.take_word("VALUE")?;
    let value = expression(parser)?;
    let at = at_place(parser)?;
    let change = Change::Insert {
        target,
        value: value.into_inner(),
        at,
    };
    let change = Boxed::new(parser.alloc, change)?;
    Ok(change)
}

/// The place behind AT, where it is given.
#[tactic(auto, using(crate::proofs::OpenedStatements::at_place_opens))]
fn at_place(parser: &mut Parser<'_>) -> Result<Option<Expr>, ParseAnswer>
    ensures { Gives result parser.new (closed.at_place (seen parser.old)) }
{
    if !parser.is_word("AT") {
        return Ok(None);
    }
    parser.advance();
    let place = expression(parser)?;
    Ok(Some(place.into_inner()))
}

/// The path of a change, with a mark that tells whether steps stand behind its first name.
#[tactic(auto, using(crate::proofs::OpenedStatements::target_opens))]
fn target(parser: &mut Parser<'_>) -> Result<Path, ParseAnswer>
    ensures { Gives result parser.new (closed.target (seen parser.old)) }
{
    let Some(first) = parser.front_name()? else {
        return Err(parser.refused(ParseKind::Unexpected));
    };
    let name = first.copy(parser.alloc)?;
    let has_steps = parser.is_symbol_behind(".") || parser.is_symbol_behind("[");
    parser.mark(Role::Target { name, has_steps })?;
    parser.advance();
    free_path(parser, first)
}
