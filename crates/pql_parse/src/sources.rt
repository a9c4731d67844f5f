//! The sources of rows.
ghost use Rattle.std.specs.Prelude.{◌≡◌, ◌∷◌, ◌++◌, [], IfOk, OnOk, unwrap_or};
ghost use Rattle.pql_model.specs.Grammar as spec;
ghost use Rattle.pql_parse.specs.ClosedStatements as closed;
ghost use Rattle.pql_expr_parser.specs.Gives.{seen, Gives};
ghost use Rattle.pql_parse.specs.Parts.{Knows};

use containers::{Boxed, OutOfMemory, Sequence, Text};
use pql_expr_parser::answer::ParseAnswer;
use pql_expr_parser::expressions::expression;
use pql_expr_parser::parser::Parser;
use pql_expr_parser::paths::free_path;
use pql_model::{
    Expr, FromClause, ParseKind, Path, Place, Role, Source, SourceKind, Sources, last_name,
};
use std::alloc::Global;
use std::collections::BTreeSet;

/// The sources behind FROM, and the WHERE behind them.
#[tactic(auto, using(crate::proofs::OpenedSources::from_clause_opens))]
pub fn from_clause(parser: &mut Parser<'_>) -> Result<FromClause, ParseAnswer>
    ensures { Gives result parser.new (closed.from_clause (seen parser.old)) }
{
    let sources = sources(parser)?;
    let filter = filter(parser)?;
    Ok(FromClause { sources, filter })
}

/// The condition behind WHERE, where it is given.
#[tactic(auto, using(crate::proofs::OpenedSources::filter_of_opens))]
pub fn filter(parser: &mut Parser<'_>) -> Result<Option<Expr>, ParseAnswer>
    ensures { Gives result parser.new (closed.filter_of (seen parser.old)) }
{
    if !parser.is_word("WHERE") {
        return Ok(None);
    }
    parser.advance();
    let condition = expression(parser)?;
    Ok(Some(condition.into_inner()))
}

/// The name behind AS, where it is given.
#[tactic(auto, using(crate::proofs::OpenedSources::alias_opens))]
pub fn alias(parser: &mut Parser<'_>) -> Result<Option<Text>, ParseAnswer>
    ensures { Gives result parser.new (closed.alias (seen parser.old)) }
{
    if !parser.is_word("AS") {
        return Ok(None);
    }
    parser.advance();
    let name = parser.name()?;
    Ok(Some(name))
}

/// The name behind BY, where it is given.
#[tactic(auto, using(crate::proofs::OpenedSources::plain_id_name_opens))]
pub fn id_name(parser: &mut Parser<'_>) -> Result<Option<Text>, ParseAnswer>
    ensures { Gives result parser.new (closed.plain_id_name (seen parser.old)) }
{
    if !parser.is_word("BY") {
        return Ok(None);
    }
    parser.advance();
    let name = parser.name()?;
    Ok(Some(name))
}

/// The same behind a source, with a mark at BY.
#[tactic(auto, using(crate::proofs::OpenedSources::id_name_opens))]
fn marked_id_name(parser: &mut Parser<'_>) -> Result<Option<Text>, ParseAnswer>
    ensures { Gives result parser.new (closed.id_name (seen parser.old)) }
{
    if !parser.is_word("BY") {
        return Ok(None);
    }
    parser.mark(Role::By)?;
    parser.advance();
    let name = parser.name()?;
    Ok(Some(name))
}

/// Sources and the set of their variables.
#[derive(Drop)]
struct Earlier {
    sources: Sources,
    variables: BTreeSet<String>,
}

/// The sources, of which there are no more than tokens.
#[tactic(auto, using(crate::proofs::SourceTurns::source_turns))]
fn sources(parser: &mut Parser<'_>) -> Result<Sources, ParseAnswer>
    ensures { Gives result parser.new (closed.sources (seen parser.old)) }
{
    let mut earlier = no_sources(parser.alloc);
    let mut more = parser.rest.len();
    let first = source(parser, &earlier)?;
    add(parser.alloc, &mut earlier, first)?;
    'sources: while more > 0 {
        more -= 1;
        let Some(source) = another(parser, &earlier)? else {
            return Ok(earlier.sources);
        };
        add(parser.alloc, &mut earlier, source)?;
    }
    Ok(earlier.sources)
}

fn no_sources(alloc: Global) -> Earlier
    ensures none { result.sources ≡ [] }
    ensures knows { Knows result }
{
    Earlier {
        sources: Sequence::new(alloc),
        variables: BTreeSet::new(alloc),
    }
}

fn add(alloc: Global, earlier: &mut Earlier, source: Boxed<Source>) -> Result<(), OutOfMemory>
    requires { Knows earlier.old }
    ensures more { OnOk result (earlier.new.sources ≡ earlier.old.sources ++ source ∷ []) }
    ensures knows { OnOk result (Knows earlier.new) }
{
    let variable = source.get().variable.copy(alloc)?;
    earlier.variables.insert(variable.into_string())?;
    earlier.sources.push(source.into_inner())?;
    Ok(())
}

/// The source that follows, behind a comma or joined, or None where none follows.
#[tactic(auto, using(crate::proofs::OpenedSources::another_opens))]
fn another(parser: &mut Parser<'_>, earlier: &Earlier) -> Result<Option<Boxed<Source>>, ParseAnswer>
    requires { Knows earlier.now }
    ensures { Gives result parser.new (closed.another earlier.now.sources (seen parser.old)) }
{
    if !parser.is_symbol(",") {
        return joined(parser, earlier);
    }
    parser.advance();
    let next = source(parser, earlier)?;
    Ok(Some(next))
}

/// The source that is joined each with each or on a condition, or None where none follows.
#[tactic(auto, using(crate::proofs::OpenedSources::joined_opens))]
fn joined(parser: &mut Parser<'_>, earlier: &Earlier) -> Result<Option<Boxed<Source>>, ParseAnswer>
    requires { Knows earlier.now }
    ensures { Gives result parser.new (closed.joined earlier.now.sources (seen parser.old)) }
{
    if !parser.is_word("CROSS") {
        return inner_joined(parser, earlier);
    }
    parser.advance();
    parser.take_word("JOIN")?;
    let next = source(parser, earlier)?;
    Ok(Some(next))
}

/// The source that is joined on a condition, or None where none follows.
#[tactic(auto, using(crate::proofs::OpenedSources::inner_joined_opens))]
fn inner_joined(
    parser: &mut Parser<'_>,
    earlier: &Earlier,
) -> Result<Option<Boxed<Source>>, ParseAnswer>
    requires { Knows earlier.now }
    ensures { Gives result parser.new (closed.inner_joined earlier.now.sources (seen parser.old)) }
{
    if parser.is_word("INNER") {
        parser.advance();
        let next = conditioned_source(parser, earlier)?;
        return Ok(Some(next));
    }
    if parser.is_word("JOIN") {
        let next = conditioned_source(parser, earlier)?;
        return Ok(Some(next));
    }
    Ok(None)
}

/// A source with its condition, from JOIN on.
#[tactic(auto, using(crate::proofs::OpenedSources::conditioned_source_opens))]
fn conditioned_source(
    parser: &mut Parser<'_>,
    earlier: &Earlier,
) -> Result<Boxed<Source>, ParseAnswer>
    requires { Knows earlier.now }
    ensures { Gives result parser.new (closed.conditioned_source earlier.now.sources (seen parser.old)) }
{
    parser.take_word("JOIN")?;
    let source = source(parser, earlier)?;
    parser.take_word("ON")?;
    let condition = expression(parser)?;
    let source = conditioned(parser.alloc, source.into_inner(), condition.into_inner())?;
    Ok(source)
}

fn conditioned(alloc: Global, source: Source, condition: Expr) -> Result<Boxed<Source>, OutOfMemory>
    ensures { IfOk result (λ new. new ≡ spec.conditioned source condition) }
{
    let Source {
        from,
        variable,
        id_name,
        on: _,
    } = source;
    let source = Source {
        from,
        variable,
        id_name,
        on: Some(condition),
    };
    Boxed::new(alloc, source)
}

/// A source behind these, which is a part of the statement of its own.
#[tactic(auto, using(crate::proofs::OpenedSources::source_opens))]
fn source(parser: &mut Parser<'_>, earlier: &Earlier) -> Result<Boxed<Source>, ParseAnswer>
    requires { Knows earlier.now }
    ensures { Gives result parser.new (closed.source earlier.now.sources (seen parser.old)) }
{
    let place = parser.place;
    parser.place = Place::Source(earlier.sources.len());
    let source = source_there(parser, earlier)?;
    parser.place = place;
    Ok(source)
}

/// A source with its AS and BY names.
#[tactic(auto, using(crate::proofs::OpenedSources::source_there_opens))]
fn source_there(parser: &mut Parser<'_>, earlier: &Earlier) -> Result<Boxed<Source>, ParseAnswer>
    requires { Knows earlier.now }
    ensures { Gives result parser.new (closed.source_there earlier.now.sources (seen parser.old)) }
{
    let from = source_kind(parser, earlier)?;
    let variable = alias(parser)?;
    let id_name = marked_id_name(parser)?;
    let source = source_of(parser.alloc, from, variable, id_name)?;
    Ok(source)
}

/// A source with its own name, where it has no other.
pub fn source_of(
    alloc: Global,
    from: Boxed<SourceKind>,
    variable: Option<Text>,
    id_name: Option<Text>,
) -> Result<Boxed<Source>, OutOfMemory>
    ensures { IfOk result (λ source. source ≡ spec.source_of from variable id_name) }
{
    let variable = variable_of(alloc, from.get(), variable)?;
    let source = Source {
        from: from.into_inner(),
        variable,
        id_name,
        on: None,
    };
    Boxed::new(alloc, source)
}

fn variable_of(
    alloc: Global,
    from: &SourceKind,
    variable: Option<Text>,
) -> Result<Text, OutOfMemory>
    ensures { IfOk result (λ name. name ≡ unwrap_or variable (spec.own_name from.now)) }
{
    match variable {
        Some(variable) => Ok(variable),
        None => own_name(alloc, from),
    }
}

fn own_name(alloc: Global, from: &SourceKind) -> Result<Text, OutOfMemory>
    ensures { IfOk result (λ name. name ≡ spec.own_name from.now) }
{
    match from {
        SourceKind::Table { name } => name.copy(alloc),
        SourceKind::History {
            table,
            start: _,
            end: _,
        } => table.copy(alloc),
        SourceKind::Path(path) => {
            Text::from_text(alloc, last_name(path.first.as_str(), path.steps.as_slice()))
        }
    }
}

/// A history, a path behind `@`, or a table or a path.
#[tactic(auto, using(crate::proofs::OpenedSources::source_kind_opens))]
fn source_kind(parser: &mut Parser<'_>, earlier: &Earlier) -> Result<Boxed<SourceKind>, ParseAnswer>
    requires { Knows earlier.now }
    ensures { Gives result parser.new (closed.source_kind earlier.now.sources (seen parser.old)) }
{
    if begins_history(parser) {
        parser.advance();
        return history(parser);
    }
    if parser.is_symbol("@") {
        parser.advance();
        let path = rooted(parser)?;
        let kind = Boxed::new(parser.alloc, SourceKind::Path(path))?;
        return Ok(kind);
    }
    let path = rooted(parser)?;
    let kind = Boxed::new(parser.alloc, table_or_path(earlier, path))?;
    Ok(kind)
}

/// Without a step a name is a table, unless it is a variable of an earlier source.
#[tactic(auto, using(crate::proofs::Known::kinds))]
fn table_or_path(earlier: &Earlier, path: Path) -> SourceKind
    requires { Knows earlier.now }
    ensures { result ≡ spec.table_or_path earlier.now.sources path }
{
    if path.steps.is_empty() && !is_variable(earlier, path.first.as_str()) {
        let Path { first, steps: _ } = path;
        SourceKind::Table { name: first }
    } else {
        SourceKind::Path(path)
    }
}

/// Whether an earlier source has this name as its variable.
fn is_variable(earlier: &Earlier, name: &str) -> bool
    requires { Knows earlier.now }
    ensures { result ≡ spec.is_variable earlier.now.sources name.now }
{
    earlier.variables.contains(name)
}

/// A path with a mark at its first name.
#[tactic(auto, using(crate::proofs::OpenedSources::rooted_path_opens))]
fn rooted(parser: &mut Parser<'_>) -> Result<Path, ParseAnswer>
    ensures { Gives result parser.new (closed.rooted_path (seen parser.old)) }
{
    let Some(first) = parser.front_name()? else {
        return Err(parser.refused(ParseKind::Unexpected));
    };
    let name = first.copy(parser.alloc)?;
    parser.mark(Role::Root(name))?;
    parser.advance();
    free_path(parser, first)
}

fn begins_history(parser: &Parser<'_>) -> bool
    ensures { result ≡ spec.begins_history parser.now.rest.now }
{
    parser.is_word("HISTORY") && parser.is_symbol_behind("(")
}

/// A history behind its word.
#[tactic(auto, using(crate::proofs::OpenedSources::history_of_opens))]
fn history(parser: &mut Parser<'_>) -> Result<Boxed<SourceKind>, ParseAnswer>
    ensures { Gives result parser.new (closed.history_of (seen parser.old)) }
{
    parser.take_symbol("(")?;
    let table = parser.name()?;
    bounds(parser, table)
}

/// The bounds of a history, the second one only behind the first, to the closing bracket.
#[tactic(auto, using(crate::proofs::OpenedSources::bounds_opens))]
fn bounds(parser: &mut Parser<'_>, table: Text) -> Result<Boxed<SourceKind>, ParseAnswer>
    ensures { Gives result parser.new (closed.bounds table (seen parser.old)) }
{
    if !parser.is_symbol(",") {
        parser.take_symbol(")")?;
        let kind = boxed_history(parser.alloc, table, None, None)?;
        return Ok(kind);
    }
    parser.advance();
    let start = constant(parser)?;
    let end = end_bound(parser)?;
    parser.take_symbol(")")?;
    let kind = boxed_history(parser.alloc, table, Some(start), end)?;
    Ok(kind)
}

fn boxed_history(
    alloc: Global,
    table: Text,
    start: Option<Boxed<Expr>>,
    end: Option<Boxed<Expr>>,
) -> Result<Boxed<SourceKind>, OutOfMemory>
    ensures { IfOk result (λ kind. kind ≡ SourceKind.History table start end) }
{
    let kind = SourceKind::History {
        table,
        start: unboxed(start),
        end: unboxed(end),
    };
    Boxed::new(alloc, kind)
}

fn unboxed(expr: Option<Boxed<Expr>>) -> Option<Expr>
    ensures { result ≡ expr }
{
    match expr {
        Some(expr) => Some(expr.into_inner()),
        None => None,
    }
}

/// The bound behind a comma, where it is given.
#[tactic(auto, using(crate::proofs::OpenedSources::end_bound_opens))]
fn end_bound(parser: &mut Parser<'_>) -> Result<Option<Boxed<Expr>>, ParseAnswer>
    ensures { Gives result parser.new (closed.end_bound (seen parser.old)) }
{
    if !parser.is_symbol(",") {
        return Ok(None);
    }
    parser.advance();
    let end = constant(parser)?;
    Ok(Some(end))
}

/// A literal or `?` that must come.
#[tactic(auto, using(crate::proofs::OpenedSources::const_opens))]
pub(crate) fn constant(parser: &mut Parser<'_>) -> Result<Boxed<Expr>, ParseAnswer>
    ensures { Gives result parser.new (closed.const (seen parser.old)) }
{
    let Some(constant) = parser.constant()? else {
        return Err(parser.refused(ParseKind::Unexpected));
    };
    parser.advance();
    let constant = Boxed::new(parser.alloc, constant)?;
    Ok(constant)
}
