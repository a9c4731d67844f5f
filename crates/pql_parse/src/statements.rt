//! Whole statements.
ghost use Rattle.std.specs.Prelude.{◌≡◌, IfOk};
ghost use Rattle.pql_model.specs.Grammar as spec;
ghost use Rattle.pql_model.specs.Productions.{token_of};
ghost use Rattle.pql_parse.specs.ClosedStatements as closed;
ghost use Rattle.pql_expr_parser.specs.Gives.{seen, Gives};

use crate::changes::change;
use crate::selection::selection;
use crate::sources::{alias, constant, filter, from_clause, id_name, source_of};
use containers::{Boxed, OutOfMemory, Sequence};
use pql_expr_parser::answer::ParseAnswer;
use pql_expr_parser::expressions::expression;
use pql_expr_parser::parser::Parser;
use pql_model::{Expr, FromClause, ParseKind, Source, SourceKind, Statement, Token};
use std::alloc::Global;

/// A statement, with a semicolon behind it or none, and nothing else behind.
#[tactic(auto, using(crate::proofs::OpenedStatements::whole_statement_opens))]
pub fn whole_statement(parser: &mut Parser<'_>) -> Result<Statement, ParseAnswer>
    ensures { Gives result parser.new (spec.whole_statement (seen parser.old)) }
{
    let statement = statement(parser)?;
    let statement = Boxed::new(parser.alloc, statement)?;
    if parser.is_symbol(";") {
        parser.advance();
        return ended(parser, statement);
    }
    ended(parser, statement)
}

/// A statement behind which nothing stands.
#[tactic(auto, using(crate::proofs::OpenedStatements::ended_opens))]
fn ended(parser: &Parser<'_>, statement: Boxed<Statement>) -> Result<Statement, ParseAnswer>
    ensures { Gives result parser.now (closed.ended statement (seen parser.now)) }
{
    if is_end(parser) {
        Ok(statement.into_inner())
    } else {
        Err(parser.refused(ParseKind::Unexpected))
    }
}

fn is_end(parser: &Parser<'_>) -> bool
    ensures { result ≡ spec.is_end (token_of (seen parser.now)) }
{
    match parser.rest.first() {
        Some(front) => matches!(front.token, Token::End),
        None => true,
    }
}

#[tactic(auto, using(crate::proofs::OpenedStatements::statement_opens))]
fn statement(parser: &mut Parser<'_>) -> Result<Statement, ParseAnswer>
    ensures { Gives result parser.new (closed.statement (seen parser.old)) }
{
    if parser.is_word("SELECT") {
        parser.advance();
        return select(parser);
    }
    if parser.is_word("INSERT") {
        parser.advance();
        return insert(parser);
    }
    change_or_table(parser)
}

/// An UPDATE, a FROM or a DELETE, or a statement on tables themselves.
#[tactic(auto, using(crate::proofs::OpenedStatements::change_or_table_opens))]
fn change_or_table(parser: &mut Parser<'_>) -> Result<Statement, ParseAnswer>
    ensures { Gives result parser.new (closed.change_or_table (seen parser.old)) }
{
    if parser.is_word("UPDATE") {
        parser.advance();
        return update(parser);
    }
    if parser.is_word("FROM") {
        parser.advance();
        return from(parser);
    }
    data_or_table(parser)
}

/// A DELETE, a redaction, or a statement on tables themselves.
#[tactic(auto, using(crate::proofs::OpenedStatements::data_or_table_opens))]
fn data_or_table(parser: &mut Parser<'_>) -> Result<Statement, ParseAnswer>
    ensures { Gives result parser.new (closed.data_or_table (seen parser.old)) }
{
    if parser.is_word("DELETE") {
        parser.advance();
        return delete(parser);
    }
    if parser.is_word("CREATE") {
        parser.advance();
        return create(parser);
    }
    redact_or_drop(parser)
}

#[tactic(auto, using(crate::proofs::OpenedStatements::redact_or_drop_opens))]
fn redact_or_drop(parser: &mut Parser<'_>) -> Result<Statement, ParseAnswer>
    ensures { Gives result parser.new (closed.redact_or_drop (seen parser.old)) }
{
    if parser.is_word("EXEC") {
        parser.advance();
        return redact(parser);
    }
    parser.take_word("DROP")?;
    drop_table(parser)
}

#[tactic(auto, using(crate::proofs::OpenedStatements::drop_table_opens))]
fn drop_table(parser: &mut Parser<'_>) -> Result<Statement, ParseAnswer>
    ensures { Gives result parser.new (closed.drop_table (seen parser.old)) }
{
    parser.take_word("TABLE")?;
    let table = parser.name()?;
    Ok(Statement::Drop { table })
}

#[tactic(auto, using(crate::proofs::OpenedStatements::select_opens))]
fn select(parser: &mut Parser<'_>) -> Result<Statement, ParseAnswer>
    ensures { Gives result parser.new (closed.select (seen parser.old)) }
{
    let select = selection(parser)?;
    parser.take_word("FROM")?;
    let from = from_clause(parser)?;
    Ok(Statement::Select {
        select: select.into_inner(),
        from,
    })
}

#[tactic(auto, using(crate::proofs::OpenedStatements::insert_opens))]
fn insert(parser: &mut Parser<'_>) -> Result<Statement, ParseAnswer>
    ensures { Gives result parser.new (closed.insert (seen parser.old)) }
{
    parser.take_word("INTO")?;
    let table = parser.name()?;
    let value = inserted(parser)?;
    Ok(Statement::Insert {
        table,
        value: value.into_inner(),
    })
}

/// The value of an INSERT, with VALUE before it or not.
#[tactic(auto, using(crate::proofs::OpenedStatements::inserted_opens))]
fn inserted(parser: &mut Parser<'_>) -> Result<Boxed<Expr>, ParseAnswer>
    ensures { Gives result parser.new (closed.inserted (seen parser.old)) }
{
    if parser.is_word("VALUE") {
        parser.advance();
        return expression(parser);
    }
    expression(parser)
}

#[tactic(auto, using(crate::proofs::OpenedStatements::update_opens))]
fn update(parser: &mut Parser<'_>) -> Result<Statement, ParseAnswer>
    ensures { Gives result parser.new (closed.update (seen parser.old)) }
{
    let source = table(parser)?;
    let change = change(parser)?;
    let from = filtered(parser, source)?;
    Ok(Statement::Update {
        from,
        change: change.into_inner(),
    })
}

#[tactic(auto, using(crate::proofs::OpenedStatements::from_opens))]
fn from(parser: &mut Parser<'_>) -> Result<Statement, ParseAnswer>
    ensures { Gives result parser.new (closed.from (seen parser.old)) }
{
    let from = from_clause(parser)?;
    let change = change(parser)?;
    Ok(Statement::From {
        from,
        change: change.into_inner(),
    })
}

#[tactic(auto, using(crate::proofs::OpenedStatements::delete_opens))]
fn delete(parser: &mut Parser<'_>) -> Result<Statement, ParseAnswer>
    ensures { Gives result parser.new (closed.delete (seen parser.old)) }
{
    parser.take_word("FROM")?;
    let source = table(parser)?;
    let from = filtered(parser, source)?;
    Ok(Statement::Delete { from })
}

/// One source, and the WHERE in front.
#[tactic(auto, using(crate::proofs::OpenedStatements::filtered_opens))]
fn filtered(parser: &mut Parser<'_>, source: Boxed<Source>) -> Result<FromClause, ParseAnswer>
    ensures { Gives result parser.new (closed.filtered source (seen parser.old)) }
{
    let filter = filter(parser)?;
    let from = of_one(parser.alloc, source, filter)?;
    Ok(from)
}

/// A table alone, with its AS and BY names.
#[tactic(auto, using(crate::proofs::OpenedStatements::table_opens))]
fn table(parser: &mut Parser<'_>) -> Result<Boxed<Source>, ParseAnswer>
    ensures { Gives result parser.new (closed.table (seen parser.old)) }
{
    let name = parser.name()?;
    let variable = alias(parser)?;
    let id_name = id_name(parser)?;
    let kind = Boxed::new(parser.alloc, SourceKind::Table { name })?;
    let source = source_of(parser.alloc, kind, variable, id_name)?;
    Ok(source)
}

fn of_one(
    alloc: Global,
    source: Boxed<Source>,
    filter: Option<Expr>,
) -> Result<FromClause, OutOfMemory>
    ensures { IfOk result (λ from. from ≡ spec.of_one source filter) }
{
    let mut sources = Sequence::new(alloc);
    sources.push(source.into_inner())?;
    Ok(FromClause { sources, filter })
}

#[tactic(auto, using(crate::proofs::OpenedStatements::create_opens))]
fn create(parser: &mut Parser<'_>) -> Result<Statement, ParseAnswer>
    ensures { Gives result parser.new (closed.create (seen parser.old)) }
{
    if parser.is_word("INDEX") {
        parser.advance();
        return index(parser);
    }
    parser.take_word("TABLE")?;
    let table = parser.name()?;
    Ok(Statement::Create { table })
}

#[tactic(auto, using(crate::proofs::OpenedStatements::index_opens))]
fn index(parser: &mut Parser<'_>) -> Result<Statement, ParseAnswer>
    ensures { Gives result parser.new (closed.index (seen parser.old)) }
{
    parser.take_word("ON")?;
    let table = parser.name()?;
    parser.take_symbol("(")?;
    let field = parser.name()?;
    parser.take_symbol(")")?;
    Ok(Statement::Index { table, field })
}

#[tactic(auto, using(crate::proofs::OpenedStatements::redact_opens))]
fn redact(parser: &mut Parser<'_>) -> Result<Statement, ParseAnswer>
    ensures { Gives result parser.new (closed.redact (seen parser.old)) }
{
    parser.take_word("REDACT_REVISION")?;
    let address = constant(parser)?;
    parser.take_symbol(",")?;
    let table = constant(parser)?;
    parser.take_symbol(",")?;
    let document = constant(parser)?;
    Ok(Statement::Redact {
        address: address.into_inner(),
        table: table.into_inner(),
        document: document.into_inner(),
    })
}
