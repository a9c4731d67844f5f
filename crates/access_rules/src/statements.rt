//! What statements demand.
ghost use Rattle.std.specs.Prelude.{◌≡◌, [], ◌∷◌, ◌++◌, length, IfOk, OnOk, if◌then◌else◌};
ghost use Rattle.std.specs.List.{flat_map};
ghost use Rattle.pql_model.specs.Meaning.{meaning, under};
ghost use Rattle.pql_model.specs.Tables as tables;
ghost use Rattle.ledger_model.specs.Statements.{wanted};
ghost use Rattle.access_rules.specs.Demands as spec;
ghost use Rattle.access_rules.specs.declared.demand.Demand as declared;
ghost use Rattle.pql_model.specs.declared.statement.Source as source;

use crate::demand::{Demand, Demands};
use crate::rule::Action;
use containers::Sequence;
use ion_values::{Body, OutOfMemory, Text, Value};
use pql_expr::eval;
use pql_model::{Change, Evaluated, Expr, Source, SourceKind, Statement, has_root, roots_of};
use std::alloc::Global;

/// What a committed view's name begins with.
const COMMITTED: &str = "_ql_committed_";

/// The demands of the statement in order. It has as many parameters as question marks.
///
/// A source demands `PartiQLSelect` and a history `PartiQLHistoryFunction`, each on its table, which for
/// a committed view is the table that it shows; a source that is a path demands nothing. UPDATE, DELETE
/// and the sources that a FROM changes demand `PartiQLUpdate` or `PartiQLDelete` in place of that, and
/// INSERT, CREATE and DROP demand their own action on the name as it is written. EXEC REDACT_REVISION
/// demands `PartiQLRedact` on the text of its table's argument, the empty one where it is no text.
pub fn demands(alloc: Global, s: &Statement, params: &[Value]) -> Result<Demands, OutOfMemory>
    requires { wanted s.now ≡ length params.now }
    ensures { IfOk result (λ all. all ≡ spec.demanded s.now params.now) }
{
    match s {
        Statement::Select { select: _, from } => of_reading(alloc, from.sources.as_slice()),
        Statement::Insert { table, value: _ } => on_name(alloc, Action::PartiQLInsert, table),
        Statement::Update { from, change: _ } => {
            on_sources(alloc, Action::PartiQLUpdate, from.sources.as_slice())
        }
        Statement::From { from, change } => of_changing(alloc, from.sources.as_slice(), change),
        Statement::Delete { from } => {
            on_sources(alloc, Action::PartiQLDelete, from.sources.as_slice())
        }
        Statement::Create { table } => on_name(alloc, Action::PartiQLCreateTable, table),
        Statement::Index { table, field: _ } => on_name(alloc, Action::PartiQLCreateIndex, table),
        Statement::Drop { table } => on_name(alloc, Action::PartiQLDropTable, table),
        Statement::Redact { table, .. } => of_redaction(alloc, table, params),
    }
}

/// A demand on the table of that name.
fn demand(alloc: Global, action: Action, table: &str) -> Result<Demand, OutOfMemory>
    ensures { IfOk result (λ d. d ≡ spec.demand action table.now) }
{
    let table = Text::from_text(alloc, table)?;
    Ok(Demand { action, table })
}

/// The only demand is on the name as it is written.
fn on_name(alloc: Global, action: Action, table: &Text) -> Result<Demands, OutOfMemory>
    ensures { IfOk result (λ all. all ≡ spec.demand action table.now ∷ []) }
{
    let mut all = Sequence::new(alloc);
    put(alloc, &mut all, action, table.as_str())?;
    Ok(all)
}

/// The text that a symbol or a string is, or the empty one.
fn text_or_empty(found: &Evaluated) -> &str
    ensures { result.now ≡ spec.text_or_empty found.now }
{
    match found {
        Evaluated::Missing => "",
        Evaluated::Found(value) => match &value.body {
            Body::Symbol(text) | Body::String(text) => text.as_str(),
            _ => "",
        },
    }
}

/// The only demand is on the text of the argument that names the table.
fn of_redaction(alloc: Global, table: &Expr, params: &[Value]) -> Result<Demands, OutOfMemory>
    ensures { IfOk result (λ all. all
        ≡ spec.demand Action.PartiQLRedact (spec.text_or_empty (meaning table.now (under [] params.now))) ∷ []) }
{
    let found = eval(alloc, table, &Sequence::new(alloc), params)?;
    let mut all = Sequence::new(alloc);
    put(
        alloc,
        &mut all,
        Action::PartiQLRedact,
        text_or_empty(&found),
    )?;
    Ok(all)
}

/// The name without what a committed view's begins with.
fn table_named(name: &str) -> &str
    ensures { result.now ≡ tables.table_named name.now }
{
    match name.strip_prefix(COMMITTED) {
        Some(table) => table,
        None => name,
    }
}

/// Appends what an action on the source demands.
fn put_on(
    alloc: Global,
    all: &mut Demands,
    action: Action,
    kind: &SourceKind,
) -> Result<(), OutOfMemory>
    ensures { OnOk result (all.new ≡ all.old ++ spec.on_source action kind.now) }
{
    match kind {
        SourceKind::Table { name } => put(alloc, all, action, table_named(name.as_str())),
        SourceKind::History { table, .. } => put(alloc, all, action, table.as_str()),
        SourceKind::Path(_) => Ok(()),
    }
}

/// Appends a demand on the table of that name.
fn put(alloc: Global, all: &mut Demands, action: Action, table: &str) -> Result<(), OutOfMemory>
    ensures { OnOk result (all.new ≡ all.old ++ spec.demand action table.now ∷ []) }
{
    let one = demand(alloc, action, table)?;
    all.push(one)
}

/// Appends what reading the source demands.
fn put_reading(alloc: Global, all: &mut Demands, kind: &SourceKind) -> Result<(), OutOfMemory>
    ensures { OnOk result (all.new ≡ all.old ++ spec.reading kind.now) }
{
    let action = match kind {
        SourceKind::History { .. } => Action::PartiQLHistoryFunction,
        SourceKind::Table { .. } | SourceKind::Path(_) => Action::PartiQLSelect,
    };
    put_on(alloc, all, action, kind)
}

/// What reading each source demands.
fn of_reading(alloc: Global, sources: &[Source]) -> Result<Demands, OutOfMemory>
    ensures { IfOk result (λ all. all ≡ flat_map (λ (s : source.Source). spec.reading s.from) sources.now) }
{
    let mut all = Sequence::new(alloc);
    'sources: for source in sources {
        put_reading(alloc, &mut all, &source.from)?;
    }
    Ok(all)
}

/// What an action on each source demands.
fn on_sources(alloc: Global, action: Action, sources: &[Source]) -> Result<Demands, OutOfMemory>
    ensures { IfOk result (λ all. all ≡ spec.on_sources action sources.now) }
{
    let mut all = Sequence::new(alloc);
    'sources: for source in sources {
        put_on(alloc, &mut all, action, &source.from)?;
    }
    Ok(all)
}

/// What a FROM with this change demands.
fn of_changing(alloc: Global, sources: &[Source], change: &Change) -> Result<Demands, OutOfMemory>
    ensures { IfOk result (λ all. all ≡ spec.changing sources.now change.now) }
{
    let roots = roots_of(alloc, sources, change)?;
    all_changing(alloc, roots.as_slice(), sources)
}

/// What the sources demand of a FROM whose change begins at those of the places `roots`.
fn all_changing(
    alloc: Global,
    roots: &[Option<usize>],
    sources: &[Source],
) -> Result<Demands, OutOfMemory>
    ensures { IfOk result (λ all. all ≡ spec.changing_from roots.now 0 sources.now) }
{
    let mut all = Sequence::new(alloc);
    'sources: for (place, source) in sources.iter().enumerate() {
        put_changing(alloc, &mut all, has_root(roots, place), &source.from)?;
    }
    Ok(all)
}

/// Appends what a source demands that is changed or else read.
fn put_changing(
    alloc: Global,
    all: &mut Demands,
    changed: bool,
    kind: &SourceKind,
) -> Result<(), OutOfMemory>
    ensures { OnOk result (all.new ≡ all.old
        ++ (if changed then spec.on_source Action.PartiQLUpdate kind.now else spec.reading kind.now)) }
{
    if changed {
        put_on(alloc, all, Action::PartiQLUpdate, kind)
    } else {
        put_reading(alloc, all, kind)
    }
}
