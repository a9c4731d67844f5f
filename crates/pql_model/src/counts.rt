ghost use Rattle.std.specs.Prelude.{◌≡◌, ◌^◌, ◌-◌, map, min};
ghost use Rattle.std.specs.List.{sum};
ghost use Rattle.pql_model.specs.Parameters.{in_change, in_expr, in_from, in_item, in_kind, in_member, in_option, in_path, in_select, in_setting, in_source, in_statement, in_step};

use crate::expr::{Expr, Member, Path, PathStep};
use crate::statement::{
    Change, FromClause, Select, SelectItem, Setting, Source, SourceKind, Statement,
};

/// How many `?` the statement has, 2^32 - 1 where there are more. It takes no memory.
pub fn parameters(s: &Statement) -> u32
    ensures { result ≡ min (in_statement s.now) (2 ^ 32 - 1) }
{
    match s {
        Statement::Select { select, from } => in_select(select).saturating_add(in_from(from)),
        Statement::Insert { table: _, value } => in_expr(value),
        Statement::Update { from, change } => in_from(from).saturating_add(in_change(change)),
        Statement::From { from, change } => in_from(from).saturating_add(in_change(change)),
        Statement::Delete { from } => in_from(from),
        Statement::Redact {
            address,
            table,
            document,
        } => in_expr(address)
            .saturating_add(in_expr(table))
            .saturating_add(in_expr(document)),
        _ => 0,
    }
}

fn in_select(select: &Select) -> u32
    ensures { result ≡ min (in_select select.now) (2 ^ 32 - 1) }
{
    match select {
        Select::Star => 0,
        Select::Value(e) => in_expr(e),
        Select::Items(items) => in_items(items.as_slice()),
    }
}

fn in_items(items: &[SelectItem]) -> u32
    ensures { result ≡ min (sum (map in_item items.now)) (2 ^ 32 - 1) }
{
    let mut count: u32 = 0;
    for item in items {
        count = count.saturating_add(in_expr(&item.value));
    }
    count
}

fn in_from(from: &FromClause) -> u32
    ensures { result ≡ min (in_from from.now) (2 ^ 32 - 1) }
{
    in_sources(from.sources.as_slice()).saturating_add(in_option(&from.filter))
}

fn in_sources(sources: &[Source]) -> u32
    ensures { result ≡ min (sum (map in_source sources.now)) (2 ^ 32 - 1) }
{
    let mut count: u32 = 0;
    for source in sources {
        count = count.saturating_add(in_source(source));
    }
    count
}

fn in_source(source: &Source) -> u32
    ensures { result ≡ min (in_source source.now) (2 ^ 32 - 1) }
{
    in_kind(&source.from).saturating_add(in_option(&source.on))
}

fn in_kind(kind: &SourceKind) -> u32
    ensures { result ≡ min (in_kind kind.now) (2 ^ 32 - 1) }
{
    match kind {
        SourceKind::Table { name: _ } => 0,
        SourceKind::History {
            table: _,
            start,
            end,
        } => in_option(start).saturating_add(in_option(end)),
        SourceKind::Path(path) => in_path(path),
    }
}

fn in_change(change: &Change) -> u32
    ensures { result ≡ min (in_change change.now) (2 ^ 32 - 1) }
{
    match change {
        Change::Set(settings) => in_settings(settings.as_slice()),
        Change::Insert { target, value, at } => in_path(target)
            .saturating_add(in_expr(value))
            .saturating_add(in_option(at)),
        Change::Remove { target } => in_path(target),
    }
}

fn in_settings(settings: &[Setting]) -> u32
    ensures { result ≡ min (sum (map in_setting settings.now)) (2 ^ 32 - 1) }
{
    let mut count: u32 = 0;
    for setting in settings {
        count = count.saturating_add(in_setting(setting));
    }
    count
}

fn in_setting(setting: &Setting) -> u32
    ensures { result ≡ min (in_setting setting.now) (2 ^ 32 - 1) }
{
    in_path(&setting.target).saturating_add(in_expr(&setting.value))
}

fn in_option(e: &Option<Expr>) -> u32
    ensures { result ≡ min (in_option e.now) (2 ^ 32 - 1) }
{
    match e {
        Some(e) => in_expr(e),
        None => 0,
    }
}

#[cycle(count)]
fn in_expr(e: &Expr) -> u32
    ensures { result ≡ min (in_expr e.now) (2 ^ 32 - 1) }
{
    match e {
        Expr::Value(_) => 0,
        Expr::Missing => 0,
        Expr::Parameter(_) => 1,
        Expr::Path(path) => in_path(path),
        Expr::Negate(e) => in_expr(e.get()),
        Expr::Not(e) => in_expr(e.get()),
        Expr::List(all) => in_exprs(all.as_slice()),
        Expr::Struct(members) => in_members(members.as_slice()),
        Expr::Binary { op: _, left, right } => in_expr(left.get()).saturating_add(in_expr(
            right.get(),
        )),
        Expr::IsIn { value, list } => in_expr(value.get()).saturating_add(in_expr(list.get())),
        Expr::Like { value, pattern } => in_expr(value.get()).saturating_add(in_expr(
            pattern.get(),
        )),
        Expr::Between { value, low, high } => in_expr(value.get())
            .saturating_add(in_expr(low.get()))
            .saturating_add(in_expr(high.get())),
        Expr::IsNull(e) => in_expr(e.get()),
        Expr::IsMissing(e) => in_expr(e.get()),
        Expr::Coalesce(all) => in_exprs(all.as_slice()),
        Expr::Size(e) => in_expr(e.get()),
        Expr::CharLength(e) => in_expr(e.get()),
        Expr::CountAll => 0,
        Expr::Count(e) => in_expr(e.get()),
        Expr::Sum(e) => in_expr(e.get()),
        Expr::Min(e) => in_expr(e.get()),
        Expr::Max(e) => in_expr(e.get()),
    }
}

#[cycle(count)]
fn in_exprs(all: &[Expr]) -> u32
    ensures { result ≡ min (sum (map in_expr all.now)) (2 ^ 32 - 1) }
{
    let mut count: u32 = 0;
    for e in all {
        count = count.saturating_add(in_expr(e));
    }
    count
}

#[cycle(count)]
fn in_members(members: &[Member]) -> u32
    ensures { result ≡ min (sum (map in_member members.now)) (2 ^ 32 - 1) }
{
    let mut count: u32 = 0;
    for member in members {
        count = count.saturating_add(in_expr(&member.value));
    }
    count
}

#[cycle(count)]
fn in_path(path: &Path) -> u32
    ensures { result ≡ min (in_path path.now) (2 ^ 32 - 1) }
{
    in_steps(path.steps.as_slice())
}

#[cycle(count)]
fn in_steps(steps: &[PathStep]) -> u32
    ensures { result ≡ min (sum (map in_step steps.now)) (2 ^ 32 - 1) }
{
    let mut count: u32 = 0;
    for step in steps {
        count = count.saturating_add(in_step(step));
    }
    count
}

#[cycle(count)]
fn in_step(step: &PathStep) -> u32
    ensures { result ≡ min (in_step step.now) (2 ^ 32 - 1) }
{
    match step {
        PathStep::Field(_) => 0,
        PathStep::Index(e) => in_expr(e),
    }
}
