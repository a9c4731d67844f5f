//! What a statement owes beyond its grammar, judged by the marks that were set in reading it.
ghost use Rattle.std.specs.Prelude.{◌≡◌, IfOk, option_map};
ghost use Rattle.pql_model.specs.Rules as spec;
ghost use Rattle.pql_parse.specs.Ruled.{fault_of};
ghost use Rattle.pql_parse.specs.Scoped.{IsScope};

mod aggregates;
mod meanings;
mod names;
mod places;

use crate::rules::aggregates::first_mixed;
use crate::rules::meanings::{Meanings, is_target, meanings_of};
use crate::rules::names::{Firsts, first_known, first_variables, is_before};
use crate::rules::places::{is_path_at, seen_by};
use containers::OutOfMemory;
use pql_model::{Mark, ParseKind, Place, Role, Source, Statement};
use std::alloc::Global;

/// What is wrong with a token, and the offset of its first byte.
#[derive(Clone, Copy)]
pub struct Fault {
    pub at: usize,
    pub kind: ParseKind,
}

/// The sources of a statement.
pub fn sources_of(statement: &Statement) -> &[Source]
    ensures { result.now ≡ spec.sources_of statement.now }
{
    match statement {
        Statement::Select { select: _, from } => from.sources.as_slice(),
        Statement::Update { from, change: _ } => from.sources.as_slice(),
        Statement::From { from, change: _ } => from.sources.as_slice(),
        Statement::Delete { from } => from.sources.as_slice(),
        _ => &[],
    }
}

/// The sources, and tables of what their names mean.
#[derive(Drop)]
struct Scope<'a> {
    sources: &'a [Source],
    known: Firsts<'a>,
    variables: Firsts<'a>,
    meanings: Meanings<'a>,
}

/// The first fault in text order, if there is one.
pub fn broken(
    alloc: Global,
    sources: &[Source],
    marks: &[Mark],
) -> Result<Option<Fault>, OutOfMemory>
    ensures { IfOk result (λ fault. option_map fault_of fault ≡ spec.broken sources.now marks.now) }
{
    let scope = Scope {
        sources,
        known: first_known(alloc, sources)?,
        variables: first_variables(alloc, sources)?,
        meanings: meanings_of(alloc, sources)?,
    };
    Ok(earlier(first_misplaced(&scope, marks), first_mixed(marks)))
}

/// The earlier of two faults, and of two at one place the first.
fn earlier(first: Option<Fault>, second: Option<Fault>) -> Option<Fault>
    ensures { option_map fault_of result ≡ spec.earlier (option_map fault_of first) (option_map fault_of second) }
{
    let Some(a) = first else {
        return second;
    };
    match second {
        Some(b) if b.at < a.at => Some(b),
        _ => Some(a),
    }
}

/// The first fault in names, in BY and in targets.
fn first_misplaced(scope: &Scope<'_>, marks: &[Mark]) -> Option<Fault>
    requires { IsScope scope.now }
    ensures { option_map fault_of result ≡ spec.first_fault (λ m.
        spec.judged m.place m.role scope.now.sources.now) marks.now }
{
    'marks: for mark in marks {
        if let Some(kind) = judged(scope, mark) {
            return Some(Fault { at: mark.at, kind });
        }
    }
    None
}

fn judged(scope: &Scope<'_>, mark: &Mark) -> Option<ParseKind>
    requires { IsScope scope.now }
    ensures { result ≡ spec.judged mark.now.place mark.now.role scope.now.sources.now }
{
    match &mark.role {
        Role::Name(name) => judged_name(scope, mark.place, name.as_str()),
        Role::Root(name) => judged_root(scope, mark.place, name.as_str()),
        Role::By => judged_by(scope, mark.place),
        Role::Target { name, has_steps } => judged_target(scope, name.as_str(), *has_steps),
        _ => None,
    }
}

fn unless(holds: bool, kind: ParseKind) -> Option<ParseKind>
    ensures { result ≡ spec.unless holds kind }
{
    if holds { None } else { Some(kind) }
}

/// A name is that of a source that the expression sees, or of a field of the only source.
#[tactic(auto, using(crate::proofs::ResolvedNames::known))]
fn judged_name(scope: &Scope<'_>, place: Place, name: &str) -> Option<ParseKind>
    requires { IsScope scope.now }
    ensures { result ≡ spec.judged_name place name.now scope.now.sources.now }
{
    let seen = seen_by(place, scope.sources);
    let holds = is_before(&scope.known, name, seen) || scope.sources.len() == 1;
    unless(holds, ParseKind::UnknownName)
}

/// The root of a path source is a variable of an earlier source.
fn judged_root(scope: &Scope<'_>, place: Place, name: &str) -> Option<ParseKind>
    requires { IsScope scope.now }
    ensures { result ≡ spec.judged_root place name.now scope.now.sources.now }
{
    let seen = seen_by(place, scope.sources);
    let holds = !is_path_at(place, scope.sources) || is_before(&scope.variables, name, seen);
    unless(holds, ParseKind::UnknownName)
}

/// BY stands behind a table or a history.
fn judged_by(scope: &Scope<'_>, place: Place) -> Option<ParseKind>
    requires { IsScope scope.now }
    ensures { result ≡ spec.judged_by place scope.now.sources.now }
{
    unless(!is_path_at(place, scope.sources), ParseKind::BadTarget)
}

/// The path of a change begins at a table's variable and has a step.
#[tactic(auto, using(crate::proofs::ResolvedNames::target))]
fn judged_target(scope: &Scope<'_>, name: &str, has_steps: bool) -> Option<ParseKind>
    requires { IsScope scope.now }
    ensures { result ≡ spec.judged_target name.now has_steps scope.now.sources.now }
{
    let meant = scope.meanings.get(name).copied();
    let holds = is_target(has_steps, scope.sources, meant);
    unless(holds, ParseKind::BadTarget)
}
