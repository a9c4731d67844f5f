//! Sides of parts of a condition.
ghost use Rattle.std.specs.Prelude.{◌≡◌, List, Option, map, option_map, slice_get, IfOk};
ghost use Rattle.std.specs.Option.{option_copied};
ghost use Rattle.ion_values.specs.declared.value.Value.{Value};
ghost use Rattle.ledger_model.specs.Conditions as spec;
ghost use Rattle.footprints.specs.Lent.{side_of, texts, with_member};
ghost use Rattle.footprints.specs.Sides.{path_side, step_of};

use containers::Sequence;
use ion_values::{OutOfMemory, Text, Value};
use pql_model::{Expr, Path, PathStep};
use std::alloc::Global;

/// What an expression is as a side of a part: a constant, MISSING, a path of names, a list of constants without those
/// that are MISSING, or anything else.
#[derive(Drop)]
pub(crate) enum Side<'a> {
    Constant(&'a Value),
    Missing,
    Names {
        first: &'a Text,
        fields: Sequence<&'a Text>,
    },
    Constants(Sequence<&'a Value>),
    Other,
}

/// What the expression is as a side.
pub(crate) fn side_of<'a>(
    alloc: Global,
    e: &'a Expr,
    params: &'a [Value],
) -> Result<Side<'a>, OutOfMemory>
    ensures { IfOk result (λ s. side_of s ≡ (spec.condition_of params.now e.now).side) }
{
    match e {
        Expr::Value(value) => Ok(Side::Constant(value)),
        Expr::Missing => Ok(Side::Missing),
        Expr::Parameter(number) => Ok(given(params, *number)),
        Expr::Path(path) => path_side(alloc, path),
        Expr::List(members) => list_side(alloc, members.as_slice(), params),
        _ => Ok(Side::Other),
    }
}

/// What an expression is among the members of a list: a constant, MISSING, or neither.
#[derive(Clone, Copy)]
enum Member<'a> {
    Constant(&'a Value),
    Missing,
    Other,
}

fn member_of<'a>(e: &'a Expr, params: &'a [Value]) -> Member<'a>
    ensures { (more : Option (List Value)) → with_member result more
        ≡ spec.with_constant (spec.condition_of params.now e.now).side more }
{
    match e {
        Expr::Value(value) => Member::Constant(value),
        Expr::Missing => Member::Missing,
        Expr::Parameter(number) => match params.get(*number as usize) {
            Some(value) => Member::Constant(value),
            None => Member::Other,
        },
        _ => Member::Other,
    }
}

/// What a list of these members is as a side.
fn list_side<'a>(
    alloc: Global,
    members: &'a [Expr],
    params: &'a [Value],
) -> Result<Side<'a>, OutOfMemory>
    ensures { IfOk result (λ s. side_of s
        ≡ spec.list_side (spec.all_constants (map (spec.condition_of params.now) members.now))) }
{
    let mut values = Sequence::new(alloc);
    'members: for member in members {
        match member_of(member, params) {
            Member::Constant(value) => values.push(value)?,
            Member::Missing => {}
            Member::Other => return Ok(Side::Other),
        }
    }
    Ok(Side::Constants(values))
}

/// The value of the parameter of this number.
fn given(params: &[Value], number: u32) -> Side<'_>
    ensures { side_of result ≡ spec.given (slice_get params.now number) }
{
    match params.get(number as usize) {
        Some(value) => Side::Constant(value),
        None => Side::Other,
    }
}

/// What the path is as a side; a step by an index gives no name.
fn path_side<'a>(alloc: Global, path: &'a Path) -> Result<Side<'a>, OutOfMemory>
    ensures { (params : List Value) → IfOk result (λ s. side_of s ≡ path_side params path.now) }
{
    match all_names(alloc, path.steps.as_slice())? {
        Some(fields) => Ok(Side::Names {
            first: &path.first,
            fields,
        }),
        None => Ok(Side::Other),
    }
}

/// The names of the steps, where each has one.
fn all_names<'a>(
    alloc: Global,
    steps: &'a [PathStep],
) -> Result<Option<Sequence<&'a Text>>, OutOfMemory>
    ensures { (params : List Value) → IfOk result (λ o. option_map texts o
        ≡ spec.all_names (map (step_of params) steps.now)) }
{
    let mut names = Sequence::new(alloc);
    'steps: for step in steps {
        let Some(name) = name_of(step) else {
            return Ok(None);
        };
        names.push(name)?;
    }
    Ok(Some(names))
}

/// The name of the step; an index gives none.
fn name_of(step: &PathStep) -> Option<&Text>
    ensures { (params : List Value) → option_copied result ≡ step_of params step.now }
{
    match step {
        PathStep::Field(name) => Some(name),
        PathStep::Index(_) => None,
    }
}
