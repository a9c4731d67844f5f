//! Expressions with all that is in them.
ghost use Rattle.std.specs.Prelude.{◌≡◌, map, slice_get, IfOk};
ghost use Rattle.std.specs.Option.{option_copied};
ghost use Rattle.pql_model.specs.Meaning as spec;
ghost use Rattle.pql_model.specs.Made.{found};
ghost use Rattle.pql_model.specs.Meaning.{before, each, meaning, meaning_of_member, meaning_of_path, meaning_of_step, under};
ghost use Rattle.pql_model.specs.declared.scope.Evaluated.TheVariants.{Found};
ghost use Rattle.pql_expr.specs.Contexts.{context_of};
ghost use Rattle.pql_model.specs.Lists as lists_spec;
ghost use Rattle.pql_expr.specs.Words.{with_one, with_two};

use crate::context::Context;
use crate::made::{answer, is_unknown, null, truth};
use crate::operators::{between, settled};
use crate::paths::{Root, at_index, copied, id_value, root_of};
use crate::words::{OneOperand, TwoOperands, with_lent, with_one, with_two, with_value};
use containers::{OutOfMemory, Sequence};
use ion_values::{Body, Field, Value, copy};
use pql_model::{Evaluated, Expr, Member, Path, PathStep, Scope, field_of};
use std::alloc::Global;

/// The meaning of the expression under one row and the parameters: MISSING or a value. A parameter
/// that is not there is MISSING, and so are a name that means nothing and an aggregate.
pub fn eval(
    alloc: Global,
    e: &Expr,
    scope: &Scope,
    params: &[Value],
) -> Result<Evaluated, OutOfMemory>
    ensures { IfOk result (λ answer. answer ≡ meaning e.now (under scope.now params.now)) }
{
    let context = Context {
        scope: scope.as_slice(),
        is_whole: true,
        params,
    };
    eval_in(alloc, e, &context)
}

/// What the path of a source leads to, from the sources before it, MISSING where it leads nowhere.
pub fn eval_source_path(
    alloc: Global,
    path: &Path,
    scope: &Scope,
    params: &[Value],
) -> Result<Evaluated, OutOfMemory>
    ensures { IfOk result (λ answer. answer ≡ meaning_of_path path.now (before scope.now params.now)) }
{
    let context = Context {
        scope: scope.as_slice(),
        is_whole: false,
        params,
    };
    path_in(alloc, path, &context)
}

fn parameter(number: u32, params: &[Value]) -> Option<&Value>
    ensures { option_copied result ≡ slice_get params.now number }
{
    params.get(number as usize)
}

#[cycle(eval)]
fn eval_in(alloc: Global, e: &Expr, context: &Context<'_>) -> Result<Evaluated, OutOfMemory>
    ensures { IfOk result (λ answer. answer ≡ meaning e.now (context_of context.now)) }
{
    match e {
        Expr::Value(v) => copied(alloc, Some(v)),
        Expr::Missing => Ok(Evaluated::Missing),
        Expr::Parameter(number) => copied(alloc, parameter(*number, context.params)),
        Expr::Path(path) => path_in(alloc, path, context),
        Expr::Negate(e) => of_one(alloc, OneOperand::Negate, e.get(), context),
        Expr::Not(e) => of_one(alloc, OneOperand::Not, e.get(), context),
        Expr::List(es) => list_in(alloc, es.as_slice(), context),
        Expr::Struct(members) => struct_in(alloc, members.as_slice(), context),
        Expr::Binary { op, left, right } => {
            let left = eval_in(alloc, left.get(), context)?;
            if let Some(holds) = settled(*op, &left) {
                return Ok(truth(alloc, holds));
            }
            of_two(
                alloc,
                TwoOperands::Operator(*op),
                left,
                right.get(),
                context,
            )
        }
        Expr::IsIn { value, list } => {
            let value = eval_in(alloc, value.get(), context)?;
            of_two(alloc, TwoOperands::In, value, list.get(), context)
        }
        Expr::Like { value, pattern } => {
            let value = eval_in(alloc, value.get(), context)?;
            of_two(alloc, TwoOperands::Like, value, pattern.get(), context)
        }
        Expr::Between { value, low, high } => {
            let value = eval_in(alloc, value.get(), context)?;
            let low = eval_in(alloc, low.get(), context)?;
            between_in(alloc, value, low, high.get(), context)
        }
        Expr::IsNull(e) => of_one(alloc, OneOperand::IsNull, e.get(), context),
        Expr::IsMissing(e) => of_one(alloc, OneOperand::IsMissing, e.get(), context),
        Expr::Coalesce(es) => first_known(alloc, es.as_slice(), context),
        Expr::Size(e) => of_one(alloc, OneOperand::Size, e.get(), context),
        Expr::CharLength(e) => of_one(alloc, OneOperand::CharLength, e.get(), context),
        Expr::CountAll | Expr::Count(_) | Expr::Sum(_) | Expr::Min(_) | Expr::Max(_) => {
            Ok(Evaluated::Missing)
        }
    }
}

#[cycle(eval)]
fn of_one(
    alloc: Global,
    word: OneOperand,
    e: &Expr,
    context: &Context<'_>,
) -> Result<Evaluated, OutOfMemory>
    ensures { IfOk result (λ answer. answer ≡ with_one word (meaning e.now (context_of context.now))) }
{
    let found = eval_in(alloc, e, context)?;
    Ok(with_one(alloc, word, &found))
}

#[cycle(eval)]
fn of_two(
    alloc: Global,
    word: TwoOperands,
    left: Evaluated,
    right: &Expr,
    context: &Context<'_>,
) -> Result<Evaluated, OutOfMemory>
    ensures { IfOk result (λ answer. answer ≡ with_two word left (meaning right.now (context_of context.now))) }
{
    match right {
        Expr::Value(v) => with_value(alloc, word, &left, v),
        Expr::Parameter(number) => {
            with_lent(alloc, word, &left, parameter(*number, context.params))
        }
        _ => {
            let right = eval_in(alloc, right, context)?;
            with_two(alloc, word, &left, &right)
        }
    }
}

#[cycle(eval)]
fn between_in(
    alloc: Global,
    value: Evaluated,
    low: Evaluated,
    high: &Expr,
    context: &Context<'_>,
) -> Result<Evaluated, OutOfMemory>
    ensures { IfOk result (λ answer. answer ≡ lists_spec.between value low
        (meaning high.now (context_of context.now))) }
{
    let high = eval_in(alloc, high, context)?;
    between(alloc, &value, &low, &high)
}

#[cycle(eval)]
fn path_in(alloc: Global, path: &Path, context: &Context<'_>) -> Result<Evaluated, OutOfMemory>
    ensures { IfOk result (λ answer. answer ≡ meaning_of_path path.now (context_of context.now)) }
{
    let steps = path.steps.as_slice();
    match root_of(path.first.as_str(), context.is_whole, context.scope) {
        Root::Nothing => Ok(Evaluated::Missing),
        Root::Value(v) => walked(alloc, steps, v, context),
        Root::Id(id) => {
            let text = id_value(alloc, id)?;
            walked(alloc, steps, &text, context)
        }
    }
}

// A copy of what the steps lead to.
#[cycle(eval)]
fn walked(
    alloc: Global,
    steps: &[PathStep],
    from: &Value,
    context: &Context<'_>,
) -> Result<Evaluated, OutOfMemory>
    ensures { IfOk result (λ answer. answer ≡ spec.walked (map meaning_of_step steps.now) (context_of context.now)
        (Found from.now)) }
{
    let mut at = from;
    'steps: for step in steps {
        match step_in(alloc, step, at, context)? {
            Some(next) => at = next,
            None => return Ok(Evaluated::Missing),
        }
    }
    Ok(Evaluated::Found(copy(alloc, at)?))
}

#[cycle(eval)]
fn step_in<'a>(
    alloc: Global,
    step: &PathStep,
    from: &'a Value,
    context: &Context<'_>,
) -> Result<Option<&'a Value>, OutOfMemory>
    ensures { IfOk result (λ v. found (option_copied v) ≡ meaning_of_step step.now (context_of context.now)
        (Found from.now)) }
{
    match step {
        PathStep::Field(name) => Ok(field_of(name.as_str(), from)),
        PathStep::Index(index) => {
            let index = eval_in(alloc, index, context)?;
            Ok(at_index(&index, from))
        }
    }
}

#[cycle(eval)]
fn list_in(alloc: Global, es: &[Expr], context: &Context<'_>) -> Result<Evaluated, OutOfMemory>
    ensures { IfOk result (λ answer. answer ≡ lists_spec.list_of (each (map meaning es.now) (context_of context.now))) }
{
    let mut values = Sequence::new(alloc);
    'members: for e in es {
        match eval_in(alloc, e, context)? {
            Evaluated::Missing => {}
            Evaluated::Found(v) => values.push(v)?,
        }
    }
    Ok(answer(alloc, Body::List(values)))
}

#[cycle(eval)]
fn struct_in(
    alloc: Global,
    members: &[Member],
    context: &Context<'_>,
) -> Result<Evaluated, OutOfMemory>
    ensures { IfOk result (λ answer. answer ≡ lists_spec.struct_of (each (map meaning_of_member members.now)
        (context_of context.now))) }
{
    let mut fields = Sequence::new(alloc);
    'members: for member in members {
        match eval_in(alloc, &member.value, context)? {
            Evaluated::Missing => {}
            Evaluated::Found(value) => fields.push(Field {
                name: member.name.copy(alloc)?,
                value,
            })?,
        }
    }
    Ok(answer(alloc, Body::Struct(fields)))
}

#[cycle(eval)]
fn first_known(alloc: Global, es: &[Expr], context: &Context<'_>) -> Result<Evaluated, OutOfMemory>
    ensures { IfOk result (λ answer. answer ≡ lists_spec.coalesce
        (each (map meaning es.now) (context_of context.now))) }
{
    'members: for e in es {
        let found = eval_in(alloc, e, context)?;
        if !is_unknown(&found) {
            return Ok(found);
        }
    }
    Ok(null(alloc))
}
