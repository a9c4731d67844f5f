//! The members that the path of a change asks for.
ghost use Rattle.std.specs.Prelude.{◌≡◌, ◌++◌, map, IfOk};
ghost use Rattle.pql_model.specs.Changes as spec;
ghost use Rattle.pql_model.specs.Names.{called_in_row, resolve};
ghost use Rattle.pql_change.specs.Contexts.{context_of};

use crate::context::Context;
use containers::{OutOfMemory, Sequence};
use ion_values::{Body, Value};
use pql_expr::eval;
use pql_model::{Evaluated, Path, PathStep, Scope, Selector, Selectors, resolve};
use std::alloc::Global;

/// What an index asks for: an int for an element, a text for a field.
fn selector_by(index: Evaluated) -> Selector
    ensures { result ≡ spec.selector_by index }
{
    let Evaluated::Found(index) = index else {
        return Selector::Nothing;
    };
    let Value {
        annotations: _,
        body,
    } = index;
    match body {
        Body::Int(place) => Selector::Element(place),
        Body::Symbol(name) | Body::String(name) => Selector::Field(name),
        _ => Selector::Nothing,
    }
}

fn selector(context: &Context<'_>, step: &PathStep) -> Result<Selector, OutOfMemory>
    ensures { IfOk result (λ s. s ≡ spec.step_selector (context_of context.now) step.now) }
{
    match step {
        PathStep::Field(name) => Ok(Selector::Field(name.copy(context.alloc)?)),
        PathStep::Index(index) => {
            let index = eval(context.alloc, index, context.scope, context.params)?;
            Ok(selector_by(index))
        }
    }
}

fn with_steps(
    context: &Context<'_>,
    before: Selectors,
    steps: &[PathStep],
) -> Result<Selectors, OutOfMemory>
    ensures { IfOk result (λ all. all ≡ before ++ map (spec.step_selector (context_of context.now)) steps.now) }
{
    let mut selectors = before;
    'steps: for step in steps {
        selectors.push(selector(context, step)?)?;
    }
    Ok(selectors)
}

/// The first name, where it is a field of the document.
fn left_out(alloc: Global, target: &Path, scope: &Scope) -> Result<Selectors, OutOfMemory>
    ensures { IfOk result
        (λ all. all ≡ spec.left_out target.now.first (resolve target.now.first (map called_in_row scope.now))) }
{
    let mut selectors = Sequence::new(alloc);
    match resolve(target.first.as_str(), scope.as_slice()) {
        Some(_) => Ok(selectors),
        None => {
            selectors.push(Selector::Field(target.first.copy(alloc)?))?;
            Ok(selectors)
        }
    }
}

/// What the path asks for, from the document on. Its indexes are read from the row.
pub fn selectors(context: &Context<'_>, target: &Path) -> Result<Selectors, OutOfMemory>
    ensures { IfOk result (λ all. all ≡ spec.selectors (context_of context.now) target.now) }
{
    let before = left_out(context.alloc, target, context.scope)?;
    with_steps(context, before, target.steps.as_slice())
}
