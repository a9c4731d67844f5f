//! SET, INSERT and REMOVE on one document.
ghost use Rattle.std.specs.Prelude.{◌≡◌, map, IfOk};
ghost use Rattle.std.specs.Option.{option_map};
ghost use Rattle.pql_model.specs.Changes as spec;
ghost use Rattle.pql_model.specs.Meaning.{meaning};
ghost use Rattle.pql_change.specs.Contexts.{context_of};

use crate::along::changed;
use crate::context::Context;
use crate::edits::Edit;
use crate::selectors::selectors;
use containers::OutOfMemory;
use ion_values::{Value, copy};
use pql_expr::eval;
use pql_model::{Change, Evaluated, Expr, Path, Scope, Setting};
use std::alloc::Global;

/// The document after one path of a SET, which the value's expression and the path's indexes read
/// from the row.
pub fn set(context: &Context<'_>, document: Value, setting: &Setting) -> Result<Value, OutOfMemory>
    ensures { IfOk result
        (λ new. new ≡ spec.set_by (context_of context.now) setting.now.target setting.now.value document) }
{
    let Evaluated::Found(new) = eval(context.alloc, &setting.value, context.scope, context.params)?
    else {
        return Ok(document);
    };
    let mut path = selectors(context, &setting.target)?;
    match path.pop() {
        Some(member) => changed(
            context.alloc,
            document,
            path.as_slice(),
            Edit::Set { member, new },
        ),
        None => Ok(document),
    }
}

fn place(context: &Context<'_>, at: &Option<Expr>) -> Result<Option<Evaluated>, OutOfMemory>
    ensures { IfOk result (λ place. place ≡ option_map (λ e. meaning e (context_of context.now)) at.now) }
{
    match at {
        Some(e) => Ok(Some(eval(context.alloc, e, context.scope, context.params)?)),
        None => Ok(None),
    }
}

/// The document after an INSERT.
pub fn insert(
    context: &Context<'_>,
    document: Value,
    target: &Path,
    value: &Expr,
    at: &Option<Expr>,
) -> Result<Value, OutOfMemory>
    ensures { IfOk result
        (λ new. new ≡ spec.insert_by (context_of context.now) target.now value.now at.now document) }
{
    let Evaluated::Found(new) = eval(context.alloc, value, context.scope, context.params)? else {
        return Ok(document);
    };
    let at = place(context, at)?;
    let path = selectors(context, target)?;
    if path.is_empty() {
        return Ok(document);
    }
    changed(
        context.alloc,
        document,
        path.as_slice(),
        Edit::Put { at, new },
    )
}

/// The document after a REMOVE.
pub fn remove(context: &Context<'_>, document: Value, target: &Path) -> Result<Value, OutOfMemory>
    ensures { IfOk result (λ new. new ≡ spec.remove_by (context_of context.now) target.now document) }
{
    let mut path = selectors(context, target)?;
    match path.pop() {
        Some(member) => changed(
            context.alloc,
            document,
            path.as_slice(),
            Edit::Remove { member },
        ),
        None => Ok(document),
    }
}

fn set_all(
    context: &Context<'_>,
    document: Value,
    settings: &[Setting],
) -> Result<Value, OutOfMemory>
    ensures { IfOk result
        (λ new. new ≡ spec.altered (map (spec.setting (context_of context.now)) settings.now) document) }
{
    let mut document = document;
    'settings: for setting in settings {
        document = set(context, document, setting)?;
    }
    Ok(document)
}

/// What the change makes of a copy of the document, which is that of its paths' root as it stands by
/// then. Its expressions are read from the row. Where a path leads nowhere, or a value is MISSING, the
/// document stays as it is.
pub fn apply(
    alloc: Global,
    change: &Change,
    document: &Value,
    scope: &Scope,
    params: &[Value],
) -> Result<Value, OutOfMemory>
    ensures { IfOk result (λ new. new ≡ spec.applied params.now scope.now change.now document.now) }
{
    let document = copy(alloc, document)?;
    let context = Context {
        alloc,
        scope,
        params,
    };
    match change {
        Change::Set(settings) => set_all(&context, document, settings.as_slice()),
        Change::Insert { target, value, at } => insert(&context, document, target, value, at),
        Change::Remove { target } => remove(&context, document, target),
    }
}
