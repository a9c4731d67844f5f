//! What names mean in a row, and the steps of paths.
ghost use Rattle.std.specs.Prelude.{◌≡◌, IfOk};
ghost use Rattle.std.specs.Option.{option_copied};
ghost use Rattle.ql_types.specs.Ids.{id_text};
ghost use Rattle.ion_values.specs.declared.value.Body.TheVariants as body;
ghost use Rattle.pql_model.specs.Made.{found, made, onward, seen};
ghost use Rattle.pql_model.specs.Steps as spec;
ghost use Rattle.pql_expr.specs.Contexts.{meant_at};

use containers::{OutOfMemory, Sequence};
use ion_values::{Body, Value, copy};
use pql_model::{Bound, Evaluated, Resolved, field_of, id_text, resolve};
use ql_types::DocId;
use std::alloc::Global;

fn at_place(place: i128, values: &[Value]) -> Option<&Value>
    ensures { option_copied result ≡ spec.at_place place values.now }
{
    let Ok(place) = usize::try_from(place) else {
        return None;
    };
    values.get(place)
}

fn element_of(place: i128, v: &Value) -> Option<&Value>
    ensures { option_copied result ≡ spec.element_seen place (seen v.now) }
{
    match &v.body {
        Body::List(values) | Body::Sexp(values) => at_place(place, values.as_slice()),
        _ => None,
    }
}

/// By an int, that element of a list or sexp; by a text, the field of that name.
pub fn indexed<'a>(index: &Value, v: &'a Value) -> Option<&'a Value>
    ensures { option_copied result ≡ spec.indexed index.now v.now }
{
    match &index.body {
        Body::Int(place) => element_of(*place, v),
        Body::Symbol(name) | Body::String(name) => field_of(name.as_str(), v),
        _ => None,
    }
}

/// A copy of the value, and MISSING where there is none.
pub fn copied(alloc: Global, v: Option<&Value>) -> Result<Evaluated, OutOfMemory>
    ensures { IfOk result (λ e. e ≡ found (option_copied v.entry)) }
{
    match v {
        Some(v) => Ok(Evaluated::Found(copy(alloc, v)?)),
        None => Ok(Evaluated::Missing),
    }
}

/// The step `[index]`.
pub fn at_index<'a>(index: &Evaluated, from: &'a Value) -> Option<&'a Value>
    ensures { found (option_copied result) ≡ onward (λ w. found (spec.indexed w from.now)) index.now }
{
    match index {
        Evaluated::Missing => None,
        Evaluated::Found(index) => indexed(index, from),
    }
}

/// An id as a string.
pub fn id_value(alloc: Global, id: DocId) -> Result<Value, OutOfMemory>
    ensures { IfOk result (λ v. v ≡ made (body.String (id_text id.raw))) }
{
    Ok(Value {
        annotations: Sequence::new(alloc),
        body: Body::String(id_text(alloc, id.raw)?),
    })
}

/// What the first name of a path means: nothing, a value of the row, or the id of its document.
pub enum Root<'a> {
    Nothing,
    Value(&'a Value),
    Id(DocId),
}

fn value_or_nothing<'a>(v: Option<&'a Value>) -> Root<'a>
    ensures { meant_at result ≡ found (option_copied v.entry) }
{
    match v {
        Some(v) => Root::Value(v),
        None => Root::Nothing,
    }
}

fn id_or_nothing<'a>(id: Option<DocId>) -> Root<'a>
    ensures { meant_at result ≡ spec.id_answer id }
{
    match id {
        Some(id) => Root::Id(id),
        None => Root::Nothing,
    }
}

fn of_source<'a>(resolved: Resolved, bound: &'a Bound) -> Root<'a>
    ensures { meant_at result ≡ spec.meant_by resolved bound.now }
{
    match resolved {
        Resolved::Variable(_) => Root::Value(&bound.value),
        Resolved::Id(_) => id_or_nothing(bound.id),
    }
}

fn in_row<'a>(resolved: Resolved, scope: &'a [Bound]) -> Root<'a>
    ensures { meant_at result ≡ spec.meant_in scope.now resolved }
{
    let (Resolved::Variable(place) | Resolved::Id(place)) = resolved;
    match scope.get(place) {
        Some(bound) => of_source(resolved, bound),
        None => Root::Nothing,
    }
}

fn field_of_only<'a>(name: &str, is_whole: bool, scope: &'a [Bound]) -> Option<&'a Value>
    ensures { found (option_copied result) ≡ spec.field_of_only name.now is_whole scope.now }
{
    match scope {
        [only] if is_whole => field_of(name, &only.value),
        _ => None,
    }
}

/// What the first name of a path means in a row, which may have all sources of the statement or not.
pub fn root_of<'a>(name: &str, is_whole: bool, scope: &'a [Bound]) -> Root<'a>
    ensures { meant_at result ≡ spec.named name.now is_whole scope.now }
{
    match resolve(name, scope) {
        Some(resolved) => in_row(resolved, scope),
        None => value_or_nothing(field_of_only(name, is_whole, scope)),
    }
}
