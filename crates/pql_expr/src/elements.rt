//! The elements and the members of containers.
ghost use Rattle.std.specs.Prelude.{◌≡◌};
ghost use Rattle.std.specs.Option.{option_copied};
ghost use Rattle.pql_model.specs.Lists as spec;
ghost use Rattle.pql_model.specs.Lists.{is_equal_to, is_null_answer};
ghost use Rattle.pql_model.specs.Logic.{is_true, truth_in};
ghost use Rattle.pql_model.specs.declared.scope.Evaluated.TheVariants.{Found};

use crate::comparisons::are_equal;
use crate::made::{answer, is_null, null, truth};
use ion_values::{Body, Value};
use pql_model::Evaluated;
use std::alloc::Global;

// Whether `=` is true.
fn is_equal(x: &Evaluated, v: &Value) -> bool
    ensures { result ≡ is_true (truth_in (is_equal_to x.now v.now)) }
{
    match x {
        Evaluated::Missing => false,
        Evaluated::Found(x) => !is_null(x) && !is_null(v) && are_equal(x, v),
    }
}

// Whether `=` is NULL.
fn is_unclear(x: &Evaluated, v: &Value) -> bool
    ensures { result ≡ is_null_answer (is_equal_to x.now v.now) }
{
    match x {
        Evaluated::Missing => false,
        Evaluated::Found(x) => is_null(x) || is_null(v),
    }
}

// True where `=` is true for a value, else NULL where it is NULL for one, else false.
fn is_among(alloc: Global, x: &Evaluated, values: &[Value]) -> Evaluated
    ensures { result ≡ spec.is_among x.now values.now }
{
    let mut unclear = false;
    'values: for value in values {
        if is_equal(x, value) {
            return truth(alloc, true);
        }
        unclear = unclear || is_unclear(x, value);
    }
    if unclear {
        null(alloc)
    } else {
        truth(alloc, false)
    }
}

/// IN with a value on the right side, which is MISSING where that is no list.
pub fn is_in_value(alloc: Global, x: &Evaluated, list: &Value) -> Evaluated
    ensures { result ≡ spec.is_in x.now (Found list.now) }
{
    match &list.body {
        Body::List(values) => is_among(alloc, x, values.as_slice()),
        _ => Evaluated::Missing,
    }
}

/// IN, which is MISSING where the second is no list.
pub fn is_in(alloc: Global, x: &Evaluated, list: &Evaluated) -> Evaluated
    ensures { result ≡ spec.is_in x.now list.now }
{
    match list {
        Evaluated::Missing => Evaluated::Missing,
        Evaluated::Found(list) => is_in_value(alloc, x, list),
    }
}

fn members_of(v: &Value) -> Option<usize>
    ensures { result ≡ spec.members_of v.now }
{
    match &v.body {
        Body::List(values) | Body::Sexp(values) => Some(values.len()),
        Body::Struct(fields) => Some(fields.len()),
        _ => None,
    }
}

fn size_of(alloc: Global, v: &Value) -> Evaluated
    ensures { result ≡ spec.size_of v.now }
{
    if is_null(v) {
        return null(alloc);
    }
    match members_of(v) {
        Some(members) => answer(alloc, Body::Int(members as i128)),
        None => Evaluated::Missing,
    }
}

/// The number of members of a container, NULL for null.
pub fn size(alloc: Global, e: &Evaluated) -> Evaluated
    ensures { result ≡ spec.size e.now }
{
    match e {
        Evaluated::Missing => Evaluated::Missing,
        Evaluated::Found(v) => size_of(alloc, v),
    }
}
