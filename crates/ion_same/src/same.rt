//! Values compared with the order of their fields.
ghost use Rattle.std.specs.Prelude.{◌≡◌, map};
ghost use Rattle.ion_values.specs.Equivalent.{in_order};
ghost use Rattle.ion_same.specs.Same as spec;

use ion_values::{Body, Field, Value, same_names};

/// Whether two values are equal, their fields in equal order. It takes no memory.
#[cycle(same)]
pub fn same_value(a: &Value, b: &Value) -> bool
    ensures { result ≡ spec.is_same a.now b.now }
{
    same_names(a.annotations.as_slice(), b.annotations.as_slice()) && same_body(&a.body, &b.body)
}

#[cycle(same)]
fn same_body(a: &Body, b: &Body) -> bool
    ensures { result ≡ spec.is_same_body a.now b.now }
{
    match (a, b) {
        (Body::Null(a), Body::Null(b)) => a == b,
        (Body::Bool(a), Body::Bool(b)) => a == b,
        (Body::Int(a), Body::Int(b)) => a == b,
        (Body::Decimal(a), Body::Decimal(b)) => a == b,
        (Body::Timestamp(a), Body::Timestamp(b)) => a == b,
        (Body::Symbol(a), Body::Symbol(b)) => a.as_str() == b.as_str(),
        (Body::String(a), Body::String(b)) => a.as_str() == b.as_str(),
        (Body::Clob(a), Body::Clob(b)) => a.as_slice() == b.as_slice(),
        (Body::Blob(a), Body::Blob(b)) => a.as_slice() == b.as_slice(),
        (Body::List(a), Body::List(b)) => same_values(a.as_slice(), b.as_slice()),
        (Body::Sexp(a), Body::Sexp(b)) => same_values(a.as_slice(), b.as_slice()),
        (Body::Struct(a), Body::Struct(b)) => same_fields(a.as_slice(), b.as_slice()),
        _ => false,
    }
}

/// Whether two lists of values are equal.
#[cycle(same)]
pub fn same_values(a: &[Value], b: &[Value]) -> bool
    ensures { result ≡ in_order (map spec.is_same a.now) b.now }
{
    if a.len() != b.len() {
        return false;
    }
    for at in 0..a.len() {
        if !same_value(&a[at], &b[at]) {
            return false;
        }
    }
    true
}

#[cycle(same)]
fn same_fields(a: &[Field], b: &[Field]) -> bool
    ensures { result ≡ in_order (map spec.is_same_field a.now) b.now }
{
    if a.len() != b.len() {
        return false;
    }
    for at in 0..a.len() {
        if !same_field(&a[at], &b[at]) {
            return false;
        }
    }
    true
}

#[cycle(same)]
fn same_field(a: &Field, b: &Field) -> bool
    ensures { result ≡ spec.is_same_field a.now b.now }
{
    a.name.as_str() == b.name.as_str() && same_value(&a.value, &b.value)
}

/// Law: two values are the same exactly if they are equal.
pub fn same_values_are_equal()
    ensures { spec.SameValuesAreEqual }
{}

/// Law: two lists of values are the same exactly if they are equal.
pub fn same_lists_are_equal()
    ensures { spec.SameListsAreEqual }
{}
