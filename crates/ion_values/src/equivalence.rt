ghost use Rattle.std.specs.Prelude.{◌≡◌, ◌==◌, ◌++◌, ◌∷◌, ◌≤◌, drop, length, map, IsTrue};
ghost use Rattle.std.specs.List.{count_by};
ghost use Rattle.ion_values.specs.Equivalent as spec;
ghost use Rattle.ion_values.specs.Equivalent.{differ_first, in_any_order, in_order, is_equivalent, is_equivalent_body, is_equivalent_field};

use crate::value::{Body, Field, Value};
use containers::Text;

/// Whether the values are equivalent by Ion's data model: annotations agree in order, structs are
/// compared as multisets of fields and lists and sexps in order, decimals by coefficient, exponent
/// and sign of zero, timestamps by each of their parts. It takes no memory.
///
/// Fields in equal order are compared once each. In any other order n fields cost about n * n
/// comparisons of names, and of values too where the names are equal.
#[cycle(equivalent)]
pub fn equivalent(a: &Value, b: &Value) -> bool
    ensures { result ≡ is_equivalent a.now b.now }
{
    same_names(a.annotations.as_slice(), b.annotations.as_slice()) && same_body(&a.body, &b.body)
}

#[cycle(equivalent)]
fn same_body(a: &Body, b: &Body) -> bool
    ensures { result ≡ is_equivalent_body a.now b.now }
{
    match (a, b) {
        (Body::Null(a), Body::Null(b)) => a == b,
        (Body::Bool(a), Body::Bool(b)) => a == b,
        (Body::Int(a), Body::Int(b)) => a == b,
        (Body::Decimal(a), Body::Decimal(b)) => a == b,
        (Body::Timestamp(a), Body::Timestamp(b)) => a == b,
        (Body::Symbol(a), Body::Symbol(b)) => a.as_str() == b.as_str(),
        (Body::String(a), Body::String(b)) => a.as_str() == b.as_str(),
        (Body::Clob(a), Body::Clob(b)) => a.as_slice() == b.as_slice(),
        (Body::Blob(a), Body::Blob(b)) => a.as_slice() == b.as_slice(),
        (Body::List(a), Body::List(b)) => same_values(a.as_slice(), b.as_slice()),
        (Body::Sexp(a), Body::Sexp(b)) => same_values(a.as_slice(), b.as_slice()),
        (Body::Struct(a), Body::Struct(b)) => same_fields(a.as_slice(), b.as_slice()),
        _ => false,
    }
}

/// Whether the names are equal, in their order.
pub fn same_names(a: &[Text], b: &[Text]) -> bool
    ensures { result ≡ spec.same_names a.now b.now }
{
    if a.len() != b.len() {
        return false;
    }
    for at in 0..a.len() {
        if a[at].as_str() != b[at].as_str() {
            return false;
        }
    }
    true
}

#[cycle(equivalent)]
fn same_values(a: &[Value], b: &[Value]) -> bool
    ensures { result ≡ in_order (map is_equivalent a.now) b.now }
{
    if a.len() != b.len() {
        return false;
    }
    for at in 0..a.len() {
        if !equivalent(&a[at], &b[at]) {
            return false;
        }
    }
    true
}

// Names first, so that values are compared only where the names are equal.
#[cycle(equivalent)]
fn same_field(a: &Field, b: &Field) -> bool
    ensures { result ≡ is_equivalent_field a.now b.now }
{
    a.name.as_str() == b.name.as_str() && equivalent(&a.value, &b.value)
}

// Fields in equal order are compared once each. From the first two on that differ, fields are
// counted.
#[cycle(equivalent)]
fn same_fields(a: &[Field], b: &[Field]) -> bool
    ensures { result ≡ in_any_order (map is_equivalent_field a.now) b.now }
{
    if a.len() != b.len() {
        return false;
    }
    for at in 0..a.len() {
        if !same_field(&a[at], &b[at]) {
            return same_counts(a, b, at);
        }
    }
    true
}

// Whether each field stands as often among the fields of `a` as among those of `b`, from the place
// `from` on, where the two differ. No field is compared with itself, and those two not again.
#[cycle(equivalent)]
fn same_counts(a: &[Field], b: &[Field], from: usize) -> bool
    requires lengths { length a.now ≡ length b.now }
    requires differ { IsTrue (differ_first (drop from a.now) (drop from b.now)) }
    ensures { result ≡ in_any_order (map is_equivalent_field (drop from a.now)) (drop from b.now) }
{
    if !is_as_often(&a[from], &a[from..from], &a[from + 1..], &b[from + 1..]) {
        return false;
    }
    for at in from + 1..a.len() {
        if !is_as_often(&a[at], &a[from..at], &a[at + 1..], &b[from..]) {
            return false;
        }
    }
    true
}

// Whether the field stands as often among the fields before it, itself and those after it as among
// the others.
#[cycle(equivalent)]
fn is_as_often(field: &Field, before: &[Field], after: &[Field], others: &[Field]) -> bool
    ensures { result ≡ (count_by (is_equivalent_field field.now) (before.now ++ field.now ∷ after.now)
        == count_by (is_equivalent_field field.now) others.now) }
{
    count(field, before) + 1 + count(field, after) == count(field, others)
}

// How many of the fields are equivalent to the one given.
#[cycle(equivalent)]
fn count(field: &Field, fields: &[Field]) -> usize
    ensures value { result ≡ count_by (is_equivalent_field field.now) fields.now }
    ensures bound { result ≤ length fields.now }
{
    let mut found = 0;
    for other in fields {
        if same_field(field, other) {
            found += 1;
        }
    }
    found
}
