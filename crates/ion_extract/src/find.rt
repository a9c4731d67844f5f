//! The search for two fields of equal hash that differ, in two values of equal serialization.
ghost use Rattle.std.specs.Prelude.{◌≡◌, ◌++◌, true, map, IfOk};
ghost use Rattle.std.specs.List.{All};
ghost use Rattle.ion_values.specs.Equivalent as equivalence;
ghost use Rattle.ion_values.specs.Equivalent.{in_any_order, is_equivalent, is_equivalent_body, is_equivalent_field};
ghost use Rattle.ion_values.specs.declared.value.Body.TheVariants as body;
ghost use Rattle.hash_model.specs.Serialize.{field_hash, in_order, serialize, symbol_bytes};
ghost use Rattle.ion_extract.specs.Compared.{Finds};
ghost use Rattle.ion_extract.specs.Laws.{AreAlike, AreOne};

use containers::{Bytes, OutOfMemory};
use ion_values::{Body, Field, Names, Value, is_within};
use sha2::{Digest, Sha256};
use std::alloc::Global;

/// Two different byte strings of equal SHA-256.
#[derive(Drop)]
pub struct Pair {
    pub first: Bytes,
    pub second: Bytes,
}

/// The hashed bytes of a field: the serializations of its name as a symbol and of its value.
pub fn field_form(alloc: Global, field: &Field) -> Result<Bytes, OutOfMemory>
    ensures { IfOk result (λ form. form ≡ symbol_bytes field.now.name ++ serialize field.now.value) }
{
    let name = Value {
        annotations: Names::new(alloc),
        body: Body::Symbol(field.name.copy(alloc)?),
    };
    let mut form = ion_hash::serialize(alloc, &name)?.into_vec();
    let value = ion_hash::serialize(alloc, &field.value)?;
    form.extend_from_slice(value.as_slice())?;
    Ok(Bytes::from_vec(form))
}

// Facts about the values at hand. These functions change nothing.

fn bodies_are_alike(v: &Value, w: &Value)
    requires { serialize v.now ≡ serialize w.now }
    ensures { AreAlike v.now.body w.now.body }
{
    is_within(v);
    is_within(w);
}

fn lists_are_alike(a: &Body, b: &Body, vs: &[Value], ws: &[Value])
    requires bodies { AreAlike a.now b.now }
    requires left { a.now ≡ body.List vs.now }
    requires right { b.now ≡ body.List ws.now }
    ensures { map serialize vs.now ≡ map serialize ws.now }
{}

fn sexps_are_alike(a: &Body, b: &Body, vs: &[Value], ws: &[Value])
    requires bodies { AreAlike a.now b.now }
    requires left { a.now ≡ body.Sexp vs.now }
    requires right { b.now ≡ body.Sexp ws.now }
    ensures { map serialize vs.now ≡ map serialize ws.now }
{}

fn structs_are_alike(a: &Body, b: &Body, fs: &[Field], gs: &[Field])
    requires bodies { AreAlike a.now b.now }
    requires left { a.now ≡ body.Struct fs.now }
    requires right { b.now ≡ body.Struct gs.now }
    ensures { in_order (map field_hash fs.now) ≡ in_order (map field_hash gs.now) }
{}

fn values_are_alike(f: &Field, g: &Field, first: &Bytes, second: &Bytes)
    requires left { first.now ≡ symbol_bytes f.now.name ++ serialize f.now.value }
    requires right { second.now ≡ symbol_bytes g.now.name ++ serialize g.now.value }
    requires same { first.now ≡ second.now }
    ensures { serialize f.now.value ≡ serialize g.now.value }
{}

/// Returns two different byte strings of equal SHA-256, hashed bytes of a field of each value. None comes only if the
/// values are equivalent.
#[cycle(find)]
pub fn find(alloc: Global, v: &Value, w: &Value) -> Result<Option<Pair>, OutOfMemory>
    requires { serialize v.now ≡ serialize w.now }
    ensures { IfOk result (Finds (is_equivalent v.now w.now ≡ true)) }
{
    bodies_are_alike(v, w);
    find_in_bodies(alloc, &v.body, &w.body)
}

#[cycle(find)]
fn find_in_bodies(alloc: Global, a: &Body, b: &Body) -> Result<Option<Pair>, OutOfMemory>
    requires { AreAlike a.now b.now }
    ensures { IfOk result (Finds (is_equivalent_body a.now b.now ≡ true)) }
{
    match (a, b) {
        (Body::List(vs), Body::List(ws)) => {
            lists_are_alike(a, b, vs.as_slice(), ws.as_slice());
            find_in_values(alloc, vs.as_slice(), ws.as_slice())
        }
        (Body::Sexp(vs), Body::Sexp(ws)) => {
            sexps_are_alike(a, b, vs.as_slice(), ws.as_slice());
            find_in_values(alloc, vs.as_slice(), ws.as_slice())
        }
        (Body::Struct(fs), Body::Struct(gs)) => {
            structs_are_alike(a, b, fs.as_slice(), gs.as_slice());
            find_in_fields(alloc, fs.as_slice(), gs.as_slice())
        }
        _ => Ok(None),
    }
}

#[cycle(find)]
fn find_in_values(alloc: Global, vs: &[Value], ws: &[Value]) -> Result<Option<Pair>, OutOfMemory>
    requires { map serialize vs.now ≡ map serialize ws.now }
    ensures { IfOk result (Finds (equivalence.in_order (map is_equivalent vs.now) ws.now ≡ true)) }
{
    'members: for at in 0..vs.len() {
        if let Some(pair) = find(alloc, &vs[at], &ws[at])? {
            return Ok(Some(pair));
        }
    }
    Ok(None)
}

// Compares each field of one struct with each field of the other. `find` runs only if two hashes collide, so the number
// of comparisons doesn't matter.
#[cycle(find)]
fn find_in_fields(alloc: Global, fs: &[Field], gs: &[Field]) -> Result<Option<Pair>, OutOfMemory>
    requires { in_order (map field_hash fs.now) ≡ in_order (map field_hash gs.now) }
    ensures { IfOk result (Finds (in_any_order (map is_equivalent_field fs.now) gs.now ≡ true)) }
{
    'fields: for field in fs {
        if let Some(pair) = find_among(alloc, field, gs)? {
            return Ok(Some(pair));
        }
    }
    Ok(None)
}

#[cycle(find)]
fn find_among(alloc: Global, field: &Field, others: &[Field]) -> Result<Option<Pair>, OutOfMemory>
    ensures { IfOk result (Finds (All (AreOne field.now) others.now)) }
{
    'others: for other in others {
        if let Some(pair) = find_in_pair(alloc, field, other)? {
            return Ok(Some(pair));
        }
    }
    Ok(None)
}

#[cycle(find)]
fn find_in_pair(alloc: Global, f: &Field, g: &Field) -> Result<Option<Pair>, OutOfMemory>
    ensures { IfOk result (Finds (AreOne f.now g.now)) }
{
    let first = field_form(alloc, f)?;
    let second = field_form(alloc, g)?;
    if Sha256::digest(first.as_slice()) != Sha256::digest(second.as_slice()) {
        return Ok(None);
    }
    if first.as_slice() != second.as_slice() {
        return Ok(Some(Pair { first, second }));
    }
    values_are_alike(f, g, &first, &second);
    find(alloc, &f.value, &g.value)
}
