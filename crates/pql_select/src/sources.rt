//! `*`: the fields of each source's value.
ghost use Rattle.std.specs.Prelude.{◌≡◌, ◌++◌, IfOk, OnOk};
ghost use Rattle.pql_model.specs.Answers as spec;

use crate::made::made;
use containers::{OutOfMemory, Sequence};
use ion_values::{Body, Field, Fields, Value};
use pql_model::{Bound, Scope};
use std::alloc::Global;

fn put_all(fields: &mut Fields, more: Fields) -> Result<(), OutOfMemory>
    ensures { OnOk result (fields.new ≡ fields.old ++ more) }
{
    'fields: for field in more.into_vec() {
        fields.push(field)?;
    }
    Ok(())
}

// A struct's fields, and any other value as one field with the variable's name.
fn put_fields(fields: &mut Fields, bound: Bound) -> Result<(), OutOfMemory>
    ensures { OnOk result (fields.new ≡ fields.old ++ spec.fields_of bound) }
{
    let Bound {
        variable,
        value,
        ..
    } = bound;
    let Value { annotations, body } = value;
    match body {
        Body::Struct(more) => put_all(fields, more),
        body => fields.push(Field {
            name: variable,
            value: Value { annotations, body },
        }),
    }
}

/// The fields of each source of the row, in one struct.
pub fn starred(alloc: Global, scope: Scope) -> Result<Value, OutOfMemory>
    ensures { IfOk result (λ v. v ≡ spec.starred scope) }
{
    let mut fields = Sequence::new(alloc);
    'sources: for bound in scope.into_vec() {
        put_fields(&mut fields, bound)?;
    }
    Ok(made(alloc, Body::Struct(fields)))
}
