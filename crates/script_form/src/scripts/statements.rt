//! Statements: a text, or a struct of a text and its parameters. Each is moved out of the value that spells it.
ghost use Rattle.std.specs.Prelude.{◌≡◌, IfOk};
ghost use Rattle.ledger_model.specs.Script.{each, in_fields, in_two, request_of};
ghost use Rattle.ledger_model.specs.ReadScript.{statements_in};

use containers::Sequence;
use ion_values::{Body, Field, Fields, OutOfMemory, Value, Values};
use ledger_model::{Asked, Request};
use std::alloc::Global;
use value_codec::takes::{into_list, into_string};

/// The statement of which `f` is the text and `g` the parameters.
fn in_fields(f: Field, g: Field) -> Option<Request>
    ensures { result ≡ in_fields f g }
{
    if f.name.as_str() != "text" || g.name.as_str() != "params" {
        return None;
    }
    let text = into_string(f.value)?;
    let params = into_list(g.value)?;
    Some(Request { text, params })
}

/// The statement of two fields in either order.
fn in_two(fields: Fields) -> Option<Request>
    ensures { result ≡ in_two fields }
{
    let mut fields = fields;
    if fields.len() != 2 {
        return None;
    }
    let g = fields.pop()?;
    let f = fields.pop()?;
    if f.name.as_str() == "text" {
        in_fields(f, g)
    } else {
        in_fields(g, f)
    }
}

/// The statement that a value spells.
fn request_of(alloc: Global, v: Value) -> Option<Request>
    ensures { result ≡ request_of v }
{
    let Value { annotations, body } = v;
    if !annotations.is_empty() {
        return None;
    }
    match body {
        Body::String(text) => Some(Request {
            text,
            params: Sequence::new(alloc),
        }),
        Body::Struct(fields) => in_two(fields),
        _ => None,
    }
}

/// The statements that values spell, if each spells one.
fn all_requests(alloc: Global, values: Values) -> Result<Option<Asked>, OutOfMemory>
    ensures { IfOk result (λ asked. asked ≡ each request_of values) }
{
    let mut asked = Sequence::new(alloc);
    'requests: for value in values.into_vec() {
        match request_of(alloc, value) {
            Some(request) => asked.push(request)?,
            None => return Ok(None),
        }
    }
    Ok(Some(asked))
}

/// The statements that a list spells, if the value is one and each member spells a statement.
pub fn statements_in(alloc: Global, v: Value) -> Result<Option<Asked>, OutOfMemory>
    ensures { IfOk result (λ asked. asked ≡ statements_in v) }
{
    match into_list(v) {
        Some(members) => all_requests(alloc, members),
        None => Ok(None),
    }
}
