//! The events that the values of an input spell.
ghost use Rattle.std.specs.Prelude.{◌≡◌, ◌<◌, codes, length, IfOk, IfSome};
ghost use Rattle.std.specs.Option.{option_copied};
ghost use Rattle.ledger_model.specs.Script.{and_then, each};
ghost use Rattle.ledger_model.specs.Values.{fields_in, string_in, list_in};
ghost use Rattle.block_form.specs.ReadBack as spec;
ghost use Rattle.interleavings.specs.Events.{abort_of, begin_of, clock_field, clock_in, commit_of, digest_of, event_in, event_of, execute_of, params_of, time_in, time_of, times_in};

use block_form::place_in;
use containers::Sequence;
use ion_values::{Body, Field, OutOfMemory, Text, Value, Values, copy_values};
use ql_types::{Hash32, Place};
use std::alloc::Global;
use value_codec::read_parts::{fields_in, hash_in, list_in, named, string_in};

/// Times in milliseconds since 1970.
pub type Times = Sequence<i64>;

/// What is done next with the transaction of a name.
#[derive(Drop)]
pub enum Event {
    /// It is begun at this place of a script.
    Begin {
        name: Text,
        place: Place,
    },
    /// It does the statement of this text with these parameters.
    Execute {
        name: Text,
        text: Text,
        params: Values,
    },
    /// It is committed, with its own digest or with this one.
    Commit {
        name: Text,
        digest: Option<Hash32>,
    },
    /// It is aborted.
    Abort {
        name: Text,
    },
}

/// The event that a value spells: a struct whose first field names the event and its transaction.
pub fn event_in(alloc: Global, v: &Value) -> Result<Option<Event>, OutOfMemory>
    ensures { IfOk result (λ event. event ≡ event_in v.now) }
{
    let Some(fields) = fields_in(v) else {
        return Ok(None);
    };
    let event = event_of(alloc, fields.as_slice())?;
    Ok(event)
}

fn event_of(alloc: Global, fields: &[Field]) -> Result<Option<Event>, OutOfMemory>
    ensures { IfOk result (λ event. event ≡ event_of fields.now) }
{
    let [first, more @ ..] = fields else {
        return Ok(None);
    };
    let Some(name) = string_in(&first.value) else {
        return Ok(None);
    };
    match first.name.as_str() {
        "begin" => begin_of(alloc, name, more),
        "execute" => execute_of(alloc, name, more),
        "commit" => commit_of(alloc, name, more),
        "abort" => abort_of(alloc, name, more),
        _ => Ok(None),
    }
}

/// The begin that has these fields behind the first one.
fn begin_of(alloc: Global, name: &Text, more: &[Field]) -> Result<Option<Event>, OutOfMemory>
    ensures { IfOk result (λ event. event ≡ begin_of name.now more.now) }
{
    let [place] = more else {
        return Ok(None);
    };
    let Some(place) = placed(place) else {
        return Ok(None);
    };
    Ok(Some(Event::Begin {
        name: name.copy(alloc)?,
        place,
    }))
}

fn placed(field: &Field) -> Option<Place>
    ensures { result ≡ and_then (spec.named (codes "place") field.now) spec.place_in }
{
    place_in(named(field, "place")?)
}

/// The statement that has these fields behind the first one.
fn execute_of(alloc: Global, name: &Text, more: &[Field]) -> Result<Option<Event>, OutOfMemory>
    ensures { IfOk result (λ event. event ≡ execute_of name.now more.now) }
{
    let [text, params @ ..] = more else {
        return Ok(None);
    };
    let Some(text) = text_in(text) else {
        return Ok(None);
    };
    let Some(params) = params_of(alloc, params)? else {
        return Ok(None);
    };
    Ok(Some(Event::Execute {
        name: name.copy(alloc)?,
        text: text.copy(alloc)?,
        params,
    }))
}

fn text_in(field: &Field) -> Option<&Text>
    ensures { option_copied result ≡ and_then (spec.named (codes "text") field.now) string_in }
{
    string_in(named(field, "text")?)
}

/// The parameters, of which there are none where no field tells them.
fn params_of(alloc: Global, more: &[Field]) -> Result<Option<Values>, OutOfMemory>
    ensures { IfOk result (λ params. params ≡ params_of more.now) }
{
    match more {
        [] => Ok(Some(Sequence::new(alloc))),
        [params] => params_in(alloc, params),
        _ => Ok(None),
    }
}

fn params_in(alloc: Global, field: &Field) -> Result<Option<Values>, OutOfMemory>
    ensures { IfOk result (λ params. params ≡ and_then (spec.named (codes "params") field.now) list_in) }
{
    let Some(value) = named(field, "params") else {
        return Ok(None);
    };
    let Some(members) = list_in(value) else {
        return Ok(None);
    };
    Ok(Some(copy_values(alloc, members.as_slice())?))
}

/// The commit that has these fields behind the first one.
fn commit_of(alloc: Global, name: &Text, more: &[Field]) -> Result<Option<Event>, OutOfMemory>
    ensures { IfOk result (λ event. event ≡ commit_of name.now more.now) }
{
    let Some(digest) = digest_of(more) else {
        return Ok(None);
    };
    Ok(Some(Event::Commit {
        name: name.copy(alloc)?,
        digest,
    }))
}

/// The digest, which no field need tell.
fn digest_of(more: &[Field]) -> Option<Option<Hash32>>
    ensures { result ≡ digest_of more.now }
{
    match more {
        [] => Some(None),
        [digest] => Some(Some(hash_in(named(digest, "digest")?)?)),
        _ => None,
    }
}

/// The giving up that has these fields behind the first one.
fn abort_of(alloc: Global, name: &Text, more: &[Field]) -> Result<Option<Event>, OutOfMemory>
    ensures { IfOk result (λ event. event ≡ abort_of name.now more.now) }
{
    if !more.is_empty() {
        return Ok(None);
    }
    Ok(Some(Event::Abort {
        name: name.copy(alloc)?,
    }))
}

/// The times of a clock that a value spells, of which there is one at least, in milliseconds since 1970.
pub fn clock_in(alloc: Global, v: &Value) -> Result<Option<Times>, OutOfMemory>
    ensures times { IfOk result (λ times. times ≡ clock_in v.now) }
    ensures some { IfOk result (λ times. IfSome times (λ list. 0 < length list)) }
{
    let Some(members) = clock_members(v) else {
        return Ok(None);
    };
    times_in(alloc, members.as_slice())
}

fn clock_members(v: &Value) -> Option<&Values>
    ensures { option_copied result ≡ and_then (and_then (fields_in v.now) clock_field) list_in }
{
    let [clock] = fields_in(v)?.as_slice() else {
        return None;
    };
    list_in(named(clock, "clock")?)
}

/// The times that the values spell, if there are some and each spells one.
fn times_in(alloc: Global, values: &[Value]) -> Result<Option<Times>, OutOfMemory>
    ensures times { IfOk result (λ times. times ≡ times_in values.now) }
    ensures some { IfOk result (λ times. IfSome times (λ list. 0 < length list)) }
{
    if values.is_empty() {
        return Ok(None);
    }
    all_times(alloc, values)
}

fn all_times(alloc: Global, values: &[Value]) -> Result<Option<Times>, OutOfMemory>
    ensures times { IfOk result (λ times. times ≡ each time_in values.now) }
    ensures all { IfOk result (λ times. IfSome times (λ list. length list ≡ length values.now)) }
{
    let mut times = Sequence::new(alloc);
    'times: for value in values {
        match time_in(value) {
            Some(time) => times.push(time)?,
            None => return Ok(None),
        }
    }
    Ok(Some(times))
}

/// The number of an unannotated int of at most 64 bits.
fn time_in(v: &Value) -> Option<i64>
    ensures { result ≡ time_in v.now }
{
    if !v.annotations.is_empty() {
        return None;
    }
    match &v.body {
        Body::Int(number) => time_of(*number),
        _ => None,
    }
}

fn time_of(number: i128) -> Option<i64>
    ensures { result ≡ time_of number }
{
    if -9_223_372_036_854_775_808 <= number && number <= 9_223_372_036_854_775_807 {
        Some(number as i64)
    } else {
        None
    }
}
