//! Texts: joined, matched with a pattern, and counted. Symbols and strings alike are texts.
ghost use Rattle.std.specs.Prelude.{◌≡◌, length, IfOk};
ghost use Rattle.std.specs.Option.{option_copied};
ghost use Rattle.std.specs.Str.{chars};
ghost use Rattle.pql_model.specs.Texts as spec;

use crate::made::{answer, is_null, null, truth};
use crate::patterns::fits;
use containers::{OutOfMemory, Text};
use ion_values::{Body, Value};
use pql_model::Evaluated;
use std::alloc::Global;

pub fn text_of(v: &Value) -> Option<&Text>
    ensures { option_copied result ≡ spec.text_of v.now }
{
    match &v.body {
        Body::Symbol(text) | Body::String(text) => Some(text),
        _ => None,
    }
}

/// The second behind the first, as a string.
pub fn joined(alloc: Global, v: &Value, w: &Value) -> Result<Evaluated, OutOfMemory>
    ensures { IfOk result (λ e. e ≡ spec.joined v.now w.now) }
{
    match (text_of(v), text_of(w)) {
        (Some(first), Some(second)) => {
            let mut text = first.copy(alloc)?;
            text.push_str(second.as_str())?;
            Ok(answer(alloc, Body::String(text)))
        }
        _ => Ok(Evaluated::Missing),
    }
}

fn characters(alloc: Global, text: &str) -> Result<Vec<char>, OutOfMemory>
    ensures { IfOk result (λ all. all.items ≡ chars text.now) }
{
    let all: Vec<char> = text.chars().collect(alloc)?;
    Ok(all)
}

fn fits_text(alloc: Global, pattern: &str, text: &str) -> Result<bool, OutOfMemory>
    ensures { IfOk result (λ holds. holds ≡ spec.fits (chars pattern.now) (chars text.now)) }
{
    let pattern = characters(alloc, pattern)?;
    let text = characters(alloc, text)?;
    fits(alloc, pattern.as_slice(), text.as_slice())
}

/// Whether the first fits the second, a pattern.
pub fn like(alloc: Global, v: &Value, w: &Value) -> Result<Evaluated, OutOfMemory>
    ensures { IfOk result (λ e. e ≡ spec.like v.now w.now) }
{
    match (text_of(v), text_of(w)) {
        (Some(text), Some(pattern)) => {
            let holds = fits_text(alloc, pattern.as_str(), text.as_str())?;
            Ok(truth(alloc, holds))
        }
        _ => Ok(Evaluated::Missing),
    }
}

fn count_of(text: &str) -> usize
    ensures { result ≡ length (chars text.now) }
{
    text.chars().count()
}

fn length_of(alloc: Global, v: &Value) -> Evaluated
    ensures { result ≡ spec.length_of v.now }
{
    if is_null(v) {
        return null(alloc);
    }
    match text_of(v) {
        Some(text) => answer(alloc, Body::Int(count_of(text.as_str()) as i128)),
        None => Evaluated::Missing,
    }
}

/// The number of characters of a text, NULL for null.
pub fn char_length(alloc: Global, e: &Evaluated) -> Evaluated
    ensures { result ≡ spec.char_length e.now }
{
    match e {
        Evaluated::Missing => Evaluated::Missing,
        Evaluated::Found(v) => length_of(alloc, v),
    }
}
