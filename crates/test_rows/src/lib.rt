//! Rows of tests, which programs of tests read from Ion text.
//!
//! Each row is a struct whose first field says what is asked. A line is printed for each: the row without its field
//! `lines`, ` is `, and what comes of it, or `nothing` where nothing does.
#![tactic(auto)]

use ion_text::{read_stream, write};
use ion_values::{Body, Field, OutOfMemory, Text, Value};
use std::alloc::Global;

/// The deepest nesting of rows.
const DEEPEST: u32 = 80;

/// What rows ask.
pub trait Asked {
    /// Puts what comes of a row.
    fn put_answer(&self, alloc: Global, row: &[Field], out: &mut Text) -> Option<()>;
}

/// The lines of the rows of a text.
pub fn lines<A: Asked>(alloc: Global, asked: &A, input: &[u8]) -> Option<Text> {
    let rows = read_stream(alloc, input, DEEPEST).ok()?;
    let mut out = Text::new(alloc);
    for row in rows.as_slice() {
        put_line(alloc, asked, row, &mut out).ok()?;
    }
    Some(out)
}

fn put_line<A: Asked>(
    alloc: Global,
    asked: &A,
    row: &Value,
    out: &mut Text,
) -> Result<(), OutOfMemory> {
    put_row(alloc, out, fields_in(row).unwrap_or(&[]))?;
    out.push_str(" is ")?;
    put_said(out, answered(alloc, asked, row))?;
    out.push_str("\n")
}

/// Puts a row, whose fields have names without quotes.
fn put_row(alloc: Global, out: &mut Text, row: &[Field]) -> Result<(), OutOfMemory> {
    out.push_str("{")?;
    for (at, field) in row.iter().enumerate() {
        put_field(alloc, out, at, field)?;
    }
    out.push_str("}")
}

fn put_field(alloc: Global, out: &mut Text, at: usize, field: &Field) -> Result<(), OutOfMemory> {
    if field.name.as_str() == "lines" {
        return Ok(());
    }
    put_separator(out, at, ",")?;
    out.push_str(field.name.as_str())?;
    out.push_str(":")?;
    put_value(alloc, out, &field.value)
}

fn put_said(out: &mut Text, said: Option<Text>) -> Result<(), OutOfMemory> {
    match said {
        Some(said) => out.push_str(said.as_str()),
        None => out.push_str("nothing"),
    }
}

/// What comes of a row.
fn answered<A: Asked>(alloc: Global, asked: &A, row: &Value) -> Option<Text> {
    let mut said = Text::new(alloc);
    asked.put_answer(alloc, fields_in(row)?, &mut said)?;
    Some(said)
}

// ---- what rows hold

/// The fields of a struct.
pub fn fields_in(value: &Value) -> Option<&[Field]> {
    match &value.body {
        Body::Struct(fields) => Some(fields.as_slice()),
        _ => None,
    }
}

/// The members of a list.
pub fn list_in(value: &Value) -> Option<&[Value]> {
    match &value.body {
        Body::List(members) => Some(members.as_slice()),
        _ => None,
    }
}

/// The text of a string or a symbol.
pub fn text_in(value: &Value) -> Option<&str> {
    match &value.body {
        Body::String(text) | Body::Symbol(text) => Some(text.as_str()),
        _ => None,
    }
}

/// The number of an int.
pub fn number_in(value: &Value) -> Option<i128> {
    match &value.body {
        Body::Int(number) => Some(*number),
        _ => None,
    }
}

/// The value of the row's first field of a name.
pub fn named<'a>(row: &'a [Field], name: &str) -> Option<&'a Value> {
    for field in row {
        if field.name.as_str() == name {
            return Some(&field.value);
        }
    }
    None
}

/// The text that a value spells: a string, or a list of strings, and of lists of a number and a string that stands so
/// often.
pub fn spelled(alloc: Global, value: &Value) -> Option<Text> {
    let mut out = Text::new(alloc);
    match &value.body {
        Body::String(text) => out.push_str(text.as_str()).ok()?,
        Body::List(parts) => put_parts(&mut out, parts.as_slice())?,
        _ => return None,
    }
    Some(out)
}

fn put_parts(out: &mut Text, parts: &[Value]) -> Option<()> {
    for part in parts {
        put_part(out, part)?;
    }
    Some(())
}

fn put_part(out: &mut Text, part: &Value) -> Option<()> {
    match &part.body {
        Body::String(text) => out.push_str(text.as_str()).ok(),
        Body::List(repeated) => put_repeated(out, repeated.as_slice()),
        _ => None,
    }
}

fn put_repeated(out: &mut Text, repeated: &[Value]) -> Option<()> {
    let [times, text] = repeated else {
        return None;
    };
    let text = text_in(text)?;
    let times = u32::try_from(number_in(times)?).ok()?;
    for _ in 0..times {
        out.push_str(text).ok()?;
    }
    Some(())
}

// ---- what is printed

/// Puts a value as it is written.
pub fn put_value(alloc: Global, out: &mut Text, value: &Value) -> Result<(), OutOfMemory> {
    let text = write(alloc, value)?;
    out.push_str(text.as_str())
}

/// Puts values as a list.
pub fn put_list(alloc: Global, out: &mut Text, values: &[Value]) -> Result<(), OutOfMemory> {
    out.push_str("[")?;
    put_values(alloc, out, values, ",")?;
    out.push_str("]")
}

/// Puts values with a separator between them.
pub fn put_values(
    alloc: Global,
    out: &mut Text,
    values: &[Value],
    separator: &str,
) -> Result<(), OutOfMemory> {
    for (at, value) in values.iter().enumerate() {
        put_separator(out, at, separator)?;
        put_value(alloc, out, value)?;
    }
    Ok(())
}

/// Puts a separator in front of each member but the first.
pub fn put_separator(out: &mut Text, at: usize, separator: &str) -> Result<(), OutOfMemory> {
    if at == 0 {
        return Ok(());
    }
    out.push_str(separator)
}

/// Puts a number in decimal digits.
pub fn put_number(alloc: Global, out: &mut Text, number: i128) -> Result<(), OutOfMemory> {
    match format!(in alloc; "{number}") {
        Ok(digits) => out.push_str(digits.as_str()),
        Err(_) => Err(OutOfMemory),
    }
}
