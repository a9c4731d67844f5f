//! What texts give.
use ion_lexer::lex_number;
use ion_model::Lexed;
use ion_text::{ReadFault, is_text_of, read_stream};
use ion_values::{Body, Field, IonFault, IonKind, OutOfMemory, Text, Value, Values};
use std::alloc::Global;
use test_rows::{named, number_in, put_number, put_values, spelled, text_in};

/// The deepest nesting of a row that names none.
const DEEPEST: u32 = 64;

fn depth_in(more: &[Field]) -> Option<u32> {
    match named(more, "depth") {
        Some(depth) => u32::try_from(number_in(depth)?).ok(),
        None => Some(DEEPEST),
    }
}

/// What the text of a row gives.
fn read(alloc: Global, given: &Value, depth: u32) -> Option<Result<Values, ReadFault>> {
    match &given.body {
        Body::Clob(bytes) => Some(read_stream(alloc, bytes.as_slice(), depth)),
        _ => read_spelled(alloc, given, depth),
    }
}

fn read_spelled(alloc: Global, given: &Value, depth: u32) -> Option<Result<Values, ReadFault>> {
    let text = spelled(alloc, given)?;
    Some(read_stream(alloc, text.as_str().as_bytes(), depth))
}

/// Puts the values that a text gives, or its fault.
pub fn put_read(alloc: Global, given: &Value, more: &[Field], out: &mut Text) -> Option<()> {
    match read(alloc, given, depth_in(more)?)? {
        Ok(values) => put_all(alloc, values.as_slice(), out).ok(),
        Err(ReadFault::Ion(fault)) => put_fault(alloc, fault, out).ok(),
        Err(ReadFault::OutOfMemory) => None,
    }
}

/// Puts how many values a text gives, or its fault.
pub fn put_count(alloc: Global, given: &Value, out: &mut Text) -> Option<()> {
    match read(alloc, given, DEEPEST)? {
        Ok(values) => put_number(alloc, out, values.len() as i128).ok(),
        Err(ReadFault::Ion(fault)) => put_fault(alloc, fault, out).ok(),
        Err(ReadFault::OutOfMemory) => None,
    }
}

fn put_all(alloc: Global, values: &[Value], out: &mut Text) -> Result<(), OutOfMemory> {
    if values.is_empty() {
        return out.push_str("no values");
    }
    put_values(alloc, out, values, " | ")
}

fn put_fault(alloc: Global, fault: IonFault, out: &mut Text) -> Result<(), OutOfMemory> {
    let IonFault { at, kind } = fault;
    out.push_str(name_of(kind))?;
    out.push_str(" at ")?;
    put_number(alloc, out, i128::from(at))
}

fn name_of(kind: IonKind) -> &'static str {
    match kind {
        IonKind::NotUtf8 => "NotUtf8",
        IonKind::Unclosed => "Unclosed",
        IonKind::FloatRefused => "FloatRefused",
        IonKind::SymbolIdRefused => "SymbolIdRefused",
        IonKind::TooWide => "TooWide",
        IonKind::BadTimestamp => "BadTimestamp",
        IonKind::BadBase64 => "BadBase64",
        IonKind::TooDeep => "TooDeep",
        IonKind::BadToken => "BadToken",
    }
}

/// Puts why a text is no number, or that it isn't refused.
pub fn put_lexed(given: &Value, out: &mut Text) -> Option<()> {
    match lex_number(text_in(given)?.as_bytes()) {
        Lexed::Refused(kind) => out.push_str(name_of(kind)).ok(),
        _ => out.push_str("not refused").ok(),
    }
}

/// Puts whether a text is the one that is written of a value.
pub fn put_is_written(alloc: Global, given: &Value, more: &[Field], out: &mut Text) -> Option<()> {
    let text = spelled(alloc, named(more, "text")?)?;
    let is_written = is_text_of(given, text.as_str().as_bytes());
    out.push_str(if is_written { "yes" } else { "no" }).ok()
}

/// Puts the bytes of the one blob of a text.
pub fn put_blob(alloc: Global, given: &Value, out: &mut Text) -> Option<()> {
    let values = read(alloc, given, 0)?.ok()?;
    put_of_blob(alloc, values.as_slice(), out)
}

fn put_of_blob(alloc: Global, values: &[Value], out: &mut Text) -> Option<()> {
    let [value] = values else {
        return None;
    };
    match &value.body {
        Body::Blob(bytes) => put_digits(alloc, bytes.as_slice(), out),
        _ => None,
    }
}

/// Puts bytes in hexadecimal.
pub fn put_digits(alloc: Global, bytes: &[u8], out: &mut Text) -> Option<()> {
    let digits = hex::encode(alloc, bytes).ok()?;
    out.push_str("\"").ok()?;
    out.push_str(digits.as_str()).ok()?;
    out.push_str("\"").ok()
}
