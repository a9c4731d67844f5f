ghost use Rattle.std.specs.Prelude.{◌≡◌, OnOk};
ghost use Rattle.ion_model.specs.Table as table;

use containers::Sequence;
use ion_model::{Frame, Last, Members, Scalar, Token};
use ion_values::{Body, Field, OutOfMemory, Text, Value};
use std::alloc::Global;
use std::mem;

/// A container that was just opened. It takes no memory.
pub fn opened(alloc: Global, members: Members) -> Frame
    ensures { result ≡ table.opened members }
{
    Frame {
        members,
        name: Text::new(alloc),
        annotations: Sequence::new(alloc),
        is_table: false,
        last: Last::Opening,
    }
}

/// The value that is one token.
pub fn body_of(scalar: Scalar) -> Body
    ensures { result ≡ table.body_of scalar }
{
    match scalar {
        Scalar::Null(kind) => Body::Null(kind),
        Scalar::Bool(value) => Body::Bool(value),
        Scalar::Int(number) => Body::Int(number),
        Scalar::Decimal(number) => Body::Decimal(number),
        Scalar::Timestamp(time) => Body::Timestamp(time),
        Scalar::Clob(bytes) => Body::Clob(bytes),
        Scalar::Blob(bytes) => Body::Blob(bytes),
    }
}

/// Whether a value may come next.
pub fn may_begin(frame: &Frame) -> bool
    ensures { result ≡ table.may_begin frame.now.members frame.now.last }
{
    match (&frame.members, &frame.last) {
        (_, Last::Annotation) => true,
        (Members::Stream(_) | Members::Sexp(_), Last::Opening | Last::Value) => true,
        (Members::List(_), Last::Opening | Last::Comma) => true,
        (Members::Struct(_), Last::Colon) => true,
        _ => false,
    }
}

/// Whether the name of a field may come next.
pub fn may_name(frame: &Frame) -> bool
    ensures { result ≡ table.may_name frame.now.members frame.now.last }
{
    match frame.members {
        Members::Struct(_) => matches!(frame.last, Last::Opening | Last::Comma),
        _ => false,
    }
}

/// Whether a comma may come next.
pub fn may_comma(frame: &Frame) -> bool
    ensures { result ≡ table.may_comma frame.now.members frame.now.last }
{
    match frame.members {
        Members::List(_) | Members::Struct(_) => matches!(frame.last, Last::Value),
        _ => false,
    }
}

/// Whether a container may end behind this.
pub fn may_close(last: &Last) -> bool
    ensures { result ≡ table.may_close last.now }
{
    matches!(last, Last::Opening | Last::Value | Last::Comma)
}

/// Whether a token belongs to what was read last: `::` to a symbol, a segment to a long string.
fn continues(token: &Token, last: &Last) -> bool
    ensures { result ≡ table.continues token.now last.now }
{
    match token {
        Token::DoubleColon => matches!(last, Last::Symbol { .. }),
        Token::Segment(_) => matches!(last, Last::LongString(_)),
        _ => false,
    }
}

/// Makes a value of a symbol or a long string that was read last, where a token doesn't belong to it.
pub fn settle_before(alloc: Global, frame: &mut Frame, token: &Token) -> Result<(), OutOfMemory>
    ensures { OnOk result (frame.new ≡ table.before token.now frame.old) }
{
    if continues(token, &frame.last) {
        return Ok(());
    }
    settle(alloc, frame)?;
    Ok(())
}

/// Makes a value of a symbol or a long string that was read last.
pub fn settle(alloc: Global, frame: &mut Frame) -> Result<(), OutOfMemory>
    ensures { OnOk result (frame.new ≡ table.settled frame.old) }
{
    match frame.last {
        Last::Symbol { .. } | Last::LongString(_) => settle_last(alloc, frame),
        _ => Ok(()),
    }
}

fn settle_last(alloc: Global, frame: &mut Frame) -> Result<(), OutOfMemory>
    ensures { OnOk result (frame.new ≡ table.settled frame.old) }
{
    match mem::replace(&mut frame.last, Last::Value) {
        Last::Symbol { text, quoted } => settle_symbol(alloc, frame, text, quoted)?,
        Last::LongString(text) => put(alloc, frame, Body::String(text))?,
        last => frame.last = last,
    }
    Ok(())
}

/// Makes a value of a symbol, or passes over a version marker.
fn settle_symbol(
    alloc: Global,
    frame: &mut Frame,
    text: Text,
    quoted: bool,
) -> Result<(), OutOfMemory>
    ensures { OnOk result (frame.new ≡ table.symbol_settled text quoted frame.old) }
{
    if is_marker(&text, quoted, frame) {
        frame.last = Last::Value;
        return Ok(());
    }
    put(alloc, frame, Body::Symbol(text))?;
    Ok(())
}

/// Whether a symbol here marks the version of Ion.
fn is_marker(text: &Text, quoted: bool, frame: &Frame) -> bool
    ensures { result ≡ table.is_marker text.now quoted frame.now.annotations frame.now.members }
{
    frame.annotations.is_empty()
        && matches!(frame.members, Members::Stream(_))
        && !quoted
        && text.as_str() == "$ion_1_0"
}

/// Puts a value into a container, under the annotations and the name that were read before it.
pub fn put(alloc: Global, frame: &mut Frame, body: Body) -> Result<(), OutOfMemory>
    ensures { OnOk result (frame.new ≡ table.with_value body frame.old) }
{
    let annotations = mem::replace(&mut frame.annotations, Sequence::new(alloc));
    let name = mem::replace(&mut frame.name, Text::new(alloc));
    let value = Value { annotations, body };
    match &mut frame.members {
        Members::Stream(values) => values.push(value)?,
        Members::List(values) => values.push(value)?,
        Members::Sexp(values) => values.push(value)?,
        Members::Struct(fields) => fields.push(Field { name, value })?,
    }
    frame.is_table = false;
    frame.last = Last::Value;
    Ok(())
}

/// Makes an annotation of the symbol that was read last.
pub fn annotate(frame: &mut Frame, text: Text, quoted: bool) -> Result<(), OutOfMemory>
    ensures { OnOk result (frame.new ≡ table.annotated text quoted frame.old) }
{
    frame.is_table = frame.is_table || names_table(&text, quoted);
    frame.annotations.push(text)?;
    frame.last = Last::Annotation;
    Ok(())
}

/// Whether an annotation makes a struct a symbol table.
fn names_table(text: &Text, quoted: bool) -> bool
    ensures { result ≡ table.names_table text.now quoted }
{
    !quoted && text.as_str() == "$ion_symbol_table"
}

/// Whether a struct that begins here is a symbol table.
pub fn is_symbol_table(frame: &Frame) -> bool
    ensures { result ≡ table.is_symbol_table frame.now.is_table frame.now.members }
{
    frame.is_table && matches!(frame.members, Members::Stream(_))
}
