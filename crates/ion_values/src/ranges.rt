//! That a value is within the ranges of its types, as every value of these types is. Nothing is done here but looking.
ghost use Rattle.std.specs.Prelude.{map, IsTrue};
ghost use Rattle.std.specs.List.{list_all};
ghost use Rattle.ion_values.specs.Time.{is_time};
ghost use Rattle.ion_values.specs.Within.{all_true, body_within, bytes_within, decimal_within, field_within, int_within, text_within, within};

use crate::decimal::Decimal;
use crate::time::IonTime;
use crate::value::{Body, Field, Value};
use containers::Text;

/// A law for callers, at the value at hand: its numbers, timestamps, texts and bytes are within their types.
#[cycle(within)]
pub fn is_within(v: &Value)
    ensures { IsTrue (within v.now) }
{
    texts_are_within(v.annotations.as_slice());
    body_is_within(&v.body);
}

#[cycle(within)]
fn body_is_within(body: &Body)
    ensures { IsTrue (body_within body.now) }
{
    match body {
        Body::Null(_) => {}
        Body::Bool(_) => {}
        Body::Int(number) => int_is_within(*number),
        Body::Decimal(number) => decimal_is_within(number),
        Body::Timestamp(time) => time_is_within(time),
        Body::Symbol(text) => text_is_within(text),
        Body::String(text) => text_is_within(text),
        Body::Clob(bytes) => bytes_are_within(bytes.as_slice()),
        Body::Blob(bytes) => bytes_are_within(bytes.as_slice()),
        Body::List(values) => values_are_within(values.as_slice()),
        Body::Sexp(values) => values_are_within(values.as_slice()),
        Body::Struct(fields) => fields_are_within(fields.as_slice()),
    }
}

/// The same of each of the values.
#[cycle(within)]
pub fn values_are_within(values: &[Value])
    ensures { IsTrue (all_true (map within values.now)) }
{
    'values: for value in values {
        is_within(value);
    }
}

#[cycle(within)]
fn fields_are_within(fields: &[Field])
    ensures { IsTrue (all_true (map field_within fields.now)) }
{
    'fields: for field in fields {
        text_is_within(&field.name);
        is_within(&field.value);
    }
}

fn texts_are_within(texts: &[Text])
    ensures { IsTrue (list_all text_within texts.now) }
{
    'texts: for text in texts {
        text_is_within(text);
    }
}

/// A law for callers, at the text at hand: its bytes are well-formed UTF-8.
pub fn text_is_within(text: &Text)
    ensures { IsTrue (text_within text.now) }
{
    let _text = text.as_str();
}

fn bytes_are_within(bytes: &[u8])
    ensures { IsTrue (bytes_within bytes.now) }
{
    'bytes: for byte in bytes {
        let _byte = *byte;
    }
}

fn int_is_within(number: i128)
    ensures { IsTrue (int_within number) }
{
    let _number = number;
}

fn decimal_is_within(number: &Decimal)
    ensures { IsTrue (decimal_within number.now) }
{
    int_is_within(number.coefficient);
    let _parts = (number.exponent, number.negative_zero);
}

fn time_is_within(time: &IonTime)
    ensures { IsTrue (is_time time.now) }
{
    let _parts = time.parts();
}
