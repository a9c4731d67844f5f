ghost use Rattle.std.specs.Prelude.{◌≡◌, ◌≤◌, ◌^◌, pos, int_div, IfOk};
ghost use Rattle.ion_order.specs.Key as spec;
ghost use Rattle.ion_order.specs.Key.{key_of, zeros_of};

use crate::numbers::whole;
use containers::Bytes;
use ion_values::{Body, Decimal, Key, OutOfMemory, Value};
use std::alloc::Global;

// How often ten divides the number.
fn zeros_at_end(number: u128) -> u32
    requires some { 1 ≤ number }
    requires most { number ≤ 2 ^ 127 }
    ensures value { result ≡ zeros_of number }
    ensures bound { result ≤ 38 }
{
    let mut rest = number;
    let mut zeros = 0;
    'zeros: while rest % 10 == 0 {
        rest /= 10;
        zeros += 1;
    }
    zeros
}

// The number with `zeros` zeros taken off its end.
fn without_zeros(number: i128, zeros: u32) -> i128
    requires { zeros ≤ 38 }
    ensures { result ≡ int_div number (pos (10 ^ zeros)) }
{
    number / 10i128.pow(zeros)
}

// The coefficient without the zeros at its end, and the exponent so raised.
fn key_of_number(number: &Decimal) -> Key
    ensures { result ≡ spec.key_of_number number.now }
{
    if number.coefficient == 0 {
        return Key::Number {
            coefficient: 0,
            exponent: 0,
        };
    }
    let zeros = zeros_at_end(number.coefficient.unsigned_abs());
    Key::Number {
        coefficient: without_zeros(number.coefficient, zeros),
        exponent: number.exponent + zeros as i32,
    }
}

/// The key of a scalar without its annotations, or None for a null and for a container. Two keys
/// are equal exactly where `compare` says that the values are.
pub fn key(alloc: Global, v: &Value) -> Result<Option<Key>, OutOfMemory>
    ensures { IfOk result (λ found. found ≡ key_of v.now) }
{
    let found = match &v.body {
        Body::Bool(truth) => Key::Bool(*truth),
        Body::Int(number) => key_of_number(&whole(*number)),
        Body::Decimal(number) => key_of_number(number),
        Body::Timestamp(time) => Key::Moment(time.instant()),
        Body::Symbol(text) | Body::String(text) => Key::Text(text.copy(alloc)?),
        Body::Clob(bytes) => Key::Clob(Bytes::from_slice(alloc, bytes.as_slice())?),
        Body::Blob(bytes) => Key::Blob(Bytes::from_slice(alloc, bytes.as_slice())?),
        Body::Null(_) | Body::List(_) | Body::Sexp(_) | Body::Struct(_) => return Ok(None),
    };
    Ok(Some(found))
}
