ghost use Rattle.std.specs.Prelude.{◌≡◌};
ghost use Rattle.ion_order.specs.Compare.{compare_of};

use crate::numbers::{compare_numbers, whole};
use ion_values::{Body, Value};
use std::cmp::Ordering;

/// The order of two scalars without their annotations, or None where their kinds do not compare:
/// numbers by value, symbols and strings together by their bytes, false before true, timestamps by
/// instant, clobs with clobs and blobs with blobs by bytes. Nulls and containers compare with
/// nothing. It takes no memory.
pub fn compare(a: &Value, b: &Value) -> Option<Ordering>
    ensures { result ≡ compare_of a.now b.now }
{
    match (&a.body, &b.body) {
        (Body::Bool(a), Body::Bool(b)) => Some(a.cmp(b)),
        (Body::Int(a), Body::Int(b)) => Some(a.cmp(b)),
        (Body::Int(a), Body::Decimal(b)) => Some(compare_numbers(&whole(*a), b)),
        (Body::Decimal(a), Body::Int(b)) => Some(compare_numbers(a, &whole(*b))),
        (Body::Decimal(a), Body::Decimal(b)) => Some(compare_numbers(a, b)),
        (Body::Timestamp(a), Body::Timestamp(b)) => Some(a.instant().cmp(&b.instant())),
        (Body::Symbol(a) | Body::String(a), Body::Symbol(b) | Body::String(b)) => {
            Some(a.as_str().cmp(b.as_str()))
        }
        (Body::Clob(a), Body::Clob(b)) => Some(a.as_slice().cmp(b.as_slice())),
        (Body::Blob(a), Body::Blob(b)) => Some(a.as_slice().cmp(b.as_slice())),
        _ => None,
    }
}
