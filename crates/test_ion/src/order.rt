//! How values compare, their keys, and what decimals come to.
use containers::Sequence;
use ion_order::{add, compare, key, multiply, subtract};
use ion_values::{Body, Decimal, Key, OutOfMemory, Text, Value};
use std::alloc::Global;
use std::cmp::Ordering;
use test_rows::{put_number, put_value};

fn sign(order: Option<Ordering>) -> &'static str {
    match order {
        Some(Ordering::Less) => "<",
        Some(Ordering::Equal) => "=",
        Some(Ordering::Greater) => ">",
        None => "none",
    }
}

/// Whether two values have keys, and one key.
fn have_one_key(alloc: Global, left: &Value, right: &Value) -> Option<bool> {
    match (key(alloc, left).ok()?, key(alloc, right).ok()?) {
        (Some(left), Some(right)) => Some(left == right),
        _ => Some(false),
    }
}

/// Puts how two values compare, and the other way round, and whether they have one key.
pub fn put_order(alloc: Global, left: &Value, right: &Value, out: &mut Text) -> Option<()> {
    out.push_str(sign(compare(left, right))).ok()?;
    out.push_str(" and ").ok()?;
    out.push_str(sign(compare(right, left))).ok()?;
    if have_one_key(alloc, left, right)? {
        out.push_str(", one key").ok()?;
    }
    Some(())
}

fn key_of(alloc: Global, value: &Value) -> Option<Key> {
    key(alloc, value).ok()?
}

/// Puts how the keys of two values compare, where the first one equals its copy.
pub fn put_order_of_keys(alloc: Global, left: &Value, right: &Value, out: &mut Text) -> Option<()> {
    out.push_str(order_of_keys(alloc, left, right)?).ok()
}

fn order_of_keys(alloc: Global, left: &Value, right: &Value) -> Option<&'static str> {
    let left = key_of(alloc, left)?;
    let right = key_of(alloc, right)?;
    let again = left.copy(alloc).ok()?;
    if left != again {
        return None;
    }
    Some(sign(Some(left.cmp(&right))))
}

/// Puts the key of a value: the coefficient and the exponent of a number's.
pub fn put_key(alloc: Global, given: &Value, out: &mut Text) -> Option<()> {
    let key = key(alloc, given).ok()?;
    put_found(alloc, key, out).ok()
}

fn put_found(alloc: Global, key: Option<Key>, out: &mut Text) -> Result<(), OutOfMemory> {
    match &key {
        None => out.push_str("none"),
        Some(
            Key::Number {
                coefficient,
                exponent,
            },
        ) => {
            put_number(alloc, out, *coefficient)?;
            out.push_str(" ")?;
            put_number(alloc, out, i128::from(*exponent))
        }
        Some(_) => out.push_str("no number"),
    }
}

// ---- sums and products

fn decimal_in(value: &Value) -> Option<Decimal> {
    match &value.body {
        Body::Decimal(number) => Some(*number),
        _ => None,
    }
}

/// Puts what two decimals come to, null where that has no decimal.
pub fn put_result(
    alloc: Global,
    word: &str,
    left: &Value,
    right: &Value,
    out: &mut Text,
) -> Option<()> {
    let left = decimal_in(left)?;
    let right = decimal_in(right)?;
    match word {
        "add" => put_decimal(alloc, add(&left, &right), out).ok(),
        "subtract" => put_decimal(alloc, subtract(&left, &right), out).ok(),
        "multiply" => put_decimal(alloc, multiply(&left, &right), out).ok(),
        _ => None,
    }
}

fn put_decimal(alloc: Global, found: Option<Decimal>, out: &mut Text) -> Result<(), OutOfMemory> {
    let Some(number) = found else {
        return out.push_str("null");
    };
    let value = Value {
        annotations: Sequence::new(alloc),
        body: Body::Decimal(number),
    };
    put_value(alloc, out, &value)
}
