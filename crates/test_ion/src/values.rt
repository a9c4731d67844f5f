//! Values: equivalence, depth and copies.
use ion_values::{Text, Value, copy_values, depth, equivalent};
use std::alloc::Global;
use test_rows::{put_number, put_values};

/// Puts whether two values are equivalent, both ways round.
pub fn put_equivalent(left: &Value, right: &Value, out: &mut Text) -> Option<()> {
    match (equivalent(left, right), equivalent(right, left)) {
        (true, true) => out.push_str("yes").ok(),
        (false, false) => out.push_str("no").ok(),
        _ => None,
    }
}

/// Puts how deep a value nests.
pub fn put_depth(alloc: Global, given: &Value, out: &mut Text) -> Option<()> {
    put_number(alloc, out, i128::from(depth(given))).ok()
}

/// Puts copies of values.
pub fn put_copies(alloc: Global, given: &[Value], out: &mut Text) -> Option<()> {
    let copies = copy_values(alloc, given).ok()?;
    put_values(alloc, out, copies.as_slice(), " | ").ok()
}
