//! Values compared by their hashes. A row is a value, ` | `, another one, ` => ` and what is found.

use ion_extract::{Compared, compare_hashed};
use ion_text::read_stream;
use std::alloc::Global;
use std::test::Fail;

const COMPARED: &str = r#"
{a:1,b:2} | {b:2,a:1} => Same
1.0 | 1.00 => Differ
{a:1,a:1,a:2} | {a:2,a:1,a:1} => Same
{a:1,a:1,a:2} | {a:2,a:2,a:1} => Differ
[{a:1,b:2}] | [{b:2,a:1}] => Same
[1,2] | [2,1] => Differ
x::y::1 | x::y::1 => Same
x::1 | 1 => Differ
0d0 | -0d0 => Differ
"a" | a => Differ
{{"a"}} | {{YQ==}} => Differ
null | null.int => Differ
2000T | 2000-01T => Differ
2000-01-01T00:00Z | 2000-01-01T00:00-00:00 => Differ
2000-01-01T00:00Z | 2000-01-01T01:00+01:00 => Differ
2000-01-01T00:00:00.0Z | 2000-01-01T00:00:00.00Z => Differ
"#;

fn name(compared: &Compared) -> &'static str {
    match compared {
        Compared::Same => "Same",
        Compared::Collision { .. } => "Collision",
        Compared::Differ => "Differ",
    }
}

fn found(alloc: Global, one: &str, other: &str) -> Option<&'static str> {
    let ones = read_stream(alloc, one.as_bytes(), 3).ok()?;
    let others = read_stream(alloc, other.as_bytes(), 3).ok()?;
    let [v] = ones.as_slice() else {
        return None;
    };
    let [w] = others.as_slice() else {
        return None;
    };
    let compared = compare_hashed(alloc, v, w).ok()?;
    Some(name(&compared))
}

#[test]
fn values_are_compared(rt: HostRuntime) -> Result<(), Fail> {
    for row in COMPARED.trim().lines() {
        let (values, expected) = row.split_once(" => ").ok_or("no row")?;
        let (one, other) = values.split_once(" | ").ok_or("no values")?;
        let found = found(rt.alloc(), one, other).ok_or("no answer")?;
        assert_eq!(rt; found, expected, "{values}");
    }
    Ok(())
}
