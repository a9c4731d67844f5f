//! Values in Ion's binary encoding. A row is a text of values, ` => ` and the bytes in hexadecimal.
use ion_binary_out::{ValueSource, are_top, write_binary, write_each};
use ion_text::read_stream;
use ion_values::{OutOfMemory, Value, copy};
use std::alloc::Global;
use std::test::Fail;

// Worked by hand from the tables of the Ion 1.0 specification, "Typed Value Formats".
const STREAMS: &str = r#"
{a:1} => e00100eae78183d487b28161d38a2101
[x::true,-256,1.0] => e00100eae78183d487b28178bae3818a1132010052c10a
"0123456789abcd" => e00100ea8e8e3031323334353637383961626364
"0123456789abc" => e00100ea8d30313233343536373839616263
null null.int null.timestamp null.struct => e00100ea0f2f6fdf
false true => e00100ea1011
0 1 -1 256 -65536 => e00100ea202101310122010033010000
9223372036854775807 => e00100ea287fffffffffffffff
-170141183460469231731687303715884105728 => e00100ea3e9080000000000000000000000000000000
0d0 -0d0 0d1 1.50 5d3 -1d-2 => e00100ea50528080518153c2009652830552c281
2007T 2007-02T 2007-02-03 => e00100ea63c00fd764c00fd78265c00fd78283
2007-02-03T04:05:06.070-00:00 => e00100ea6ac00fd78283848586c346
2007-02-03T04:05:06Z => e00100ea68800fd78283848586
2008-02-29T23:30-01:15 => e00100ea6840cb0fd8838180ad
{{"a"}} {{AA==}} => e00100ea9161a100
[] () {} => e00100eab0c0d0
(1 2) [[],[1]] => e00100eac421012102b4b0b22101
[name] [name::1] {symbols:3} => e00100eab27104b5e481842101d3872103
[b::a,c] => e00100eaeb8183d887b6816281618163b7e4818a710b710c
{b:a,a:b} => e00100eae98183d687b481628161d68a710b8b710a
[0,0,0,0,0,0,0,0,0,0,0,0,0,0] => e00100eabe8e2020202020202020202020202020
"#;

// Values of which a copy is made when one is asked for.
#[derive(Drop)]
struct Copied<'a> {
    values: &'a [Value],
}

impl<'a> ValueSource for Copied<'a> {
    ghost values = { λ s. s.values.now };

    fn count(&self) -> usize {
        self.values.len()
    }

    fn value_at(&self, alloc: Global, at: usize) -> Result<Value, OutOfMemory> {
        let value = copy(alloc, &self.values[at])?;
        Ok(value)
    }
}

// None where the values may not stand in a stream, or where they are written otherwise if they are made one at a time.
fn written(alloc: Global, text: &str) -> Option<String> {
    let values = read_stream(alloc, text.as_bytes(), 4).ok()?;
    if !are_top(values.as_slice()) {
        return None;
    }
    let bytes = write_binary(alloc, &values).ok()?;
    let each = Copied {
        values: values.as_slice(),
    };
    let made = write_each(alloc, &each).ok()?;
    if made.as_slice() != bytes.as_slice() {
        return None;
    }
    hex::encode(alloc, bytes.as_slice()).ok()
}

#[test]
fn values_have_their_binary_bytes(rt: HostRuntime) -> Result<(), Fail> {
    for row in STREAMS.trim().lines() {
        let (text, expected) = row.split_once(" => ").ok_or("no row")?;
        let found = written(rt.alloc(), text).ok_or("no bytes")?;
        assert_eq!(rt; found.as_str(), expected, "{text}");
    }
    Ok(())
}

#[test]
fn no_values_are_the_marker_alone(rt: HostRuntime) -> Result<(), Fail> {
    let found = written(rt.alloc(), "").ok_or("no bytes")?;
    assert_eq!(rt; found.as_str(), "e00100ea");
    Ok(())
}

#[test]
fn symbols_and_annotated_values_may_not_stand_at_the_top(rt: HostRuntime) -> Result<(), Fail> {
    assert!(rt; written(rt.alloc(), "a").is_none());
    assert!(rt; written(rt.alloc(), "1 a::2").is_none());
    Ok(())
}
