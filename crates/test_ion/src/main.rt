//! Rows of Ion texts, and of values, their order, their times and their hashes.
//!
//! A row's first field says what is asked of what it holds:
//!
//! - `read`: the values that a text gives whose containers nest at most `depth` deep, or its fault,
//! - `count`: how many values it gives, or its fault,
//! - `blob`: the bytes of its one blob, in hexadecimal,
//! - `lex`: why a text is no number,
//! - `parts`: whether these are the parts of a timestamp,
//! - `instant`: the nanoseconds from 1970 to a timestamp,
//! - `millis`: the timestamp that is nearest to milliseconds since 1970, and whether they are outside the years of
//!   timestamps,
//! - `compare`: how two values compare, both ways round, and whether they have one key,
//! - `key`: a value's key, and `keys`: how the keys of two values compare,
//! - `add`, `subtract` and `multiply`: what two decimals come to,
//! - `written`: whether `text` is what is written of a value,
//! - `equivalent`: whether two values are equivalent,
//! - `depth`: how deep a value nests,
//! - `copy`: copies of values,
//! - `bytes`: the bytes of a value that are hashed, and `hash`: its hash, in hexadecimal.
//!
//! A text that isn't in UTF-8 is a clob.
#![tactic(auto)]

mod hashes;
mod order;
mod texts;
mod times;
mod values;

use ion_values::{Field, Text, Value};
use std::alloc::Global;
use std::io::Read;
use std::process::ExitCode;
use test_rows::{Asked, lines, list_in};

/// What the rows ask of Ion.
#[derive(Clone, Copy)]
struct Ion;

impl Asked for Ion {
    fn put_answer(&self, alloc: Global, row: &[Field], out: &mut Text) -> Option<()> {
        let [asked, more @ ..] = row else {
            return None;
        };
        let given = &asked.value;
        match asked.name.as_str() {
            "read" => texts::put_read(alloc, given, more, out),
            "count" => texts::put_count(alloc, given, out),
            "blob" => texts::put_blob(alloc, given, out),
            "lex" => texts::put_lexed(given, out),
            "written" => texts::put_is_written(alloc, given, more, out),
            "parts" => times::put_is_time(list_in(given)?, out),
            "instant" => times::put_instant(alloc, given, out),
            "millis" => times::put_nearest(alloc, given, out),
            "depth" => values::put_depth(alloc, given, out),
            "bytes" => hashes::put_bytes(alloc, given, out),
            "hash" => hashes::put_hash(alloc, given, out),
            "copy" => values::put_copies(alloc, list_in(given)?, out),
            "key" => order::put_key(alloc, given, out),
            word => put_of_two(alloc, word, list_in(given)?, out),
        }
    }
}

/// Puts what comes of two values.
fn put_of_two(alloc: Global, word: &str, given: &[Value], out: &mut Text) -> Option<()> {
    let [left, right] = given else {
        return None;
    };
    match word {
        "compare" => order::put_order(alloc, left, right, out),
        "keys" => order::put_order_of_keys(alloc, left, right, out),
        "equivalent" => values::put_equivalent(left, right, out),
        _ => order::put_result(alloc, word, left, right, out),
    }
}

fn main(rt: HostRuntime) -> ExitCode {
    let mut input = Vec::new(rt.alloc());
    if rt.reader().read_to_end(&mut input).is_err() {
        return ExitCode::from(4);
    }
    let Some(out) = lines(rt.alloc(), &Ion, input.as_slice()) else {
        return ExitCode::from(2);
    };
    if rt.print(out.as_str()).is_err() {
        return ExitCode::from(6);
    }
    ExitCode::from(0)
}
