//! Rows of statements, and of what expressions, sources, selects and changes come to.
//!
//! A row's first field says what is asked of its text:
//!
//! - `parse`: whether it is a statement, or the kind and the offset of its fault,
//! - `count`: how many question marks the statement has,
//! - `brackets`: the expression with its brackets,
//! - `value`: what the expression means under the sources `of` and the parameters `params`,
//! - `rows`: the rows that the sources give of the table `t` and of its committed view,
//! - `behind`: the same rows, made behind all combinations of the sources but the last, and how many of these there
//!   are, if there are several,
//! - `select`: what is selected of the rows `of`,
//! - `tallied`: what aggregates come to of the lists of rows `of`, one list after another,
//! - `change`: what the change leaves of the document `of`, or of the document `standing` under it,
//! - `changed`: the documents that the rows `of` name, changed,
//! - `deleted`: the ids of the documents that rows name.
//!
//! A row of sources is a struct. A source whose value has an annotation is a document, whose id is the annotation's
//! first byte. A second annotation is its BY name.
#![tactic(auto)]

mod behind;
mod brackets;
mod changes;
mod parsing;
mod rows;
mod shelf;
mod values;

use ion_values::{Field, Text};
use std::alloc::Global;
use std::io::Read;
use std::process::ExitCode;
use test_rows::{Asked, lines};

/// What the rows ask of the language.
#[derive(Clone, Copy)]
struct Language;

impl Asked for Language {
    fn put_answer(&self, alloc: Global, row: &[Field], out: &mut Text) -> Option<()> {
        let [asked, more @ ..] = row else {
            return None;
        };
        let given = &asked.value;
        match asked.name.as_str() {
            "parse" => parsing::put_parsed(alloc, given, out),
            "count" => parsing::put_count(alloc, given, out),
            "brackets" => brackets::put_brackets(alloc, given, out),
            "value" => values::put_meaning(alloc, given, more, out),
            "select" => values::put_selected(alloc, given, more, out),
            "rows" => rows::put_rows(alloc, given, more, out),
            "behind" => behind::put_behind(alloc, given, more, out),
            "tallied" => behind::put_tallied(alloc, given, more, out),
            "change" => changes::put_left(alloc, given, more, out),
            "changed" => changes::put_changed(alloc, given, more, out),
            "deleted" => changes::put_deleted(alloc, given, out),
            _ => None,
        }
    }
}

fn main(rt: HostRuntime) -> ExitCode {
    let mut input = Vec::new(rt.alloc());
    if rt.reader().read_to_end(&mut input).is_err() {
        return ExitCode::from(4);
    }
    let Some(out) = lines(rt.alloc(), &Language, input.as_slice()) else {
        return ExitCode::from(2);
    };
    if rt.print(out.as_str()).is_err() {
        return ExitCode::from(6);
    }
    ExitCode::from(0)
}
