//! Rows of what statements read, and of the first conflict.
//!
//! A row's first field says what is asked of the journal whose `lines` stand behind those of four blocks
//! (four_blocks.rt):
//!
//! - `later`: the first block that touches one of the items `read`, and the item, of these lines' blocks or, where the
//! - `statement`: what the statement reads, with the parameters `params`.
//!
//! An item is a struct, as a report spells it. `lines` isn't printed. ../../test_journal/vectors/make.py makes the
//! lines of blocks that are told in steps.
#![tactic(auto)]

mod conflicts;
mod four_blocks;
mod items;
mod statements;

use ion_values::{Field, Text};
use std::alloc::Global;
use std::io::Read;
use std::process::ExitCode;
use test_rows::{Asked, lines, named, text_in};

/// What the rows ask.
#[derive(Clone, Copy)]
struct Footprints;

impl Asked for Footprints {
    fn put_answer(&self, alloc: Global, row: &[Field], out: &mut Text) -> Option<()> {
        let [asked, more @ ..] = row else {
            return None;
        };
        let later = text_in(named(more, "lines")?)?;
        match asked.name.as_str() {
            "later" => conflicts::put_first(alloc, later, more, out),
            "statement" => statements::put_items(alloc, later, text_in(&asked.value)?, more, out),
            _ => None,
        }
    }
}

fn main(rt: HostRuntime) -> ExitCode {
    let mut input = Vec::new(rt.alloc());
    if rt.reader().read_to_end(&mut input).is_err() {
        return ExitCode::from(4);
    }
    let Some(out) = lines(rt.alloc(), &Footprints, input.as_slice()) else {
        return ExitCode::from(2);
    };
    if rt.print(out.as_str()).is_err() {
        return ExitCode::from(6);
    }
    ExitCode::from(0)
}
