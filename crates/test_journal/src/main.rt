//! Rows of journals, scripts and reports.
//!
//! A row's first field says what is asked:
//!
//! - `journal`: what the journal `lines` is read as, at once and in pieces,
//! - `behind`: what it is read as where its `lines` stand behind those of two blocks (two_blocks.rt),
//! - `kept`: the numbers of its blocks as they are kept,
//! - `again`: the lines of its blocks,
//! - `sums`: what the history of its steps adds up to, as `make` tells it of a made workload,
//! - `answers`: what a report says of the transaction of its first block,
//! - `script`: the script that a text spells, or its fault,
//! - `report`: the line of a report, of an outcome, a cause of a refusal, an item of a conflict or a key of an index's value.
//!
//! `lines` isn't printed. ../vectors/make.py makes the lines of blocks that are told in steps.
#![tactic(auto)]

mod journals;
mod reports;
mod scripts;
mod two_blocks;

use ion_values::{Field, Text};
use std::alloc::Global;
use std::io::Read;
use std::process::ExitCode;
use test_rows::{Asked, lines, named, text_in};

/// What the rows ask of journals.
#[derive(Clone, Copy)]
struct JournalRows;

impl Asked for JournalRows {
    fn put_answer(&self, alloc: Global, row: &[Field], out: &mut Text) -> Option<()> {
        let [asked, more @ ..] = row else {
            return None;
        };
        match asked.name.as_str() {
            "script" => scripts::put_script(alloc, &asked.value, out),
            "report" => reports::put_report(alloc, text_in(&asked.value)?, out),
            word => put_of_journal(alloc, word, text_in(named(more, "lines")?)?, out),
        }
    }
}

/// Puts what comes of a journal.
fn put_of_journal(alloc: Global, word: &str, text: &str, out: &mut Text) -> Option<()> {
    match word {
        "journal" => journals::put_journal(alloc, text, out),
        "behind" => journals::put_behind(alloc, text, out),
        "kept" => journals::put_numbers(alloc, text, out),
        "again" => journals::put_lines(alloc, text, out),
        "sums" => journals::put_sums(alloc, text, out),
        "answers" => journals::put_answers(alloc, text, out),
        _ => None,
    }
}

fn main(rt: HostRuntime) -> ExitCode {
    let mut input = Vec::new(rt.alloc());
    if rt.reader().read_to_end(&mut input).is_err() {
        return ExitCode::from(4);
    }
    let Some(out) = lines(rt.alloc(), &JournalRows, input.as_slice()) else {
        return ExitCode::from(2);
    };
    if rt.print(out.as_str()).is_err() {
        return ExitCode::from(6);
    }
    ExitCode::from(0)
}
