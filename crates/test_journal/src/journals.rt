//! What journals are read as.
ghost use Rattle.std.specs.Prelude.{◌<◌};

use crate::reports::put_line_of;
use crate::two_blocks::TWO_BLOCKS;
use ion_values::{OutOfMemory, Text};
use journal_text::{JournalFault, JournalReader, line, read_journal};
use ledger_model::{Block, Blocks, Damage, Outcome};
use ql_types::TxId;
use std::alloc::Global;
use test_rows::{put_number, put_separator};
use versions::Versions;
use workload::{summary_text, totals_of};

/// How many blocks the bytes hold and the offset of the rest, where they are read at once.
fn read(alloc: Global, bytes: &[u8]) -> Result<(u64, u64), JournalFault> {
    let (blocks, rest) = read_journal(alloc, bytes)?;
    Ok((blocks.len(), rest))
}

/// How many they hold and the offset, where they are fed in pieces of this length.
fn fed(alloc: Global, bytes: &[u8], long: usize) -> Result<(u64, u64), JournalFault>
    requires { 0 < long }
{
    let mut reader = JournalReader::new(alloc);
    'pieces: for piece in bytes.chunks(long) {
        reader.feed_all(piece)?;
    }
    let (blocks, rest) = reader.end()?;
    Ok((blocks.len(), rest))
}

/// Puts how many blocks a journal holds and the offset of the rest, or its fault. Pieces of one byte and of seven
/// have to give the same.
pub fn put_journal(alloc: Global, text: &str, out: &mut Text) -> Option<()> {
    let bytes = text.as_bytes();
    let found = read(alloc, bytes);
    if fed(alloc, bytes, 1) != found || fed(alloc, bytes, 7) != found {
        return None;
    }
    put_found(alloc, found, out)
}

/// Puts what a journal is read as whose text stands behind the lines of two blocks.
pub fn put_behind(alloc: Global, text: &str, out: &mut Text) -> Option<()> {
    let text = format!(in alloc; "{TWO_BLOCKS}{text}").ok()?;
    put_journal(alloc, text.as_str(), out)
}

fn put_found(alloc: Global, found: Result<(u64, u64), JournalFault>, out: &mut Text) -> Option<()> {
    match found {
        Ok((blocks, rest)) => put_two(alloc, blocks, " blocks, and the rest at ", rest, out).ok(),
        Err(JournalFault::Damaged { sequence, kind }) => {
            out.push_str(name_of(kind)).ok()?;
            put_number(alloc, out, i128::from(sequence)).ok()
        }
        Err(JournalFault::OutOfMemory) => None,
    }
}

fn put_two(
    alloc: Global,
    first: u64,
    between: &str,
    second: u64,
    out: &mut Text,
) -> Result<(), OutOfMemory> {
    put_number(alloc, out, i128::from(first))?;
    out.push_str(between)?;
    put_number(alloc, out, i128::from(second))
}

fn name_of(damage: Damage) -> &'static str {
    match damage {
        Damage::NotALine => "NotALine of ",
        Damage::WrongAddress => "WrongAddress of ",
        Damage::WrongId => "WrongId of ",
        Damage::TimeFell => "TimeFell of ",
        Damage::WrongPrevious => "WrongPrevious of ",
        Damage::WrongHash => "WrongHash of ",
        Damage::WrongState => "WrongState of ",
        Damage::Unasked => "Unasked of ",
    }
}

// ---- blocks

/// Puts the numbers of the blocks, and that there is none behind them.
pub fn put_numbers(alloc: Global, text: &str, out: &mut Text) -> Option<()> {
    let (blocks, _rest) = read_journal(alloc, text.as_bytes()).ok()?;
    put_number_of_each(alloc, &blocks, out)
}

fn put_number_of_each(alloc: Global, blocks: &Blocks, out: &mut Text) -> Option<()> {
    for at in 0..blocks.len() {
        put_separator(out, at as usize, " ").ok()?;
        put_number(alloc, out, number_of(blocks, at)?).ok()?;
    }
    match number_of(blocks, blocks.len()) {
        Some(_) => None,
        None => Some(()),
    }
}

fn number_of(blocks: &Blocks, at: u64) -> Option<i128> {
    Some(i128::from(blocks.get(at)?.header.address.sequence))
}

/// Puts the lines of the blocks, without their line feeds.
pub fn put_lines(alloc: Global, text: &str, out: &mut Text) -> Option<()> {
    let (blocks, _rest) = read_journal(alloc, text.as_bytes()).ok()?;
    put_line_of_each(alloc, blocks.as_slice(), out).ok()
}

fn put_line_of_each(alloc: Global, blocks: &[Block], out: &mut Text) -> Result<(), OutOfMemory> {
    for block in blocks {
        let line = line(alloc, block)?;
        out.push_str(line.as_str().trim_end())?;
    }
    Ok(())
}

/// Puts what a report says of the transaction of the first block.
pub fn put_answers(alloc: Global, text: &str, out: &mut Text) -> Option<()> {
    let (blocks, _rest) = read_journal(alloc, text.as_bytes()).ok()?;
    let outcome = Outcome::Committed {
        tx: TxId { raw: 1 << 24 },
        block: 0,
    };
    put_line_of(alloc, &blocks, outcome, out)
}

/// Puts what the journal's history adds up to, without its line feed.
pub fn put_sums(alloc: Global, text: &str, out: &mut Text) -> Option<()> {
    let (blocks, _rest) = read_journal(alloc, text.as_bytes()).ok()?;
    let sums = sums_of(alloc, blocks.as_slice()).ok()?;
    out.push_str(sums.as_str().trim_end()).ok()
}

fn sums_of(alloc: Global, blocks: &[Block]) -> Result<Text, OutOfMemory> {
    let version = Versions::of(alloc, blocks)?;
    let totals = totals_of(alloc, blocks.len() as u64, &version)?;
    summary_text(alloc, &totals)
}
