//! Lines of a piece of a journal that are read each by itself, by several threads.
ghost use Rattle.std.specs.Prelude.{◌≡◌, ◌≤◌, All, IfOk, IfSome, length};
ghost use Rattle.journal_text.specs.Shares.{AreReadIn, IsReadIn};

use crate::journal::{first_feed, first_line, rest_of};
use crate::lines::block_of;
use block_form::CheckedBlock;
use ion_values::OutOfMemory;
use std::alloc::Global;
use std::thread;
use std::thread::Threads;

/// The fewest bytes of a share.
const LEAST: usize = 8_192;

/// A line of a piece: where it begins, how many bytes it has before its line feed, and what it was read as.
#[derive(Drop)]
pub(crate) struct ReadLine {
    pub(crate) from: usize,
    pub(crate) len: usize,
    pub(crate) found: Option<CheckedBlock>,
}

/// The lines of a share, the last one first.
pub(crate) type Share = Result<Vec<ReadLine>, OutOfMemory>;

/// Where the first line begins that begins at this place or behind it, or else the end of the piece.
fn line_start(piece: &[u8], place: usize) -> usize
    ensures { result ≤ length piece.now }
{
    if place == 0 {
        return 0;
    }
    if piece.len() < place {
        return piece.len();
    }
    match first_feed(rest_of(piece, place - 1)) {
        Some(before) => place + before,
        None => piece.len(),
    }
}

/// The line that begins at this place, read, or None if no line feed ends it.
fn read_line(alloc: Global, piece: &[u8], at: usize) -> Result<Option<ReadLine>, OutOfMemory>
    requires { at ≤ length piece.now }
    ensures { IfOk result (λ line. IfSome line (λ l. (l.from ≡ at) × IsReadIn piece.now l)) }
{
    let Some(text) = first_line(rest_of(piece, at)) else {
        return Ok(None);
    };
    let found = block_of(alloc, text)?;
    Ok(Some(ReadLine {
        from: at,
        len: text.len(),
        found,
    }))
}

/// The lines that begin from one place on and before another, read, up to the first that is that of no block.
fn read_lines(
    alloc: Global,
    piece: &[u8],
    from: usize,
    to: usize,
) -> Result<Vec<ReadLine>, OutOfMemory>
    requires { from ≤ length piece.now }
    ensures { IfOk result (λ lines. AreReadIn piece.now lines.items) }
{
    let mut lines = Vec::new(alloc);
    let mut at = from;
    'lines: while at < to {
        let Some(line) = read_line(alloc, piece, at)? else {
            return Ok(lines);
        };
        at += line.len + 1;
        let is_block = line.found.is_some();
        lines.push(line)?;
        if !is_block {
            return Ok(lines);
        }
    }
    Ok(lines)
}

/// The lines of a share of `size` bytes, read, the last one first. The share is counted from the end of the piece.
/// The first line of all begins at the given place or behind it.
fn share_of(alloc: Global, piece: &[u8], first: usize, size: usize, number: usize) -> Share
    ensures { IfOk result (λ lines. AreReadIn piece.now lines.items) }
{
    let end = piece.len().saturating_sub(size.saturating_mul(number));
    let from = line_start(piece, end.saturating_sub(size).max(first));
    let to = line_start(piece, end);
    let mut lines = read_lines(alloc, piece, from, to)?;
    lines.reverse();
    Ok(lines)
}

/// The lines of the piece in shares, the last share first.
///
/// Each share is read by a thread of its own, if one can be made. No line is read that begins before the given place.
/// Some lines may be left out.
pub(crate) fn read_shares<R: Threads + Sync>(
    rt: &R,
    alloc: Global,
    piece: &[u8],
    first: usize,
    workers: u32,
) -> Result<Vec<Share>, OutOfMemory>
    ensures { IfOk result (λ shares. All (λ share. IfOk share (λ lines. AreReadIn piece.now lines.items))
        shares.items) }
{
    let count = (workers as usize).min(piece.len() / LEAST);
    let size = piece.len().div_ceil(count.max(1));
    let shares = thread::map_indices(
        rt,
        alloc,
        count,
        &|number| { share_of(alloc, piece, first, size, number) },
    )?;
    Ok(shares)
}
