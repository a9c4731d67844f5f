//! Whether a file may be a journal.
ghost use Rattle.std.specs.Prelude.{◌≡◌, ◌<◌, ◌≤◌, ◌↔◌, take, length, IsTrue, IfOk, IfSome};
ghost use Rattle.std.specs.Io.KnownBytes.{Consumes, IsAtEnd};
ghost use Rattle.outside.specs.JournalFiles.{BeginsLine, MayBeJournal, has_line_feed};

use super::retry;
use super::transfers::PIECE;
use std::io;
use std::io::{ErrorKind, Read};

/// How the line of a block begins.
const LINE_START: &[u8] = b"{blockAddress:{strandId:\"";

/// Whether what is left of a reader may be a journal: it has a line feed, or it begins as a line does, as far as it
/// goes. A text without a line feed that begins otherwise is neither lines nor a part of one.
pub(super) fn may_be_journal<R: Read>(reader: &mut R) -> io::Result<bool>
    ensures { IfOk result (λ may. IfSome (R.remaining reader.old) (λ bytes. IsTrue may ↔ MayBeJournal bytes)) }
{
    let mut piece = [0u8; PIECE];
    let count = fill(reader, &mut piece)?;
    let front = &piece[..count];
    if front.contains(&10) {
        return Ok(true);
    }
    if begins_line(front) {
        return Ok(true);
    }
    has_line_feed(reader)
}

/// Whether bytes begin as a line does, as far as they go.
fn begins_line(front: &[u8]) -> bool
    ensures { IsTrue result ↔ BeginsLine front.now }
{
    let count = front.len().min(LINE_START.len());
    &front[..count] == &LINE_START[..count]
}

/// Reads until the piece is full or nothing is left, and answers how many bytes it gave.
pub(super) fn fill<R: Read>(reader: &mut R, out: &mut [u8]) -> io::Result<usize>
    ensures within { IfOk result (λ count. count ≤ length out.new) }
    ensures bytes { IfOk result (λ count. Consumes (R.remaining reader.old) (R.remaining reader.new)
        (take count out.new)) }
    ensures end { IfOk result (λ count. count < length out.new → IsAtEnd (R.remaining reader.new)) }
{
    let mut at = 0;
    'pieces: while at < out.len() {
        let count = retry::read(reader, &mut out[at..])?;
        if count == 0 {
            return Ok(at);
        }
        at += count;
    }
    Ok(at)
}

/// Whether a line feed is left in a reader.
fn has_line_feed<R: Read>(reader: &mut R) -> io::Result<bool>
    ensures { IfOk result (λ found. IfSome (R.remaining reader.old) (λ bytes. found ≡ has_line_feed bytes)) }
{
    let mut piece = [0u8; PIECE];
    'pieces: for _ in 0..u64::MAX {
        let count = retry::read(reader, &mut piece)?;
        if count == 0 {
            return Ok(false);
        }
        let read = &piece[..count];
        if read.contains(&10) {
            return Ok(true);
        }
    }
    Err(io::Error::from(ErrorKind::TimedOut))
}
