//! The limits that the system sets to this process.
use super::journals::fill;
use std::fs::{File, Files};
use std::str;

/// What Linux tells of this process's limits, a line for each.
const LIMITS: &str = "/proc/self/limits";

/// How the line of the greatest size of a file begins.
const FILE_SIZE: &str = "Max file size";

/// More bytes than the lines have.
const ROOM: usize = 4096;

/// The size in bytes to which this process may write a file, where the system sets and tells one. A write past it ends
/// the process by a signal.
pub(super) fn size_limit<R: Files>(rt: &R) -> Option<u64> {
    let mut file = File::open(rt, LIMITS).ok()?;
    let mut piece = [0u8; ROOM];
    let count = fill(&mut file, &mut piece).ok()?;
    limit_in(str::from_utf8(&piece[..count]).ok()?)
}

/// The number of bytes in the line of the greatest size of a file. The word `unlimited` is none.
fn limit_in(text: &str) -> Option<u64> {
    let (_before, from_line) = text.split_once(FILE_SIZE)?;
    let word = from_line.split_whitespace().next()?;
    word.parse::<u64>().ok()
}
