//! The bytes of a store, read by pieces.
ghost use Rattle.std.specs.Prelude.{◌≡◌, ◌+◌, ◌<◌, ◌≤◌, None, length, IfOk, OnOk, IfErr, IfSome};
ghost use Rattle.outside.specs.Store.{ReadsAt};
ghost use Rattle.outside.specs.Told.{held};
ghost use Rattle.journal_text.specs.Feeding.{taken};
ghost use Rattle.journal_reader.specs.Loads.{IsCause};

use crate::cause::{LoadCause, cause_told};
use ion_values::OutOfMemory;
use journal_text::JournalReader;
use outside::JournalStore;
use std::alloc::Global;
use std::thread::Threads;

/// What was read of a store, and how many bytes there were.
#[derive(Drop)]
pub(crate) struct Stored {
    pub(crate) reader: JournalReader,
    pub(crate) size: u64,
}

/// The size of the store.
fn size_of<S: JournalStore>(store: &mut S) -> Result<u64, LoadCause>
    ensures size { IfOk result (λ size. IfSome (held (S.told store.old)) (λ bytes. size ≡ length bytes)) }
    ensures content { (S.told store.new).content ≡ (S.told store.old).content }
    ensures fine { OnOk result ((S.told store.new).faults ≡ (S.told store.old).faults) }
    ensures later { (S.told store.old).faults ≤ (S.told store.new).faults }
    ensures cause { IfErr result (λ cause. IsCause cause (S.told store.old) (S.told store.new)) }
{
    match store.size() {
        Ok(size) => Ok(size),
        Err(fault) => Err(cause_told(store, fault)),
    }
}

/// The number of bytes that were read into the piece, from an offset of the store on.
fn read_piece<S: JournalStore>(store: &mut S, at: u64, piece: &mut [u8]) -> Result<usize, LoadCause>
    requires { 0 < length piece.old }
    ensures bytes { IfOk result (λ count. IfSome (S.told store.old).content (λ content.
        ReadsAt content.bytes at piece.new count)) }
    ensures within { IfOk result (λ count. count ≤ length piece.new) }
    ensures content { (S.told store.new).content ≡ (S.told store.old).content }
    ensures fine { OnOk result ((S.told store.new).faults ≡ (S.told store.old).faults) }
    ensures later { (S.told store.old).faults ≤ (S.told store.new).faults }
    ensures cause { IfErr result (λ cause. IsCause cause (S.told store.old) (S.told store.new)) }
{
    match store.read_at(at, piece) {
        Ok(count) => Ok(count),
        Err(fault) => Err(cause_told(store, fault)),
    }
}

/// Reads the store up to the size that it tells, or to its end, in pieces of at most 65,536 bytes. Each turn takes at
/// least one byte.
pub(crate) fn read_stored<S: JournalStore>(
    alloc: Global,
    store: &mut S,
) -> Result<Stored, LoadCause>
    ensures read { IfOk result (λ stored. IfSome (held (S.told store.old)) (λ held. taken stored.reader ≡ held)) }
    ensures reads { IfOk result (λ stored. stored.reader.damaged ≡ None) }
    ensures size { IfOk result (λ stored. stored.size ≡ length (taken stored.reader)) }
    ensures content { (S.told store.new).content ≡ (S.told store.old).content }
    ensures later { (S.told store.old).faults ≤ (S.told store.new).faults }
    ensures fine { OnOk result ((S.told store.new).faults ≡ (S.told store.old).faults) }
    ensures cause { IfErr result (λ cause. IsCause cause (S.told store.old) (S.told store.new)) }
{
    let whole = size_of(store)?;
    let mut reader = JournalReader::new(alloc);
    let mut size = 0;
    let mut piece = [0u8; 65536];
    'pieces: while size < whole {
        let room = (whole - size).min(65536) as usize;
        let count = read_piece(store, size, &mut piece[..room])?;
        if count == 0 {
            return Ok(Stored { reader, size });
        }
        reader.feed_all(&piece[..count])?;
        size += count as u64;
    }
    Ok(Stored { reader, size })
}

/// Room for a piece of which several threads read the lines: a mebibyte, since threads are made for each piece.
pub(crate) fn wide_piece(alloc: Global) -> Result<Vec<u8>, OutOfMemory>
    ensures { IfOk result (λ piece. length piece.items ≡ 1048576) }
{
    let piece = Vec::from_elem(alloc, 0u8, 1_048_576)?;
    Ok(piece)
}

/// The number of bytes that were read into the piece, from an offset of the store on. A piece is filled by several
/// calls, if the store has enough bytes, since a store may give fewer than there is room for.
fn fill_piece<S: JournalStore>(store: &mut S, at: u64, piece: &mut [u8]) -> Result<usize, LoadCause>
    requires room { 0 < length piece.old }
    requires fits { at + length piece.old ≤ 18446744073709551615 }
    ensures bytes { IfOk result (λ count. IfSome (S.told store.old).content (λ content.
        ReadsAt content.bytes at piece.new count)) }
    ensures within { IfOk result (λ count. count ≤ length piece.new) }
    ensures content { (S.told store.new).content ≡ (S.told store.old).content }
    ensures fine { OnOk result ((S.told store.new).faults ≡ (S.told store.old).faults) }
    ensures later { (S.told store.old).faults ≤ (S.told store.new).faults }
    ensures cause { IfErr result (λ cause. IsCause cause (S.told store.old) (S.told store.new)) }
{
    let mut filled = 0;
    'reads: while filled < piece.len() {
        let count = read_piece(store, at + filled as u64, &mut piece[filled..])?;
        if count == 0 {
            return Ok(filled);
        }
        filled += count;
    }
    Ok(filled)
}

/// Reads the store as `read_stored` does, in pieces that fill the given one. The lines of a piece are read by `workers`
/// threads.
pub(crate) fn read_stored_by<S: JournalStore, R: Threads + Sync>(
    rt: &R,
    workers: u32,
    alloc: Global,
    store: &mut S,
    piece: &mut [u8],
) -> Result<Stored, LoadCause>
    requires { 0 < length piece.old }
    ensures read { IfOk result (λ stored. IfSome (held (S.told store.old)) (λ held. taken stored.reader ≡ held)) }
    ensures reads { IfOk result (λ stored. stored.reader.damaged ≡ None) }
    ensures size { IfOk result (λ stored. stored.size ≡ length (taken stored.reader)) }
    ensures content { (S.told store.new).content ≡ (S.told store.old).content }
    ensures later { (S.told store.old).faults ≤ (S.told store.new).faults }
    ensures fine { OnOk result ((S.told store.new).faults ≡ (S.told store.old).faults) }
    ensures cause { IfErr result (λ cause. IsCause cause (S.told store.old) (S.told store.new)) }
{
    let whole = size_of(store)?;
    let mut reader = JournalReader::new(alloc);
    let mut size = 0;
    'shared: while size < whole {
        let room = (whole - size).min(piece.len() as u64) as usize;
        let count = fill_piece(store, size, &mut piece[..room])?;
        if count == 0 {
            return Ok(Stored { reader, size });
        }
        reader.feed_shared(rt, workers, &piece[..count])?;
        size += count as u64;
    }
    Ok(Stored { reader, size })
}
