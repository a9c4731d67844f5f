//! A journal, read a piece at a time.
ghost use Rattle.std.specs.Prelude.{◌≡◌, ◌≤◌, ◌+◌, ℕ, List, None, Err, [], ◌∷◌, ◌++◌, true, drop, length, IfOk, IfErr};
ghost use Rattle.std.specs.Prelude.{IfSome, OnOk, OnErr};
ghost use Rattle.std.specs.Io.BufRead.{take_through};
ghost use Rattle.ledger_model.specs.Damages.{Undamaged};
ghost use Rattle.ledger_model.specs.Recovered.{has_no_line_feed, IsJournal};
ghost use Rattle.journal_text.specs.Feeding.{damage_in, lasting, taken, IsOneMore, SameTaken};
ghost use Rattle.journal_text.specs.Lines.{IsLineRead};
ghost use Rattle.journal_text.specs.Reading.{IsFault, IsLineFault, IsRefused, StandsBehind};

mod ready;

use crate::checks::damage_of;
use crate::journal::{JournalFault, check_asked, checked_block, first_line};
use crate::lines::block_of;
use crate::registry::Registry;
use block_form::CheckedBlock;
use ion_values::OutOfMemory;
use ledger_model::{Block, Blocks};
use std::alloc::Global;
use std::marker::Model;

/// A journal that is read a piece at a time. Contracts see it as `blocks`, those of the whole lines so far, `line`,
/// the bytes of the line that is begun, and `damaged`, the damage that ended the reading.
#[derive(Drop)]
pub struct JournalReader {
    alloc: Global,
    blocks: Blocks,
    /// That of the blocks, or None after a line for which memory was wanted.
    registry: Option<Registry>,
    line: Vec<u8>,
    /// How many bytes the lines of the blocks have.
    size: u64,
    damaged: Option<JournalFault>,
}

impl Model for JournalReader {
    ghost use Rattle.ledger_model.specs.contracts.block.Block as block;
    ghost use Rattle.std.specs.Coded.{codes};
    ghost use Rattle.journal_text.specs.Feeding.{ReadSoFar, IsReader};

    ghost Value = { ReadSoFar };

    ghost coded = { Prim.hlevel (codes, block.the_row.coded) };

    ghost view = { λ r. record { blocks = r.blocks.list; line = r.line.items; damaged = r.damaged } };

    ghost invariant = { λ r. IsReader r.blocks.list r.line.items r.registry r.size };
}

impl JournalReader {
    /// The reader that has taken nothing. It takes no memory.
    pub fn new(alloc: Global) -> JournalReader
        ensures taken { taken result ≡ [] }
        ensures undamaged { result.damaged ≡ None }
    {
        let blocks = Blocks::new(alloc);
        let registry = Registry::new(alloc);
        let line = Vec::new(alloc);
        JournalReader {
            alloc,
            blocks,
            registry: Some(registry),
            line,
            size: 0,
            damaged: None,
        }
    }

    /// Takes the piece's bytes up to and with its first line feed, and returns their number.
    ///
    /// If it has no line feed, all of them are taken. A character may be cut by the end of a piece. `Damaged` comes
    /// exactly at the first whole line that fails a check, with the first check that it fails; from then on each call
    /// returns it and takes nothing. If memory runs out, nothing is taken.
    pub fn feed(&mut self, piece: &[u8]) -> Result<usize, JournalFault>
        ensures again { IfSome self.old.damaged (λ fault. (result ≡ Err fault) × (self.new ≡ self.old)) }
        ensures taken { OnOk result (taken self.new ≡ taken self.old ++ take_through 10 piece.now) }
        ensures count { IfOk result (λ count. count ≡ length (take_through 10 piece.now)) }
        ensures same { OnErr result (SameTaken self.old self.new) }
        ensures fault { IfErr result (λ fault. self.old.damaged ≡ None → (rest : List ℕ) →
            IsLineFault (taken self.old ++ (take_through 10 piece.now ++ rest)) fault) }
        ensures lasting { self.old.damaged ≡ None → self.new.damaged ≡ damage_in result }
    {
        if let Some(fault) = self.damaged {
            return Err(fault);
        }
        match first_line(piece) {
            Some(text) => {
                self.end_line(text)?;
                Ok(text.len() + 1)
            }
            None => {
                extend(&mut self.line, piece)?;
                Ok(piece.len())
            }
        }
    }

    /// Takes all bytes of the piece, as if by one `feed` behind another. After an error a part of them may be taken.
    pub fn feed_all(&mut self, piece: &[u8]) -> Result<(), JournalFault>
        requires { self.old.damaged ≡ None }
        ensures taken { OnOk result (taken self.new ≡ taken self.old ++ piece.now) }
        ensures reads { OnOk result (self.new.damaged ≡ None) }
        ensures fault { IfErr result (λ fault. (rest : List ℕ)
            → IsLineFault (taken self.old ++ (piece.now ++ rest)) fault) }
    {
        let mut at = 0;
        'lines: while at < piece.len() {
            let (_, rest) = piece.split_at(at);
            at += self.feed(rest)?;
        }
        Ok(())
    }

    /// Takes the rest of a line and the line feed behind it.
    fn end_line(&mut self, text: &[u8]) -> Result<(), JournalFault>
        requires reads { self.old.damaged ≡ None }
        requires one_line { has_no_line_feed text.now ≡ true }
        ensures taken { OnOk result (taken self.new ≡ taken self.old ++ (text.now ++ 10 ∷ [])) }
        ensures same { OnErr result (SameTaken self.old self.new) }
        ensures fault { IfErr result (λ fault. (rest : List ℕ)
            → IsLineFault (taken self.old ++ ((text.now ++ 10 ∷ []) ++ rest)) fault) }
        ensures lasting { self.new.damaged ≡ damage_in result }
    {
        let begun = self.line.len();
        let size = longer(self.size, begun, text.len())?;
        extend(&mut self.line, text)?;
        let registry = self.registry.take();
        match take_line(self.alloc, &mut self.blocks, registry, &self.line) {
            Ok(registry) => {
                self.registry = Some(registry);
                self.size = size;
                self.line.clear();
                Ok(())
            }
            Err(fault) => {
                self.line.truncate(begun);
                self.damaged = lasting(fault);
                Err(fault)
            }
        }
    }

    /// The blocks of the whole lines that were taken, and the offset of the rest.
    ///
    /// `Damaged` comes exactly if a hash stands for data that no block redacts, or for the statements of a block behind
    /// the last that redacts anything, with the first such block.
    pub fn end(self) -> Result<(Blocks, u64), JournalFault>
        requires { self.damaged ≡ None }
        ensures journal { IfOk result (λ read. IsJournal (taken self) read.0.list (drop read.1 (taken self))) }
        ensures within { IfOk result (λ read. read.1 ≤ length (taken self)) }
        ensures fault { IfErr result (IsFault (taken self)) }
    {
        let JournalReader {
            blocks,
            size,
            alloc,
            registry,
            line: _,
            damaged: _,
        } = self;
        let registry = registry_for(alloc, blocks.as_slice(), registry)?;
        check_asked(&registry, blocks.as_slice())?;
        Ok((blocks, size))
    }
}

/// The fault, if it is one that lasts.
fn lasting(fault: JournalFault) -> Option<JournalFault>
    ensures { result ≡ lasting fault }
{
    match fault {
        JournalFault::Damaged { .. } => Some(fault),
        JournalFault::OutOfMemory => None,
    }
}

/// The number of bytes with one line more.
///
/// Before it there were `size` bytes; the line has `begun` and then `text` bytes before its line feed.
fn longer(size: u64, begun: usize, text: usize) -> Result<u64, OutOfMemory>
    ensures { IfOk result (λ new. new ≡ size + begun + text + 1) }
{
    let new = u128::from(size) + begun as u128 + text as u128 + 1;
    u64::try_from(new).ok().ok_or(OutOfMemory)
}

/// Appends bytes to the line. If memory runs out, the line is unchanged.
fn extend(line: &mut Vec<u8>, more: &[u8]) -> Result<(), OutOfMemory>
    ensures put { OnOk result (line.new.items ≡ line.old.items ++ more.now) }
    ensures same { OnErr result (line.new.items ≡ line.old.items) }
{
    line.extend_from_slice(more)?;
    Ok(())
}

/// The registry of these blocks.
fn registry_of(alloc: Global, blocks: &[Block]) -> Result<Registry, OutOfMemory>
    requires { Undamaged blocks.now }
    ensures { IfOk result (StandsBehind blocks.now) }
{
    let mut registry = Registry::new(alloc);
    'admitted: for at in 0..blocks.len() {
        let (before, _) = blocks.split_at(at);
        let _ = damage_of(alloc, &mut registry, before, &blocks[at], true)?;
    }
    Ok(registry)
}

/// This registry of the blocks, or a new one where there is none.
fn registry_for(
    alloc: Global,
    blocks: &[Block],
    registry: Option<Registry>,
) -> Result<Registry, OutOfMemory>
    requires undamaged { Undamaged blocks.now }
    requires stands { IfSome registry (StandsBehind blocks.now) }
    ensures { IfOk result (StandsBehind blocks.now) }
{
    match registry {
        Some(registry) => Ok(registry),
        None => registry_of(alloc, blocks),
    }
}

/// Appends the block of this line, if it passes each check, and returns the registry with it.
///
/// The text is the line without its line feed. The given registry is that of the blocks; if there is none, it is made
/// anew.
fn take_line(
    alloc: Global,
    blocks: &mut Blocks,
    registry: Option<Registry>,
    text: &[u8],
) -> Result<Registry, JournalFault>
    requires undamaged { Undamaged blocks.old.list }
    requires stands { IfSome registry (StandsBehind blocks.old.list) }
    ensures block { OnOk result (IsOneMore blocks.old.list blocks.new.list (text.now ++ 10 ∷ [])) }
    ensures stands { IfOk result (StandsBehind blocks.new.list) }
    ensures same { OnErr result (blocks.new.list ≡ blocks.old.list) }
    ensures fault { IfErr result (λ fault. IsRefused blocks.old.list (text.now ++ 10 ∷ []) fault) }
{
    let found = block_of(alloc, text)?;
    let registry = take_found(alloc, blocks, registry, found)?;
    Ok(registry)
}

/// Appends the block that a line was read as, if it passes each check, and returns the registry with it.
///
/// The given registry is that of the blocks; if there is none, it is made anew.
fn take_found(
    alloc: Global,
    blocks: &mut Blocks,
    registry: Option<Registry>,
    found: Option<CheckedBlock>,
) -> Result<Registry, JournalFault>
    requires undamaged { Undamaged blocks.old.list }
    requires stands { IfSome registry (StandsBehind blocks.old.list) }
    requires read { (line : List ℕ) × IsLineRead line found }
    ensures block { OnOk result ((line : List ℕ) → IsLineRead line found
        → IsOneMore blocks.old.list blocks.new.list line) }
    ensures stands { IfOk result (StandsBehind blocks.new.list) }
    ensures same { OnErr result (blocks.new.list ≡ blocks.old.list) }
    ensures fault { IfErr result (λ fault. (line : List ℕ) → IsLineRead line found
        → IsRefused blocks.old.list line fault) }
{
    blocks.make_room()?;
    let mut registry = registry_for(alloc, blocks.as_slice(), registry)?;
    let block = checked_block(alloc, &mut registry, blocks.as_slice(), found)?;
    blocks.push(block).unwrap();
    Ok(registry)
}
