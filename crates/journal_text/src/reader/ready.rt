//! Lines that were read already, taken one after another.
ghost use Rattle.std.specs.Prelude.{◌≡◌, ◌≤◌, ℕ, List, None, [], ◌∷◌, ◌++◌, All, true, length, IfOk, IfErr, OnOk};
ghost use Rattle.ledger_model.specs.Recovered.{has_no_line_feed};
ghost use Rattle.journal_text.specs.Feeding.{taken};
ghost use Rattle.journal_text.specs.Lines.{IsLineRead};
ghost use Rattle.journal_text.specs.Reading.{IsLineFault};
ghost use Rattle.journal_text.specs.Shares.{AreReadIn, IsFaultIn, IsReadIn, IsTakenTo};

use super::{JournalReader, lasting, longer, take_found};
use crate::journal::{JournalFault, rest_of};
use crate::shares::{ReadLine, Share, read_shares};
use block_form::CheckedBlock;
use std::thread::Threads;

impl JournalReader {
    /// Takes all bytes of the piece, as `feed_all` does. Its lines are read by `workers` threads, if they can be made,
    /// each line by itself, and then taken one after another.
    pub fn feed_shared<R: Threads + Sync>(
        &mut self,
        rt: &R,
        workers: u32,
        piece: &[u8],
    ) -> Result<(), JournalFault>
        requires { self.old.damaged ≡ None }
        ensures taken { OnOk result (taken self.new ≡ taken self.old ++ piece.now) }
        ensures reads { OnOk result (self.new.damaged ≡ None) }
        ensures fault { IfErr result (λ fault. (rest : List ℕ)
            → IsLineFault (taken self.old ++ (piece.now ++ rest)) fault) }
    {
        let first = if self.line.is_empty() { 0 } else { 1 };
        let shares = read_shares(rt, self.alloc, piece, first, workers)?;
        self.take_shares(piece, shares)
    }

    /// Takes all bytes of the piece, of which these lines were read.
    fn take_shares(&mut self, piece: &[u8], shares: Vec<Share>) -> Result<(), JournalFault>
        requires reads { self.old.damaged ≡ None }
        requires read { All (λ share. IfOk share (λ lines. AreReadIn piece.now lines.items)) shares.items }
        ensures taken { OnOk result (taken self.new ≡ taken self.old ++ piece.now) }
        ensures reads { OnOk result (self.new.damaged ≡ None) }
        ensures fault { IfErr result (λ fault. (rest : List ℕ)
            → IsLineFault (taken self.old ++ (piece.now ++ rest)) fault) }
    {
        let mut shares = shares;
        let mut at = 0;
        'shares: while let Some(share) = shares.pop() {
            at = self.take_lines(piece, at, share?)?;
        }
        self.feed_all(rest_of(piece, at))
    }

    /// Takes these lines, and returns how many bytes of the piece were taken in all.
    ///
    /// Its first `at` bytes were taken before.
    fn take_lines(
        &mut self,
        piece: &[u8],
        at: usize,
        lines: Vec<ReadLine>,
    ) -> Result<usize, JournalFault>
        requires within { at ≤ length piece.now }
        requires reads { self.old.damaged ≡ None }
        requires read { AreReadIn piece.now lines.items }
        ensures taken { IfOk result (λ to. IsTakenTo piece.now at to self.old self.new) }
        ensures fault { IfErr result (IsFaultIn piece.now at self.old) }
    {
        let mut lines = lines;
        let mut to = at;
        'lines: while let Some(line) = lines.pop() {
            to = self.take_read(piece, to, line)?;
        }
        Ok(to)
    }

    /// Takes this line, and returns how many bytes of the piece were taken in all.
    ///
    /// Its first `at` bytes were taken before. A line that began before them, or doesn't begin where it was read, isn't
    /// taken.
    fn take_read(&mut self, piece: &[u8], at: usize, line: ReadLine) -> Result<usize, JournalFault>
        requires within { at ≤ length piece.now }
        requires reads { self.old.damaged ≡ None }
        requires read { IsReadIn piece.now line }
        ensures taken { IfOk result (λ to. IsTakenTo piece.now at to self.old self.new) }
        ensures fault { IfErr result (IsFaultIn piece.now at self.old) }
    {
        let ReadLine { from, len, found } = line;
        if from < at {
            return Ok(at);
        }
        let (front, behind) = piece.split_at(from);
        self.feed_all(rest_of(front, at))?;
        if !self.line.is_empty() {
            return Ok(from);
        }
        let (text, _) = behind.split_at(len);
        self.put_line(text, found)?;
        Ok(from + len + 1)
    }

    /// Takes a line that was read as this, and the line feed behind it.
    fn put_line(&mut self, text: &[u8], found: Option<CheckedBlock>) -> Result<(), JournalFault>
        requires reads { self.old.damaged ≡ None }
        requires begins { self.old.line ≡ [] }
        requires one_line { has_no_line_feed text.now ≡ true }
        requires read { IsLineRead (text.now ++ 10 ∷ []) found }
        ensures taken { OnOk result (taken self.new ≡ taken self.old ++ (text.now ++ 10 ∷ [])) }
        ensures reads { OnOk result (self.new.damaged ≡ None) }
        ensures fault { IfErr result (λ fault. (rest : List ℕ)
            → IsLineFault (taken self.old ++ ((text.now ++ 10 ∷ []) ++ rest)) fault) }
    {
        let size = longer(self.size, 0, text.len())?;
        let registry = self.registry.take();
        match take_found(self.alloc, &mut self.blocks, registry, found) {
            Ok(registry) => {
                self.registry = Some(registry);
                self.size = size;
                Ok(())
            }
            Err(fault) => {
                self.damaged = lasting(fault);
                Err(fault)
            }
        }
    }
}
