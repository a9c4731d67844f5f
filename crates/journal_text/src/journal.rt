//! A journal, read line by line.
ghost use Rattle.std.specs.Prelude.{◌≡◌, ◌≤◌, ◌+◌, ◌==◌, None, true, [], ◌∷◌, ◌++◌, drop, length, ℕ, List, IfOk, IfErr};
ghost use Rattle.std.specs.Prelude.{OnOk, MatchOption};
ghost use Rattle.std.specs.List.{position};
ghost use Rattle.ledger_model.specs.Damages.{damage_behind, Undamaged};
ghost use Rattle.ledger_model.specs.HashesAsked.{AreAsked};
ghost use Rattle.ledger_model.specs.Journal.{journal_bytes};
ghost use Rattle.ledger_model.specs.Recovered.{has_no_line_feed, IsLineOf, IsJournal};
ghost use Rattle.journal_text.specs.Lines.{IsLineRead};
ghost use Rattle.journal_text.specs.Reading.{IsFault, IsRefused, StandsBehind};

use crate::checks::damage_of;
use crate::lines::block_of;
use crate::registry::Registry;
use block_form::CheckedBlock;
use ion_values::OutOfMemory;
use ledger_model::{Block, Blocks, Damage};
use std::alloc::Global;
use thiserror::Error;

/// Why no journal is read.
#[derive(Clone, Copy, Debug, PartialEq, Eq, Error)]
pub enum JournalFault {
    /// The line at fault, counted from 0, and the check that it fails first.
    /// It is the first damaged line, or if there is none, the first with a hash that no redaction asks for.
    #[error("line {sequence} is damaged: {kind:?}")]
    Damaged { sequence: u64, kind: Damage },
    #[error("out of memory")]
    OutOfMemory,
}

impl From<OutOfMemory> for JournalFault {
    ghost use Rattle.std.specs.Prelude.{◌≡◌};
    ghost use Rattle.journal_text.specs.declared.journal.JournalFault.TheVariants as fails;

    ghost from_gives = { λ _ e. e ≡ fails.OutOfMemory };

    fn from(_error: OutOfMemory) -> JournalFault {
        JournalFault::OutOfMemory
    }
}

/// Where the first line feed stands, if there is one.
pub(crate) fn first_feed(bytes: &[u8]) -> Option<usize>
    ensures { result ≡ position (λ byte. byte == 10) bytes.now }
{
    bytes.iter().position(|byte| *byte == b'\n')
}

/// What stands in front of the first line feed, if there is one.
pub(crate) fn first_line(bytes: &[u8]) -> Option<&[u8]>
    ensures { MatchOption result (has_no_line_feed bytes.now ≡ true) (λ text. (has_no_line_feed text.now ≡ true)
        × (bytes.now ≡ text.now ++ 10 ∷ drop (length text.now + 1) bytes.now)) }
{
    let Some(end) = first_feed(bytes) else {
        return None;
    };
    let (text, _) = bytes.split_at(end);
    Some(text)
}

/// What stands from a place on.
pub(crate) fn rest_of(bytes: &[u8], at: usize) -> &[u8]
    requires { at ≤ length bytes.now }
    ensures { result.now ≡ drop at bytes.now }
{
    let (_, rest) = bytes.split_at(at);
    rest
}

/// The block of this line, if it passes each check after these blocks. The text is the line without its line feed. The
/// registry is that of the blocks, and takes the new one in; after an error it is of no more use.
fn next_block(
    alloc: Global,
    registry: &mut Registry,
    before: &[Block],
    text: &[u8],
) -> Result<Block, JournalFault>
    requires { StandsBehind before.now registry.old }
    ensures line { IfOk result (λ b. IsLineOf (text.now ++ 10 ∷ []) b) }
    ensures undamaged { IfOk result (λ b. damage_behind before.now b ≡ None) }
    ensures stands { IfOk result (λ b. StandsBehind (before.now ++ b ∷ []) registry.new) }
    ensures fault { IfErr result (λ fault. IsRefused before.now (text.now ++ 10 ∷ []) fault) }
{
    let found = block_of(alloc, text)?;
    let block = checked_block(alloc, registry, before, found)?;
    Ok(block)
}

/// The block that a line was read as, if it passes each check after these blocks.
///
/// The registry is that of the blocks, and takes the new one in; after an error it is of no more use.
pub(crate) fn checked_block(
    alloc: Global,
    registry: &mut Registry,
    before: &[Block],
    found: Option<CheckedBlock>,
) -> Result<Block, JournalFault>
    requires stands { StandsBehind before.now registry.old }
    requires read { (line : List ℕ) × IsLineRead line found }
    ensures line { IfOk result (λ b. (line : List ℕ) → IsLineRead line found → IsLineOf line b) }
    ensures undamaged { IfOk result (λ b. damage_behind before.now b ≡ None) }
    ensures stands { IfOk result (λ b. StandsBehind (before.now ++ b ∷ []) registry.new) }
    ensures fault { IfErr result (λ fault. (line : List ℕ) → IsLineRead line found
        → IsRefused before.now line fault) }
{
    let sequence = before.len() as u64;
    let Some(checked) = found else {
        return Err(JournalFault::Damaged {
            sequence,
            kind: Damage::NotALine,
        });
    };
    match damage_of(alloc, registry, before, &checked.block, checked.hashes_hold)? {
        None => Ok(checked.block),
        Some(kind) => Err(JournalFault::Damaged { sequence, kind }),
    }
}

/// Reports the first of these blocks with a hash that no redaction asks for. The hash stands in place of data or
/// statements; the registry is that of the blocks.
pub(crate) fn check_asked(registry: &Registry, blocks: &[Block]) -> Result<(), JournalFault>
    requires { StandsBehind blocks.now registry.now }
    ensures asked { OnOk result (AreAsked blocks.now) }
    ensures fault { IfErr result (λ fault. (rest : List ℕ) → Undamaged blocks.now → has_no_line_feed rest ≡ true
        → IsFault (journal_bytes blocks.now ++ rest) fault) }
{
    match registry.unasked(blocks) {
        None => Ok(()),
        Some(sequence) => Err(JournalFault::Damaged {
            sequence,
            kind: Damage::Unasked,
        }),
    }
}

/// The blocks of a journal's whole lines, and the offset of the rest. No line feed stands in the rest. `Damaged`
/// comes exactly at the first whole line that fails a check, with that check. If each passes, it comes at the first
/// block with a hash in place of data or statements that no redaction asks for.
pub fn read_journal(alloc: Global, bytes: &[u8]) -> Result<(Blocks, u64), JournalFault>
    ensures journal { IfOk result (λ read. IsJournal bytes.now read.0.list (drop read.1 bytes.now)) }
    ensures within { IfOk result (λ read. read.1 ≤ length bytes.now) }
    ensures fault { IfErr result (λ fault. IsFault bytes.now fault) }
{
    let mut blocks = Blocks::new(alloc);
    let mut registry = Registry::new(alloc);
    let mut at = 0;
    'lines: while let Some(text) = first_line(rest_of(bytes, at)) {
        let block = next_block(alloc, &mut registry, blocks.as_slice(), text)?;
        blocks.push(block)?;
        at += text.len() + 1;
    }
    check_asked(&registry, blocks.as_slice())?;
    Ok((blocks, at as u64))
}
