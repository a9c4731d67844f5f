//! Reading the input to its end.
ghost use Rattle.std.specs.Prelude.{◌≡◌, ◌<◌, ◌≤◌, ℕ, List, length, IfOk, IfErr, IsErrOf, OnOk};
ghost use Rattle.laws_history.specs.Calls.{span};
ghost use Rattle.laws_history.specs.Streams.{Taken, TakesFew, WasRead};
ghost use Rattle.ledger_cli.specs.Inputs.{IsUnread};

use crate::command_fault::CommandFault;
use crate::lines::BadInput;
use outside::{OutFault, Source};
use std::alloc::Global;

/// The longest input, in bytes.
pub const LONGEST: usize = 16_777_216;

/// The most that one call reads, in bytes.
pub const PIECE: usize = 65_536;

/// Reads the input to its end. Each turn takes at least one byte, and all take at most one more than the longest
/// input has.
pub fn read_all<So: Source>(alloc: Global, source: &mut So) -> Result<Vec<u8>, CommandFault>
    ensures read { IfOk result (λ all. WasRead (span (So.told source.old) (So.told source.new)) all.items) }
    ensures short { IfOk result (λ all. length all.items ≤ 16777216) }
    ensures few { TakesFew (span (So.told source.old) (So.told source.new)) }
    ensures fine { OnOk result ((So.told source.new).faults ≡ (So.told source.old).faults) }
    ensures stop { IfErr result (λ stop. IsUnread stop (span (So.told source.old) (So.told source.new))) }
    ensures too_long { IsErrOf result (CommandFault.BadInput BadInput.TooLong)
        → (input : List ℕ) × Taken (span (So.told source.old) (So.told source.new)) input × (16777216 < length input) }
{
    let mut all = Vec::new(alloc);
    let mut piece = [0u8; PIECE];
    'pieces: while all.len() <= LONGEST {
        let room = piece.len().min(LONGEST + 1 - all.len());
        let count = match source.read(&mut piece[..room]) {
            Ok(count) => count,
            Err(OutFault::Failed) => return Err(CommandFault::SourceFailed),
            Err(OutFault::OutOfMemory) => return Err(CommandFault::OutOfMemory),
        };
        if count == 0 {
            return Ok(all);
        }
        if all.extend_from_slice(&piece[..count]).is_err() {
            return Err(CommandFault::OutOfMemory);
        }
    }
    Err(CommandFault::BadInput(BadInput::TooLong))
}
