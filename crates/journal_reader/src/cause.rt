//! Why no journal was read.
ghost use Rattle.std.specs.Prelude.{◌≡◌};
ghost use Rattle.outside.specs.Told.{StoreTold};
ghost use Rattle.journal_reader.specs.Loads.{cause_told};

use ion_values::OutOfMemory;
use journal_text::JournalFault;
use ledger_model::Damage;
use outside::{JournalStore, OutFault};
use thiserror::Error;

/// Why no journal was read.
#[derive(Clone, Copy, Debug, PartialEq, Eq, Error)]
pub enum LoadCause {
    /// The line at fault, counted from 0, and the check that it fails first.
    /// It is the first damaged line, or if there is none, the first with a hash that no redaction asks for.
    #[error("line {sequence} of the journal is damaged: {kind:?}")]
    Damaged { sequence: u64, kind: Damage },
    /// The store failed in its last call, and had failed `count` times by then.
    #[error("the store failed, {count} times so far")]
    StoreFault { count: u64 },
    #[error("out of memory")]
    OutOfMemory,
}

impl From<JournalFault> for LoadCause {
    ghost use Rattle.std.specs.Prelude.{◌≡◌};
    ghost use Rattle.journal_reader.specs.Loads.{cause_of};

    ghost from_gives = { λ fault cause. cause ≡ cause_of fault };

    fn from(fault: JournalFault) -> LoadCause {
        match fault {
            JournalFault::Damaged { sequence, kind } => LoadCause::Damaged { sequence, kind },
            JournalFault::OutOfMemory => LoadCause::OutOfMemory,
        }
    }
}

impl From<OutOfMemory> for LoadCause {
    ghost use Rattle.std.specs.Prelude.{◌≡◌};
    ghost use Rattle.journal_reader.specs.declared.cause.LoadCause.TheVariants as cause;

    ghost from_gives = { λ _ e. e ≡ cause.OutOfMemory };

    fn from(_error: OutOfMemory) -> LoadCause {
        LoadCause::OutOfMemory
    }
}

/// The store's fault, with how often the store has failed.
pub(crate) fn cause_told<S: JournalStore>(store: &S, fault: OutFault) -> LoadCause
    ensures { result ≡ cause_told fault (S.told store.now).faults }
{
    match fault {
        OutFault::Failed => LoadCause::StoreFault {
            count: store.faults(),
        },
        OutFault::OutOfMemory => LoadCause::OutOfMemory,
    }
}
