//! Why a command has no output.
use crate::lines::BadInput;
use ion_values::OutOfMemory;
use ledger_core::{LoadCause, SettleFault};
use ledger_model::Damage;
use proof_issue::NoSuch;
use proof_verify::ProofFault;
use std::alloc::AllocError;

/// Why there is no output.
#[derive(Debug, Drop)]
pub enum CommandFault {
    /// The words ask for nothing.
    BadWords,
    /// The input is refused.
    BadInput(BadInput),
    /// There is no such digest or proof.
    NoSuch(NoSuch),
    /// The journal's line at fault, counted from 0, and the check that it fails first.
    /// It is the first damaged line, or if there is none, the first with a hash that no redaction asks for.
    Damaged { sequence: u64, kind: Damage },
    /// The source failed.
    SourceFailed,
    /// The store failed when the journal was read, or when it was to be cut at the end.
    StoreFailed,
    /// The journal has `blocks` blocks, but must be empty.
    NotEmpty { blocks: u64 },
    /// The range of blocks ends before it begins.
    BadRange { from: u64, to: u64 },
    /// The input is no bundle whose proof is accepted.
    NotAccepted(ProofFault),
    /// The digest of the input isn't that of the journal.
    NotPublished,
    OutOfMemory,
}

impl From<OutOfMemory> for CommandFault {
    ghost use Rattle.std.specs.Prelude.{◌≡◌};
    ghost use Rattle.ledger_cli.specs.declared.command_fault.CommandFault.TheVariants as stops;

    ghost from_gives = { λ _ stop. stop ≡ stops.OutOfMemory };

    fn from(_error: OutOfMemory) -> CommandFault {
        CommandFault::OutOfMemory
    }
}

impl From<AllocError> for CommandFault {
    ghost use Rattle.std.specs.Prelude.{◌≡◌};
    ghost use Rattle.ledger_cli.specs.declared.command_fault.CommandFault.TheVariants as stops;

    ghost from_gives = { λ _ stop. stop ≡ stops.OutOfMemory };

    fn from(_error: AllocError) -> CommandFault {
        CommandFault::OutOfMemory
    }
}

impl From<SettleFault> for CommandFault {
    ghost use Rattle.std.specs.Prelude.{◌≡◌};
    ghost use Rattle.ledger_cli.specs.Stops.{settle_stop};

    ghost from_gives = { λ fault stop. stop ≡ settle_stop fault };

    fn from(fault: SettleFault) -> CommandFault {
        match fault {
            SettleFault::StoreFault { .. } => CommandFault::StoreFailed,
            SettleFault::OutOfMemory => CommandFault::OutOfMemory,
        }
    }
}

impl From<LoadCause> for CommandFault {
    ghost use Rattle.std.specs.Prelude.{◌≡◌};
    ghost use Rattle.ledger_cli.specs.Stops.{load_stop};

    ghost from_gives = { λ cause stop. stop ≡ load_stop cause };

    fn from(cause: LoadCause) -> CommandFault {
        match cause {
            LoadCause::Damaged { sequence, kind } => CommandFault::Damaged { sequence, kind },
            LoadCause::StoreFault { .. } => CommandFault::StoreFailed,
            LoadCause::OutOfMemory => CommandFault::OutOfMemory,
        }
    }
}

impl From<NoSuch> for CommandFault {
    ghost use Rattle.std.specs.Prelude.{◌≡◌};
    ghost use Rattle.ledger_cli.specs.Stops.{no_such_stop};

    ghost from_gives = { λ refused stop. stop ≡ no_such_stop refused };

    fn from(refused: NoSuch) -> CommandFault {
        match refused {
            NoSuch::OutOfMemory => CommandFault::OutOfMemory,
            _ => CommandFault::NoSuch(refused),
        }
    }
}

impl From<ProofFault> for CommandFault {
    ghost use Rattle.std.specs.Prelude.{◌≡◌};
    ghost use Rattle.ledger_cli.specs.Stops.{proof_stop};

    ghost from_gives = { λ fault stop. stop ≡ proof_stop fault };

    fn from(fault: ProofFault) -> CommandFault {
        match fault {
            ProofFault::OutOfMemory => CommandFault::OutOfMemory,
            fault => CommandFault::NotAccepted(fault),
        }
    }
}
