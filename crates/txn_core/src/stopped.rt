//! Why a statement wasn't done.
use ion_values::OutOfMemory;
use ledger_model::Refusal;

/// Why a statement wasn't done: it is refused, or there was no memory.
#[derive(Drop)]
pub enum ExecuteFault {
    Refused(Refusal),
    OutOfMemory,
}

impl From<OutOfMemory> for ExecuteFault {
    ghost use Rattle.std.specs.Prelude.{◌≡◌};
    ghost use Rattle.txn_core.specs.declared.stopped.ExecuteFault.TheVariants as stopped;

    ghost from_gives = { λ _ e. e ≡ stopped.OutOfMemory };

    fn from(_error: OutOfMemory) -> ExecuteFault {
        ExecuteFault::OutOfMemory
    }
}
