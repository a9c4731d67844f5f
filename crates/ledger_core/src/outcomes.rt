//! The outcome of a commit.
ghost use Rattle.std.specs.Prelude.{◌≡◌};
ghost use Rattle.ledger_core.specs.Outcomes.{outcome_of};

use crate::appending::Receipt;
use crate::commit::CommitFault;
use ledger_model::Outcome;
use ql_types::TxId;

/// The outcome of the transaction of this id that began on `since` blocks, by what its commit returned. A transaction
/// of which a statement was refused isn't committed.
pub fn outcome_of(tx: TxId, since: u64, answer: Result<Receipt, CommitFault>) -> Outcome
    ensures { result ≡ outcome_of tx since answer }
{
    match answer {
        Ok(receipt) => Outcome::Committed {
            tx,
            block: receipt.block,
        },
        Err(CommitFault::DigestDiffers { mine, given }) => Outcome::DigestDiffers {
            tx,
            since,
            mine,
            given,
        },
        Err(CommitFault::Conflict { since, named }) => Outcome::Conflict { tx, since, named },
        Err(CommitFault::JournalFull { blocks }) => Outcome::JournalFull { tx, blocks },
        Err(CommitFault::StoreFault { count }) => Outcome::StoreFault { tx, count },
        Err(CommitFault::EndedTxn | CommitFault::OutOfMemory) => Outcome::OutOfMemory,
    }
}
