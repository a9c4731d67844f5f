//! Appending a transaction's block.
ghost use Rattle.std.specs.Prelude.{◌≡◌, IfOk};
ghost use Rattle.laws_history.specs.Standings.{IsStanding};
ghost use Rattle.ledger_core.specs.Leaving.{AppendLeaves};
ghost use Rattle.ledger_core.specs.NextBlock.{next_block, receipt_of};
ghost use Rattle.ledger_core.specs.Tails.{joined};

use crate::prepared::Prepared;
use crate::sealing::into_block;
use crate::tail::Tail;
use ion_values::{IonTime, OutOfMemory};
use journal_keeper::SettleFault;
use ledger_model::Block;
use outside::JournalStore;
use ql_types::Hash32;
use std::alloc::Global;
use std::snapshot::Snapshot;

/// The most blocks that a journal has.
pub(crate) const MOST_BLOCKS: u64 = (1 << 32) - 1;

/// What a commit returns of its block: its number, its hash and its time.
#[derive(Clone, Copy, Debug, PartialEq, Eq)]
pub struct Receipt {
    pub block: u64,
    pub hash: Hash32,
    pub time: IonTime,
}

/// Why a block was not appended. Contracts see the block if its line had come to the store.
#[derive(Drop)]
pub(crate) struct Unkept {
    pub(crate) fault: SettleFault,
    pub(crate) tried: Option<Snapshot<Block>>,
}

impl From<OutOfMemory> for Unkept {
    ghost use Rattle.std.specs.Prelude.{◌≡◌, None};
    ghost use Rattle.journal_keeper.specs.declared.keeping.SettleFault.TheVariants as fails;

    ghost from_gives = { λ _ e. e ≡ record { fault = fails.OutOfMemory; tried = None } };

    fn from(_error: OutOfMemory) -> Unkept {
        Unkept {
            fault: SettleFault::OutOfMemory,
            tried: None,
        }
    }
}

impl<S: JournalStore, C> Tail<S, C> {
    /// Appends the transaction's block, to the store first, and returns its receipt. After a fault the blocks are as
    /// before.
    pub(crate) fn append_next(
        &mut self,
        alloc: Global,
        txn: Prepared,
        time: IonTime,
    ) -> Result<Receipt, Unkept>
        requires { IsStanding (joined self.old.standing (next_block txn self.old.standing.blocks time)) }
        ensures leaves { AppendLeaves S.told self.old self.new (next_block txn self.old.standing.blocks time) result }
        ensures receipt { IfOk result (λ receipt. receipt ≡ receipt_of (next_block txn self.old.standing.blocks time)) }
    {
        let made = into_block(alloc, txn, time, self.blocks().as_slice())?;
        let receipt = receipt_of(&made.block);
        self.append_block(made.block, made.text)?;
        Ok(receipt)
    }
}

/// The receipt of a block.
fn receipt_of(block: &Block) -> Receipt
    ensures { result ≡ receipt_of block.now }
{
    Receipt {
        block: block.header.address.sequence,
        hash: block.hash,
        time: block.header.time,
    }
}
