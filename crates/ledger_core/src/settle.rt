//! Cutting away what stands after the journal.
ghost use Rattle.std.specs.Prelude.{◌≡◌, true, false, length, IsOk, OnOk, OnErr};
ghost use Rattle.ledger_model.specs.Journal.{journal_bytes};
ghost use Rattle.laws_history.specs.Stores.{Holding, IsSynced};
ghost use Rattle.outside.specs.Told.{held};
ghost use Rattle.journal_keeper.specs.Calls.{CallsAtMost};
ghost use Rattle.journal_keeper.specs.Faults.{StoreLeaves};
ghost use Rattle.ledger_core.specs.Images.{SettleKeeps};
ghost use Rattle.journal_keeper.specs.Keeping.{MayBeCut};

use crate::tail::Tail;
use journal_keeper::SettleFault;
use outside::JournalStore;

impl<S: JournalStore, C> Tail<S, C> {
    /// Cuts the store to the lines of the blocks and syncs it, if a cut is marked.
    pub fn settle(&mut self) -> Result<(), SettleFault>
        // what the store holds
        ensures holds { OnOk result (Holding self.new.standing.blocks (held (S.told self.new.store))) }
        ensures synced { OnOk result (self.old.marked ≡ true → IsSynced (S.told self.new.store)) }
        ensures cut { MayBeCut (held (S.told self.old.store)) (held (S.told self.new.store))
            (length (journal_bytes self.old.standing.blocks)) }
        ensures store { StoreLeaves result (S.told self.old.store) (S.told self.new.store) }
        ensures calls { CallsAtMost 2 (S.told self.old.store).content (S.told self.new.store).content }
        // what a stop leaves
        ensures images { SettleKeeps S.told result self.old self.new }
        // the mark
        ensures settled { OnOk result (self.new.marked ≡ false) }
        ensures untouched { self.old.marked ≡ false → IsOk result × (self.new ≡ self.old) }
        ensures marked { OnErr result (self.new.marked ≡ true) }
        // what stays
        ensures standing { self.new.standing ≡ self.old.standing }
        ensures clock { self.new.clock ≡ self.old.clock }
    {
        self.keeper.settle()?;
        Ok(())
    }
}
