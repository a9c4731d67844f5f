//! The keeper of a journal's store.
ghost use Rattle.std.specs.Prelude.{◌≡◌, ◌+◌, ◌++◌, ◌⊎◌, ℕ, Bool, true, false, take, length, option_map, IsOk, IfOk, OnOk, OnErr, IfErr, IsErrOf};
ghost use Rattle.outside.specs.Causes.{HasCause};
ghost use Rattle.outside.specs.Told.{held};
ghost use Rattle.laws_history.specs.Stores.{IsSynced};
ghost use Rattle.journal_keeper.specs.Calls.{CallsAtMost};
ghost use Rattle.journal_keeper.specs.Images.{AppendKeeps, LineKeeps, SettleKeeps};
ghost use Rattle.journal_keeper.specs.Keeping.{HoldsPart, MayBeCut, cleared};
ghost use Rattle.journal_keeper.specs.Faults.{StoreLeaves, told};

use ion_values::OutOfMemory;
use outside::{JournalStore, OutFault};
use thiserror::Error;

/// Why a store was not cut or took no line.
#[derive(Clone, Copy, Debug, PartialEq, Eq, Error)]
pub enum SettleFault {
    /// The store failed in its last call, and had failed `count` times by then.
    #[error("the store failed, {count} times so far")]
    StoreFault { count: u64 },
    #[error("out of memory")]
    OutOfMemory,
}

impl From<OutOfMemory> for SettleFault {
    ghost use Rattle.std.specs.Prelude.{◌≡◌};
    ghost use Rattle.journal_keeper.specs.declared.keeping.SettleFault.TheVariants as fails;

    ghost from_gives = { λ _ e. e ≡ fails.OutOfMemory };

    fn from(_error: OutOfMemory) -> SettleFault {
        SettleFault::OutOfMemory
    }
}

/// The keeper of a journal: its store, the length of the journal's lines, in bytes, and whether what stands after
/// them is to be cut.
#[derive(Drop)]
pub struct Keeper<S> {
    pub store: S,
    pub size: u64,
    pub marked: bool,
}

impl<S: JournalStore> Keeper<S> {
    /// Cuts the store to the journal's lines and syncs it, if a cut is marked.
    pub fn settle(&mut self) -> Result<(), SettleFault>
        ensures bytes { OnOk result (held (S.told self.new.store)
            ≡ option_map (cleared self.old.marked self.old.size) (held (S.told self.old.store))) }
        ensures synced { OnOk result (self.old.marked ≡ true → IsSynced (S.told self.new.store)) }
        ensures settled { OnOk result (self.new.marked ≡ false) }
        ensures untouched { self.old.marked ≡ false → IsOk result × (self.new ≡ self.old) }
        ensures cut { OnErr result (MayBeCut (held (S.told self.old.store)) (held (S.told self.new.store))
            self.old.size) }
        ensures marked { OnErr result (self.new.marked ≡ self.old.marked) }
        ensures size { self.new.size ≡ self.old.size }
        ensures images { SettleKeeps result self.old.size self.old.marked (S.told self.old.store).content
            (S.told self.new.store).content }
        ensures calls { CallsAtMost 2 (S.told self.old.store).content (S.told self.new.store).content }
        ensures store { StoreLeaves result (S.told self.old.store) (S.told self.new.store) }
    {
        if self.marked {
            cut_back(&mut self.store, self.size)?;
            self.marked = false;
        }
        Ok(())
    }

    /// Appends a line to the journal's lines, and syncs it. If a cut is marked, it is made before. After a fault of the
    /// store a cut is marked.
    pub fn keep_line(&mut self, line: &[u8]) -> Result<(), SettleFault>
        ensures bytes { OnOk result (held (S.told self.new.store)
            ≡ option_map (λ held. cleared self.old.marked self.old.size held ++ line.now)
            (held (S.told self.old.store))) }
        ensures synced { OnOk result (IsSynced (S.told self.new.store)) }
        ensures settled { OnOk result (self.new.marked ≡ false) }
        ensures size { OnOk result (self.new.size ≡ self.old.size + length line.now) }
        ensures same { OnErr result (self.new.size ≡ self.old.size) }
        ensures part { OnErr result ((held (S.told self.new.store) ≡ held (S.told self.old.store))
            ⊎ HoldsPart self.old.marked self.old.size line.now (held (S.told self.old.store))
            (held (S.told self.new.store))) }
        ensures marked { IfErr result (λ fault. ((fault ≡ SettleFault.OutOfMemory) × (self.new ≡ self.old))
            ⊎ (self.new.marked ≡ true)) }
        ensures images { LineKeeps result line.now self.old.size self.old.marked self.new.marked
            (S.told self.old.store).content (S.told self.new.store).content }
        ensures calls { CallsAtMost 4 (S.told self.old.store).content (S.told self.new.store).content }
        ensures store { StoreLeaves result (S.told self.old.store) (S.told self.new.store) }
    {
        let size = grown(self.size, line)?;
        self.settle()?;
        self.marked = true;
        put_behind(&mut self.store, line)?;
        self.marked = false;
        self.size = size;
        Ok(())
    }
}

/// The length with one line more. If it doesn't fit, it returns `OutOfMemory`.
fn grown(size: u64, line: &[u8]) -> Result<u64, OutOfMemory>
    ensures { IfOk result (λ sum. sum ≡ size + length line.now) }
{
    match size.checked_add(line.len() as u64) {
        Some(sum) => Ok(sum),
        None => Err(OutOfMemory),
    }
}

/// The store's fault, with how often the store has failed.
fn told<S: JournalStore>(store: &S, fault: OutFault) -> SettleFault
    ensures { result ≡ told fault (S.told store.now).faults }
{
    match fault {
        OutFault::Failed => SettleFault::StoreFault {
            count: store.faults(),
        },
        OutFault::OutOfMemory => SettleFault::OutOfMemory,
    }
}

/// Cuts the store to this length, and syncs it.
fn cut_back<S: JournalStore>(store: &mut S, size: u64) -> Result<(), SettleFault>
    ensures bytes { OnOk result (held (S.told store.new) ≡ option_map (take size) (held (S.told store.old))) }
    ensures synced { OnOk result (IsSynced (S.told store.new)) }
    ensures cut { MayBeCut (held (S.told store.old)) (held (S.told store.new)) size }
    ensures images { (marked : Bool) → SettleKeeps result size marked (S.told store.old).content
        (S.told store.new).content }
    ensures calls { CallsAtMost 2 (S.told store.old).content (S.told store.new).content }
    ensures store { StoreLeaves result (S.told store.old) (S.told store.new) }
{
    match cut_and_sync(store, size) {
        Ok(()) => Ok(()),
        Err(fault) => Err(told(store, fault)),
    }
}

/// Cuts the store to this length, and syncs it.
fn cut_and_sync<S: JournalStore>(store: &mut S, size: u64) -> Result<(), OutFault>
    ensures bytes { OnOk result (held (S.told store.new) ≡ option_map (take size) (held (S.told store.old))) }
    ensures synced { OnOk result (IsSynced (S.told store.new)) }
    ensures cut { MayBeCut (held (S.told store.old)) (held (S.told store.new)) size }
    ensures images { (marked : Bool) → SettleKeeps result size marked (S.told store.old).content
        (S.told store.new).content }
    ensures calls { CallsAtMost 2 (S.told store.old).content (S.told store.new).content }
    ensures cause { HasCause (S.told store.old).faults (S.told store.new).faults result }
    ensures last { IsErrOf result OutFault.Failed → (S.told store.new).last_failed ≡ true }
{
    store.cut(size)?;
    store.sync()?;
    Ok(())
}

/// Appends a line to what the store holds, and syncs it.
fn put_behind<S: JournalStore>(store: &mut S, line: &[u8]) -> Result<(), SettleFault>
    ensures bytes { OnOk result (held (S.told store.new)
        ≡ option_map (λ held. held ++ line.now) (held (S.told store.old))) }
    ensures synced { OnOk result (IsSynced (S.told store.new)) }
    ensures part { (kept : ℕ) × (held (S.told store.new)
        ≡ option_map (λ held. held ++ take kept line.now) (held (S.told store.old))) }
    ensures images { AppendKeeps result line.now (S.told store.old).content (S.told store.new).content }
    ensures calls { CallsAtMost 2 (S.told store.old).content (S.told store.new).content }
    ensures store { StoreLeaves result (S.told store.old) (S.told store.new) }
{
    match append_and_sync(store, line) {
        Ok(()) => Ok(()),
        Err(fault) => Err(told(store, fault)),
    }
}

/// Appends a line to what the store holds, and syncs it.
fn append_and_sync<S: JournalStore>(journal: &mut S, line: &[u8]) -> Result<(), OutFault>
    ensures bytes { OnOk result (held (S.told journal.new)
        ≡ option_map (λ held. held ++ line.now) (held (S.told journal.old))) }
    ensures synced { OnOk result (IsSynced (S.told journal.new)) }
    ensures part { (kept : ℕ) × (held (S.told journal.new)
        ≡ option_map (λ held. held ++ take kept line.now) (held (S.told journal.old))) }
    ensures images { AppendKeeps result line.now (S.told journal.old).content (S.told journal.new).content }
    ensures calls { CallsAtMost 2 (S.told journal.old).content (S.told journal.new).content }
    ensures cause { HasCause (S.told journal.old).faults (S.told journal.new).faults result }
    ensures last { IsErrOf result OutFault.Failed → (S.told journal.new).last_failed ≡ true }
{
    journal.append(line)?;
    journal.sync()?;
    Ok(())
}
