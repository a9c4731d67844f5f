//! Tails over empty stores in memory.
use ledger_core::Tail;
use outside::{JournalStore, MemoryStore, SetClock};
use ql_types::IdMask;
use std::alloc::Global;

const MASK: IdMask = IdMask { bits: 0 };

/// The tail of an empty store, with a clock that stands at the beginning of 2020 in UTC.
pub(crate) fn tail_of<S: JournalStore + Drop>(
    alloc: Global,
    store: S,
) -> Option<Tail<S, SetClock>> {
    let times = vec![in alloc; 1_577_836_800_000i64].ok()?;
    Tail::reload(alloc, store, SetClock::new(times), MASK).ok()
}

/// A store without bytes that may fail, and never does.
pub(crate) fn memory_store(alloc: Global) -> MemoryStore {
    MemoryStore::new(alloc, Vec::new(alloc), Vec::new(alloc))
}
