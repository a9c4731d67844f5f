//! Stores in memory, and what they hold.
use outside::{Failing, MemoryStore};
use std::alloc::Global;

/// A store of a text, whose call after `passes` fails; a failing append leaves `kept` bytes.
pub(crate) fn store_of(alloc: Global, text: &str, passes: u64, kept: u64) -> Option<MemoryStore> {
    store_of_bytes(alloc, text.as_bytes(), passes, kept)
}

/// A store of bytes, which fails as `store_of` says.
pub(crate) fn store_of_bytes(
    alloc: Global,
    bytes: &[u8],
    passes: u64,
    kept: u64,
) -> Option<MemoryStore> {
    let held = bytes.to_vec(alloc).ok()?;
    let mut fails = Vec::new(alloc);
    fails.push(Failing { passes, kept }).ok()?;
    Some(MemoryStore::new(alloc, held, fails))
}
