//! A store in memory that never fails.
ghost use Rattle.std.specs.Prelude.{◌≡◌, ◌⊎◌, Some, Ok, false, length, IsErrOf};
ghost use Rattle.outside.specs.Store.{content_of, appended, cut_to, synced_whole};
ghost use Rattle.outside.specs.StoreForms.{count_at, piece_read};

use super::content::Content;
use crate::traits::{JournalStore, OutFault};
use std::alloc::Global;
use std::marker::Model;

/// A store over bytes in memory that never fails. An append, a cut and a sync may want memory.
#[derive(Drop)]
pub struct SureStore {
    content: Content,
}

impl Model for SureStore {
    ghost use Rattle.outside.specs.Store.{Content};

    ghost Value = { Content };

    ghost view = { λ s. s.content };
}

impl SureStore {
    /// A store of these bytes, all of them synced. It grows by this allocator, and the bytes by the one that they are
    /// from.
    pub fn new(alloc: Global, bytes: Vec<u8>) -> SureStore
        ensures { result ≡ content_of bytes.items }
    {
        SureStore {
            content: Content::new(alloc, bytes),
        }
    }

    /// The bytes that the store holds.
    pub fn held(&self) -> &[u8]
        ensures { result.now ≡ self.now.bytes }
    {
        self.content.as_slice()
    }
}

impl JournalStore for SureStore {
    ghost told = { λ s. record { content = Some s; last_failed = false; faults = 0 } };

    fn faults(&self) -> u64 {
        0
    }

    fn size(&mut self) -> Result<u64, OutFault>
        ensures answer { result ≡ Ok (length self.old.bytes) }
        ensures after { self.new ≡ self.old }
    {
        Ok(self.content.size())
    }

    fn read_at(&mut self, at: u64, out: &mut [u8]) -> Result<usize, OutFault>
        ensures answer { result ≡ Ok (count_at self.old at (length out.old)) }
        ensures piece { out.new ≡ piece_read self.old at out.old }
        ensures after { self.new ≡ self.old }
    {
        Ok(self.content.read_at(at, out))
    }

    fn append(&mut self, piece: &[u8]) -> Result<(), OutFault>
        ensures wanted { IsErrOf result OutFault.OutOfMemory → self.new ≡ self.old }
        ensures done { IsErrOf result OutFault.OutOfMemory
            ⊎ ((result ≡ Ok tt) × (self.new ≡ appended self.old piece.now)) }
    {
        self.content.append(piece)?;
        Ok(())
    }

    fn cut(&mut self, size: u64) -> Result<(), OutFault>
        ensures wanted { IsErrOf result OutFault.OutOfMemory → self.new ≡ self.old }
        ensures done { IsErrOf result OutFault.OutOfMemory
            ⊎ ((result ≡ Ok tt) × (self.new ≡ cut_to self.old size)) }
    {
        self.content.cut(size)?;
        Ok(())
    }

    fn sync(&mut self) -> Result<(), OutFault>
        ensures wanted { IsErrOf result OutFault.OutOfMemory → self.new ≡ self.old }
        ensures done { IsErrOf result OutFault.OutOfMemory
            ⊎ ((result ≡ Ok tt) × (self.new ≡ synced_whole self.old)) }
    {
        self.content.sync()?;
        Ok(())
    }
}
