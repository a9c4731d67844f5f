//! The bytes of a store in memory.
ghost use Rattle.std.specs.Prelude.{◌≡◌, OnOk, OnErr, length};
ghost use Rattle.outside.specs.Store.{content_of, appended, lowered, cut_to, synced_whole};
ghost use Rattle.outside.specs.StoreForms.{count_at, piece_read};

use super::changes::{Change, Changes};
use std::alloc::{AllocError, Global};
use std::marker::Model;

/// The bytes that are held, how many of them are synced, and all changes so far.
///
/// A cut below the synced length lowers it.
#[derive(Drop)]
pub(super) struct Content {
    bytes: Vec<u8>,
    synced: usize,
    changes: Changes,
}

impl Model for Content {
    ghost use Rattle.outside.specs.Store.{Content};
    ghost use Rattle.outside.specs.StoreForms.{AreNoted, noted};

    ghost Value = { Content };

    ghost view = { λ c. noted c.changes c.bytes.items };

    ghost invariant = { λ c. AreNoted c.changes c.bytes.items c.synced };
}

impl Content {
    pub(super) fn new(alloc: Global, bytes: Vec<u8>) -> Content
        ensures { result ≡ content_of bytes.items }
    {
        let synced = bytes.len();
        Content {
            bytes,
            synced,
            changes: Changes::new(alloc),
        }
    }

    pub(super) fn as_slice(&self) -> &[u8]
        ensures { result.now ≡ self.now.bytes }
    {
        self.bytes.as_slice()
    }

    pub(super) fn size(&self) -> u64
        ensures { result ≡ length self.now.bytes }
    {
        self.bytes.len() as u64
    }

    /// Reads from a place, and answers how many bytes it gave.
    pub(super) fn read_at(&self, at: u64, out: &mut [u8]) -> usize
        ensures count { result ≡ count_at self.now at (length out.old) }
        ensures piece { out.new ≡ piece_read self.now at out.old }
    {
        let start = self.bytes.len().min(at as usize);
        let count = out.len().min(self.bytes.len() - start);
        out[..count].copy_from_slice(&self.bytes[start..start + count]);
        count
    }

    pub(super) fn append(&mut self, piece: &[u8]) -> Result<(), AllocError>
        ensures ok { OnOk result (self.new ≡ appended self.old piece.now) }
        ensures err { OnErr result (self.new ≡ self.old) }
    {
        self.changes.make_room(&self.bytes)?;
        let added = piece.to_vec(self.changes.alloc())?;
        self.bytes.extend_from_slice(piece)?;
        self.changes.note(Change::Appended(added));
        Ok(())
    }

    /// Lowers the synced length to this size, as a cut does that leaves the bytes.
    pub(super) fn lower(&mut self, size: u64) -> Result<(), AllocError>
        ensures ok { OnOk result (self.new ≡ lowered self.old size) }
        ensures err { OnErr result (self.new ≡ self.old) }
    {
        self.changes.make_room(&self.bytes)?;
        self.synced = self.synced.min(size as usize);
        self.changes.note(Change::Lowered(size));
        Ok(())
    }

    pub(super) fn cut(&mut self, size: u64) -> Result<(), AllocError>
        ensures ok { OnOk result (self.new ≡ cut_to self.old size) }
        ensures err { OnErr result (self.new ≡ self.old) }
    {
        self.changes.make_room(&self.bytes)?;
        self.bytes.truncate(size as usize);
        self.synced = self.synced.min(size as usize);
        self.changes.note(Change::Cut(size));
        Ok(())
    }

    pub(super) fn sync(&mut self) -> Result<(), AllocError>
        ensures ok { OnOk result (self.new ≡ synced_whole self.old) }
        ensures err { OnErr result (self.new ≡ self.old) }
    {
        self.changes.make_room(&self.bytes)?;
        self.synced = self.bytes.len();
        self.changes.note(Change::Synced);
        Ok(())
    }
}
