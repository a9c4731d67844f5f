//! Stores in memory.
ghost use Rattle.std.specs.Prelude.{◌≡◌, ◌⊎◌, Some, length, IsErrOf, OnOk, OnErr, is_some, if◌then◌else◌};
ghost use Rattle.outside.specs.FailPlan.{plan_of, due};
ghost use Rattle.outside.specs.StoreForms.{store_of, unless_due, called, unserved, appended_by, cut_by, synced_by, count_at, piece_read};

use super::content::Content;
use crate::plan::{Failing, Plan};
use crate::traits::{JournalStore, OutFault};
use std::alloc::{AllocError, Global};
use std::marker::Model;

/// A store over bytes in memory, whose calls fail by a list. An append, a cut and a sync that want memory leave the
/// list as it was.
#[derive(Drop)]
pub struct MemoryStore {
    content: Content,
    last_failed: bool,
    plan: Plan,
}

impl Model for MemoryStore {
    ghost use Rattle.outside.specs.StoreForms.{StoreHeld};

    ghost Value = { StoreHeld };

    ghost view = { λ s. record { content = s.content; last_failed = s.last_failed; plan = s.plan } };
}

impl MemoryStore {
    /// A store of these bytes, all of them synced, whose calls by `&mut` fail by this list. It grows by this
    /// allocator, and the bytes by the one that they are from.
    pub fn new(alloc: Global, bytes: Vec<u8>, fails: Vec<Failing>) -> MemoryStore
        ensures { result ≡ store_of bytes.items (plan_of fails.items) }
    {
        MemoryStore {
            content: Content::new(alloc, bytes),
            last_failed: false,
            plan: Plan::new(fails),
        }
    }

    /// The bytes that the store holds.
    pub fn held(&self) -> &[u8]
        ensures { result.now ≡ self.now.content.bytes }
    {
        self.content.as_slice()
    }

    /// Counts a call, and gives the entry that fails it, if one does.
    fn count_call(&mut self) -> Option<Failing>
        ensures fails { result ≡ due self.old.plan }
        ensures after { self.new ≡ called self.old self.old.content }
    {
        let fails = self.plan.due();
        self.plan.count_call();
        self.last_failed = fails.is_some();
        fails
    }

    /// Ends a call that has changed the content, or has found no memory for that.
    fn end(&mut self, changed: Result<(), AllocError>) -> Result<(), OutFault>
        ensures wanted { OnErr changed (IsErrOf result OutFault.OutOfMemory × (self.new ≡ unserved self.old)) }
        ensures done { OnOk changed ((result ≡ unless_due self.old tt)
            × (self.new ≡ called self.old self.old.content)) }
    {
        if changed.is_err() {
            self.last_failed = false;
            return Err(OutFault::OutOfMemory);
        }
        match self.count_call() {
            Some(_) => Err(OutFault::Failed),
            None => Ok(()),
        }
    }
}

impl JournalStore for MemoryStore {
    ghost told = { λ s. record { content = Some s.content; last_failed = s.last_failed; faults = s.plan.used } };

    fn faults(&self) -> u64 {
        self.plan.used()
    }

    fn size(&mut self) -> Result<u64, OutFault>
        ensures answer { result ≡ unless_due self.old (length self.old.content.bytes) }
        ensures after { self.new ≡ called self.old self.old.content }
    {
        match self.count_call() {
            Some(_) => Err(OutFault::Failed),
            None => Ok(self.content.size()),
        }
    }

    fn read_at(&mut self, at: u64, out: &mut [u8]) -> Result<usize, OutFault>
        ensures answer { result ≡ unless_due self.old (count_at self.old.content at (length out.old)) }
        ensures piece { out.new ≡ (if is_some (due self.old.plan) then out.old
            else piece_read self.old.content at out.old) }
        ensures after { self.new ≡ called self.old self.old.content }
    {
        match self.count_call() {
            Some(_) => Err(OutFault::Failed),
            None => Ok(self.content.read_at(at, out)),
        }
    }

    fn append(&mut self, piece: &[u8]) -> Result<(), OutFault>
        ensures wanted { IsErrOf result OutFault.OutOfMemory → self.new ≡ unserved self.old }
        ensures done { IsErrOf result OutFault.OutOfMemory ⊎ ((result ≡ unless_due self.old tt)
            × (self.new ≡ called self.old (appended_by (due self.old.plan) self.old.content piece.now))) }
    {
        let count = match self.plan.due() {
            Some(entry) => entry.kept.min(piece.len() as u64) as usize,
            None => piece.len(),
        };
        let added = self.content.append(&piece[..count]);
        self.end(added)
    }

    fn cut(&mut self, size: u64) -> Result<(), OutFault>
        ensures wanted { IsErrOf result OutFault.OutOfMemory → self.new ≡ unserved self.old }
        ensures done { IsErrOf result OutFault.OutOfMemory ⊎ ((result ≡ unless_due self.old tt)
            × (self.new ≡ called self.old (cut_by (due self.old.plan) self.old.content size))) }
    {
        let cut = match self.plan.due() {
            Some(entry) if entry.kept == 0 => self.content.lower(size),
            _ => self.content.cut(size),
        };
        self.end(cut)
    }

    fn sync(&mut self) -> Result<(), OutFault>
        ensures wanted { IsErrOf result OutFault.OutOfMemory → self.new ≡ unserved self.old }
        ensures done { IsErrOf result OutFault.OutOfMemory ⊎ ((result ≡ unless_due self.old tt)
            × (self.new ≡ called self.old (synced_by (due self.old.plan) self.old.content))) }
    {
        let synced = match self.plan.due() {
            Some(_) => Ok(()),
            None => self.content.sync(),
        };
        self.end(synced)
    }
}
