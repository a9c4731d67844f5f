//! Growing bytes.
ghost use Rattle.std.specs.Prelude.{ℕ, List, ◌+◌, ◌≡◌, ◌≤◌, [], ◌∷◌, ◌++◌, drop, length, take, IfOk, OnOk, OnErr};

use containers::{Bytes, OutOfMemory};
use std::alloc::Global;
use std::marker::Model;

/// For how many bytes a new buffer has room.
const ROOM: usize = 256;

/// Growing bytes, which contracts see as their list.
#[derive(Drop)]
pub struct Buffer {
    bytes: Vec<u8>,
}

impl Model for Buffer {
    ghost use Rattle.std.specs.Prelude.{ℕ, List};

    ghost Value = { List ℕ };

    ghost view = { λ b. b.bytes.items };
}

impl Buffer {
    /// No bytes.
    pub fn new(alloc: Global) -> Result<Buffer, OutOfMemory>
        ensures { IfOk result (λ b. b ≡ []) }
    {
        Ok(Buffer {
            bytes: Vec::with_capacity(alloc, ROOM)?,
        })
    }

    /// The number of bytes.
    pub fn len(&self) -> usize
        ensures { result ≡ length self.now }
    {
        self.bytes.len()
    }

    /// Appends a byte. The bytes are as before if memory runs out.
    pub fn push(&mut self, byte: u8) -> Result<(), OutOfMemory>
        ensures ok { OnOk result (self.new ≡ self.old ++ byte ∷ []) }
        ensures err { OnErr result (self.new ≡ self.old) }
    {
        self.bytes.push(byte)?;
        Ok(())
    }

    /// Appends bytes. The bytes are as before if memory runs out.
    pub fn extend(&mut self, more: &[u8]) -> Result<(), OutOfMemory>
        ensures ok { OnOk result (self.new ≡ self.old ++ more.now) }
        ensures err { OnErr result (self.new ≡ self.old) }
    {
        self.bytes.extend_from_slice(more)?;
        Ok(())
    }

    /// The bytes, lent.
    pub fn as_slice(&self) -> &[u8]
        ensures { result.now ≡ self.now }
    {
        self.bytes.as_slice()
    }

    /// The bytes from `start` on, lent.
    pub fn tail(&self, start: usize) -> &[u8]
        requires { start ≤ length self.now }
        ensures { result.now ≡ drop start self.now }
    {
        let (_, tail) = self.bytes.as_slice().split_at(start);
        tail
    }

    /// Keeps the first `len` bytes, or all where there are fewer.
    pub fn truncate(&mut self, len: usize)
        ensures { self.new ≡ take len self.old }
    {
        self.bytes.truncate(len);
    }

    /// Moves the last `count` bytes to `start`, in front of those that stood from there on.
    pub fn move_last(&mut self, start: usize, count: usize)
        requires { start + count ≤ length self.old }
        ensures { (a b c : List ℕ) → self.old ≡ a ++ b ++ c → length a ≡ start → length c ≡ count →
            self.new ≡ a ++ c ++ b }
    {
        self.bytes.as_mut_slice()[start..].rotate_right(count);
    }

    /// The bytes, handed over. It takes no memory.
    pub fn into_bytes(self) -> Bytes
        ensures { result ≡ self }
    {
        let Buffer { bytes } = self;
        Bytes::from_vec(bytes)
    }
}
