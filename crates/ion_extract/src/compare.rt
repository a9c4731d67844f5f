//! Two values compared by their hashes.
ghost use Rattle.std.specs.Prelude.{IfOk};
ghost use Rattle.ion_extract.specs.Compared.{IsCompared};

use crate::find::{Pair, find};
use containers::{Bytes, OutOfMemory};
use ion_hash::serialize;
use ion_values::{Value, equivalent};
use sha2::{Digest, Sha256};
use std::alloc::Global;

/// How two values compare by their hashes: they are equivalent, their hashes are equal although they aren't, or the
/// hashes differ.
#[derive(Drop)]
pub enum Compared {
    Same,
    Collision { first: Bytes, second: Bytes },
    Differ,
}

/// Returns how the values compare by their hashes: `Differ` exactly if the hashes differ, `Same` exactly if the values
/// are equivalent, and `Collision` otherwise, with two different byte strings of equal SHA-256. These are the
/// serializations if they differ, and the hashed bytes of a field of each value if not.
pub fn compare_hashed(alloc: Global, v: &Value, w: &Value) -> Result<Compared, OutOfMemory>
    ensures { IfOk result (IsCompared v.now w.now) }
{
    let first = serialize(alloc, v)?;
    let second = serialize(alloc, w)?;
    if Sha256::digest(first.as_slice()) != Sha256::digest(second.as_slice()) {
        return Ok(Compared::Differ);
    }
    if equivalent(v, w) {
        return Ok(Compared::Same);
    }
    if first.as_slice() != second.as_slice() {
        return Ok(Compared::Collision { first, second });
    }
    match find(alloc, v, w)? {
        Some(Pair { first, second }) => Ok(Compared::Collision { first, second }),
        None => Ok(Compared::Same),
    }
}
