//! Pairs of hashes.
ghost use Rattle.std.specs.Prelude.{◌≡◌, ◌≤◌, length, IfOk, MatchResult};
ghost use Rattle.sha2.specs.Sha256.{sha256};
ghost use Rattle.hash_model.specs.PairHash.{dot32};
ghost use Rattle.hash_model.specs.Tree.{pad_hash};
ghost use Rattle.tree_descent.specs.Collisions.{IsStop};
ghost use Rattle.tree_descent.specs.Pairs as spec;
ghost use Rattle.tree_descent.specs.Pairs.{IsLong, IsOnePair, PairFormsDeterminePairs};

use crate::collision::{Stop, stop_if_different};
use containers::{Bytes, OutOfMemory};
use pair_hash::before;
use ql_types::Hash32;
use sha2::{Digest, Sha256};
use std::alloc::Global;

/// The symbol `pad` as Ion Hash serializes it.
const PAD_FORM: [u8; 6] = *b"\x0B\x70pad\x0E";

/// The hash at each place of the lowest level that has no leaf.
#[tactic(auto, unfolding(hash_model::specs::Tree::pad_hash))]
pub(crate) fn pad() -> Hash32
    ensures { result ≡ pad_hash }
{
    Hash32 {
        bytes: Sha256::digest(&PAD_FORM),
    }
}

// The lengths of hashes, as facts about the values at hand. These functions change nothing.

fn bytes_are_long(bytes: &[u8; 32])
    ensures { length bytes.now ≡ 32 }
{}

/// A hash is 32 bytes.
pub fn hash_is_long(hash: &Hash32)
    ensures { IsLong hash.now }
{
    bytes_are_long(&hash.bytes);
}

/// The two hashes, the lesser one first.
fn put_pair(alloc: Global, a: &Hash32, b: &Hash32) -> Result<Bytes, OutOfMemory>
    ensures { IfOk result (λ form. form ≡ spec.pair_form a.now b.now) }
{
    let (first, second) = if before(a, b) { (a, b) } else { (b, a) };
    let mut form = Vec::with_capacity(alloc, 64)?;
    form.extend_from_slice(&first.bytes)?;
    form.extend_from_slice(&second.bytes)?;
    Ok(Bytes::from_vec(form))
}

/// The 64 bytes of which the SHA-256 is the hash of the two: the lesser one first.
pub fn pair_form(alloc: Global, a: &Hash32, b: &Hash32) -> Result<Bytes, OutOfMemory>
    ensures form { IfOk result (λ form. form ≡ spec.pair_form a.now b.now) }
    ensures long { IfOk result (λ form. length form ≡ 64) }
{
    hash_is_long(a);
    hash_is_long(b);
    let form = put_pair(alloc, a, b)?;
    Ok(form)
}

/// Stops with what two pairs of equal hash are the hashes of, unless they are one pair, whichever comes first.
pub fn one_pair(alloc: Global, a: &Hash32, b: &Hash32, c: &Hash32, d: &Hash32) -> Result<(), Stop>
    requires { dot32 a.now b.now ≡ dot32 c.now d.now }
    ensures { MatchResult result (λ _. IsOnePair a.now b.now c.now d.now) IsStop }
{
    hash_is_long(a);
    hash_is_long(b);
    hash_is_long(c);
    hash_is_long(d);
    let first = put_pair(alloc, a, b)?;
    let second = put_pair(alloc, c, d)?;
    stop_if_different(first, second)
}

/// What is hashed for a pair of hashes of 32 bytes determines the pair, but not which came first.
pub fn pair_forms_determine_pairs()
    ensures { PairFormsDeterminePairs }
{}

/// The stop at what is hashed to a pad's hash but is longer than a pad.
pub fn not_a_pad(alloc: Global, form: Bytes) -> Stop
    requires hash { sha256 form ≡ pad_hash.bytes }
    requires long { 64 ≤ length form }
    ensures { IsStop result }
{
    match Bytes::from_slice(alloc, &PAD_FORM) {
        Ok(pad) => Stop::Collision {
            first: form,
            second: pad,
        },
        Err(_) => Stop::OutOfMemory,
    }
}
