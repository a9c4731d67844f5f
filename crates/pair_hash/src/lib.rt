//! The hash of two hashes, of which the lesser goes first, and of one hash with a list of them.
#![tactic(auto)]

ghost use Rattle.std.specs.Prelude.{◌≡◌, ℕ, ◌<◌, slice_index, reverse};
ghost use Rattle.std.specs.Ordering.{is_lt};
ghost use Rattle.hash_model.specs.PairHash.{comes_before, signed_cmp, dot32, dot_of, dot_each};
ghost use Rattle.pair_hash.specs.Signed.{signed_bytes};

use ql_types::{Hash, Hash32};
use sha2::{Digest, Sha256};

/// The bytes as signed ones, the last one first.
fn signed_from_last(bytes: &[u8; 32]) -> [i8; 32]
    ensures signed { result ≡ signed_bytes bytes.now }
    ensures in_range { (k : ℕ) → slice_index (reverse bytes.now) k < 256 }
{
    let mut from_last = *bytes;
    from_last.reverse();
    from_last.map(|byte| byte.cast_signed())
}

/// Whether a byte is the lesser as a signed one.
fn less_signed(x: u8, y: u8) -> bool
    ensures { result ≡ is_lt (signed_cmp x y) }
{
    x.cast_signed() < y.cast_signed()
}

/// Whether `a` is the lesser: bytes count from the last to the first, each as a signed one, as in
/// the Amazon QLDB Developer Guide. The last ones alone tell it, unless they are the same.
#[tactic(auto, using(crate::proofs::Order::by_last))]
pub fn before(a: &Hash32, b: &Hash32) -> bool
    ensures { result ≡ comes_before a.now.bytes b.now.bytes }
{
    let (x, y) = (a.bytes[31], b.bytes[31]);
    if x == y {
        before_by_all(a, b)
    } else {
        less_signed(x, y)
    }
}

/// Whether `a` comes before `b`, compared by all bytes.
fn before_by_all(a: &Hash32, b: &Hash32) -> bool
    ensures { result ≡ comes_before a.now.bytes b.now.bytes }
{
    let a = signed_from_last(&a.bytes);
    let b = signed_from_last(&b.bytes);
    a.cmp(&b).is_lt()
}

/// SHA-256 of the two hashes, the lesser one first.
#[tactic(auto, unfolding(hash_model::specs::PairHash::dot32))]
pub fn dot_full(a: &Hash32, b: &Hash32) -> Hash32
    ensures { result ≡ dot32 a.now b.now }
{
    let (first, second) = if before(a, b) { (a, b) } else { (b, a) };
    let mut hasher = Sha256::new();
    hasher.update(&first.bytes);
    hasher.update(&second.bytes);
    Hash32 {
        bytes: hasher.finalize(),
    }
}

/// The hash of two hashes. An empty one leaves the other as it is.
pub fn dot(a: Hash, b: Hash) -> Hash
    ensures { result ≡ dot_of a b }
{
    match (a, b) {
        (Hash::Empty, other) | (other, Hash::Empty) => other,
        (Hash::Full(a), Hash::Full(b)) => Hash::Full(dot_full(&a, &b)),
    }
}

/// `start` hashed with each hash of the list in turn.
pub fn fold(start: Hash, list: &[Hash32]) -> Hash
    ensures { result ≡ dot_each start list.now }
{
    list.iter()
        .fold(start, |so_far, next| dot(so_far, Hash::Full(*next)))
}
