//! The paths of leaves in padded hash trees, from a leaf to the root.
ghost use Rattle.std.specs.Prelude.{◌≡◌, ◌+◌, ◌<◌, ◌^◌, length, IfOk, SomeIff};
ghost use Rattle.hash_model.specs.Tree.{height_of};
ghost use Rattle.pad_tree.specs.Paths.{sibling_of, path_of, folded, FitsTree, PathLeadsToRoot};

use crate::{height, next_level, pad};
use containers::{OutOfMemory, Sequence};
use pair_hash::dot_full;
use ql_types::Hash32;
use std::alloc::Global;

/// Hashes in order.
pub type Hashes = Sequence<Hash32>;

/// The other place under the same node.
pub(crate) fn sibling(place: usize) -> usize
    requires { place + 1 < 2 ^ 64 }
    ensures { result ≡ sibling_of place }
{
    if place % 2 == 0 { place + 1 } else { place - 1 }
}

/// The path of the leaf at place `i`, counted from 0: the siblings on the way from the leaf up to the root, the lowest
/// first. A place without a leaf has the pad's hash.
pub fn path(alloc: Global, leaves: &[Hash32], i: u64) -> Result<Hashes, OutOfMemory>
    requires { i < length leaves.now }
    ensures siblings { IfOk result (λ path. path ≡ path_of leaves.now i) }
    ensures long { IfOk result (λ path. length path ≡ height_of (length leaves.now)) }
{
    let mut siblings = Vec::new(alloc);
    let mut level = leaves.to_vec(alloc)?;
    let mut pad = pad();
    let mut place = i as usize;
    'levels: while level.len() > 1 {
        siblings.push(level.get(sibling(place)).copied().unwrap_or(pad))?;
        level = next_level(alloc, &level, &pad)?;
        pad = dot_full(&pad, &pad);
        place /= 2;
    }
    Ok(Sequence::from_vec(siblings))
}

/// `start` hashed with each hash of the list in turn.
pub fn fold_hashes(start: &Hash32, list: &[Hash32]) -> Hash32
    ensures { result ≡ folded start.now list.now }
{
    list.iter()
        .fold(*start, |so_far, next| dot_full(&so_far, next))
}

/// What a leaf comes to with the hashes of its path in turn: the root of the tree, where the path is that of leaf `i`
/// of `n` leaves. None comes exactly where there is no leaf `i` among `n`, where `n` is above 2^32, or where the path
/// hasn't a hash for each level of a tree of `n` leaves.
pub fn fold_path(leaf: Hash32, i: u64, n: u64, path: &[Hash32]) -> Option<Hash32>
    ensures { SomeIff result (FitsTree i n path.now) (folded leaf path.now) }
{
    if i >= n || n > 1 << 32 || path.len() != height(n) as usize {
        return None;
    }
    Some(fold_hashes(&leaf, path))
}

/// A law for callers: a leaf with the hashes of its path comes to the root.
pub fn path_leads_to_root()
    ensures { PathLeadsToRoot }
{}
