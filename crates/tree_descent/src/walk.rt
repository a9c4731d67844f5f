//! The way down a tree.
ghost use Rattle.std.specs.Prelude.{◌≡◌, ◌+◌, ◌-◌, ◌*◌, ◌^◌, ◌<◌, ◌≤◌, length, slice_index_or, MatchResult};
ghost use Rattle.ql_types.specs.declared.Hash.TheVariants.{Full};
ghost use Rattle.hash_model.specs.PairHash.{dot32};
ghost use Rattle.hash_model.specs.Tree.{height_of, node, pad_hash, root_of};
ghost use Rattle.pad_tree.specs.Paths.{folded};
ghost use Rattle.tree_descent.specs.Collisions.{IsStop};
ghost use Rattle.tree_descent.specs.Ways.{IsBelow, IsEnd};

use crate::collision::Stop;
use crate::pairs::{one_pair, pad};
use pad_tree::fold_hashes;
use pair_hash::dot_full;
use ql_types::Hash32;
use std::alloc::Global;

/// A place of a level of a tree, both counted from 0. Level 0 has the leaves.
#[derive(Clone, Copy)]
struct Place {
    level: usize,
    at: u64,
}

/// The leaf at a place, or the pad past the last one.
fn leaf_at(leaves: &[Hash32], at: u64) -> Hash32
    ensures { result ≡ slice_index_or leaves.now at pad_hash }
{
    leaves.get(at as usize).copied().unwrap_or(pad())
}

/// The node at a place of a level of the tree over these leaves. It hashes a pair for each node below.
fn node_at(leaves: &[Hash32], level: usize, at: u64) -> Hash32
    requires low { level ≤ 64 }
    requires small { at < 2 ^ (64 - level) }
    ensures { result ≡ node pad_hash leaves.now level at }
{
    if level == 0 {
        return leaf_at(leaves, at);
    }
    let left = node_at(leaves, level - 1, 2 * at);
    let right = node_at(leaves, level - 1, 2 * at + 1);
    dot_full(&left, &right)
}

/// The place below another that has the hash `below`, of which the hash of that place is the hash with `sibling`.
fn step_down(
    alloc: Global,
    leaves: &[Hash32],
    from: Place,
    below: &Hash32,
    sibling: &Hash32,
) -> Result<u64, Stop>
    requires high { 1 ≤ from.level }
    requires low { from.level ≤ 64 }
    requires small { from.at < 2 ^ (64 - from.level) }
    requires hash { dot32 below.now sibling.now ≡ node pad_hash leaves.now from.level from.at }
    ensures { MatchResult result (IsBelow leaves.now from.level from.at below.now) IsStop }
{
    let left = node_at(leaves, from.level - 1, 2 * from.at);
    let right = node_at(leaves, from.level - 1, 2 * from.at + 1);
    one_pair(alloc, below, sibling, &left, &right)?;
    if below.bytes == left.bytes {
        Ok(2 * from.at)
    } else {
        Ok(2 * from.at + 1)
    }
}

/// The place of the leaf at which the way from the root down along a path to `start` ends, counted from 0. It is past
/// the last leaf if the way ends at a pad.
fn place_below(
    alloc: Global,
    leaves: &[Hash32],
    start: &Hash32,
    path: &[Hash32],
) -> Result<u64, Stop>
    requires low { length path.now ≤ 64 }
    requires root { folded start.now path.now ≡ node pad_hash leaves.now (length path.now) 0 }
    ensures { MatchResult result (λ at. start.now ≡ node pad_hash leaves.now 0 at) IsStop }
{
    let mut place = Place {
        level: path.len(),
        at: 0,
    };
    'levels: while place.level > 0 {
        let level = place.level - 1;
        let below = fold_hashes(start, &path[..level]);
        let at = step_down(alloc, leaves, place, &below, &path[level])?;
        place = Place { level, at };
    }
    Ok(place.at)
}

/// Returns the place of the leaf at which a path from the root ends.
///
/// The leaves are those under the root. The way down begins with the path's last hash, and the leaf is `start`.
/// Places are counted from 0; None says that the way ends at a pad. It stops with two different byte strings
/// of equal SHA-256 where the path leaves the tree.
pub fn descend(
    alloc: Global,
    leaves: &[Hash32],
    start: &Hash32,
    path: &[Hash32],
) -> Result<Option<u64>, Stop>
    requires long { length path.now ≡ height_of (length leaves.now) }
    requires root { Full (folded start.now path.now) ≡ root_of leaves.now }
    ensures { MatchResult result (IsEnd leaves.now start.now) IsStop }
{
    let at = place_below(alloc, leaves, start, path)?;
    if at < leaves.len() as u64 {
        Ok(Some(at))
    } else {
        Ok(None)
    }
}
