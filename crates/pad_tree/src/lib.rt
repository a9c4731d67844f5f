//! Hash trees over lists of leaves that are padded to a power of two, and the paths of their leaves.
#![tactic(auto)]

ghost use Rattle.std.specs.Prelude.{◌≡◌, ℕ, ◌<◌, ◌≤◌, ◌^◌, ◌↔◌, [], IfOk};
ghost use Rattle.hash_model.specs.Tree.{pad_hash, height_of, root_of, RootLevelByLevel};
ghost use Rattle.pad_tree.specs.Level.{IsNextLevel};

mod grow;
mod levels;
mod paths;

use containers::OutOfMemory;
pub use grow::Grow;
use pair_hash::dot_full;
pub use paths::{Hashes, fold_hashes, fold_path, path, path_leads_to_root};
use ql_types::{Hash, Hash32};
use sha2::{Digest, Sha256};
use std::alloc::Global;

/// The symbol `pad` as Ion Hash serializes it.
const PAD_FORM: [u8; 6] = *b"\x0B\x70pad\x0E";

/// The hash at each place of the lowest level that has no leaf.
#[tactic(auto, unfolding(hash_model::specs::Tree::pad_hash))]
fn pad() -> Hash32
    ensures { result ≡ pad_hash }
{
    Hash32 {
        bytes: Sha256::digest(&PAD_FORM),
    }
}

/// The height of the tree over `n` leaves: how many levels stand above them.
pub fn height(n: u64) -> u32
    requires leaves { 1 ≤ n }
    requires limit { n ≤ 2 ^ 32 }
    ensures enough { n ≤ 2 ^ result }
    ensures least { (h : ℕ) → n ≤ 2 ^ h → result ≤ h }
    ensures defined { result ≡ height_of n }
{
    if n == 1 { 0 } else { (n - 1).ilog2() + 1 }
}

/// The level over `below`. A last node that stands alone is hashed with the pad of its level.
fn next_level(alloc: Global, below: &[Hash32], pad: &Hash32) -> Result<Vec<Hash32>, OutOfMemory>
    ensures { IfOk result (λ above. IsNextLevel pad.now below.now above.items) }
{
    let count = below.len().div_ceil(2);
    let mut above = Vec::with_capacity(alloc, count)?;
    'places: for place in 0..count {
        let right = below.get(2 * place + 1).copied().unwrap_or(*pad);
        above.push(dot_full(&below[2 * place], &right))?;
    }
    Ok(above)
}

/// The root of the tree over the leaves, or empty where there are none. The places that pad the
/// tree take one hash a level, and no memory.
pub fn root(alloc: Global, leaves: &[Hash32]) -> Result<Hash, OutOfMemory>
    ensures tree { IfOk result (λ root. root ≡ root_of leaves.now) }
    ensures empty { IfOk result (λ root. (root ≡ Hash.Empty) ↔ (leaves.now ≡ [])) }
{
    let mut level = leaves.to_vec(alloc)?;
    let mut pad = pad();
    'levels: while level.len() > 1 {
        level = next_level(alloc, &level, &pad)?;
        pad = dot_full(&pad, &pad);
    }
    match level.first() {
        Some(top) => Ok(Hash::Full(*top)),
        None => Ok(Hash::Empty),
    }
}

/// A law for callers: the root is what the padded leaves come to when neighbours are hashed, level
/// by level.
pub fn root_level_by_level()
    ensures { RootLevelByLevel }
{}
