//! Roots and heights of padded trees.
ghost use Rattle.std.specs.Prelude.{◌≡◌, ◌≤◌, ◌^◌, [], ◌∷◌, length, IfSome};
ghost use Rattle.hash_model.specs.Tree.{pad_hash, root_of};

use containers::Sequence;
use pad_tree::{Grow, fold_path, height, path, root, root_level_by_level};
use pair_hash::dot_full;
use ql_types::{Hash, Hash32, Steps};
use sha2::{Digest, Sha256};
use std::alloc::Global;
use std::test::Fail;

/// The hash of the symbol `pad`.
#[tactic(auto, unfolding(hash_model::specs::Tree::pad_hash))]
fn pad() -> Hash32
    ensures { result ≡ pad_hash }
{
    Hash32 {
        bytes: Sha256::digest(b"\x0B\x70pad\x0E"),
    }
}

/// The root over three leaves, worked out from the law that every caller has.
fn root_by_hand(x: &Hash32, y: &Hash32, z: &Hash32) -> Hash
    ensures { result ≡ root_of (x.now ∷ y.now ∷ z.now ∷ []) }
{
    root_level_by_level();
    Hash::Full(dot_full(&dot_full(x, y), &dot_full(z, &pad())))
}

#[test]
fn roots(rt: HostRuntime) -> Result<(), Fail> {
    let [x, y, z] = [1, 2, 3].map(|byte| Hash32 { bytes: [byte; 32] });
    assert!(rt; root(rt.alloc(), &[])? == Hash::Empty);
    assert!(rt; root(rt.alloc(), &[x])? == Hash::Full(x));
    assert!(rt; root(rt.alloc(), &[x, y, z])? == root_by_hand(&x, &y, &z));
    let four = dot_full(&dot_full(&x, &y), &dot_full(&z, &x));
    let two = dot_full(&dot_full(&y, &pad()), &dot_full(&pad(), &pad()));
    assert!(rt; root(rt.alloc(), &[x, y, z, x, y])? == Hash::Full(dot_full(&four, &two)));
    Ok(())
}

/// The path of the third of three leaves: the pad, and the node of the first two.
fn path_by_hand(x: &Hash32, y: &Hash32) -> [Hash32; 2] {
    [pad(), dot_full(x, y)]
}

#[test]
fn paths(rt: HostRuntime) -> Result<(), Fail> {
    let [x, y, z] = [1, 2, 3].map(|byte| Hash32 { bytes: [byte; 32] });
    let siblings = path(rt.alloc(), &[x, y, z], 2)?;
    let [first, second] = path_by_hand(&x, &y);
    assert!(rt; siblings.as_slice() == [first, second].as_slice());
    assert!(rt; fold_path(z, 3, 3, siblings.as_slice()).is_none());
    Ok(())
}

/// Whether the tree over no leaves and over one has that root.
fn begins_right(alloc: Global, x: Hash32) -> Option<bool> {
    let mut grow = Grow::new(alloc).ok()?;
    let empty = grow.root() == Hash::Empty;
    grow.append(x).ok()?;
    Some(empty && grow.root() == Hash::Full(x))
}

/// The tree over three leaves, and how many pairs were hashed for the third one.
fn grown_by_three(alloc: Global, leaves: [Hash32; 3]) -> Option<(Grow, u64)>
    ensures { IfSome result (λ made. length made.0.leaves ≡ 3) }
{
    let [x, y, z] = leaves;
    let mut grow = Grow::new(alloc).ok()?;
    grow.append(x).ok()?;
    grow.append(y).ok()?;
    grow.ready().ok()?;
    let mut steps = Steps { taken: 0 };
    grow.put(z, &mut steps);
    Some((grow, steps.taken))
}

#[test]
fn a_tree_grows(rt: HostRuntime) -> Result<(), Fail> {
    let [x, y, z] = [1, 2, 3].map(|byte| Hash32 { bytes: [byte; 32] });
    assert_eq!(rt; begins_right(rt.alloc(), x), Some(true));
    let (grow, pairs) = grown_by_three(rt.alloc(), [x, y, z]).ok_or("no tree")?;
    assert!(rt; pairs == 2);
    assert!(rt; grow.root() == root_by_hand(&x, &y, &z));
    let siblings = grow.path(rt.alloc(), 2)?;
    let [first, second] = path_by_hand(&x, &y);
    assert!(rt; siblings.as_slice() == [first, second].as_slice());
    Ok(())
}

/// The root of the tree that is made of these leaves at once, and how many pairs were hashed for it.
fn made_at_once(alloc: Global, leaves: &[Hash32]) -> Option<(Hash, u64)>
    requires { length leaves.now ≤ 2 ^ 32 }
    ensures root { IfSome result (λ made. made.0 ≡ root_of leaves.now) }
{
    let mut steps = Steps { taken: 0 };
    let leaves = Sequence::from_slice(alloc, leaves).ok()?;
    let grow = Grow::of(alloc, leaves, &mut steps).ok()?;
    Some((grow.root(), steps.taken))
}

/// The root of the tree that grew by these leaves.
fn grown_to(alloc: Global, leaves: &[Hash32]) -> Option<Hash>
    requires { length leaves.now ≤ 2 ^ 32 }
{
    let mut grow = Grow::new(alloc).ok()?;
    'leaves: for leaf in leaves {
        grow.append(*leaf).ok()?;
    }
    Some(grow.root())
}

#[test]
fn a_tree_is_made_at_once(rt: HostRuntime) -> Result<(), Fail> {
    let leaves = [1, 2, 3, 4, 5].map(|byte| Hash32 { bytes: [byte; 32] });
    for (count, pairs) in [(0, 0), (1, 0), (2, 1), (3, 3), (5, 6)] {
        assert!(rt; count <= leaves.len());
        let (root, hashed) = made_at_once(rt.alloc(), &leaves[..count]).ok_or("no tree")?;
        assert!(rt; hashed == pairs, "{count} leaves");
        assert!(rt;
            Some(root) == grown_to(rt.alloc(), &leaves[..count]),
            "{count} leaves"
        );
    }
    Ok(())
}

#[test]
fn heights(rt: HostRuntime) {
    for (n, levels) in [(1, 0), (2, 1), (3, 2), (4, 2), (5, 3), (1 << 32, 32)] {
        assert!(rt; n >= 1 && n <= 1 << 32);
        assert!(rt; height(n) == levels, "{n} leaves");
    }
}
