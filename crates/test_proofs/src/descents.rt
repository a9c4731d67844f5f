//! The way down a tree, and the pairs on it.
ghost use Rattle.std.specs.Prelude.{◌<◌, length};

use containers::Bytes;
use pad_tree::{path, path_leads_to_root};
use ql_types::Hash32;
use std::alloc::Global;
use tree_descent::{descend, one_pair, pair_form, stop_if_different};

/// A hash of equal bytes.
fn hash_of_bytes(byte: u8) -> Hash32 {
    Hash32 { bytes: [byte; 32] }
}

/// Where the way down along the path of a leaf ends, both counted from 0.
fn end_of(alloc: Global, leaves: &[Hash32], at: u64) -> Option<Option<u64>>
    requires { at < length leaves.now }
{
    path_leads_to_root();
    let Ok(siblings) = path(alloc, leaves, at) else {
        return None;
    };
    let leaf = leaves[at as usize];
    descend(alloc, leaves, &leaf, siblings.as_slice()).ok()
}

/// Whether what is hashed for the two, whichever is given first, is the lesser one and then the greater one.
fn are_in_order(alloc: Global, lesser: &Hash32, greater: &Hash32) -> Option<bool> {
    let form = pair_form(alloc, lesser, greater).ok()?;
    let other = pair_form(alloc, greater, lesser).ok()?;
    Some(
        form.as_slice() == other.as_slice()
            && form.as_slice().starts_with(&lesser.bytes)
            && form.as_slice().ends_with(&greater.bytes),
    )
}

/// Whether two copies of these bytes stop nothing.
fn are_one(alloc: Global, bytes: &[u8]) -> bool {
    let Ok(first) = Bytes::from_slice(alloc, bytes) else {
        return false;
    };
    let Ok(second) = Bytes::from_slice(alloc, bytes) else {
        return false;
    };
    stop_if_different(first, second).is_ok()
}

#[test]
fn the_way_down_ends_at_the_leaf(rt: HostRuntime) {
    let leaves = [1, 2, 3].map(hash_of_bytes);
    assert!(rt; end_of(rt.alloc(), &leaves, 0) == Some(Some(0)));
    assert!(rt; end_of(rt.alloc(), &leaves, 1) == Some(Some(1)));
    assert!(rt; end_of(rt.alloc(), &leaves, 2) == Some(Some(2)));
}

#[test]
fn pairs_begin_with_the_lesser_hash(rt: HostRuntime) {
    let (one, minus) = (hash_of_bytes(0x01), hash_of_bytes(0x80));
    assert!(rt; are_in_order(rt.alloc(), &minus, &one) == Some(true));
    assert!(rt; one_pair(rt.alloc(), &one, &minus, &one, &minus).is_ok());
}

#[test]
fn equal_strings_stop_nothing(rt: HostRuntime) {
    assert!(rt; are_one(rt.alloc(), b"pad"));
}
