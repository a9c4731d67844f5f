//! The tree over three leaves.
use pad_tree::{fold_path, path, root};
use pair_hash::dot_full;
use ql_types::{Hash, Hash32};
use std::test::Fail;

/// The hash of the symbol `pad`: SHA-256 of the bytes 0B 70 70 61 64 0E.
const PAD: Hash32 = Hash32 {
    bytes: [
        0xDD, 0x1A, 0x9D, 0x8F, 0x05, 0x48, 0x10, 0xF4, 0xA7, 0x9F, 0x51, 0xFC, 0x45, 0xAF, 0x93,
        0x98, 0x87, 0x3D, 0x05, 0x78, 0x1A, 0xC3, 0x9B, 0xCD, 0x2D, 0xB6, 0x8F, 0xBC, 0xD3, 0x30,
        0x09, 0xA3,
    ],
};

#[test]
fn the_path_of_the_third_leaf(rt: HostRuntime) -> Result<(), Fail> {
    let [x, y, z] = [1, 2, 3].map(|byte| Hash32 { bytes: [byte; 32] });
    let left = dot_full(&x, &y);
    let top = dot_full(&left, &dot_full(&z, &PAD));
    let siblings = path(rt.alloc(), &[x, y, z], 2)?;
    assert!(rt; siblings.as_slice() == [PAD, left].as_slice());
    assert!(rt; root(rt.alloc(), &[x, y, z])? == Hash::Full(top));
    assert!(rt; fold_path(z, 2, 3, siblings.as_slice()) == Some(top));
    assert!(rt; fold_path(z, 3, 3, siblings.as_slice()) == None);
    assert!(rt; fold_path(z, 2, 5, siblings.as_slice()) == None);
    Ok(())
}
