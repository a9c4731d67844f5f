//! Published digests, and the hashes of pairs.
use pair_hash::{before, dot, fold};
use ql_types::{Hash, Hash32};
use sha2::{Digest, Sha256};

/// 31 zero bytes and this one.
fn ending_in(last: u8) -> Hash32 {
    let mut bytes = [0; 32];
    bytes[31] = last;
    Hash32 { bytes }
}

/// The example of one block, and the empty message, of the test vectors to FIPS 180-4.
#[test]
fn published_digests(rt: HostRuntime) {
    assert!(rt;
        Sha256::digest(b"abc")
            == [
                0xba, 0x78, 0x16, 0xbf, 0x8f, 0x01, 0xcf, 0xea, 0x41, 0x41, 0x40, 0xde, 0x5d, 0xae,
                0x22, 0x23, 0xb0, 0x03, 0x61, 0xa3, 0x96, 0x17, 0x7a, 0x9c, 0xb4, 0x10, 0xff, 0x61,
                0xf2, 0x00, 0x15, 0xad,
            ]
    );
    assert!(rt;
        Sha256::digest(b"")
            == [
                0xe3, 0xb0, 0xc4, 0x42, 0x98, 0xfc, 0x1c, 0x14, 0x9a, 0xfb, 0xf4, 0xc8, 0x99, 0x6f,
                0xb9, 0x24, 0x27, 0xae, 0x41, 0xe4, 0x64, 0x9b, 0x93, 0x4c, 0xa4, 0x95, 0x99, 0x1b,
                0x78, 0x52, 0xb8, 0x55,
            ]
    );
}

/// 80 stands for -128, so it goes before 01.
#[test]
fn signed_order(rt: HostRuntime) {
    let a = ending_in(0x80);
    let b = ending_in(0x01);
    assert!(rt; before(&a, &b));
    assert!(rt; !before(&b, &a));
    let mut message = [0; 64];
    message[31] = 0x80;
    message[63] = 0x01;
    let both = Hash::Full(Hash32 {
        bytes: Sha256::digest(&message),
    });
    let (a, b) = (Hash::Full(a), Hash::Full(b));
    assert!(rt; dot(a, b) == both);
    assert!(rt; dot(b, a) == both);
    assert!(rt; dot(Hash::Empty, b) == b);
    assert!(rt; dot(b, Hash::Empty) == b);
    assert!(rt; fold(a, &[ending_in(0x01)]) == both);
    assert!(rt; fold(a, &[]) == a);
    let more = ending_in(0x7f);
    assert!(rt; fold(a, &[ending_in(0x01), more]) == dot(both, Hash::Full(more)));
}
