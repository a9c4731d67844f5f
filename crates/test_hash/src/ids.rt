//! Ids as numbers and as texts.
use ql_types::{IdMask, NotAnId, id_digits, id_parts, id_raw, id_read};

#[test]
fn texts(rt: HostRuntime) {
    let mask = IdMask { bits: 0 };
    for (n, i, text) in [
        (0, 0, b"0000000000000000000000"),
        (1, 0, b"0000000000000000018OWG"),
        (1, 1, b"0000000000000000018OWH"),
        (2, 0, b"000000000000000002Gn2W"),
        (3, 0, b"000000000000000003PBYm"),
    ] {
        assert!(rt; i < 1 << 24);
        assert!(rt;
            id_digits(id_raw(mask, n, i)) == *text,
            "transaction {n}, thing {i}"
        );
    }
}

#[test]
fn read_back(rt: HostRuntime) {
    let mask = IdMask { bits: 5 };
    for (n, i) in [(0, 0), (1, 2), (u64::MAX, (1 << 24) - 1)] {
        assert!(rt; i < 1 << 24);
        let raw = id_raw(mask, n, i);
        assert!(rt; id_parts(mask, raw) == Some((n, i)));
        assert!(rt; id_read(&id_digits(raw)) == Ok(raw));
    }
    assert!(rt; id_parts(mask, 1 << 88) == None);
    for text in [
        "zzzzzzzzzzzzzzzzzzzzzz",
        "000000000000000000000",
        "00000000000000000000000",
        "000000000000000000000-",
    ] {
        assert!(rt; id_read(text.as_bytes()) == Err(NotAnId), "{text}");
    }
}
