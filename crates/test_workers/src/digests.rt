//! Commit digests. A row is a transaction's number, its statements, each a list of its text and its parameters,
//! and behind ` => ` the digest in hexadecimal.
use ion_text::read_stream;
use ion_values::{Body, Value};
use ql_types::{Hash32, IdMask, TxId, id_raw};
use session_driver::{fold_statement, start_digest};
use std::alloc::Global;

// Printed by vectors/make.py.
const DIGESTS: &str = r#"
1 [] => 3b99b0bf19a3af3dfd59ca2c3d2fb0752e9788dfb22cc5737f3c63489391419f
1 [["CREATE TABLE t"]] => 8fc2485dddc08338cf4cfae1168595ab29454fba1ee014077644db609f87fe68
1 [["INSERT INTO t ?",{a:5}]] => f0ebf583da55f45ea94387c3a8586ed12ed438a746a48e559810bc2b78c474d3
1 [["SELECT * FROM t"],["INSERT INTO t ?",{a:5}]] => 133945b2d195d06f6ee5aba0858083788ad9819e166cee2ac893be76d8867aa0
1 [["INSERT INTO t ?",{a:5}],["SELECT * FROM t"]] => 5cf2eefa93bccc584d82e76fe4e4f5bf4d9f334404ade620baae754adc0c0611
2 [["SELECT * FROM t WHERE a = ? AND b = ?",5,"x"]] => adca76b1d58a70571a2befbc81f3ea8506acd1efe4cace7ba1c53ad7c5f07849
2 [["SELECT * FROM t WHERE a = ? AND b = ?","x",5]] => e1034245adefeeddcfe4634a3eb50219a0c188c97acf0ff67e67b7d98f76a40b
3 [["",[],{}]] => 0560e3326e6eec77f2fa9bac44a036f7f92dee6d45d79dea8dee49c0896aac98
"#;

/// The digest with the statement more.
fn with_statement(alloc: Global, digest: Hash32, statement: &Value) -> Option<Hash32> {
    let Body::List(parts) = &statement.body else {
        return None;
    };
    let [text, params @ ..] = parts.as_slice() else {
        return None;
    };
    let Body::String(text) = &text.body else {
        return None;
    };
    fold_statement(alloc, digest, text.as_str(), params).ok()
}

/// The digest of a transaction of this number and these statements.
fn digest_of(alloc: Global, number: u64, statements: &str) -> Option<Hash32> {
    let values = read_stream(alloc, statements.as_bytes(), 4).ok()?;
    let [value] = values.as_slice() else {
        return None;
    };
    let Body::List(statements) = &value.body else {
        return None;
    };
    let raw = id_raw(IdMask { bits: 0 }, number, 0);
    let mut digest = start_digest(alloc, TxId { raw }).ok()?;
    for statement in statements.as_slice() {
        digest = with_statement(alloc, digest, statement)?;
    }
    Some(digest)
}

/// Whether the row's digest is the computed one.
fn is_told(alloc: Global, row: &str) -> Option<bool> {
    let (asked, expected) = row.split_once(" => ")?;
    let (number, statements) = asked.split_once(' ')?;
    let digest = digest_of(alloc, number.parse::<u64>().ok()?, statements)?;
    let found = hex::encode(alloc, &digest.bytes).ok()?;
    Some(found.as_str() == expected)
}

#[test]
fn digests_fold_ids_texts_and_parameters(rt: HostRuntime) {
    for row in DIGESTS.trim().lines() {
        assert_eq!(rt; is_told(rt.alloc(), row), Some(true), "{row}");
    }
}
