//! Tests of Ion's binary encoding, over its crate and the reader of Ion text.
#![tactic(auto)]

#[cfg(test)]
mod streams;
