//! Tests of values compared by their hashes.
#![tactic(auto)]

#[cfg(test)]
mod values;
