//! Tests of ids, and of the hashes of pairs, trees and blocks, over their crates. tests/journal_rows.py has rows of the
//! hashes of whole journals.
#![tactic(auto)]

#[cfg(test)]
mod blocks;
#[cfg(test)]
mod ids;
#[cfg(test)]
mod pairs;
#[cfg(test)]
mod trees;
