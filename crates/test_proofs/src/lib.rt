//! Paths and roots of trees, the way down one, proofs of no block, and replays from a later block: what only code can
//! say of proofs and streams. tests/commands.txt, tests/proofs.py and tests/streams.py have the rows that commands tell.
#![tactic(auto)]

#[cfg(test)]
mod descents;
#[cfg(test)]
mod grown;
#[cfg(test)]
mod replays;
#[cfg(test)]
mod trees;
