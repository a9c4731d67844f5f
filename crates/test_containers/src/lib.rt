//! Tests of sequences, texts and boxes, of persistent maps, and of postings over them.
#![tactic(auto)]

#[cfg(test)]
mod keys;
#[cfg(test)]
mod maps;
#[cfg(test)]
mod postings;
#[cfg(test)]
mod sequences;
