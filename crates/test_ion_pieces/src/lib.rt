//! Tests of Ion text that is read in pieces: wherever it is cut, it gives what the whole gives.
#![tactic(auto)]

#[cfg(test)]
mod cuts;
