//! Tests of the tail of a journal over stores in memory. tests/transactions.py and tests/journal_rows.py have rows that
//! go through the texts of programs, and tests/store_faults.py those of files that fail.
#![tactic(auto)]

#[cfg(test)]
mod bench;
#[cfg(test)]
mod digests;
#[cfg(test)]
mod loads;
#[cfg(test)]
mod statements;
#[cfg(test)]
mod stores;
