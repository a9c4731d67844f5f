//! Tests of a ledger that several passes share, of commit digests and of the retries of a job. tests/journal_rows.py has
//! runs by several workers, and tests/store_faults.py those on files that fail.
#![tactic(auto)]

#[cfg(test)]
mod digests;
#[cfg(test)]
mod passes;
#[cfg(test)]
mod retries;
#[cfg(test)]
mod tails;
