//! Tests of versions and transactions: what only code sees of them. tests/transactions.py has rows that statements
//! tell.
#![tactic(auto)]

#[cfg(test)]
mod blocks;
#[cfg(test)]
mod journals;
#[cfg(test)]
mod lookups;
#[cfg(test)]
mod opened;
#[cfg(test)]
mod transactions;
