//! How all statements of a transaction end.
use crate::transaction::Txn;
use ledger_model::Refusal;

/// How a transaction's statements ended: all were done, or the one of this number, counted from 1, was refused.
#[derive(Drop)]
pub enum Ran {
    Done(Txn),
    Refused { statement: u32, cause: Refusal },
}
