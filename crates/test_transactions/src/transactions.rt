//! Transactions on versions.
ghost use Rattle.std.specs.Prelude.{⊤};

use crate::journals::Version;
use containers::{Boxed, Text};
use ion_text::write;
use ion_values::Value;
use ledger_model::{Item, Refusal};
use ql_types::{IdMask, Place};
use script_form::put_cause;
use std::alloc::Global;
use std::marker::Model;
use txn_core::{Drawn, Finished, Statements, Txn, start_txn};

const DRAWN: Drawn = Drawn {
    mask: IdMask { bits: 0 },
    number: 1,
};

const PLACE: Place = Place {
    session: 1,
    transaction: 1,
};

fn put_value(alloc: Global, told: &mut String, value: &Value) -> Option<()> {
    let text = write(alloc, value).ok()?;
    told.push_str(text.as_str()).ok()
}

/// Puts the values at the end, one behind another.
fn put_values(alloc: Global, told: &mut String, values: &[Value]) -> Option<()> {
    for value in values {
        put_value(alloc, told, value)?;
    }
    Some(())
}

fn put_refusal(alloc: Global, told: &mut String, cause: &Refusal) -> Option<()> {
    let mut text = Text::new(alloc);
    put_cause(alloc, &mut text, cause).ok()?;
    told.push_str(text.as_str()).ok()
}

/// What a transaction becomes a block of. Clauses see nothing of it, and it is dropped by a call, which keeps the
/// proofs of the tables small.
#[derive(Drop)]
pub(crate) struct Work {
    finished: Boxed<Finished>,
}

impl Model for Work {
    ghost Value = { ⊤ };

    ghost view = { λ _. tt };
}

impl Work {
    fn boxed(alloc: Global, finished: Finished) -> Option<Work> {
        match Boxed::new(alloc, finished) {
            Ok(finished) => Some(Work { finished }),
            Err(_) => None,
        }
    }

    /// How many statements it said, and how many documents it changed.
    pub(crate) fn counts(&self) -> (usize, usize) {
        let finished = self.finished.get();
        (finished.said.len(), finished.drafts.len())
    }
}

fn finished(alloc: Global, txn: Txn) -> Option<Work> {
    match txn.finish(alloc) {
        Ok(finished) => Work::boxed(alloc, finished),
        Err(_) => None,
    }
}

/// An open transaction. Clauses see nothing of it. It is finished in place of dropped.
#[derive(Drop)]
pub(crate) struct Open {
    txn: Txn,
}

impl Model for Open {
    ghost Value = { ⊤ };

    ghost view = { λ _. tt };
}

impl Open {
    /// The first transaction on this version.
    pub(crate) fn first(alloc: Global, version: &Version) -> Option<Open> {
        let Ok(base) = version.get().share() else {
            return None;
        };
        let txn = start_txn(alloc, base, 0, DRAWN, PLACE);
        Some(Open { txn })
    }

    /// Puts the rows of a statement's answer at the end, or the cause of its refusal.
    pub(crate) fn ask(&mut self, alloc: Global, text: &str, told: &mut String) -> Option<()> {
        match self.txn.execute(alloc, text, &[]) {
            Ok(answer) => put_values(alloc, told, answer.rows.as_slice()),
            Err(cause) => put_refusal(alloc, told, &cause),
        }
    }

    /// Whether the statement is done, which leaves its answer with the transaction alone.
    pub(crate) fn perform(&mut self, alloc: Global, text: &str) -> bool {
        let mut statements = Statements::new(alloc);
        self.txn.perform(alloc, &mut statements, text, &[]).is_ok()
    }

    pub(crate) fn is_ended(&self) -> bool {
        self.txn.is_ended()
    }

    /// What was read.
    pub(crate) fn items(&self) -> &[Item] {
        self.txn.footprint()
    }

    /// How many documents its block would have a revision of.
    pub(crate) fn count_left(&self, alloc: Global) -> Option<usize> {
        match self.txn.left(alloc) {
            Ok(left) => Some(left.len()),
            Err(_) => None,
        }
    }

    pub(crate) fn finish(self, alloc: Global) -> Option<Work> {
        let Open { txn } = self;
        finished(alloc, txn)
    }
}
