//! The begin of a transaction.
ghost use Rattle.std.specs.Prelude.{◌≡◌, ◌+◌, ◌<◌, ◌^◌, IfOk, OnOk, OnErr, IfErr};
ghost use Rattle.ledger_core.specs.Beginning.{IsBeginFault, begun_on, drawn};
ghost use Rattle.ledger_core.specs.Committing.{IsOpenOn};
ghost use Rattle.txn_core.specs.Opened.{Opened};

use crate::tail::Tail;
use ion_values::OutOfMemory;
use outside::JournalStore;
use ql_types::Place;
use std::alloc::Global;
use thiserror::Error;
use txn_core::{Drawn, Txn, start_txn};

/// Why no transaction was begun.
#[derive(Clone, Copy, Debug, PartialEq, Eq, Error)]
pub enum BeginFault {
    /// No number is left after the last one.
    #[error("no number is left after {last}")]
    IdsSpent { last: u64 },
    #[error("out of memory")]
    OutOfMemory,
}

impl From<OutOfMemory> for BeginFault {
    ghost use Rattle.std.specs.Prelude.{◌≡◌};
    ghost use Rattle.ledger_core.specs.declared.begin.BeginFault.TheVariants as fails;

    ghost from_gives = { λ _ e. e ≡ fails.OutOfMemory };

    fn from(_error: OutOfMemory) -> BeginFault {
        BeginFault::OutOfMemory
    }
}

impl<S: JournalStore, C> Tail<S, C> {
    /// Begins the transaction of the next number at this place of the script. It runs on the blocks so far. It
    /// returns `IdsSpent` if the last number that was drawn or found is 2^64 - 1. After a fault the tail is as before.
    pub fn begin(&mut self, alloc: Global, place: Place) -> Result<Txn, BeginFault>
        ensures begun { IfOk result (λ txn. txn ≡ begun_on self.old.standing place) }
        ensures opens { IfOk result (λ txn. IsOpenOn self.new.standing txn) }
        ensures still { (other : Opened) → IsOpenOn self.old.standing other → IsOpenOn self.new.standing other }
        ensures drawn { OnOk result (self.new ≡ record self.old { standing = drawn self.old.standing }) }
        ensures counted { OnOk result (self.old.standing.last + 1 < 2 ^ 64) }
        ensures fault { IfErr result (λ fault. IsBeginFault self.old.standing fault) }
        ensures same { OnErr result (self.new ≡ self.old) }
    {
        if self.last == u64::MAX {
            return Err(BeginFault::IdsSpent { last: self.last });
        }
        let base = self.share_version()?;
        let since = self.blocks().len();
        self.draw();
        let drawn = Drawn {
            mask: self.mask,
            number: self.last,
        };
        Ok(start_txn(alloc, base, since, drawn, place))
    }

    /// Draws the next number.
    pub(crate) fn draw(&mut self)
        requires { self.old.standing.last + 1 < 2 ^ 64 }
        ensures { self.new ≡ record self.old { standing = drawn self.old.standing } }
    {
        self.last += 1;
    }
}
