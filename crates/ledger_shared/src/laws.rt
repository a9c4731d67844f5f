//! Laws of what a stop of the machine leaves of a ledger's store.
ghost use Rattle.ledger_shared.specs.Acknowledged.{UnmarkedIsSafe};
ghost use Rattle.ledger_shared.specs.Images.{ImagesRecover};
ghost use Rattle.ledger_core.specs.Tails.{TailHeld};

use crate::ledger::Ledger;
use laws_crash::{safe_recovers, unmarked_recovers};
use outside::{Clock, JournalStore};

/// What a stop left at any moment since a ledger was made recovers to a list of the ledger's own history.
pub fn images_recover()
    ensures { ImagesRecover }
{
    safe_recovers();
}

impl<S: JournalStore, C: Clock> Ledger<S, C> {
    /// If no cut may be marked after the entries, each image recovers to the tail's blocks alone.
    pub fn unmarked_is_safe()
        ensures { (opened : TailHeld S C) → UnmarkedIsSafe S.told C.answers C.always opened }
    {
        unmarked_recovers();
    }
}
