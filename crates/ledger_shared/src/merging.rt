//! The outcomes of all desks as one list in the script's order.
ghost use Rattle.std.specs.Prelude.{◌≡◌, ◌+◌, ◌<◌, ◌≤◌, ℕ, List, [], ◌++◌, length, reverse, slice_index_or};
ghost use Rattle.std.specs.Prelude.{vec_capacity, vec_len};
ghost use Rattle.ledger_model.specs.declared.outcome.PlacedOutcome.{PlacedOutcome};
ghost use Rattle.ledger_shared.specs.Desks.{AreDealt};
ghost use Rattle.ledger_shared.specs.declared.workers.Desk.{Desk};
ghost use Rattle.ledger_shared.specs.Sessions.{job_count};

use crate::room::put;
use crate::workers::Desk;
use ledger_model::{PlacedOutcome, Session};
use outside::{Clock, Gate, JournalStore};

/// Moves the outcomes of all jobs from the desks to a list without outcomes that has room for them, and puts them
/// in the script's order there. Each desk has the outcomes of the jobs that are dealt to its worker.
pub(crate) fn merge<'a, S: JournalStore, C: Clock, G: Gate>(
    script: &[Session],
    desks: &mut [Desk<'a, S, C, G>],
    outcomes: &mut Vec<PlacedOutcome>,
)
    requires some { 0 < length desks.old }
    requires empty { outcomes.old.items ≡ [] }
    requires room { job_count script.now ≤ vec_capacity outcomes.old }
    requires dealt { (all : List PlacedOutcome) × AreDealt script.now desks.old all }
    ensures merged { (all : List PlacedOutcome) → AreDealt script.now desks.old all → outcomes.new.items ≡ all }
    ensures workers { (i : ℕ) (d : Desk S C G) → i < length desks.old
        → (slice_index_or desks.new i d).worker ≡ (slice_index_or desks.old i d).worker }
{
    let mut left = script.len();
    'sessions: while left > 0 {
        left -= 1;
        let at = left % desks.len();
        move_last(&mut desks[at].outcomes, script[left].len(), outcomes);
    }
    outcomes.reverse();
}

/// Moves `count` outcomes from the end of a list to the end of another one, the last one first. There is room for
/// them.
fn move_last(from: &mut Vec<PlacedOutcome>, count: usize, to: &mut Vec<PlacedOutcome>)
    requires count { count ≤ vec_len from.old }
    requires room { vec_len to.old + count ≤ vec_capacity to.old }
    ensures moved { (moved : List PlacedOutcome) × (length moved ≡ count) × (to.new.items ≡ to.old.items ++ moved)
        × (from.new.items ++ reverse moved ≡ from.old.items) }
    ensures len { vec_len to.new ≡ vec_len to.old + count }
    ensures room { vec_capacity to.old ≤ vec_capacity to.new }
{
    let mut left = count;
    'outcomes: while left > 0 {
        let outcome = from.pop().unwrap();
        put(to, outcome);
        left -= 1;
    }
}
