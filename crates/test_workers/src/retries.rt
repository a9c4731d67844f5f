//! The retries of a job, over a link that answers conflicts at first.
ghost use Rattle.std.specs.Prelude.{◌≡◌, ◌-◌, nat_lt};
ghost use Rattle.session_driver.specs.Retries.{is_conflict};

use containers::Sequence;
use ledger_model::{Item, Job, Named, Outcome};
use ql_types::{Place, TxId};
use session_driver::{Link, run_job};
use std::alloc::Global;
use std::sync::Wait;

/// A link that returns a number of conflicts, and then commits. It counts its attempts.
#[derive(Drop)]
struct Busy {
    conflicts: u32,
    attempts: u32,
}

impl Link for Busy {
    ghost attempted = { λ before job place outcome after.
        (is_conflict outcome ≡ nat_lt 0 before.conflicts) × (after.conflicts ≡ before.conflicts - 1) };

    fn attempt<R: Wait + Sync>(&mut self, _rt: &R, _job: &Job, _place: Place) -> Outcome {
        let tx = TxId { raw: 1 << 24 };
        self.attempts = self.attempts.saturating_add(1);
        if self.conflicts == 0 {
            return Outcome::Committed { tx, block: 4 };
        }
        self.conflicts -= 1;
        Outcome::Conflict {
            tx,
            since: 4,
            named: Named {
                block: 4,
                item: Item::TableList,
            },
        }
    }
}

fn job_of(alloc: Global, retries: u32) -> Job {
    Job {
        statements: Sequence::new(alloc),
        retries,
        digest: None,
        abort: false,
        denied: None,
    }
}

#[test]
fn a_job_is_tried_again_after_conflicts(rt: HostRuntime) {
    for (conflicts, retries, attempts, last_conflicts) in [
        (2, 4, 3, false),
        (2, 1, 2, true),
        (0, 4, 1, false),
        (0, 0, 1, false),
        (1, 0, 1, true),
        (4, 4, 5, false),
        (5, 4, 5, true),
    ] {
        let mut link = Busy {
            conflicts,
            attempts: 0,
        };
        let place = Place {
            session: 1,
            transaction: 1,
        };
        let job = job_of(rt.alloc(), retries);
        let outcome = run_job(&mut link, &rt, &job, place);
        assert_eq!(rt;
            link.attempts,
            attempts,
            "{conflicts} conflicts, {retries} retries"
        );
        assert_eq!(rt; matches!(outcome, Outcome::Conflict { .. }), last_conflicts);
    }
}
