//! A worker's sessions, each whole.
ghost use Rattle.std.specs.Prelude.{◌≡◌, ◌+◌, ◌<◌, ◌≤◌, ◌^◌, ◌%◌, ◌≢◌, [], ◌∷◌, ◌++◌, length, vec_capacity, vec_len};
ghost use Rattle.ledger_model.specs.Script.{all_placed, placed_from};
ghost use Rattle.ledger_shared.specs.Behind.{opening_of};
ghost use Rattle.ledger_shared.specs.Sessions.{AreNumbered, Serves, course, dealt_jobs, job_count};

use crate::crew::Share;
use crate::room::put;
use crate::worker::Worker;
use ledger_model::{Job, PlacedOutcome, Session};
use outside::{Clock, Gate, JournalStore};
use ql_types::Place;
use session_driver::run_job;
use std::sync::Wait;

impl<'a, S: JournalStore, C: Clock, G: Gate> Worker<'a, S, C, G> {
    /// Runs the jobs of the session of this number, one after another, each as often as it is retried.
    ///
    /// The outcomes are appended to the list, which has room for them.
    pub fn run_session<R: Wait + Sync>(
        &mut self,
        rt: &R,
        session: u32,
        jobs: &[Job],
        outcomes: &mut Vec<PlacedOutcome>,
    )
        requires few { length jobs.now < 2 ^ 32 }
        requires room { vec_len outcomes.old + length jobs.now ≤ vec_capacity outcomes.old }
        ensures table { self.new.table ≡ self.old.table }
        ensures opened { self.new.opened ≡ self.old.opened }
        ensures serves { Serves (opening_of S.told self.old.opened) (placed_from session 1 jobs.now)
            (course outcomes.old.items self.old.known) (course outcomes.new.items self.new.known) }
        ensures all { vec_len outcomes.new ≡ vec_len outcomes.old + length jobs.now }
        ensures room { vec_capacity outcomes.old ≤ vec_capacity outcomes.new }
    {
        'jobs: for (at, job) in jobs.iter().enumerate() {
            let place = Place {
                session,
                transaction: at as u32 + 1,
            };
            self.serve(rt, job, place, outcomes);
        }
    }

    /// Runs the sessions of this share, each whole and in order.
    ///
    /// The outcomes are appended to the list, which has room for them.
    pub fn run_dealt<R: Wait + Sync>(
        &mut self,
        rt: &R,
        script: &[Session],
        share: Share,
        outcomes: &mut Vec<PlacedOutcome>,
    )
        requires some { 0 < share.workers }
        requires few { AreNumbered script.now }
        requires room { vec_len outcomes.old + length (dealt_jobs share.workers share.rest (all_placed script.now))
            ≤ vec_capacity outcomes.old }
        ensures table { self.new.table ≡ self.old.table }
        ensures opened { self.new.opened ≡ self.old.opened }
        ensures serves { Serves (opening_of S.told self.old.opened)
            (dealt_jobs share.workers share.rest (all_placed script.now))
            (course outcomes.old.items self.old.known) (course outcomes.new.items self.new.known) }
    {
        'sessions: for (at, jobs) in script.iter().enumerate() {
            let session = at as u32 + 1;
            self.run_if_dealt(rt, session, jobs.as_slice(), share, outcomes);
        }
    }

    /// Runs the session if its number is of this share.
    fn run_if_dealt<R: Wait + Sync>(
        &mut self,
        rt: &R,
        session: u32,
        jobs: &[Job],
        share: Share,
        outcomes: &mut Vec<PlacedOutcome>,
    )
        requires some { 0 < share.workers }
        requires few { length jobs.now < 2 ^ 32 }
        requires room { vec_len outcomes.old
            + length (dealt_jobs share.workers share.rest (placed_from session 1 jobs.now))
            ≤ vec_capacity outcomes.old }
        ensures table { self.new.table ≡ self.old.table }
        ensures opened { self.new.opened ≡ self.old.opened }
        ensures serves { Serves (opening_of S.told self.old.opened)
            (dealt_jobs share.workers share.rest (placed_from session 1 jobs.now))
            (course outcomes.old.items self.old.known) (course outcomes.new.items self.new.known) }
        ensures all { vec_len outcomes.new
            ≡ vec_len outcomes.old + length (dealt_jobs share.workers share.rest (placed_from session 1 jobs.now)) }
        ensures room { vec_capacity outcomes.old ≤ vec_capacity outcomes.new }
    {
        if session % share.workers == share.rest {
            self.run_session(rt, session, jobs, outcomes);
        }
    }

    /// Runs a job at its place, and keeps its outcome.
    fn serve<R: Wait + Sync>(
        &mut self,
        rt: &R,
        job: &Job,
        place: Place,
        outcomes: &mut Vec<PlacedOutcome>,
    )
        requires { vec_len outcomes.old < vec_capacity outcomes.old }
        ensures table { self.new.table ≡ self.old.table }
        ensures opened { self.new.opened ≡ self.old.opened }
        ensures serves { Serves (opening_of S.told self.old.opened) (record { place = place; job = job.now } ∷ [])
            (course outcomes.old.items self.old.known) (course outcomes.new.items self.new.known) }
        ensures one { vec_len outcomes.new ≡ vec_len outcomes.old + 1 }
        ensures room { vec_capacity outcomes.old ≤ vec_capacity outcomes.new }
    {
        let outcome = run_job(self, rt, job, place);
        put(outcomes, PlacedOutcome { place, outcome });
    }
}

/// How many jobs of the script are of this share.
pub(crate) fn dealt_count(script: &[Session], share: Share) -> usize
    requires some { 0 < share.workers }
    requires few { AreNumbered script.now }
    ensures { result ≡ length (dealt_jobs share.workers share.rest (all_placed script.now)) }
{
    let mut count: usize = 0;
    'sessions: for (at, jobs) in script.iter().enumerate() {
        count += share_of(at as u32 + 1, jobs.len(), share);
    }
    count
}

/// `jobs` if the session of this number is of this share; else none.
fn share_of(session: u32, jobs: usize, share: Share) -> usize
    requires some { 0 < share.workers }
    ensures dealt { session % share.workers ≡ share.rest → result ≡ jobs }
    ensures other { session % share.workers ≢ share.rest → result ≡ 0 }
    ensures low { result ≤ jobs }
{
    if session % share.workers == share.rest {
        jobs
    } else {
        0
    }
}

/// How many jobs a script has.
pub(crate) fn count_jobs(script: &[Session]) -> usize
    requires few { AreNumbered script.now }
    ensures { result ≡ job_count script.now }
{
    let mut count: usize = 0;
    'sessions: for jobs in script {
        count += jobs.len();
    }
    count
}
