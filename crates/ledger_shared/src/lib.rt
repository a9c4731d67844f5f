//! The ledger of several threads: the tail of a journal and the entries that its calls have made, behind one turn.
#![tactic(auto)]

mod crew;
mod denials;
mod desks;
mod entry;
mod laws;
mod ledger;
mod merging;
mod room;
mod run;
mod runner;
mod session;
mod shared;
mod worker;
mod workers;

pub use crew::{Crew, Share};
pub use entry::{Entries, Entry};
pub use laws::images_recover;
pub use ledger::{Closed, Ledger, NotMade, Pass};
pub use run::{AllRan, run_all};
pub use shared::{Shared, Told};
pub use worker::Worker;
pub use workers::{Desk, run_workers};
