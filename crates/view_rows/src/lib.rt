//! The rows of the three views of a table: its documents as they are now, as they were committed last, and all
//! revisions that were active between two moments.
#![tactic(auto)]

mod bounds;
mod committed_view;
mod history;
mod named;
mod probes;
mod seen;
mod user;
mod views;

pub use named::with_keys;
pub use seen::{Seen, all_committed, committed, pending};
pub use user::user_rows;
pub use views::view_rows;
