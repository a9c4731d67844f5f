//! The text of a report tells its outcomes: a law over definitions alone.
#![tactic(auto)]

mod laws;

pub use laws::report_tells_outcomes;
