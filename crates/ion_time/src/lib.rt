//! Milliseconds as Ion timestamps.
#![tactic(auto)]

mod days;
mod laws;
mod millis;

pub use days::{date_of, time_of, year_of};
pub use laws::{millis_name_times, millis_order_times, none_is_nearer};
pub use millis::{OutOfYears, clamped, from_millis};
