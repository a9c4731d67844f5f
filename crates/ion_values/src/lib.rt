//! Values of Amazon Ion 1.0 without floats.
#![tactic(auto)]

mod copies;
mod decimal;
mod depths;
mod equivalence;
mod fault;
mod keys;
mod laws;
mod ranges;
mod time;
mod time_ranges;
mod value;

pub use containers::{Bytes, OutOfMemory, Text};
pub use copies::{copy, copy_values};
pub use decimal::Decimal;
pub use depths::depth;
pub use equivalence::{equivalent, same_names};
pub use fault::{IonFault, IonKind};
pub use laws::{days_are_numbered, equal_keys_are_one, keys_are_ordered};
pub use ranges::{is_within, text_is_within, values_are_within};
pub use time::{BadTime, IonTime, Precision, TimeParts};
pub use value::{Body, Field, Fields, Key, Kind, Names, Value, Values};
