//! The rows of FROM.
#![tactic(auto)]

mod behind;
mod bounds;
mod clause;
mod combinations;
mod conditions;
mod joins;
mod views;

pub use behind::{Last, Parts};
pub use clause::{Given, bindings, bindings_over, parts_over};
pub use joins::{Join, Side};
pub use views::source_rows;
