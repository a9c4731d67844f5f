//! Values compared with the order of their fields, which the data model leaves open.
#![tactic(auto)]

mod same;

pub use same::{same_lists_are_equal, same_value, same_values, same_values_are_equal};
