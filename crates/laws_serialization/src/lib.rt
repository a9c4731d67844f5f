//! Laws of the bytes of numbers, decimals and timestamps, over their definitions: the bytes determine them.
#![tactic(auto)]

mod laws;

pub use laws::{
    decimal_is_injective, int_field_is_injective, magnitude_is_injective, offset_is_prefix_free,
    timestamp_is_injective, var_int_is_prefix_free, var_uint_is_prefix_free,
};
