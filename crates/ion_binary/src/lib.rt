//! The fields of the Ion 1.0 binary encoding, appended to growing bytes: magnitudes, Ints, VarUInts and VarInts, and
//! the decimals and timestamps that consist of them. The Ion Hash specification has the same ones.
#![tactic(auto)]

mod buffer;
mod decimals;
mod nulls;
mod numbers;
mod timestamps;

pub use buffer::Buffer;
pub use decimals::put_decimal_fields;
pub use nulls::qualifier_of_null;
pub use numbers::{put_int_field, put_magnitude, put_var_int, put_var_uint};
pub use timestamps::put_timestamp_fields;
