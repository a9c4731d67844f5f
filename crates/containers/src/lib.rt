//! Containers that contracts see as what they hold: a list, a value, the bytes of a text.
#![tactic(auto)]

mod boxed;
mod memory;
mod sequence;
mod text;

pub use boxed::Boxed;
pub use memory::OutOfMemory;
pub use sequence::{Bytes, Sequence};
pub use text::Text;
