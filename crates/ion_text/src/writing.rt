//! Writing values as text.

mod comparison;
mod output;
mod quoted;
mod scalars;
mod sink;
mod timestamps;
mod values;

pub use values::{is_text_of, write};
