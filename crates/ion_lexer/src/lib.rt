//! The tokens of Ion 1.0 text: each call reads the one in front.
#![tactic(auto)]

mod ascii;
mod blanks;
mod blobs;
mod clobs;
mod escapes;
mod front;
mod lobs;
mod number;
mod texts;
mod words;

pub use front::lex;
pub use lobs::lex_lob;
pub use number::lex_number;
pub use texts::{lex_quoted, lex_segment, lex_string};
