//! Ion text, read in pieces. Values are handed out as they end, and of the text what stands after the last token is
//! held.
#![tactic(auto)]

mod checks;
mod frames;
mod held;
mod pieces;
mod tokens;
mod white;

pub use ion_text::ReadFault;
pub use pieces::PieceReader;
