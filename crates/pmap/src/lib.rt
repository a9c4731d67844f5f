//! A persistent ordered map: pairs by key, whose versions share what they have in common.
#![tactic(auto)]

mod entry;
mod keyed;
mod levels;
mod map;
mod range;
mod search;

pub use keyed::Keyed;
pub use map::PMap;
pub use range::Range;
