//! A lock whose history is counted: what it guards has a list of entries that only grows, and each pass knows a
//! beginning of that list and which of its entries were made with it.
//!
//! A table of two words and one slot carries the lock. The state stands in slot 0, which holds `None` while the turn is
//! held. Word 0 counts the entries. Word 1 is 1 while the turn is held, and else 0.
#![tactic(auto)]

mod counted;
mod law;
mod plays;
mod steps;
mod turns;
mod view;
mod waiters;

pub use counted::Counted;
pub use law::Pass;
pub use turns::{Turns, Unmade};
pub use view::{Known, Placed, Turn, View};
