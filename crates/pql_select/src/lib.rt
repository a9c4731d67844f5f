//! What a SELECT answers of its rows.
#![tactic(auto)]

mod aggregates;
mod answers;
mod folding;
mod items;
mod made;
mod sources;

pub use aggregates::are_aggregates;
pub use answers::answer;
pub use folding::Tallies;
