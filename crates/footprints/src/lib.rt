//! What a statement reads: names of tables, and of each table that it selects from a document, a key of an index, or
//! the whole table.
#![tactic(auto)]

mod asked;
mod items;
mod joins;
mod parts;
mod read;
mod rules;
mod schemas;
mod sides;
mod statements;
mod texts;

pub use asked::Asked;
pub use joins::join_of;
pub use parts::all_asked;
pub use read::{Read, Spot, document_shown};
pub use rules::items_of;
pub use schemas::Schemas;
pub use statements::footprint;
pub use texts::table_in;
