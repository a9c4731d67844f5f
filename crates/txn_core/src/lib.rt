//! One transaction: its statements, each as it is done on a version of the state and on what those before it changed.
#![tactic(auto)]

mod answers;
mod candidates;
mod changing;
mod creating;
mod deleting;
mod dropping;
mod effect;
mod executing;
mod folding;
mod indexing;
mod inserting;
mod keyed;
mod left;
mod limits;
mod log;
mod narrow;
mod one_table;
mod progress;
mod ranges;
mod reading;
mod redacting;
mod redaction_arguments;
mod roots;
mod runs;
mod schema_changes;
mod selecting;
mod sources;
mod statements;
mod stopped;
mod table_views;
mod touching;
mod transaction;
mod values;
mod views;

pub use log::Log;
pub use runs::Ran;
pub use statements::Statements;
pub use stopped::ExecuteFault;
pub use table_views::TableViews;
pub use transaction::{Drawn, Finished, Txn, start_txn};
