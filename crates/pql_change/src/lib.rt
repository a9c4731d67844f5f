//! What the statements that write make of documents: UPDATE and FROM with a change, and DELETE.
#![tactic(auto)]

mod along;
mod changes;
mod context;
mod deletes;
mod documents;
mod edits;
mod elements;
mod laws;
mod members;
mod selectors;
mod vacant;

pub use changes::apply;
pub use deletes::deleted_documents;
pub use documents::changed_documents;
pub use laws::one_document_is_applied;
