//! What the ledger keeps and answers: scripts, answers, blocks, refusals and outcomes. Their meaning stands in
//! the definitions in specs/, which the contracts of the crates above cite.
#![tactic(auto)]

mod block;
mod blocks;
mod damage;
mod fields;
mod outcome;
mod parts;
mod script;

pub use block::{
    Block, Content, Draft, Drafts, Header, Info, Metadata, Revision, Revisions, Said, SaidList,
    Schema, SchemaList, TableIds, Told,
};
pub use blocks::Blocks;
pub use damage::Damage;
pub use fields::{repeats, value_named};
pub use outcome::{Item, Named, Outcome, Outcomes, PlacedOutcome, Refusal};
pub use parts::{blob_in, fields_in, int_in, list_in, string_in, symbol_in};
pub use pql_model::{Answer, ParseKind, Row};
pub use script::{Asked, Denial, Job, Request, Script, ScriptFault, ScriptKind, Session};
