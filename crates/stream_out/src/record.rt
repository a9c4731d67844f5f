use containers::{Sequence, Text};
use ledger_model::{Block, Revision};
use ql_types::{DocId, Hash32, TableId};

/// The hash and the document of a revision of a block.
#[derive(Clone, Copy, Debug, PartialEq, Eq)]
pub struct RevisionSummary {
    pub hash: Hash32,
    pub document: DocId,
}

/// The hash and the document of each revision of a block, in order.
pub type Listed = Sequence<RevisionSummary>;

/// A block without its revisions, and their hashes and documents.
#[derive(Drop)]
pub struct Summary {
    pub block: Block,
    pub listed: Listed,
}

/// A revision of a document of the table of this id, which was created under this name.
#[derive(Drop)]
pub struct Details {
    pub table: TableId,
    pub name: Text,
    pub revision: Revision,
}

/// A record of a journal stream.
#[derive(Drop)]
pub enum Record {
    Created,
    Summary(Summary),
    Details(Details),
    Completed,
}

/// Records in order.
pub type Records = Sequence<Record>;
