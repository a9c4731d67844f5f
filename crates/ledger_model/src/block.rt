use containers::{Sequence, Text};
use ion_values::{IonTime, Value, Values};
use pql_model::Answer;
use ql_types::{BlockAddress, DocId, Hash, Hash32, Place, TableId, TxId};

/// A statement with its parameters and its answer.
#[derive(Drop)]
pub struct Said {
    pub text: Text,
    pub params: Values,
    pub answer: Answer,
}

pub type SaidList = Sequence<Said>;

/// What a block tells of its transaction's statements: all of them, or their hash alone.
#[derive(Drop)]
pub enum Told {
    Said(SaidList),
    Hashed(Hash32),
}

/// A change of the schema, or the redaction of an earlier revision.
#[derive(Drop)]
pub enum Schema {
    Create {
        name: Text,
        table: TableId,
    },
    Index {
        field: Text,
        table: TableId,
    },
    Drop {
        name: Text,
        table: TableId,
    },
    Redact {
        address: BlockAddress,
        table: TableId,
        document: DocId,
    },
}

pub type SchemaList = Sequence<Schema>;

/// What a revision keeps of its document: nothing of a deleted one, its data, or the hash of the data alone.
#[derive(Drop)]
pub enum Content {
    Deleted,
    Kept(Value),
    Redacted(Hash32),
}

/// A revision of a document of a table, as its transaction made it. Versions count from 0.
#[derive(Drop)]
pub struct Draft {
    pub table: TableId,
    pub id: DocId,
    pub version: u64,
    pub content: Content,
}

pub type Drafts = Sequence<Draft>;

/// Whose revision it is, which one, counted from 0, and the time and the transaction of its block.
#[derive(Clone, Copy)]
pub struct Metadata {
    pub id: DocId,
    pub version: u64,
    pub time: IonTime,
    pub tx: TxId,
}

/// A committed revision of a document.
#[derive(Drop)]
pub struct Revision {
    pub address: BlockAddress,
    pub hash: Hash32,
    pub content: Content,
    pub metadata: Metadata,
}

pub type Revisions = Sequence<Revision>;

pub type TableIds = Sequence<TableId>;

/// What a transaction said and did: its place in the script, its statements, its changes of the schema, and the
/// table of each of its revisions in order.
#[derive(Drop)]
pub struct Info {
    pub place: Place,
    pub said: Told,
    pub schema: SchemaList,
    pub tables: TableIds,
}

/// Where a block stands, whose it is and when it was made, and how many revisions it has.
#[derive(Clone, Copy)]
pub struct Header {
    pub address: BlockAddress,
    pub tx: TxId,
    pub time: IonTime,
    pub revisions: u32,
}

/// A committed transaction. `list` has the hashes of its entries: of what it said and did, of its revisions, and of
/// its header. `entries` is the hash of them all, and `hash` that of `entries` and the hash of the block before.
#[derive(Drop)]
pub struct Block {
    pub header: Header,
    pub hash: Hash32,
    pub entries: Hash32,
    pub previous: Hash32,
    pub list: [Hash; 3],
    pub info: Info,
    pub revisions: Revisions,
}
