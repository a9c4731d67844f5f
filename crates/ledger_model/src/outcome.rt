use containers::{Sequence, Text};
use ion_values::{Key, Kind};
use pql_model::ParseKind;
use ql_types::{DocId, Hash32, Place, TableId, TxId};

/// Why a statement was refused.
#[derive(Drop)]
pub enum Refusal {
    /// The text is no statement: at this offset, for this reason.
    ParseFault { at: u64, kind: ParseKind },
    /// No active table has the name.
    NoSuchTable { name: Text },
    /// An active table has the name already.
    TableExists { name: Text },
    /// The name is kept for the ledger's own tables.
    ReservedName { name: Text },
    /// The table has an index on the field already.
    IndexExists { name: Text, field: Text },
    /// `count` tables are active, or were created by the transaction.
    TooManyTables { count: u64 },
    /// The table has `count` indexes.
    TooManyIndexes { count: u64 },
    /// This would be the document of that number that the transaction touches.
    TooManyRevisions { count: u64 },
    /// The document's text has `bytes` bytes.
    DocumentTooLarge { bytes: u64 },
    /// A value of this kind was to be inserted, and it is no struct.
    NotADocument { kind: Kind },
    /// The statement has `wanted` question marks and was `given` another number of values.
    ParameterCount { wanted: u64, given: u64 },
    /// A parameter or a document nests so deep.
    TooDeep { depth: u32 },
    /// An earlier statement was refused.
    Ended,
    OutOfMemory,
    /// The arguments name no revision.
    NoSuchRevision,
    /// The revision, of this version, is its document's latest.
    StillLatest { version: u64 },
    /// The revision, of this version, is redacted already.
    AlreadyRedacted { version: u64 },
    /// This would be the redaction of that number in the transaction.
    TooManyRedactions { count: u64 },
}

/// What a transaction read, or a block touched.
#[derive(Debug, Drop)]
pub enum Item {
    TableName {
        name: Text,
    },
    TableList,
    Table {
        table: TableId,
    },
    Doc {
        table: TableId,
        id: DocId,
    },
    IndexValue {
        table: TableId,
        field: Text,
        key: Key,
    },
}

/// A block that touched an item.
#[derive(Debug, Drop)]
pub struct Named {
    pub block: u64,
    pub item: Item,
}

/// How a transaction of a script ended. `since` is the number of blocks on which it ran.
#[derive(Drop)]
pub enum Outcome {
    /// It is the block of this number.
    Committed {
        tx: TxId,
        block: u64,
    },
    /// A later block touched what it read.
    Conflict {
        tx: TxId,
        since: u64,
        named: Named,
    },
    /// Its statement of this number, counted from 1, was refused.
    Refused {
        tx: TxId,
        since: u64,
        statement: u32,
        cause: Refusal,
    },
    /// The digest that the script sends is not the computed one.
    DigestDiffers {
        tx: TxId,
        since: u64,
        mine: Hash32,
        given: Hash32,
    },
    /// The store failed, for the `count`th time.
    StoreFault {
        tx: TxId,
        count: u64,
    },
    /// The journal has as many blocks as it can have.
    JournalFull {
        tx: TxId,
        blocks: u64,
    },
    /// No number is left for a transaction.
    IdsSpent {
        last: u64,
    },
    /// It was aborted, as the script asks.
    Aborted {
        tx: TxId,
        since: u64,
    },
    /// The rules deny its statement of this number, counted from 1, an action on a table: by this rule, or by
    /// none. It never began.
    Denied {
        statement: u32,
        action: Text,
        table: Text,
        rule: Option<Text>,
    },
    OutOfMemory,
}

/// How the transaction at a place of the script ended.
#[derive(Drop)]
pub struct PlacedOutcome {
    pub place: Place,
    pub outcome: Outcome,
}

/// The outcomes of a script's transactions in order.
pub type Outcomes = Sequence<PlacedOutcome>;
