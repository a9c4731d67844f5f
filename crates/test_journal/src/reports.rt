//! Lines of reports. What they say is an outcome, a cause of a refusal, an item of a conflict or a key of an index's
//! value.
use containers::{Sequence, Text};
use ion_values::{Key, Kind};
use ledger_model::{Blocks, Item, Named, Outcome, ParseKind, PlacedOutcome, Refusal};
use ql_types::{DocId, Hash32, Place, TableId, TxId};
use script_form::report;
use std::alloc::Global;

const TX: TxId = TxId { raw: 16_777_216 };

const TABLE: TableId = TableId { raw: 16_777_217 };

fn text(alloc: Global, text: &str) -> Option<Text> {
    Text::from_text(alloc, text).ok()
}

// ---- keys

fn number(words: &str) -> Option<Key> {
    let (coefficient, exponent) = words.split_once(' ')?;
    let coefficient = coefficient.parse::<i128>().ok()?;
    let exponent = exponent.parse::<i32>().ok()?;
    Some(Key::Number {
        coefficient,
        exponent,
    })
}

fn key_of(alloc: Global, sort: &str, rest: &str) -> Option<Key> {
    match sort {
        "text" => Some(Key::Text(text(alloc, rest)?)),
        "clob" => Some(Key::Clob(Sequence::from_slice(alloc, rest.as_bytes()).ok()?)),
        "blob" => Some(Key::Blob(Sequence::from_slice(alloc, rest.as_bytes()).ok()?)),
        "number" => number(rest),
        "moment" => Some(Key::Moment(rest.parse::<i128>().ok()?)),
        _ => Some(Key::Bool(true)),
    }
}

// ---- items of conflicts

fn indexed(alloc: Global, key: Key) -> Option<Item> {
    Some(Item::IndexValue {
        table: TABLE,
        field: text(alloc, "a")?,
        key,
    })
}

fn item_of(alloc: Global, sort: &str, rest: &str) -> Option<Item> {
    match sort {
        "TableName" => Some(Item::TableName {
            name: text(alloc, rest)?,
        }),
        "TableList" => Some(Item::TableList),
        "Table" => Some(Item::Table { table: TABLE }),
        _ => Some(Item::Doc {
            table: TABLE,
            id: DocId { raw: 16_777_218 },
        }),
    }
}

// ---- causes of refusals

fn named(alloc: Global, sort: &str, name: Text) -> Option<Refusal> {
    match sort {
        "NoSuchTable" => Some(Refusal::NoSuchTable { name }),
        "TableExists" => Some(Refusal::TableExists { name }),
        "ReservedName" => Some(Refusal::ReservedName { name }),
        _ => Some(Refusal::IndexExists {
            name,
            field: text(alloc, "a \"b\"")?,
        }),
    }
}

fn counted(sort: &str, count: u32) -> Refusal {
    let long = u64::from(count);
    match sort {
        "TooManyTables" => Refusal::TooManyTables { count: long },
        "TooManyIndexes" => Refusal::TooManyIndexes { count: long },
        "TooManyRevisions" => Refusal::TooManyRevisions { count: long },
        "DocumentTooLarge" => Refusal::DocumentTooLarge { bytes: long },
        "ParameterCount" => Refusal::ParameterCount {
            wanted: long,
            given: 0,
        },
        "TooDeep" => Refusal::TooDeep { depth: count },
        "StillLatest" => Refusal::StillLatest { version: long },
        "AlreadyRedacted" => Refusal::AlreadyRedacted { version: long },
        "TooManyRedactions" => Refusal::TooManyRedactions { count: long },
        _ => Refusal::ParseFault {
            at: long,
            kind: ParseKind::Unexpected,
        },
    }
}

fn cause_of(alloc: Global, sort: &str, rest: &str) -> Option<Refusal> {
    match sort {
        "Ended" => Some(Refusal::Ended),
        "OutOfMemory" => Some(Refusal::OutOfMemory),
        "NotADocument" => Some(Refusal::NotADocument { kind: Kind::Null }),
        "NoSuchRevision" => Some(Refusal::NoSuchRevision),
        _ => match rest.parse::<u32>() {
            Ok(count) => Some(counted(sort, count)),
            Err(_) => named(alloc, sort, text(alloc, rest)?),
        },
    }
}

// ---- outcomes

fn plain(sort: &str, count: u64) -> Outcome {
    match sort {
        "StoreFault" => Outcome::StoreFault { tx: TX, count },
        "JournalFull" => Outcome::JournalFull {
            tx: TX,
            blocks: count,
        },
        "IdsSpent" => Outcome::IdsSpent { last: count },
        "Aborted" => Outcome::Aborted {
            tx: TX,
            since: count,
        },
        "DigestDiffers" => Outcome::DigestDiffers {
            tx: TX,
            since: count,
            mine: Hash32 { bytes: [0; 32] },
            given: Hash32 { bytes: [255; 32] },
        },
        _ => Outcome::OutOfMemory,
    }
}

fn conflict(item: Item) -> Outcome {
    Outcome::Conflict {
        tx: TX,
        since: 4,
        named: Named { block: 5, item },
    }
}

fn refused(cause: Refusal) -> Outcome {
    Outcome::Refused {
        tx: TX,
        since: 1,
        statement: 2,
        cause,
    }
}

fn outcome_of(alloc: Global, words: &str) -> Option<Outcome> {
    let (kind, words) = words.split_once(' ')?;
    let (sort, rest) = words.split_once(' ').unwrap_or((words, "0"));
    match kind {
        "key" => Some(conflict(indexed(alloc, key_of(alloc, sort, rest)?)?)),
        "item" => Some(conflict(item_of(alloc, sort, rest)?)),
        "cause" => Some(refused(cause_of(alloc, sort, rest)?)),
        _ => Some(plain(sort, rest.parse::<u64>().ok()?)),
    }
}

/// Puts the line of an outcome at the second transaction of session 3, over no blocks.
pub fn put_report(alloc: Global, words: &str, out: &mut Text) -> Option<()> {
    let outcome = outcome_of(alloc, words)?;
    put_line_of(alloc, &Blocks::new(alloc), outcome, out)
}

/// Puts the line of an outcome over blocks, without its line feed.
pub fn put_line_of(alloc: Global, blocks: &Blocks, outcome: Outcome, out: &mut Text) -> Option<()> {
    let place = Place {
        session: 3,
        transaction: 2,
    };
    let mut outcomes = Sequence::new(alloc);
    outcomes.push(PlacedOutcome { place, outcome }).ok()?;
    let line = report(alloc, blocks, &outcomes).ok()?;
    out.push_str(line.as_str().trim_end()).ok()
}
