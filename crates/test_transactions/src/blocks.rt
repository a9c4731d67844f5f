//! Blocks told in steps, with `, ` between them. They have no hashes.
//!
//! - `create NAME TABLE`, `index FIELD TABLE` and `drop NAME TABLE` change the schema,
//! - `tables COUNT` creates `t0`, `t1` and so on, with the ids 0, 1 and so on,
//! - `put TABLE DOCUMENT VERSION DAY CONTENT` adds a revision of a day of January 2020, and `-` deletes.
//!
//! Of an id its last digit is told.
ghost use Rattle.std.specs.Prelude.{⊤};

use block_form::from_ion;
use containers::Boxed;
use ion_text::read_stream;
use ion_values::Value;
use ledger_model::Block;
use std::alloc::Global;
use std::marker::Model;

/// The digits of ids.
const DIGITS: &str = "0123456789ABCDEFGHIJKLMNOPQRSTUVWXYZabcdefghijklmnopqrstuvwxyz";

const ZEROS: &str = "000000000000000000000";

/// A block up to the changes of its schema.
const HEAD: &str = "{blockAddress:{strandId:\"0000000000000000000000\",sequenceNo:0},\
    transactionId:\"0000000000000000000000\",blockTimestamp:2020-01-01T00:00:00.000Z,\
    blockHash:{{AAAAAAAAAAAAAAAAAAAAAAAAAAAAAAAAAAAAAAAAAAA=}},\
    entriesHash:{{AAAAAAAAAAAAAAAAAAAAAAAAAAAAAAAAAAAAAAAAAAA=}},\
    previousBlockHash:{{AAAAAAAAAAAAAAAAAAAAAAAAAAAAAAAAAAAAAAAAAAA=}},\
    entriesHashList:[{{}},{{}},{{}}],\
    transactionInfo:{place:{session:1,transaction:1},statements:[],schema:[";

/// A revision up to its content.
const REVISION: &str = "{blockAddress:{strandId:\"0000000000000000000000\",sequenceNo:0},\
    hash:{{AAAAAAAAAAAAAAAAAAAAAAAAAAAAAAAAAAAAAAAAAAA=}},";

/// What stands behind the day of a revision.
const TAIL: &str = "T00:00:00.000Z,txId:\"0000000000000000000000\"}},";

/// The one value of a text.
pub(crate) fn value_in(alloc: Global, text: &str) -> Option<Value> {
    read_stream(alloc, text.as_bytes(), 80).ok()?.pop()
}

/// Puts the pieces at the end of the text.
fn put_all(text: &mut String, pieces: &[&str]) -> Option<()> {
    for piece in pieces {
        text.push_str(piece).ok()?;
    }
    Some(())
}

/// The texts of a block's changes, documents and revisions, a comma behind each.
#[derive(Drop)]
struct Lists {
    schema: String,
    documents: String,
    revisions: String,
}

impl Lists {
    fn take_all(&mut self, alloc: Global, steps: &str) -> Option<()> {
        for step in steps.split(", ") {
            self.take(alloc, step)?;
        }
        Some(())
    }

    fn take(&mut self, alloc: Global, step: &str) -> Option<()> {
        let (verb, rest) = step.split_once(' ')?;
        match verb {
            "put" => self.put(rest),
            "tables" => self.put_tables(alloc, rest),
            _ => {
                let (name, table) = rest.split_once(' ')?;
                put_change(&mut self.schema, verb, name, table)
            }
        }
    }

    fn put_tables(&mut self, alloc: Global, count: &str) -> Option<()> {
        for number in 0..count.parse::<usize>().ok()? {
            put_table(alloc, &mut self.schema, number)?;
        }
        Some(())
    }

    fn put(&mut self, told: &str) -> Option<()> {
        let (table, told) = told.split_once(' ')?;
        let (document, told) = told.split_once(' ')?;
        put_document(&mut self.documents, table, document)?;
        put_revision(&mut self.revisions, document, told)
    }

    /// The text of the block.
    fn text(&self, alloc: Global) -> Option<String> {
        let (schema, documents, revisions) = (
            self.schema.as_str(),
            self.documents.as_str(),
            self.revisions.as_str(),
        );
        format!(in alloc;
            "{HEAD}{schema}],documents:[{documents}]}},revisions:[{revisions}]}}"
        ).ok()
    }
}

fn digit(at: usize) -> Option<&'static str> {
    DIGITS.get(at..)?.get(..1)
}

fn put_table(alloc: Global, schema: &mut String, number: usize) -> Option<()> {
    let table = digit(number)?;
    let name = format!(in alloc; "t{number}").ok()?;
    put_change(schema, "create", name.as_str(), table)
}

fn put_change<'a>(schema: &mut String, verb: &'a str, name: &'a str, table: &'a str) -> Option<()> {
    put_all(
        schema,
        &[
            "{",
            verb,
            ":\"",
            name,
            "\",tableId:\"",
            ZEROS,
            table,
            "\"},",
        ],
    )
}

fn put_document<'a>(documents: &mut String, table: &'a str, document: &'a str) -> Option<()> {
    put_all(
        documents,
        &[
            "{documentId:\"",
            ZEROS,
            document,
            "\",tableId:\"",
            ZEROS,
            table,
            "\"},",
        ],
    )
}

/// Puts the document's revision, of which the version, the day and the content are told.
fn put_revision<'a>(revisions: &mut String, document: &'a str, told: &'a str) -> Option<()> {
    let (version, told) = told.split_once(' ')?;
    let (day, content) = told.split_once(' ')?;
    let (name, content, end) = if content == "-" {
        ("", "", "")
    } else {
        ("data:", content, ",")
    };
    put_all(
        revisions,
        &[
            REVISION,
            name,
            content,
            end,
            "metadata:{id:\"",
            ZEROS,
            document,
            "\",version:",
            version,
            ",txTime:2020-01-0",
            day,
            TAIL,
        ],
    )
}

/// The text of the block of these steps.
fn block_text(alloc: Global, steps: &str) -> Option<String> {
    let mut lists = Lists {
        schema: String::new(alloc),
        documents: String::new(alloc),
        revisions: String::new(alloc),
    };
    match lists.take_all(alloc, steps) {
        Some(()) => lists.text(alloc),
        None => None,
    }
}

/// A block. Clauses see nothing of it, and it is dropped by a call, which keeps the proofs of the tables small.
#[derive(Drop)]
pub(crate) struct Page {
    pub(crate) block: Boxed<Block>,
}

impl Model for Page {
    ghost Value = { ⊤ };

    ghost view = { λ _. tt };
}

/// The block, on the heap.
pub(crate) fn page_with(alloc: Global, block: Block) -> Option<Page> {
    match Boxed::new(alloc, block) {
        Ok(block) => Some(Page { block }),
        Err(_) => None,
    }
}

fn page_in(alloc: Global, text: &str) -> Option<Page> {
    let value = value_in(alloc, text)?;
    match from_ion(alloc, &value) {
        Ok(Some(block)) => page_with(alloc, block),
        Ok(None) | Err(_) => None,
    }
}

/// The block of these steps.
pub(crate) fn page_of(alloc: Global, steps: &str) -> Option<Page> {
    let text = block_text(alloc, steps)?;
    page_in(alloc, text.as_str())
}
