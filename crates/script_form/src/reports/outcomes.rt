//! How a transaction ended.
ghost use Rattle.std.specs.Prelude.{◌≡◌, ◌++◌, codes, OnOk};
ghost use Rattle.ledger_model.specs.Report.{committed_text, conflict_text, digest_differs_text, journal_full_text, outcome_text, refused_text, since_text, store_fault_text, ids_spent_text, aborted_text, demand_text, rule_text};

use super::answers::put_block;
use super::causes::put_cause;
use super::items::put_item;
use super::pieces::{put_blob, put_counted, put_id, put_number, put_string};
use containers::{OutOfMemory, Text};
use ledger_model::{Blocks, Named, Outcome, Refusal};
use ql_types::{Hash32, TxId};
use std::alloc::Global;

/// A transaction, and on how many blocks it ran.
#[derive(Clone, Copy)]
struct Begun {
    tx: TxId,
    since: u64,
}

/// Appends what stands of an outcome after the place.
pub fn put_outcome(
    alloc: Global,
    out: &mut Text,
    blocks: &Blocks,
    outcome: &Outcome,
) -> Result<(), OutOfMemory>
    ensures { OnOk result (out.new ≡ out.old ++ outcome_text blocks.now.list outcome.now) }
{
    match outcome {
        Outcome::Committed { tx, block } => put_committed(alloc, out, blocks, *tx, *block),
        Outcome::Conflict { tx, since, named } => {
            put_conflict(alloc, out, ran_on(*tx, *since), named)
        }
        Outcome::Refused {
            tx,
            since,
            statement,
            cause,
        } => put_refused(alloc, out, ran_on(*tx, *since), *statement, cause),
        Outcome::DigestDiffers {
            tx,
            since,
            mine,
            given,
        } => put_digest_differs(alloc, out, ran_on(*tx, *since), mine, given),
        Outcome::StoreFault { tx, count } => put_store_fault(alloc, out, *tx, *count),
        Outcome::JournalFull { tx, blocks } => put_journal_full(alloc, out, *tx, *blocks),
        Outcome::IdsSpent { last } => put_ids_spent(alloc, out, *last),
        Outcome::Aborted { tx, since } => put_aborted(alloc, out, ran_on(*tx, *since)),
        Outcome::Denied {
            statement,
            action,
            table,
            rule,
        } => {
            put_demand(alloc, out, *statement, action, table)?;
            put_rule(alloc, out, rule)
        }
        Outcome::OutOfMemory => out.push_str("out_of_memory"),
    }
}

fn put_committed(
    alloc: Global,
    out: &mut Text,
    blocks: &Blocks,
    tx: TxId,
    block: u64,
) -> Result<(), OutOfMemory>
    ensures { OnOk result (out.new ≡ out.old ++ committed_text blocks.now.list tx block) }
{
    out.push_str("committed,tx:")?;
    put_id(out, tx.raw)?;
    out.push_str(",block:")?;
    put_number(alloc, out, block)?;
    out.push_str(",answers:[")?;
    put_block(alloc, out, blocks, block)?;
    out.push_str("]")
}

fn ran_on(tx: TxId, since: u64) -> Begun
    ensures { result ≡ record { tx = tx; since = since } }
{
    Begun { tx, since }
}

/// Appends the transaction and the number of blocks on which it ran.
fn put_since(alloc: Global, out: &mut Text, begun: Begun) -> Result<(), OutOfMemory>
    ensures { OnOk result (out.new ≡ out.old ++ since_text begun.tx begun.since) }
{
    out.push_str(",tx:")?;
    put_id(out, begun.tx.raw)?;
    out.push_str(",since:")?;
    put_number(alloc, out, begun.since)
}

fn put_conflict(
    alloc: Global,
    out: &mut Text,
    begun: Begun,
    named: &Named,
) -> Result<(), OutOfMemory>
    ensures { OnOk result (out.new ≡ out.old ++ conflict_text begun.tx begun.since named.now) }
{
    out.push_str("conflict")?;
    put_since(alloc, out, begun)?;
    out.push_str(",block:")?;
    put_number(alloc, out, named.block)?;
    out.push_str(",item:{")?;
    put_item(alloc, out, &named.item)?;
    out.push_str("}")
}

fn put_refused(
    alloc: Global,
    out: &mut Text,
    begun: Begun,
    statement: u32,
    cause: &Refusal,
) -> Result<(), OutOfMemory>
    ensures { OnOk result (out.new ≡ out.old ++ refused_text begun.tx begun.since statement cause.now) }
{
    out.push_str("refused")?;
    put_since(alloc, out, begun)?;
    out.push_str(",statement:")?;
    put_number(alloc, out, statement as u64)?;
    out.push_str(",cause:{")?;
    put_cause(alloc, out, cause)?;
    out.push_str("}")
}

fn put_digest_differs(
    alloc: Global,
    out: &mut Text,
    begun: Begun,
    mine: &Hash32,
    given: &Hash32,
) -> Result<(), OutOfMemory>
    ensures { OnOk result (out.new ≡ out.old ++ digest_differs_text begun.tx begun.since mine.now given.now) }
{
    out.push_str("digest_differs")?;
    put_since(alloc, out, begun)?;
    out.push_str(",mine:")?;
    put_blob(alloc, out, &mine.bytes)?;
    out.push_str(",given:")?;
    put_blob(alloc, out, &given.bytes)
}

fn put_store_fault(alloc: Global, out: &mut Text, tx: TxId, count: u64) -> Result<(), OutOfMemory>
    ensures { OnOk result (out.new ≡ out.old ++ store_fault_text tx.raw count) }
{
    out.push_str("store_fault,tx:")?;
    put_id(out, tx.raw)?;
    out.push_str(",count:")?;
    put_number(alloc, out, count)
}

fn put_journal_full(alloc: Global, out: &mut Text, tx: TxId, blocks: u64) -> Result<(), OutOfMemory>
    ensures { OnOk result (out.new ≡ out.old ++ journal_full_text tx blocks) }
{
    out.push_str("journal_full,tx:")?;
    put_id(out, tx.raw)?;
    out.push_str(",blocks:")?;
    put_number(alloc, out, blocks)
}

fn put_ids_spent(alloc: Global, out: &mut Text, last: u64) -> Result<(), OutOfMemory>
    ensures { OnOk result (out.new ≡ out.old ++ ids_spent_text last) }
{
    put_counted(alloc, out, "ids_spent,last:", last)
}

fn put_aborted(alloc: Global, out: &mut Text, begun: Begun) -> Result<(), OutOfMemory>
    ensures { OnOk result (out.new ≡ out.old ++ aborted_text begun.tx begun.since) }
{
    out.push_str("aborted")?;
    put_since(alloc, out, begun)
}

/// Appends what is denied: of a statement, on a table.
fn put_demand(
    alloc: Global,
    out: &mut Text,
    statement: u32,
    action: &Text,
    table: &Text,
) -> Result<(), OutOfMemory>
    ensures { OnOk result (out.new ≡ out.old ++ demand_text statement action.now table.now) }
{
    out.push_str("denied,statement:")?;
    put_number(alloc, out, statement as u64)?;
    out.push_str(",action:")?;
    out.push_str(action.as_str())?;
    out.push_str(",table:")?;
    put_string(alloc, out, table)
}

/// Appends the rule by which it is denied, or null.
fn put_rule(alloc: Global, out: &mut Text, rule: &Option<Text>) -> Result<(), OutOfMemory>
    ensures { OnOk result (out.new ≡ out.old ++ (codes ",rule:" ++ rule_text rule.now)) }
{
    out.push_str(",rule:")?;
    match rule {
        Some(name) => put_string(alloc, out, name),
        None => out.push_str("null"),
    }
}
