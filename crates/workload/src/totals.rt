//! What a history of a made workload adds up to.
ghost use Rattle.std.specs.Prelude.{◌≡◌, option_map, sum_by, IfOk};
ghost use Rattle.ledger_model.specs.State.{draft_of};
ghost use Rattle.ledger_model.specs.Views.{row_of};
ghost use Rattle.versions.specs.Held.{drafts_lent, recorded_of};
ghost use Rattle.workload.specs.Sums.{amount_in, amount_of, made_rows, number_in, row_amount, rows_among, summary_text, totals_of};

use ion_values::{Body, OutOfMemory, Text, Value};
use ledger_model::{Content, fields_in, value_named};
use ql_types::TableId;
use std::alloc::Global;
use versions::{Recorded, Versions, active_table};

/// How many blocks a history has, how many documents of the table `made` aren't deleted, and the sum of their amounts.
#[derive(Clone, Copy, Debug, PartialEq, Eq)]
pub struct Totals {
    pub blocks: u64,
    pub documents: u64,
    pub amounts: u128,
}

/// The number of an unannotated int of at most 64 bits without a sign.
fn number_in(v: &Value) -> Option<u64>
    ensures { result ≡ number_in v.now }
{
    if !v.annotations.is_empty() {
        return None;
    }
    match &v.body {
        Body::Int(number) => u64::try_from(*number).ok(),
        _ => None,
    }
}

fn amount_in(v: &Value) -> Option<u64>
    ensures { result ≡ amount_in v.now }
{
    let fields = fields_in(v)?;
    number_in(value_named("amount", fields.as_slice())?)
}

/// The amount of a document: the number in its first field `amount`, and 0 where that is none of at most 64 bits
/// without a sign.
fn amount_of(v: &Value) -> u64
    ensures { result ≡ amount_of v.now }
{
    amount_in(v).unwrap_or(0)
}

/// The amount of a document of the table, or None where it is deleted or of another table.
fn live_amount(table: TableId, latest: &Recorded) -> Option<u64>
    ensures { result ≡ option_map row_amount (row_of table (draft_of (recorded_of latest.now))) }
{
    if latest.table.raw != table.raw {
        return None;
    }
    match &latest.revision.content {
        Content::Kept(value) => Some(amount_of(value)),
        Content::Deleted | Content::Redacted(_) => None,
    }
}

/// The totals of the table's documents among these, each by its latest revision, after `blocks` blocks.
fn totals_among(blocks: u64, table: TableId, documents: &[&Recorded]) -> Totals
    ensures { result ≡ totals_of blocks (rows_among table (drafts_lent documents.now)) }
{
    let mut totals = Totals {
        blocks,
        documents: 0,
        amounts: 0,
    };
    'documents: for latest in documents {
        if let Some(amount) = live_amount(table, latest) {
            totals.documents += 1;
            totals.amounts += u128::from(amount);
        }
    }
    totals
}

/// The totals of a history of `blocks` blocks, of which this is the last version.
pub fn totals_of(alloc: Global, blocks: u64, version: &Versions) -> Result<Totals, OutOfMemory>
    ensures { IfOk result (λ t. t ≡ totals_of blocks (made_rows version.now)) }
{
    let Some(table) = active_table(version.tables(), "made") else {
        return Ok(Totals {
            blocks,
            documents: 0,
            amounts: 0,
        });
    };
    let documents = version.newest(alloc)?;
    Ok(totals_among(blocks, table, documents.as_slice()))
}

/// The text of what a history adds up to, a line of Ion text.
pub fn summary_text(alloc: Global, totals: &Totals) -> Result<Text, OutOfMemory>
    ensures { IfOk result (λ text. text ≡ summary_text totals.now) }
{
    let blocks = totals.blocks.to_string(alloc)?;
    let documents = totals.documents.to_string(alloc)?;
    let amounts = totals.amounts.to_string(alloc)?;
    let mut text = Text::new(alloc);
    text.push_str("{blocks:")?;
    text.push_str(blocks.as_str())?;
    text.push_str(",documents:")?;
    text.push_str(documents.as_str())?;
    text.push_str(",total:")?;
    text.push_str(amounts.as_str())?;
    text.push_str("}\n")?;
    Ok(text)
}
