//! The lines that answer events.
ghost use Rattle.std.specs.Prelude.{◌≡◌, ◌++◌, OnOk};
ghost use Rattle.ion_model.specs.Timestamp.{timestamp_text};
ghost use Rattle.interleavings.specs.Lines as line;

use ion_values::{Body, IonTime, OutOfMemory, Text, Value};
use ledger_core::Receipt;
use ledger_model::{Block, Item, Named, Refusal};
use ql_types::{Hash32, TxId};
use script_form::{
    put_blob, put_body, put_cause, put_id, put_item, put_number, put_rows, put_string,
};
use std::alloc::Global;

/// Puts a name in a line of its own, behind what is said of it.
fn put_told(alloc: Global, out: &mut Text, said: &str, name: &Text) -> Result<(), OutOfMemory>
    ensures { OnOk result (out.new ≡ out.old ++ line.told said.now name.now) }
{
    out.push_str(said)?;
    put_string(alloc, out, name)?;
    out.push_str("}\n")
}

/// Puts that the transaction was ended by a refusal.
pub fn put_ended(alloc: Global, out: &mut Text, name: &Text) -> Result<(), OutOfMemory>
    ensures { OnOk result (out.new ≡ out.old ++ line.ended name.now) }
{
    put_told(alloc, out, "{ended:", name)
}

/// Appends that the transaction was aborted.
pub fn put_aborted(alloc: Global, out: &mut Text, name: &Text) -> Result<(), OutOfMemory>
    ensures { OnOk result (out.new ≡ out.old ++ line.aborted name.now) }
{
    put_told(alloc, out, "{aborted:", name)
}

/// Puts that no transaction of this name is open.
pub fn put_nothing(alloc: Global, out: &mut Text, name: &Text) -> Result<(), OutOfMemory>
    ensures { OnOk result (out.new ≡ out.old ++ line.nothing name.now) }
{
    put_told(alloc, out, "{nothing:", name)
}

/// Puts the transaction's id, and on how many blocks it runs.
pub fn put_begun(
    alloc: Global,
    out: &mut Text,
    name: &Text,
    tx: TxId,
    since: u64,
) -> Result<(), OutOfMemory>
    ensures { OnOk result (out.new ≡ out.old ++ line.begun name.now tx.raw since) }
{
    out.push_str("{begun:")?;
    put_string(alloc, out, name)?;
    out.push_str(",tx:")?;
    put_id(out, tx.raw)?;
    out.push_str(",since:")?;
    put_number(alloc, out, since)?;
    out.push_str("}\n")
}

/// Puts a number in a line of its own, behind what is said of it.
fn put_counted(alloc: Global, out: &mut Text, said: &str, number: u64) -> Result<(), OutOfMemory>
    ensures { OnOk result (out.new ≡ out.old ++ line.counted said.now number) }
{
    out.push_str(said)?;
    put_number(alloc, out, number)?;
    out.push_str("}\n")
}

/// Puts that no number is left behind the last one.
pub fn put_ids_spent(alloc: Global, out: &mut Text, last: u64) -> Result<(), OutOfMemory>
    ensures { OnOk result (out.new ≡ out.old ++ line.ids_spent last) }
{
    put_counted(alloc, out, "{ids_spent:", last)
}

/// Puts that the value of this number spells no event.
pub fn put_bad_event(alloc: Global, out: &mut Text, at: u64) -> Result<(), OutOfMemory>
    ensures { OnOk result (out.new ≡ out.old ++ line.bad_event at) }
{
    put_counted(alloc, out, "{bad_event:", at)
}

/// Puts that there are as many blocks as there can be.
pub fn put_journal_full(alloc: Global, out: &mut Text, blocks: u64) -> Result<(), OutOfMemory>
    ensures { OnOk result (out.new ≡ out.old ++ line.journal_full blocks) }
{
    put_counted(alloc, out, "{journal_full:", blocks)
}

/// Puts that the store failed, and how often it has.
pub fn put_store_fault(alloc: Global, out: &mut Text, count: u64) -> Result<(), OutOfMemory>
    ensures { OnOk result (out.new ≡ out.old ++ line.store_fault count) }
{
    put_counted(alloc, out, "{store_fault:", count)
}

/// Puts the rows of an answer.
pub fn put_answer(alloc: Global, out: &mut Text, rows: &[Value]) -> Result<(), OutOfMemory>
    ensures { OnOk result (out.new ≡ out.old ++ line.answer rows.now) }
{
    out.push_str("{answer:[")?;
    put_rows(alloc, out, rows)?;
    out.push_str("]}\n")
}

/// Puts why a statement was refused.
pub fn put_refused(alloc: Global, out: &mut Text, cause: &Refusal) -> Result<(), OutOfMemory>
    ensures { OnOk result (out.new ≡ out.old ++ line.refused cause.now) }
{
    out.push_str("{refused:{")?;
    put_cause(alloc, out, cause)?;
    out.push_str("}}\n")
}

/// Puts an item between braces.
fn put_braced(alloc: Global, out: &mut Text, item: &Item) -> Result<(), OutOfMemory>
    ensures { OnOk result (out.new ≡ out.old ++ line.braced item.now) }
{
    out.push_str("{")?;
    put_item(alloc, out, item)?;
    out.push_str("}")
}

/// Puts what a transaction read, in order, with commas between the items.
pub fn put_footprint(alloc: Global, out: &mut Text, items: &[Item]) -> Result<(), OutOfMemory>
    ensures { OnOk result (out.new ≡ out.old ++ line.footprint items.now) }
{
    let [first, more @ ..] = items else {
        return Ok(());
    };
    put_braced(alloc, out, first)?;
    'items: for next in more {
        out.push_str(",")?;
        put_braced(alloc, out, next)?;
    }
    Ok(())
}

/// Puts the footprint whose text this is as a field, and ends the line.
fn put_read(out: &mut Text, footprint: &Text) -> Result<(), OutOfMemory>
    ensures { OnOk result (out.new ≡ out.old ++ line.read footprint.now) }
{
    out.push_str(",footprint:[")?;
    out.push_str(footprint.as_str())?;
    out.push_str("]}\n")?;
    Ok(())
}

/// Puts the number, the hash and the time of a transaction's block, and what the transaction read.
pub fn put_committed(
    alloc: Global,
    out: &mut Text,
    receipt: &Receipt,
    footprint: &Text,
) -> Result<(), OutOfMemory>
    ensures { OnOk result (out.new ≡ out.old
        ++ line.committed receipt.now.block receipt.now.hash receipt.now.time footprint.now) }
{
    out.push_str("{committed:")?;
    put_number(alloc, out, receipt.block)?;
    out.push_str(",hash:")?;
    put_blob(alloc, out, &receipt.hash.bytes)?;
    out.push_str(",time:")?;
    put_time(alloc, out, receipt.time)?;
    put_read(out, footprint)?;
    Ok(())
}

fn put_time(alloc: Global, out: &mut Text, time: IonTime) -> Result<(), OutOfMemory>
    ensures { OnOk result (out.new ≡ out.old ++ timestamp_text time) }
{
    put_body(alloc, out, Body::Timestamp(time))
}

/// Puts the first block that touched something that the transaction read, and what it read.
pub fn put_conflict(
    alloc: Global,
    out: &mut Text,
    since: u64,
    named: &Named,
    footprint: &Text,
) -> Result<(), OutOfMemory>
    ensures { OnOk result (out.new ≡ out.old ++ line.conflict since named.now footprint.now) }
{
    out.push_str("{conflict:{since:")?;
    put_number(alloc, out, since)?;
    out.push_str(",block:")?;
    put_number(alloc, out, named.block)?;
    out.push_str(",item:")?;
    put_braced(alloc, out, &named.item)?;
    out.push_str("}")?;
    put_read(out, footprint)
}

/// Puts the transaction's own digest and the one that was given.
pub fn put_digest_differs(
    alloc: Global,
    out: &mut Text,
    mine: &Hash32,
    given: &Hash32,
) -> Result<(), OutOfMemory>
    ensures { OnOk result (out.new ≡ out.old ++ line.digest_differs mine.now given.now) }
{
    out.push_str("{digest_differs:{mine:")?;
    put_blob(alloc, out, &mine.bytes)?;
    out.push_str(",given:")?;
    put_blob(alloc, out, &given.bytes)?;
    out.push_str("}}\n")?;
    Ok(())
}

/// Puts how many blocks there are, and the hash of the last one.
pub fn put_blocks(alloc: Global, out: &mut Text, blocks: &[Block]) -> Result<(), OutOfMemory>
    ensures { OnOk result (out.new ≡ out.old ++ line.blocks blocks.now) }
{
    out.push_str("{blocks:")?;
    put_number(alloc, out, blocks.len() as u64)?;
    put_tip(alloc, out, blocks)?;
    out.push_str("}\n")
}

fn put_tip(alloc: Global, out: &mut Text, blocks: &[Block]) -> Result<(), OutOfMemory>
    ensures { OnOk result (out.new ≡ out.old ++ line.tip blocks.now) }
{
    match blocks.last() {
        Some(last) => {
            out.push_str(",tip:")?;
            put_blob(alloc, out, &last.hash.bytes)
        }
        None => Ok(()),
    }
}
