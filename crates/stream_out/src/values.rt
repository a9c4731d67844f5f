//! Records as values, and their lines.
ghost use Rattle.std.specs.Prelude.{◌≡◌, List, map, take, IfOk};
ghost use Rattle.ion_values.specs.declared.value.Field as model;
ghost use Rattle.ledger_model.specs.Journal.{string, structure};
ghost use Rattle.stream_out.specs.Records as spec;

use crate::record::{Details, Record, RevisionSummary, Summary};
use crate::stand_ins::stood_in;
use block_form::{revision_value, to_ion};
use containers::Sequence;
use ion_text::write;
use ion_values::{Fields, OutOfMemory, Text, Value, Values};
use std::alloc::Global;
use value_codec::parts::{hash_value, id_value, list, put, string, structure};
use value_codec::takes::into_fields;

/// A string of this text.
fn word(alloc: Global, text: &str) -> Result<Value, OutOfMemory>
    ensures { IfOk result (λ v. v ≡ string text.now) }
{
    let text = Text::from_text(alloc, text)?;
    string(alloc, &text)
}

/// A record of this type.
fn typed(alloc: Global, kind: &str, payload: Value) -> Result<Value, OutOfMemory>
    ensures { IfOk result (λ v. v ≡ spec.typed kind.now payload) }
{
    let mut fields = Sequence::new(alloc);
    put(alloc, &mut fields, "recordType", word(alloc, kind)?)?;
    put(alloc, &mut fields, "payload", payload)?;
    Ok(structure(alloc, fields))
}

fn control_value(alloc: Global, kind: &str) -> Result<Value, OutOfMemory>
    ensures { IfOk result (λ v. v ≡ spec.control_value kind.now) }
{
    let mut fields = Sequence::new(alloc);
    put(alloc, &mut fields, "controlRecordType", word(alloc, kind)?)?;
    let value = typed(alloc, "CONTROL", structure(alloc, fields))?;
    Ok(value)
}

fn listed_value(alloc: Global, listed: &RevisionSummary) -> Result<Value, OutOfMemory>
    ensures { IfOk result (λ v. v ≡ spec.listed_value listed.now) }
{
    let mut fields = Sequence::new(alloc);
    put(alloc, &mut fields, "hash", hash_value(alloc, &listed.hash)?)?;
    put(
        alloc,
        &mut fields,
        "documentId",
        id_value(alloc, listed.document.raw)?,
    )?;
    Ok(structure(alloc, fields))
}

fn listed_values(alloc: Global, listed: &[RevisionSummary]) -> Result<Values, OutOfMemory>
    ensures { IfOk result (λ values. values ≡ map spec.listed_value listed.now) }
{
    let mut values = Sequence::new(alloc);
    for one in listed {
        values.push(listed_value(alloc, one)?)?;
    }
    Ok(values)
}

/// The first eight of the fields.
fn first_eight(fields: Fields) -> Fields
    ensures { result ≡ take 8 fields }
{
    let mut fields = fields.into_vec();
    fields.truncate(8);
    Sequence::from_vec(fields)
}

/// What stands in front of a block's revisions, taken out of its value.
fn front_of(alloc: Global, value: Value) -> Fields
    ensures { (fields : List model.Field) → value ≡ structure fields → result ≡ take 8 fields }
{
    let Some(fields) = into_fields(value) else {
        return Sequence::new(alloc);
    };
    first_eight(fields)
}

/// The fields of the summary's block but for its revisions.
fn summary_fields(alloc: Global, summary: &Summary) -> Result<Fields, OutOfMemory>
    ensures { IfOk result (λ fields. fields ≡ spec.summary_fields summary.now) }
{
    let block = stood_in(alloc, summary)?;
    let value = to_ion(alloc, &block)?;
    let fields = front_of(alloc, value);
    Ok(fields)
}

fn summary_value(alloc: Global, summary: &Summary) -> Result<Value, OutOfMemory>
    ensures { IfOk result (λ v. v ≡ spec.summary_value summary.now) }
{
    let listed = listed_values(alloc, summary.listed.as_slice())?;
    let mut fields = summary_fields(alloc, summary)?;
    put(alloc, &mut fields, "revisionSummaries", list(alloc, listed))?;
    Ok(structure(alloc, fields))
}

fn table_value(alloc: Global, details: &Details) -> Result<Value, OutOfMemory>
    ensures { IfOk result (λ v. v ≡ spec.table_value details.now) }
{
    let mut fields = Sequence::new(alloc);
    put(
        alloc,
        &mut fields,
        "tableId",
        id_value(alloc, details.table.raw)?,
    )?;
    put(
        alloc,
        &mut fields,
        "tableName",
        string(alloc, &details.name)?,
    )?;
    Ok(structure(alloc, fields))
}

fn details_value(alloc: Global, details: &Details) -> Result<Value, OutOfMemory>
    ensures { IfOk result (λ v. v ≡ spec.details_value details.now) }
{
    let table = table_value(alloc, details)?;
    let revision = revision_value(alloc, &details.revision)?;
    let mut fields = Sequence::new(alloc);
    put(alloc, &mut fields, "tableInfo", table)?;
    put(alloc, &mut fields, "revision", revision)?;
    Ok(structure(alloc, fields))
}

/// The record as a value.
pub fn record_value(alloc: Global, told: &Record) -> Result<Value, OutOfMemory>
    ensures { IfOk result (λ v. v ≡ spec.record_value told.now) }
{
    match told {
        Record::Created => control_value(alloc, "CREATED"),
        Record::Summary(summary) => {
            typed(alloc, "BLOCK_SUMMARY", summary_value(alloc, summary)?)
        }
        Record::Details(details) => {
            typed(alloc, "REVISION_DETAILS", details_value(alloc, details)?)
        }
        Record::Completed => control_value(alloc, "COMPLETED"),
    }
}

/// The line of a record: its value in Ion text, and a line feed.
pub fn record_line(alloc: Global, told: &Record) -> Result<Text, OutOfMemory>
    ensures { IfOk result (λ text. text ≡ spec.record_text told.now) }
{
    let value = record_value(alloc, told)?;
    let mut text = write(alloc, &value)?;
    text.push_str("\n")?;
    Ok(text)
}
