//! Records that values spell.
ghost use Rattle.std.specs.Prelude.{◌≡◌, [], ◌∷◌, codes, option_map, IfOk, MatchOption};
ghost use Rattle.ledger_model.specs.Journal.{structure};
ghost use Rattle.ledger_model.specs.Script.{and_then, each};
ghost use Rattle.value_codec.specs.ReadParts.{named};
ghost use Rattle.block_form.specs.ReadBack.{IsReadAs, revision_in};
ghost use Rattle.stream_out.specs.declared.record.Record.TheVariants as kind;
ghost use Rattle.stream_out.specs.ReadRecords as spec;

use crate::record::{Details, Listed, Record, RevisionSummary, Summary};
use crate::stand_ins::stand_in_values;
use block_form::{from_ion, is_shallow, revision_in};
use containers::Sequence;
use ion_values::{Field, Fields, OutOfMemory, Text, Value, copy};
use ledger_model::{Block, Revision};
use ql_types::{DocId, TableId};
use std::alloc::Global;
use value_codec::parts::{list, put, structure};
use value_codec::read_parts::{fields_in, hash_in, id_in, list_in, named, string_in};
use value_codec::takes::into_fields;

/// The fields of a summary but for the last, and the revisions that the last one lists.
#[derive(Drop)]
struct Parts {
    fields: Fields,
    listed: Listed,
}

/// The id and the name of a table.
#[derive(Drop)]
struct TableInfo {
    table: TableId,
    name: Text,
}

fn listed_in(v: &Value) -> Option<RevisionSummary>
    ensures { result ≡ spec.listed_in v.now }
{
    let [hash, document] = fields_in(v)?.as_slice() else {
        return None;
    };
    let hash = hash_in(named(hash, "hash")?)?;
    let document = id_in(named(document, "documentId")?)?;
    Some(RevisionSummary {
        hash,
        document: DocId { raw: document },
    })
}

fn all_listed(alloc: Global, values: &[Value]) -> Result<Option<Listed>, OutOfMemory>
    ensures { IfOk result (λ listed. listed ≡ each spec.listed_in values.now) }
{
    let mut listed = Vec::with_capacity(alloc, values.len())?;
    'revisions: for value in values {
        match listed_in(value) {
            Some(one) => listed.push(one)?,
            None => return Ok(None),
        }
    }
    Ok(Some(Sequence::from_vec(listed)))
}

/// The revisions that a field lists.
fn listed_from(alloc: Global, field: &Field) -> Result<Option<Listed>, OutOfMemory>
    ensures { IfOk result (λ listed. listed ≡ spec.listed_from field.now) }
{
    let Some(value) = named(field, "revisionSummaries") else {
        return Ok(None);
    };
    let Some(values) = list_in(value) else {
        return Ok(None);
    };
    let listed = all_listed(alloc, values.as_slice())?;
    Ok(listed)
}

/// The revisions that the last field lists, and the fields in front of it.
fn parts_of(alloc: Global, fields: Fields) -> Result<Option<Parts>, OutOfMemory>
    ensures { IfOk result (λ parts. spec.IsSplit fields parts) }
{
    let mut fields = fields;
    let Some(last) = fields.pop() else {
        return Ok(None);
    };
    let Some(listed) = listed_from(alloc, &last)? else {
        return Ok(None);
    };
    Ok(Some(Parts { fields, listed }))
}

/// The block of these fields, with what stands for the revisions that are listed.
fn block_of(
    alloc: Global,
    fields: Fields,
    listed: &[RevisionSummary],
) -> Result<Option<Block>, OutOfMemory>
    ensures { IfOk result (λ found. IsReadAs (spec.stood_value fields listed.now) found) }
{
    let revisions = stand_in_values(alloc, listed)?;
    let mut fields = fields;
    put(alloc, &mut fields, "revisions", list(alloc, revisions))?;
    let value = structure(alloc, fields);
    let found = from_ion(alloc, &value)?;
    Ok(found)
}

/// The summary of a block, without what stands for its revisions.
fn summary_by(alloc: Global, listed: Listed, block: Block) -> Summary
    ensures { result ≡ spec.summary_by listed block }
{
    let mut block = block;
    block.revisions = Sequence::new(alloc);
    Summary { block, listed }
}

fn summary_with(alloc: Global, parts: Parts) -> Result<Option<Summary>, OutOfMemory>
    ensures { IfOk result (λ summary. spec.IsJoined parts summary) }
{
    let Parts { fields, listed } = parts;
    let Some(block) = block_of(alloc, fields, listed.as_slice())? else {
        return Ok(None);
    };
    Ok(Some(summary_by(alloc, listed, block)))
}

fn summary_of(alloc: Global, fields: Fields) -> Result<Option<Summary>, OutOfMemory>
    ensures { IfOk result (λ summary. spec.IsSummaryAs (structure fields) summary) }
{
    let Some(parts) = parts_of(alloc, fields)? else {
        return Ok(None);
    };
    let summary = summary_with(alloc, parts)?;
    Ok(summary)
}

fn summary_in(alloc: Global, v: &Value) -> Result<Option<Summary>, OutOfMemory>
    ensures { IfOk result (λ summary. spec.IsSummaryAs v.now summary) }
{
    let value = copy(alloc, v)?;
    let Some(fields) = into_fields(value) else {
        return Ok(None);
    };
    let summary = summary_of(alloc, fields)?;
    Ok(summary)
}

/// The id and the name in two fields.
fn table_of(alloc: Global, fields: &[Field]) -> Result<Option<TableInfo>, OutOfMemory>
    ensures { IfOk result (λ info. info ≡ spec.table_of fields.now) }
{
    let Some((raw, name)) = id_and_name(fields) else {
        return Ok(None);
    };
    let name = name.copy(alloc)?;
    Ok(Some(TableInfo {
        table: TableId { raw },
        name,
    }))
}

fn id_and_name(fields: &[Field]) -> Option<(u128, &Text)>
    ensures { MatchOption result (spec.table_of fields.now ≡ None)
        (λ found. spec.table_of fields.now ≡ Some (record { table = record { raw = found.0 }; name = found.1.now })) }
{
    let [id, name] = fields else {
        return None;
    };
    let id = id_in(named(id, "tableId")?)?;
    let name = string_in(named(name, "tableName")?)?;
    Some((id, name))
}

fn table_in(alloc: Global, field: &Field) -> Result<Option<TableInfo>, OutOfMemory>
    ensures { IfOk result (λ info. info ≡ and_then (named (codes "tableInfo") field.now) spec.table_in) }
{
    let Some(value) = named(field, "tableInfo") else {
        return Ok(None);
    };
    let Some(fields) = fields_in(value) else {
        return Ok(None);
    };
    let info = table_of(alloc, fields.as_slice())?;
    Ok(info)
}

fn revision_of(alloc: Global, field: &Field) -> Result<Option<Revision>, OutOfMemory>
    ensures { IfOk result (λ revision. revision ≡ and_then (named (codes "revision") field.now) revision_in) }
{
    let Some(value) = named(field, "revision") else {
        return Ok(None);
    };
    let revision = revision_in(alloc, value)?;
    Ok(revision)
}

fn details_with(
    alloc: Global,
    table: &Field,
    revision: &Field,
) -> Result<Option<Details>, OutOfMemory>
    ensures { IfOk result (λ details. details ≡ spec.details_of (table.now ∷ revision.now ∷ [])) }
{
    let Some(info) = table_in(alloc, table)? else {
        return Ok(None);
    };
    let Some(revision) = revision_of(alloc, revision)? else {
        return Ok(None);
    };
    if !is_shallow(&revision.content) {
        return Ok(None);
    }
    let TableInfo { table, name } = info;
    Ok(Some(Details {
        table,
        name,
        revision,
    }))
}

fn details_in(alloc: Global, v: &Value) -> Result<Option<Details>, OutOfMemory>
    ensures { IfOk result (λ details. details ≡ spec.details_in v.now) }
{
    let Some(fields) = fields_in(v) else {
        return Ok(None);
    };
    let [table, revision] = fields.as_slice() else {
        return Ok(None);
    };
    let details = details_with(alloc, table, revision)?;
    Ok(details)
}

fn control_by(word: &str) -> Option<Record>
    ensures { result ≡ spec.control_by word.now }
{
    if word == "CREATED" {
        return Some(Record::Created);
    }
    if word == "COMPLETED" {
        return Some(Record::Completed);
    }
    None
}

fn control_in(v: &Value) -> Option<Record>
    ensures { result ≡ spec.control_in v.now }
{
    let [field] = fields_in(v)?.as_slice() else {
        return None;
    };
    let word = string_in(named(field, "controlRecordType")?)?;
    control_by(word.as_str())
}

fn in_summary(alloc: Global, payload: &Value) -> Result<Option<Record>, OutOfMemory>
    ensures { IfOk result (λ found. spec.IsTypedAs (codes "BLOCK_SUMMARY") payload.now found) }
{
    let found = summary_in(alloc, payload)?;
    match found {
        Some(summary) => Ok(Some(Record::Summary(summary))),
        None => Ok(None),
    }
}

fn in_details(alloc: Global, payload: &Value) -> Result<Option<Record>, OutOfMemory>
    ensures { IfOk result (λ found. found ≡ option_map kind.Details (spec.details_in payload.now)) }
{
    let details = details_in(alloc, payload)?;
    Ok(details.map(Record::Details))
}

/// The record of this type, if it isn't a summary.
fn other_by(alloc: Global, kind: &str, payload: &Value) -> Result<Option<Record>, OutOfMemory>
    ensures { IfOk result (λ found. found ≡ spec.other_by kind.now payload.now) }
{
    if kind == "CONTROL" {
        return Ok(control_in(payload));
    }
    if kind == "REVISION_DETAILS" {
        return in_details(alloc, payload);
    }
    Ok(None)
}

/// The record of this type.
fn record_by(alloc: Global, kind: &str, payload: &Value) -> Result<Option<Record>, OutOfMemory>
    ensures { IfOk result (λ found. spec.IsTypedAs kind.now payload.now found) }
{
    if kind == "BLOCK_SUMMARY" {
        let summary = in_summary(alloc, payload)?;
        return Ok(summary);
    }
    let other = other_by(alloc, kind, payload)?;
    Ok(other)
}

/// The type and the payload of a record.
fn typed_in(v: &Value) -> Option<(&Text, &Value)>
    ensures { MatchOption result (spec.typed_in v.now ≡ None)
        (λ found. spec.typed_in v.now ≡ Some (found.0.now, found.1.now)) }
{
    let [kind, payload] = fields_in(v)?.as_slice() else {
        return None;
    };
    let kind = string_in(named(kind, "recordType")?)?;
    let payload = named(payload, "payload")?;
    Some((kind, payload))
}

/// The record whose value this is. None comes exactly if no record has this value: the fields stand in the written
/// order, a summary nests at most 256 deep, and the document of a revision at most 64.
pub fn read_record(alloc: Global, v: &Value) -> Result<Option<Record>, OutOfMemory>
    ensures { IfOk result (λ found. spec.IsReadAs v.now found) }
{
    let Some(typed) = typed_in(v) else {
        return Ok(None);
    };
    let found = record_by(alloc, typed.0.as_str(), typed.1)?;
    Ok(found)
}

/// Law: records of one value are one record.
pub fn values_tell_records()
    ensures { spec.ValuesTellRecords }
{}
