//! What a transaction said and did, as values spell it. Texts and values are moved out of them.
ghost use Rattle.std.specs.Prelude.{◌≡◌, ◌≢◌, [], ◌∷◌, codes, length, option_map, IfOk, MatchOption};
ghost use Rattle.std.specs.Option.{option_copied};
ghost use Rattle.ledger_model.specs.Script.{and_then, each};
ghost use Rattle.ledger_model.specs.Values.{list_in};
ghost use Rattle.block_form.specs.ReadBack as spec;

use containers::Sequence;
use ion_values::{Field, Fields, OutOfMemory, Text, Value, Values};
use ledger_model::{Answer, Info, Revision, Said, SaidList, Schema, SchemaList, TableIds, Told};
use ql_types::{DocId, Place, TableId};
use std::alloc::Global;
use value_codec::read_parts::{
    address_in, fields_in, hash_in, id_in, list_in, named, small_number_in,
};
use value_codec::takes::{into_fields, into_members, into_string, into_text, with_room};

/// The place in a script whose value this is, or None where it is no place's.
pub fn place_in(v: &Value) -> Option<Place>
    ensures { result ≡ spec.place_in v.now }
{
    let [session, transaction] = fields_in(v)?.as_slice() else {
        return None;
    };
    let session = small_number_in(named(session, "session")?)?;
    let transaction = small_number_in(named(transaction, "transaction")?)?;
    Some(Place {
        session,
        transaction,
    })
}

/// The members of the list in a field of this name.
fn members_in<'a>(field: &'a Field, name: &str) -> Option<&'a Values>
    ensures { option_copied result ≡ and_then (spec.named name.now field.now) list_in }
{
    list_in(named(field, name)?)
}

fn said_of(fields: Fields) -> Option<Said>
    ensures { result ≡ spec.said_of fields }
{
    if fields.len() != 3 {
        return None;
    }
    let mut fields = fields;
    let answer = fields.pop()?;
    let params = fields.pop()?;
    let text = fields.pop()?;
    let text = into_text(text, "statement")?;
    let params = into_members(params, "parameters")?;
    let rows = into_members(answer, "answer")?;
    Some(Said {
        text,
        params,
        answer: Answer { rows },
    })
}

fn into_said(v: Value) -> Option<Said>
    ensures { result ≡ spec.said_in v }
{
    said_of(into_fields(v)?)
}

fn all_said(alloc: Global, values: Values) -> Result<Option<SaidList>, OutOfMemory>
    ensures { IfOk result (λ said. said ≡ each spec.said_in values) }
{
    let mut said = with_room(alloc, values.len())?;
    'statements: for value in values.into_vec() {
        match into_said(value) {
            Some(one) => said.push(one)?,
            None => return Ok(None),
        }
    }
    Ok(Some(said))
}

/// The change of this kind.
fn change_of(kind: &str, name: Text, table: TableId) -> Option<Schema>
    ensures { result ≡ spec.change_of kind.now name table }
{
    if kind == "create" {
        return Some(Schema::Create { name, table });
    }
    if kind == "index" {
        return Some(Schema::Index { field: name, table });
    }
    if kind == "drop" {
        return Some(Schema::Drop { name, table });
    }
    None
}

/// The redaction of the revision of a document in the block at an address.
fn redaction_of(fields: &Fields) -> Option<Schema>
    ensures { result ≡ spec.redaction_of fields.now }
{
    let [address, table, document] = fields.as_slice() else {
        return None;
    };
    let address = address_in(named(address, "redact")?)?;
    let table = raw_in(table, "tableId")?;
    let document = raw_in(document, "documentId")?;
    Some(Schema::Redact {
        address,
        table: TableId { raw: table },
        document: DocId { raw: document },
    })
}

fn schema_of(fields: Fields) -> Option<Schema>
    ensures { result ≡ spec.schema_of fields }
{
    if fields.len() != 2 {
        return redaction_of(&fields);
    }
    let mut fields = fields;
    let table = fields.pop()?;
    let change = fields.pop()?;
    let Field { name: kind, value } = change;
    let name = into_string(value)?;
    let table = raw_in(&table, "tableId")?;
    change_of(kind.as_str(), name, TableId { raw: table })
}

/// The number of the id in a field of this name.
fn raw_in(field: &Field, name: &str) -> Option<u128>
    ensures { result ≡ and_then (spec.named name.now field.now) spec.id_in }
{
    id_in(named(field, name)?)
}

fn into_schema(v: Value) -> Option<Schema>
    ensures { result ≡ spec.schema_in v }
{
    schema_of(into_fields(v)?)
}

fn all_schema(alloc: Global, values: Values) -> Result<Option<SchemaList>, OutOfMemory>
    ensures { IfOk result (λ schema. schema ≡ each spec.schema_in values) }
{
    let mut schema = with_room(alloc, values.len())?;
    'changes: for value in values.into_vec() {
        match into_schema(value) {
            Some(change) => schema.push(change)?,
            None => return Ok(None),
        }
    }
    Ok(Some(schema))
}

/// The table of a document, which is that of the revision.
fn table_in(revision: &Revision, v: &Value) -> Option<TableId>
    ensures { result ≡ spec.table_in revision.now v.now }
{
    let [document, table] = fields_in(v)?.as_slice() else {
        return None;
    };
    let document = raw_in(document, "documentId")?;
    let table = raw_in(table, "tableId")?;
    if document == revision.metadata.id.raw {
        Some(TableId { raw: table })
    } else {
        None
    }
}

/// The tables of documents, one for each revision.
fn tables_of(
    alloc: Global,
    values: &[Value],
    revisions: &[Revision],
) -> Result<Option<TableIds>, OutOfMemory>
    ensures { IfOk result (λ tables. tables ≡ spec.tables_of values.now revisions.now) }
{
    if values.len() != revisions.len() {
        return Ok(None);
    }
    let mut tables = Vec::with_capacity(alloc, values.len())?;
    'documents: for at in 0..values.len() {
        match table_in(&revisions[at], &values[at]) {
            Some(table) => tables.push(table)?,
            None => return Ok(None),
        }
    }
    Ok(Some(Sequence::from_vec(tables)))
}

/// What a transaction said and did, where each part of it is known.
fn info_from(
    place: Option<Place>,
    told: Option<Told>,
    schema: Option<SchemaList>,
    tables: Option<TableIds>,
) -> Option<Info>
    ensures { result ≡ spec.info_from place told schema tables }
{
    Some(Info {
        place: place?,
        said: told?,
        schema: schema?,
        tables: tables?,
    })
}

fn info_of(
    alloc: Global,
    fields: Fields,
    revisions: &[Revision],
) -> Result<Option<Info>, OutOfMemory>
    ensures { IfOk result (λ info. info ≡ spec.info_of revisions.now fields) }
{
    let Some((place, statements, schema, documents)) = four_of(fields) else {
        return Ok(None);
    };
    let tables = documents_of(alloc, &documents, revisions)?;
    let told = told_of(alloc, statements)?;
    let schema = changes_of(alloc, schema)?;
    Ok(info_from(placed(&place), told, schema, tables))
}

/// The fields, where there are four.
fn four_of(fields: Fields) -> Option<(Field, Field, Field, Field)>
    ensures { MatchOption result (length fields ≢ 4) (λ four. fields ≡ four.0 ∷ four.1 ∷ four.2 ∷ four.3 ∷ []) }
{
    if fields.len() != 4 {
        return None;
    }
    let mut fields = fields;
    let fourth = fields.pop()?;
    let third = fields.pop()?;
    let second = fields.pop()?;
    let first = fields.pop()?;
    Some((first, second, third, fourth))
}

fn placed(field: &Field) -> Option<Place>
    ensures { result ≡ and_then (spec.named (codes "place") field.now) spec.place_in }
{
    place_in(named(field, "place")?)
}

fn statements_of(alloc: Global, field: Field) -> Result<Option<SaidList>, OutOfMemory>
    ensures { IfOk result (λ said. said ≡ and_then (and_then (spec.named (codes "statements") field) list_in)
        (each spec.said_in)) }
{
    let Some(values) = into_members(field, "statements") else {
        return Ok(None);
    };
    let said = all_said(alloc, values)?;
    Ok(said)
}

/// The statements, or the hash that stands in their place.
fn told_of(alloc: Global, field: Field) -> Result<Option<Told>, OutOfMemory>
    ensures { IfOk result (λ told. told ≡ spec.told_of field) }
{
    if field.name.as_str() == "statementsHash" {
        return Ok(hashed_in(&field.value));
    }
    let said = statements_of(alloc, field)?;
    Ok(said_from(said))
}

/// The hash in place of the statements.
fn hashed_in(v: &Value) -> Option<Told>
    ensures { result ≡ option_map (λ h. Told.Hashed h) (spec.hash_in v.now) }
{
    let hash = hash_in(v)?;
    Some(Told::Hashed(hash))
}

/// The statements, if there are any.
fn said_from(said: Option<SaidList>) -> Option<Told>
    ensures { result ≡ option_map (λ said. Told.Said said) said }
{
    Some(Told::Said(said?))
}

fn changes_of(alloc: Global, field: Field) -> Result<Option<SchemaList>, OutOfMemory>
    ensures { IfOk result (λ schema. schema ≡ and_then (and_then (spec.named (codes "schema") field) list_in)
        (each spec.schema_in)) }
{
    let Some(values) = into_members(field, "schema") else {
        return Ok(None);
    };
    let schema = all_schema(alloc, values)?;
    Ok(schema)
}

fn documents_of(
    alloc: Global,
    field: &Field,
    revisions: &[Revision],
) -> Result<Option<TableIds>, OutOfMemory>
    ensures { IfOk result (λ tables. tables ≡ and_then (and_then (spec.named (codes "documents") field.now) list_in)
        (λ values. spec.tables_of values revisions.now)) }
{
    let Some(values) = members_in(field, "documents") else {
        return Ok(None);
    };
    let tables = tables_of(alloc, values.as_slice(), revisions)?;
    Ok(tables)
}

/// What a transaction of these revisions said and did.
pub fn into_info(
    alloc: Global,
    v: Value,
    revisions: &[Revision],
) -> Result<Option<Info>, OutOfMemory>
    ensures { IfOk result (λ info. info ≡ spec.info_in revisions.now v) }
{
    let Some(fields) = into_fields(v) else {
        return Ok(None);
    };
    let info = info_of(alloc, fields, revisions)?;
    Ok(info)
}
