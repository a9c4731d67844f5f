//! Revisions as values.
ghost use Rattle.std.specs.Prelude.{◌≡◌, [], ◌++◌, map, IfOk, OnOk};
ghost use Rattle.std.specs.List.{cons_option};
ghost use Rattle.ledger_model.specs.Journal.{metadata_value, revision_value};
ghost use Rattle.block_form.specs.Hashed.{data_field};

use crate::contents::data_field;
use containers::Sequence;
use ion_values::{Field, Fields, OutOfMemory, Value, Values};
use ledger_model::{Metadata, Revision};
use std::alloc::Global;
use value_codec::parts::{address_value, hash_value, id_value, moment, number, put, structure};

/// The metadata as a value.
pub fn metadata_value(alloc: Global, metadata: &Metadata) -> Result<Value, OutOfMemory>
    ensures { IfOk result (λ v. v ≡ metadata_value metadata.now) }
{
    let mut fields = Sequence::new(alloc);
    put(alloc, &mut fields, "id", id_value(alloc, metadata.id.raw)?)?;
    put(
        alloc,
        &mut fields,
        "version",
        number(alloc, metadata.version),
    )?;
    put(alloc, &mut fields, "txTime", moment(alloc, &metadata.time))?;
    put(
        alloc,
        &mut fields,
        "txId",
        id_value(alloc, metadata.tx.raw)?,
    )?;
    Ok(structure(alloc, fields))
}

/// Puts the field, if there is one.
fn put_some(fields: &mut Fields, field: Option<Field>) -> Result<(), OutOfMemory>
    ensures { OnOk result (fields.new ≡ fields.old ++ cons_option field []) }
{
    match field {
        None => Ok(()),
        Some(field) => {
            fields.push(field)?;
            Ok(())
        }
    }
}

/// The revision as a value.
pub fn revision_value(alloc: Global, revision: &Revision) -> Result<Value, OutOfMemory>
    ensures { IfOk result (λ v. v ≡ revision_value revision.now) }
{
    let field = data_field(alloc, &revision.content)?;
    let metadata = metadata_value(alloc, &revision.metadata)?;
    let value = revision_with(alloc, revision, field, metadata)?;
    Ok(value)
}

/// The revision as a value, of the field of its data and the value of its metadata.
pub(crate) fn revision_with(
    alloc: Global,
    revision: &Revision,
    field: Option<Field>,
    metadata: Value,
) -> Result<Value, OutOfMemory>
    requires field { field ≡ data_field revision.now.content }
    requires metadata { metadata ≡ metadata_value revision.now.metadata }
    ensures { IfOk result (λ v. v ≡ revision_value revision.now) }
{
    let mut fields = Sequence::new(alloc);
    put(
        alloc,
        &mut fields,
        "blockAddress",
        address_value(alloc, &revision.address)?,
    )?;
    put(
        alloc,
        &mut fields,
        "hash",
        hash_value(alloc, &revision.hash)?,
    )?;
    put_some(&mut fields, field)?;
    put(alloc, &mut fields, "metadata", metadata)?;
    Ok(structure(alloc, fields))
}

pub fn revision_values(alloc: Global, revisions: &[Revision]) -> Result<Values, OutOfMemory>
    ensures { IfOk result (λ values. values ≡ map revision_value revisions.now) }
{
    let mut values = Sequence::new(alloc);
    for revision in revisions {
        values.push(revision_value(alloc, revision)?)?;
    }
    Ok(values)
}
