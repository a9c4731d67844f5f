//! What is read of the sources of a FROM, and the values of fields over the rows that are read.
ghost use Rattle.std.specs.Prelude.{◌≡◌, option_map, slice_get, IfOk};
ghost use Rattle.std.specs.Option.{option_copied};
ghost use Rattle.ledger_model.specs.Footprints as spec;
ghost use Rattle.ledger_model.specs.Meets.{content_shown, or_null};
ghost use Rattle.pql_model.specs.Steps as steps;
ghost use Rattle.footprints.specs.Lent.{meant_of, read_of, reads_of, texts, values_lent};

use crate::asked::Meant;
use crate::texts::{is_committed, shows_metadata};
use containers::Sequence;
use ion_values::{OutOfMemory, Text, Value};
use ledger_model::Item;
use pql_model::{Rows, Source, SourceKind, field_of};
use ql_types::TableId;
use std::alloc::Global;

/// What is read of a source: the items, and its rows that meet one of them.
#[derive(Drop)]
pub struct Read<'a> {
    pub source: &'a Source,
    pub items: Sequence<Item>,
    pub rows: Rows,
}

/// A source of a FROM with its table, and what is read of the sources before it.
#[derive(Clone, Copy)]
pub struct Spot<'a> {
    pub kind: &'a SourceKind,
    pub table: TableId,
    pub earlier: &'a [Read<'a>],
}

/// The top field that these names reach; history is read by no key.
pub(crate) fn field_reached<'a>(kind: &SourceKind, fields: &[&'a Text]) -> Option<&'a Text>
    ensures { option_copied result ≡ spec.field_reached kind.now (texts fields.now) }
{
    match kind {
        SourceKind::Table { name } => {
            if is_committed(name.as_str()) {
                field_of_data(fields)
            } else {
                field_alone(fields)
            }
        }
        SourceKind::History { .. } | SourceKind::Path(_) => None,
    }
}

fn field_alone<'a>(fields: &[&'a Text]) -> Option<&'a Text>
    ensures { option_copied result ≡ spec.field_alone (texts fields.now) }
{
    match fields {
        [field] => Some(*field),
        _ => None,
    }
}

fn field_of_data<'a>(fields: &[&'a Text]) -> Option<&'a Text>
    ensures { option_copied result ≡ spec.field_of_data (texts fields.now) }
{
    match fields {
        [first, field] if first.as_str() == "data" => Some(*field),
        _ => None,
    }
}

/// The field of the document that a row of the source shows.
pub(crate) fn field_shown<'a>(kind: &SourceKind, value: &'a Value, field: &str) -> Option<&'a Value>
    ensures { option_copied result ≡ steps.field_of field.now (content_shown kind.now value.now) }
{
    let document = document_shown(kind, value)?;
    field_of(field, document)
}

/// The document that a row of the source shows, or None of a delete.
pub fn document_shown<'a>(kind: &SourceKind, value: &'a Value) -> Option<&'a Value>
    ensures { or_null (option_copied result) ≡ content_shown kind.now value.now }
{
    if shows_metadata(kind) {
        return field_of("data", value);
    }
    Some(value)
}

/// The values of the field over the rows that are read.
fn values_in<'a>(
    alloc: Global,
    read: &'a Read<'_>,
    field: &str,
) -> Result<Sequence<&'a Value>, OutOfMemory>
    ensures { IfOk result (λ values. values_lent values ≡ spec.values_in (read_of read.now) field.now) }
{
    let mut values = Sequence::new(alloc);
    'rows: for row in read.rows.as_slice() {
        if let Some(value) = field_shown(&read.source.from, &row.value, field) {
            values.push(value)?;
        }
    }
    Ok(values)
}

/// What is read of the source of the place, if it is one of these.
fn read_at<'a, 'b>(earlier: &'a [Read<'b>], place: usize) -> Option<&'a Read<'b>>
    ensures { option_map read_of (option_copied result) ≡ slice_get (reads_of earlier.now) place }
{
    earlier.get(place)
}

/// The values that a path means over the rows of an earlier source.
///
/// There are some only if it is a field of a user or committed view.
pub(crate) fn values_meant<'a>(
    alloc: Global,
    earlier: &'a [Read<'_>],
    meant: &Meant<'_>,
) -> Result<Option<Sequence<&'a Value>>, OutOfMemory>
    ensures { IfOk result (λ values. option_map values_lent values
        ≡ spec.values_meant (reads_of earlier.now) (meant_of meant.now)) }
{
    let Meant::AtNames { place, fields } = meant else {
        return Ok(None);
    };
    let Some(read) = read_at(earlier, *place) else {
        return Ok(None);
    };
    let Some(field) = field_reached(&read.source.from, fields.as_slice()) else {
        return Ok(None);
    };
    let values = values_in(alloc, read, field.as_str())?;
    Ok(Some(values))
}
