//! Which items are read of a source: the first that the parts of the conditions ask for, rule by rule.
ghost use Rattle.std.specs.Prelude.{◌≡◌, [], ◌∷◌, IfOk};
ghost use Rattle.std.specs.Option.{option_copied};
ghost use Rattle.ledger_model.specs.Conditions.{equal_to, same_as};
ghost use Rattle.ledger_model.specs.Footprints as spec;
ghost use Rattle.footprints.specs.Lent.{all_asked_of, asked_of, meant_of, schemas_of, spot_of, texts, wanted_of};
ghost use Rattle.footprints.specs.Rules.{documents_asked, documents_by, first_documents, first_keys};
ghost use Rattle.footprints.specs.Rules.{keys_asked, keys_by, keys_or_table, later_documents, later_keys};
ghost use Rattle.footprints.specs.declared.rules.Rule.TheVariants as taken;

use crate::asked::{Asked, Meant, Wanted};
use crate::items::{documents_listed, few_documents, keys_listed, plain_keys};
use crate::read::{Spot, field_reached, values_meant};
use crate::schemas::Schemas;
use crate::texts::{document_in, shows_metadata};
use containers::Sequence;
use ion_order::key;
use ion_values::{OutOfMemory, Text, Value};
use ledger_model::Item;
use ql_types::TableId;
use std::alloc::Global;

/// Which values a rule takes: one that equals a constant, one of a list, or one of those of another source.
#[derive(Clone, Copy)]
pub(crate) enum Rule {
    EqualTo,
    OneOf,
    SameAs,
}

/// What is read of a source: the first documents that are asked for; else the first keys of an index; else the table.
pub fn items_of(
    alloc: Global,
    schemas: Schemas<'_>,
    at: Spot<'_>,
    asked: &[Asked<'_>],
) -> Result<Sequence<Item>, OutOfMemory>
    ensures { IfOk result (λ items.
        items ≡ spec.items_of (schemas_of schemas.entry) (spot_of at.entry) (all_asked_of asked.now)) }
{
    match first_documents(alloc, at, asked)? {
        Some(items) => Ok(items),
        None => {
            let items = keys_or_table(alloc, schemas, at, asked)?;
            Ok(items)
        }
    }
}

/// The first keys of an index that are asked for, or else the table.
fn keys_or_table(
    alloc: Global,
    schemas: Schemas<'_>,
    at: Spot<'_>,
    asked: &[Asked<'_>],
) -> Result<Sequence<Item>, OutOfMemory>
    ensures { IfOk result (λ items.
        items ≡ keys_or_table (schemas_of schemas.entry) (spot_of at.entry) (all_asked_of asked.now)) }
{
    match first_keys(alloc, schemas, at, asked)? {
        Some(items) => Ok(items),
        None => {
            let items = alone(alloc, Item::Table { table: at.table })?;
            Ok(items)
        }
    }
}

fn alone(alloc: Global, item: Item) -> Result<Sequence<Item>, OutOfMemory>
    ensures { IfOk result (λ items. items ≡ item ∷ []) }
{
    let mut items = Sequence::new(alloc);
    items.push(item)?;
    Ok(items)
}

// ---- documents

/// The first documents that are asked for, rule by rule.
fn first_documents(
    alloc: Global,
    at: Spot<'_>,
    asked: &[Asked<'_>],
) -> Result<Option<Sequence<Item>>, OutOfMemory>
    ensures { IfOk result (λ items. items ≡ first_documents (spot_of at.entry) (all_asked_of asked.now)) }
{
    match documents_by(alloc, Rule::EqualTo, at, asked)? {
        Some(items) => Ok(Some(items)),
        None => {
            let items = later_documents(alloc, at, asked)?;
            Ok(items)
        }
    }
}

/// The first documents that are asked for in a list, or else as those of another source.
fn later_documents(
    alloc: Global,
    at: Spot<'_>,
    asked: &[Asked<'_>],
) -> Result<Option<Sequence<Item>>, OutOfMemory>
    ensures { IfOk result (λ items. items ≡ later_documents (spot_of at.entry) (all_asked_of asked.now)) }
{
    match documents_by(alloc, Rule::OneOf, at, asked)? {
        Some(items) => Ok(Some(items)),
        None => {
            let items = documents_by(alloc, Rule::SameAs, at, asked)?;
            Ok(items)
        }
    }
}

/// The first documents that are asked for by the rule.
fn documents_by(
    alloc: Global,
    rule: Rule,
    at: Spot<'_>,
    asked: &[Asked<'_>],
) -> Result<Option<Sequence<Item>>, OutOfMemory>
    ensures { IfOk result (λ items. items ≡ spec.first_of
        (documents_asked rule (spot_of at.entry) (all_asked_of asked.now))) }
{
    'asked: for asked in asked {
        if let Some(items) = documents_of(alloc, rule, at, asked)? {
            return Ok(Some(items));
        }
    }
    Ok(None)
}

/// The documents that are asked for, if it is asked of the source's id and the rule takes what is wanted.
fn documents_of(
    alloc: Global,
    rule: Rule,
    at: Spot<'_>,
    asked: &Asked<'_>,
) -> Result<Option<Sequence<Item>>, OutOfMemory>
    ensures { IfOk result (λ items. items
        ≡ spec.by_id (documents_by rule (spot_of at.entry)) (spot_of at.entry) (asked_of asked.now)) }
{
    if is_id(&asked.of, at) {
        let items = wanted_documents(alloc, rule, at, &asked.wanted)?;
        Ok(items)
    } else {
        Ok(None)
    }
}

/// Whether it is the document's own id, by its BY name or from its metadata.
fn is_id(meant: &Meant<'_>, at: Spot<'_>) -> bool
    ensures { result ≡ spec.is_id (spot_of at.entry).place at.entry.kind.now (meant_of meant.now) }
{
    match meant {
        Meant::Id(place) => *place == at.earlier.len(),
        Meant::AtNames { place, fields } => {
            *place == at.earlier.len()
                && shows_metadata(at.kind)
                && is_metadata_id(fields.as_slice())
        }
        Meant::Unknown => false,
    }
}

fn is_metadata_id(fields: &[&Text]) -> bool
    ensures { result ≡ spec.is_metadata_id (texts fields.now) }
{
    match fields {
        [first, second] => first.as_str() == "metadata" && second.as_str() == "id",
        _ => false,
    }
}

/// The documents that are wanted, if the rule takes what is wanted.
fn wanted_documents(
    alloc: Global,
    rule: Rule,
    at: Spot<'_>,
    wanted: &Wanted<'_>,
) -> Result<Option<Sequence<Item>>, OutOfMemory>
    ensures { IfOk result (λ items. items ≡ documents_by rule (spot_of at.entry) (wanted_of wanted.now)) }
{
    match (rule, wanted) {
        (Rule::EqualTo, Wanted::EqualTo(value)) => document_equal(alloc, at.table, value),
        (Rule::OneOf, Wanted::OneOf(values)) => documents_listed(
            alloc,
            at.table,
            values.as_slice(),
        ),
        (Rule::SameAs, Wanted::SameAs(other)) => documents_same(alloc, at, other),
        _ => Ok(None),
    }
}

fn document_equal(
    alloc: Global,
    table: TableId,
    value: &Value,
) -> Result<Option<Sequence<Item>>, OutOfMemory>
    ensures { IfOk result (λ items. items ≡ spec.document_equal table (equal_to value.now)) }
{
    match document_in(value) {
        Some(id) => {
            let items = alone(alloc, Item::Doc { table, id })?;
            Ok(Some(items))
        }
        None => Ok(None),
    }
}

fn documents_same(
    alloc: Global,
    at: Spot<'_>,
    other: &Meant<'_>,
) -> Result<Option<Sequence<Item>>, OutOfMemory>
    ensures { IfOk result (λ items.
        items ≡ documents_by taken.SameAs (spot_of at.entry) (same_as (meant_of other.now))) }
{
    let Some(values) = values_meant(alloc, at.earlier, other)? else {
        return Ok(None);
    };
    few_documents(alloc, at.table, values.as_slice())
}

// ---- keys

/// The first keys of an index that are asked for, rule by rule.
fn first_keys(
    alloc: Global,
    schemas: Schemas<'_>,
    at: Spot<'_>,
    asked: &[Asked<'_>],
) -> Result<Option<Sequence<Item>>, OutOfMemory>
    ensures { IfOk result (λ items.
        items ≡ first_keys (schemas_of schemas.entry) (spot_of at.entry) (all_asked_of asked.now)) }
{
    match keys_by(alloc, Rule::EqualTo, schemas, at, asked)? {
        Some(items) => Ok(Some(items)),
        None => {
            let items = later_keys(alloc, schemas, at, asked)?;
            Ok(items)
        }
    }
}

/// The first keys of an index that are asked for in a list, or else as those of another source.
fn later_keys(
    alloc: Global,
    schemas: Schemas<'_>,
    at: Spot<'_>,
    asked: &[Asked<'_>],
) -> Result<Option<Sequence<Item>>, OutOfMemory>
    ensures { IfOk result (λ items.
        items ≡ later_keys (schemas_of schemas.entry) (spot_of at.entry) (all_asked_of asked.now)) }
{
    match keys_by(alloc, Rule::OneOf, schemas, at, asked)? {
        Some(items) => Ok(Some(items)),
        None => {
            let items = keys_by(alloc, Rule::SameAs, schemas, at, asked)?;
            Ok(items)
        }
    }
}

/// The first keys of an index that are asked for by the rule.
fn keys_by(
    alloc: Global,
    rule: Rule,
    schemas: Schemas<'_>,
    at: Spot<'_>,
    asked: &[Asked<'_>],
) -> Result<Option<Sequence<Item>>, OutOfMemory>
    ensures { IfOk result (λ items. items ≡ spec.first_of
        (keys_asked rule (schemas_of schemas.entry) (spot_of at.entry) (all_asked_of asked.now))) }
{
    'asked: for asked in asked {
        if let Some(items) = keys_of(alloc, rule, schemas, at, asked)? {
            return Ok(Some(items));
        }
    }
    Ok(None)
}

/// The keys that are asked for, if the rule takes what is wanted.
///
/// They are asked of a field with an index.
fn keys_of(
    alloc: Global,
    rule: Rule,
    schemas: Schemas<'_>,
    at: Spot<'_>,
    asked: &Asked<'_>,
) -> Result<Option<Sequence<Item>>, OutOfMemory>
    ensures { IfOk result (λ items. items ≡ spec.by_key (keys_by rule (spot_of at.entry))
        (schemas_of schemas.entry) (spot_of at.entry) (asked_of asked.now)) }
{
    match field_at(&asked.of, at) {
        None => Ok(None),
        Some(field) => {
            if schemas.has_index(at.table, field) {
                let items = wanted_keys(alloc, rule, field, at, &asked.wanted)?;
                Ok(items)
            } else {
                Ok(None)
            }
        }
    }
}

/// The top field of the source's documents that is meant.
fn field_at<'a>(meant: &'a Meant<'_>, at: Spot<'_>) -> Option<&'a Text>
    ensures { option_copied result ≡ spec.field_at (spot_of at.entry).place at.entry.kind.now (meant_of meant.now) }
{
    match meant {
        Meant::AtNames { place, fields } if *place == at.earlier.len() => {
            field_reached(at.kind, fields.as_slice())
        }
        _ => None,
    }
}

/// The keys of the field that are wanted, if the rule takes what is wanted.
fn wanted_keys(
    alloc: Global,
    rule: Rule,
    field: &Text,
    at: Spot<'_>,
    wanted: &Wanted<'_>,
) -> Result<Option<Sequence<Item>>, OutOfMemory>
    ensures { IfOk result (λ items. items ≡ keys_by rule (spot_of at.entry) field.now (wanted_of wanted.now)) }
{
    match (rule, wanted) {
        (Rule::EqualTo, Wanted::EqualTo(value)) => key_equal(alloc, at.table, field, value),
        (Rule::OneOf, Wanted::OneOf(values)) => {
            keys_listed(alloc, at.table, field, values.as_slice())
        }
        (Rule::SameAs, Wanted::SameAs(other)) => keys_same(alloc, field, at, other),
        _ => Ok(None),
    }
}

fn key_equal(
    alloc: Global,
    table: TableId,
    field: &Text,
    value: &Value,
) -> Result<Option<Sequence<Item>>, OutOfMemory>
    ensures { IfOk result (λ items. items ≡ spec.key_equal table field.now (equal_to value.now)) }
{
    let Some(key) = key(alloc, value)? else {
        return Ok(None);
    };
    let field = field.copy(alloc)?;
    let items = alone(alloc, Item::IndexValue { table, field, key })?;
    Ok(Some(items))
}

fn keys_same(
    alloc: Global,
    field: &Text,
    at: Spot<'_>,
    other: &Meant<'_>,
) -> Result<Option<Sequence<Item>>, OutOfMemory>
    ensures { IfOk result (λ items.
        items ≡ keys_by taken.SameAs (spot_of at.entry) field.now (same_as (meant_of other.now))) }
{
    let Some(values) = values_meant(alloc, at.earlier, other)? else {
        return Ok(None);
    };
    plain_keys(alloc, at.table, field, values.as_slice())
}
