//! Items for values, each once.
ghost use Rattle.std.specs.Prelude.{◌≡◌, length, map, nat_le, nat_lt, IfOk};
ghost use Rattle.std.specs.List.{filter_map, list_any};
ghost use Rattle.ion_order.specs.Key.{key_of};
ghost use Rattle.ion_values.specs.Keys.{is_same_key};
ghost use Rattle.ledger_model.specs.Conditions.{one_of};
ghost use Rattle.ledger_model.specs.Footprints as spec;
ghost use Rattle.ledger_model.specs.declared.outcome.Item.TheVariants as item;
ghost use Rattle.pql_model.specs.Comparisons.{is_container};
ghost use Rattle.footprints.specs.Lent.{few_of, values_lent};

use crate::texts::document_in;
use containers::Sequence;
use ion_order::key;
use ion_values::{Body, Key, OutOfMemory, Text, Value};
use ledger_model::Item;
use pql_model::{DocIds, Keys};
use ql_types::{DocId, TableId};
use std::alloc::Global;

/// The most elements of a list, and the most items of a join, that are read by key.
const MOST: usize = 100;

/// Whether no more are read by key.
fn is_full(count: usize) -> bool
    ensures { result ≡ nat_le 100 count }
{
    count >= MOST
}

/// Whether they are more than are read by key.
fn are_many(values: &[&Value]) -> bool
    ensures { result ≡ nat_lt 100 (length values.now) }
{
    values.len() > MOST
}

fn is_container(value: &Value) -> bool
    ensures { result ≡ is_container value.now }
{
    matches!(value.body, Body::List(_) | Body::Sexp(_) | Body::Struct(_))
}

/// Whether none of the values is a container.
pub(crate) fn are_plain(values: &[&Value]) -> bool
    ensures { result ≡ spec.are_plain (values_lent values.now) }
{
    'values: for value in values {
        if is_container(value) {
            return false;
        }
    }
    true
}

fn is_among(ids: &[DocId], id: DocId) -> bool
    ensures { result ≡ list_any (spec.same_document id) ids.now }
{
    'ids: for other in ids {
        if id.raw == other.raw {
            return true;
        }
    }
    false
}

/// The documents whose ids the values read as, each once, or None if they are more than are read by their ids.
fn few_ids(alloc: Global, values: &[&Value]) -> Result<Option<DocIds>, OutOfMemory>
    ensures { IfOk result (λ ids. ids ≡ few_of
        (spec.each_once spec.same_document (filter_map spec.document_in (values_lent values.now)))) }
{
    let mut ids = Sequence::new(alloc);
    'values: for value in values {
        let Some(id) = document_in(value) else {
            continue;
        };
        if is_among(ids.as_slice(), id) {
            continue;
        }
        if is_full(ids.len()) {
            return Ok(None);
        }
        ids.push(id)?;
    }
    Ok(Some(ids))
}

/// The items of the documents whose ids the values read as, each once, or None if they are too many.
pub(crate) fn few_documents(
    alloc: Global,
    table: TableId,
    values: &[&Value],
) -> Result<Option<Sequence<Item>>, OutOfMemory>
    ensures { IfOk result (λ items.
        items ≡ spec.if_few (spec.documents_of table (values_lent values.now))) }
{
    let Some(ids) = few_ids(alloc, values)? else {
        return Ok(None);
    };
    let items = document_items(alloc, table, ids)?;
    Ok(Some(items))
}

fn document_items(alloc: Global, table: TableId, ids: DocIds) -> Result<Sequence<Item>, OutOfMemory>
    ensures { IfOk result (λ items. items ≡ map (item.Doc table) ids) }
{
    let mut items = Sequence::new(alloc);
    'ids: for id in ids.into_vec() {
        items.push(Item::Doc { table, id })?;
    }
    Ok(items)
}

/// The items of the documents that the elements of a list name, each once.
///
/// An element names a document if it reads as an id. None says that the list is long.
pub(crate) fn documents_listed(
    alloc: Global,
    table: TableId,
    values: &[&Value],
) -> Result<Option<Sequence<Item>>, OutOfMemory>
    ensures { IfOk result (λ items.
        items ≡ spec.document_one_of table (one_of (values_lent values.now))) }
{
    if are_many(values) {
        return Ok(None);
    }
    let items = few_documents(alloc, table, values)?;
    Ok(items)
}

fn is_found(keys: &[Key], key: &Key) -> bool
    ensures { result ≡ list_any (is_same_key key.now) keys.now }
{
    'keys: for other in keys {
        if *key == *other {
            return true;
        }
    }
    false
}

/// The keys of the values, each once, or None if they are more than are read by key.
fn few_keys(alloc: Global, values: &[&Value]) -> Result<Option<Keys>, OutOfMemory>
    ensures { IfOk result (λ keys. keys ≡ few_of
        (spec.each_once is_same_key (filter_map key_of (values_lent values.now)))) }
{
    let mut keys = Sequence::new(alloc);
    'values: for value in values {
        let Some(key) = key(alloc, value)? else {
            continue;
        };
        if is_found(keys.as_slice(), &key) {
            continue;
        }
        if is_full(keys.len()) {
            return Ok(None);
        }
        keys.push(key)?;
    }
    Ok(Some(keys))
}

/// The items of the keys of the values, each once, or None if they are too many.
fn few_of_keys(
    alloc: Global,
    table: TableId,
    field: &Text,
    values: &[&Value],
) -> Result<Option<Sequence<Item>>, OutOfMemory>
    ensures { IfOk result (λ items.
        items ≡ spec.if_few (spec.keys_of table field.now (values_lent values.now))) }
{
    let Some(keys) = few_keys(alloc, values)? else {
        return Ok(None);
    };
    let items = key_items(alloc, table, field, keys)?;
    Ok(Some(items))
}

fn key_items(
    alloc: Global,
    table: TableId,
    field: &Text,
    keys: Keys,
) -> Result<Sequence<Item>, OutOfMemory>
    ensures { IfOk result (λ items. items ≡ map (item.IndexValue table field.now) keys) }
{
    let mut items = Sequence::new(alloc);
    'keys: for key in keys.into_vec() {
        let field = field.copy(alloc)?;
        items.push(Item::IndexValue { table, field, key })?;
    }
    Ok(items)
}

/// The items of the keys of the values, each once.
///
/// None says that a value is a container or that they are too many.
pub(crate) fn plain_keys(
    alloc: Global,
    table: TableId,
    field: &Text,
    values: &[&Value],
) -> Result<Option<Sequence<Item>>, OutOfMemory>
    ensures { IfOk result (λ items.
        items ≡ spec.plain_keys table field.now (values_lent values.now)) }
{
    if !are_plain(values) {
        return Ok(None);
    }
    let items = few_of_keys(alloc, table, field, values)?;
    Ok(items)
}

/// The items of the keys of a list's elements, each once.
///
/// None says that an element is a container or that the list is long.
pub(crate) fn keys_listed(
    alloc: Global,
    table: TableId,
    field: &Text,
    values: &[&Value],
) -> Result<Option<Sequence<Item>>, OutOfMemory>
    ensures { IfOk result (λ items.
        items ≡ spec.key_one_of table field.now (one_of (values_lent values.now))) }
{
    if are_many(values) {
        return Ok(None);
    }
    let items = plain_keys(alloc, table, field, values)?;
    Ok(items)
}
