//! The arguments of EXEC REDACT_REVISION.
ghost use Rattle.std.specs.Prelude.{◌≡◌, option_map, IfOk};
ghost use Rattle.std.specs.Option.{option_copied};
ghost use Rattle.ledger_model.specs.RedactionArguments as spec;
ghost use Rattle.pql_model.specs.Texts.{text_of};
ghost use Rattle.txn_core.specs.Redactions.{name_of};

use containers::Sequence;
use ion_values::{Body, Field, OutOfMemory, Text, Value};
use ledger_model::{Item, Schema, fields_in};
use pql_expr::eval;
use pql_model::{Evaluated, Expr};
use ql_types::{BlockAddress, DocId, StrandId, TableId, id_read};
use std::alloc::Global;

/// The arguments: the address of a block, a table and a document.
#[derive(Clone, Copy)]
pub(crate) struct Arguments<'a> {
    pub address: &'a Expr,
    pub table: &'a Expr,
    pub document: &'a Expr,
}

/// A revision by its block, its table and its document.
#[derive(Drop)]
pub(crate) struct RevisionName {
    pub address: BlockAddress,
    pub table: TableId,
    pub document: DocId,
}

impl RevisionName {
    /// What redacts it.
    pub(crate) fn redaction(&self) -> Schema
        ensures { result ≡ spec.redaction_of (name_of self.now) }
    {
        Schema::Redact {
            address: self.address,
            table: self.table,
            document: self.document,
        }
    }
}

/// The text that a symbol or a string is.
fn text_of(v: &Value) -> Option<&Text>
    ensures { option_copied result ≡ text_of v.now }
{
    match &v.body {
        Body::Symbol(text) | Body::String(text) => Some(text),
        _ => None,
    }
}

/// The number of the id that a text spells.
fn id_of_text(v: &Value) -> Option<u128>
    ensures { result ≡ spec.id_of_text v.now }
{
    let text = text_of(v)?;
    id_read(text.as_str().as_bytes()).ok()
}

/// A number of 64 bits.
fn number_of(v: &Value) -> Option<u64>
    ensures { result ≡ spec.number_of v.now }
{
    match &v.body {
        Body::Int(number) => u64::try_from(*number).ok(),
        _ => None,
    }
}

/// The address of the strand and the number in these fields.
fn address_by(strand: &Field, sequence: &Field) -> Option<BlockAddress>
    ensures { result ≡ spec.address_by strand.now sequence.now }
{
    if strand.name.as_str() != "strandId" || sequence.name.as_str() != "sequenceNo" {
        return None;
    }
    let raw = id_of_text(&strand.value)?;
    let sequence = number_of(&sequence.value)?;
    Some(BlockAddress {
        strand: StrandId { raw },
        sequence,
    })
}

/// The address that a struct of its two fields tells, in either order.
fn address_in(v: &Value) -> Option<BlockAddress>
    ensures { result ≡ spec.address_in v.now }
{
    let [first, second] = fields_in(v)?.as_slice() else {
        return None;
    };
    match address_by(first, second) {
        Some(address) => Some(address),
        None => address_by(second, first),
    }
}

/// The id that an argument spells, if it is one.
fn id_told(alloc: Global, e: &Expr, params: &[Value]) -> Result<Option<u128>, OutOfMemory>
    ensures { IfOk result (λ id. id ≡ spec.told_by spec.id_of_text (spec.argument params.now e.now)) }
{
    match eval(alloc, e, &Sequence::new(alloc), params)? {
        Evaluated::Missing => Ok(None),
        Evaluated::Found(value) => Ok(id_of_text(&value)),
    }
}

/// The address that an argument is, if it is one.
fn address_told(
    alloc: Global,
    e: &Expr,
    params: &[Value],
) -> Result<Option<BlockAddress>, OutOfMemory>
    ensures { IfOk result (λ a. a ≡ spec.told_by spec.address_in (spec.argument params.now e.now)) }
{
    match eval(alloc, e, &Sequence::new(alloc), params)? {
        Evaluated::Missing => Ok(None),
        Evaluated::Found(value) => Ok(address_in(&value)),
    }
}

/// The revision of a document of a table in a block, where all three are there.
fn name_from(
    address: Option<BlockAddress>,
    table: Option<u128>,
    document: Option<u128>,
) -> Option<RevisionName>
    ensures { option_map name_of result ≡ spec.name_from address table document }
{
    let address = address?;
    let table = table?;
    let document = document?;
    Some(RevisionName {
        address,
        table: TableId { raw: table },
        document: DocId { raw: document },
    })
}

/// The revision that the arguments name, where each is what it should be.
pub(crate) fn named_revision(
    alloc: Global,
    of: Arguments<'_>,
    params: &[Value],
) -> Result<Option<RevisionName>, OutOfMemory>
    ensures { IfOk result (λ name. option_map name_of name
        ≡ spec.named_revision params.now of.entry.address.now of.entry.table.now of.entry.document.now) }
{
    let address = address_told(alloc, of.address, params)?;
    let table = id_told(alloc, of.table, params)?;
    let document = id_told(alloc, of.document, params)?;
    Ok(name_from(address, table, document))
}

/// The items that the redaction of this revision reads.
pub(crate) fn items_named(
    alloc: Global,
    name: Option<RevisionName>,
) -> Result<Sequence<Item>, OutOfMemory>
    ensures { IfOk result (λ items. items ≡ spec.items_named (option_map name_of name)) }
{
    let mut items = Sequence::new(alloc);
    if let Some(name) = name {
        items.push(Item::Doc {
            table: name.table,
            id: name.document,
        })?;
    }
    Ok(items)
}
