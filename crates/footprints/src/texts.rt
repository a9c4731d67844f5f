//! Texts among values, and names of views.
ghost use Rattle.std.specs.Prelude.{◌≡◌, map};
ghost use Rattle.std.specs.Option.{option_copied};
ghost use Rattle.ledger_model.specs.Footprints as spec;
ghost use Rattle.ledger_model.specs.Meets as met;
ghost use Rattle.ledger_model.specs.Statements.{table_in};
ghost use Rattle.pql_model.specs.Tables as tables;
ghost use Rattle.pql_model.specs.Texts.{text_of};

use ion_values::{Body, Text, Value};
use pql_model::SourceKind;
use ql_types::{DocId, id_read};

/// What the name of a committed view begins with.
const COMMITTED: &str = "_ql_committed_";

/// Whether it is the name of a committed view.
pub(crate) fn is_committed(name: &str) -> bool
    ensures { result ≡ tables.is_committed name.now }
{
    name.as_bytes().starts_with(COMMITTED.as_bytes())
}

/// The name without the prefix of committed views.
fn table_named(name: &str) -> &str
    ensures { result.now ≡ tables.table_named name.now }
{
    match name.strip_prefix(COMMITTED) {
        Some(table) => table,
        None => name,
    }
}

/// The table that a source names, its views' prefix left out.
pub fn table_in(from: &SourceKind) -> Option<&str>
    ensures { option_copied result ≡ table_in from.now }
{
    match from {
        SourceKind::Table { name } => Some(table_named(name.as_str())),
        SourceKind::History { table, .. } => Some(table.as_str()),
        SourceKind::Path(_) => None,
    }
}

/// Whether the rows of the source are committed revisions, which show their metadata.
pub(crate) fn shows_metadata(kind: &SourceKind) -> bool
    ensures { result ≡ met.shows_metadata kind.now }
{
    match kind {
        SourceKind::Table { name } => is_committed(name.as_str()),
        SourceKind::History { .. } => true,
        SourceKind::Path(_) => false,
    }
}

/// The text that a symbol or a string is.
fn text_of(value: &Value) -> Option<&Text>
    ensures { option_copied result ≡ text_of value.now }
{
    match &value.body {
        Body::Symbol(text) | Body::String(text) => Some(text),
        _ => None,
    }
}

/// The document whose id the value's text reads as.
pub(crate) fn document_in(value: &Value) -> Option<DocId>
    ensures { result ≡ spec.document_in value.now }
{
    let text = text_of(value)?;
    match id_read(text.as_str().as_bytes()) {
        Ok(raw) => Some(DocId { raw }),
        Err(_) => None,
    }
}
