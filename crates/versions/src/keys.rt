//! The keys of documents' fields.
ghost use Rattle.std.specs.Prelude.{◌≡◌, IfOk};
ghost use Rattle.std.specs.Option.{option_copied};
ghost use Rattle.versions.specs.Filing.{old_key};
ghost use Rattle.versions.specs.Indexes as held;

use crate::recorded::Recorded;
use crate::tables::Indexed;
use ion_values::{Key, OutOfMemory};
use ledger_model::Content;
use pql_model::key_in;
use std::alloc::Global;

/// The key that a document has in the index's field, where it is of the index's table and isn't deleted.
pub(crate) fn key_on(
    alloc: Global,
    index: &Indexed,
    recorded: &Recorded,
) -> Result<Option<Key>, OutOfMemory>
    ensures { IfOk result (λ found. found ≡ held.key_on index.now.table index.now.field recorded.now) }
{
    if recorded.table.raw != index.table.raw {
        return Ok(None);
    }
    match &recorded.revision.content {
        Content::Kept(value) => key_in(alloc, index.field.as_str(), value),
        Content::Deleted | Content::Redacted(_) => Ok(None),
    }
}

/// The same of what stood at a place, if anything did.
pub(crate) fn old_key(
    alloc: Global,
    index: &Indexed,
    old: Option<&Recorded>,
) -> Result<Option<Key>, OutOfMemory>
    ensures { IfOk result (λ found. found ≡ old_key (held.key_on index.now.table index.now.field)
        (option_copied old.entry)) }
{
    match old {
        None => Ok(None),
        Some(recorded) => key_on(alloc, index, recorded),
    }
}

/// Whether both have the same key or none.
pub(crate) fn is_same(old: &Option<Key>, new: &Option<Key>) -> bool
    ensures { result ≡ held.is_same_or_none old.now new.now }
{
    match (old, new) {
        (Some(old), Some(new)) => old == new,
        (None, None) => true,
        _ => false,
    }
}
