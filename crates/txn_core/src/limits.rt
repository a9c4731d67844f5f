//! What stands against a statement: names that are the ledger's own, and the limits of tables, values and documents.
ghost use Rattle.std.specs.Prelude.{◌≡◌, ◌++◌, map, IfOk};
ghost use Rattle.ledger_model.specs.Statements.{is_reserved};
ghost use Rattle.ledger_model.specs.Progress.{not_kept};
ghost use Rattle.ledger_model.specs.Run.{created_count, first_deep, no_table_more, reserved};
ghost use Rattle.versions.specs.Held.{table_of};
ghost use Rattle.txn_core.specs.Statements.{cause_for, creates};

use crate::log::Log;
use crate::values::{is_struct, kind_of};
use crate::views::count_touched;
use ion_text::write;
use ion_values::{OutOfMemory, Text, Value, depth};
use ledger_model::{Draft, Refusal, Schema};
use std::alloc::Global;
use versions::{Table, active_count};

/// The deepest nesting of a value.
const DEEPEST: u32 = 64;

/// The longest text of a document, in bytes.
const LONGEST: usize = 131_072;

/// The most documents that a transaction touches.
pub(crate) const MOST_TOUCHED: usize = 40;

/// The most tables that are active, and that a transaction creates.
const MOST_TABLES: u64 = 20;

/// Why nothing is written to a table of this name, where it is the ledger's own.
pub(crate) fn reserved(alloc: Global, name: &Text) -> Result<Option<Refusal>, OutOfMemory>
    ensures { IfOk result (λ cause. cause ≡ reserved name.now) }
{
    if is_reserved(name.as_str()) {
        return Ok(Some(Refusal::ReservedName {
            name: name.copy(alloc)?,
        }));
    }
    Ok(None)
}

fn is_reserved(name: &str) -> bool
    ensures { result ≡ is_reserved name.now }
{
    name.as_bytes().starts_with(b"_ql_".as_slice())
}

/// Why no further table is created: too many are active, or these changes create too many.
pub(crate) fn no_table_more(tables: &[Table], changes: &[Schema]) -> Option<Refusal>
    ensures { result ≡ no_table_more (map table_of tables.now) changes.now }
{
    let active = active_count(tables);
    if active >= MOST_TABLES {
        return Some(Refusal::TooManyTables { count: active });
    }
    if created_count(changes) >= MOST_TABLES {
        return Some(Refusal::TooManyTables { count: 20 });
    }
    None
}

fn created_count(changes: &[Schema]) -> u64
    ensures { result ≡ created_count changes.now }
{
    let mut count: u64 = 0;
    'changes: for change in changes {
        if creates(change) {
            count += 1;
        }
    }
    count
}

/// Whether the change creates a table.
fn creates(change: &Schema) -> bool
    ensures { result ≡ creates change.now }
{
    matches!(change, Schema::Create { .. })
}

/// The depth of the first value that nests deeper than values may, 2^32 - 1 where it is more.
pub(crate) fn first_deep(values: &[Value]) -> Option<u32>
    ensures { result ≡ first_deep values.now }
{
    'values: for value in values {
        let depth = depth(value);
        if depth > DEEPEST {
            return Some(depth);
        }
    }
    None
}

/// Why the value isn't stored as one document more behind the revisions so far, those of the second list counted.
pub(crate) fn not_stored(
    alloc: Global,
    log: &Log,
    more: &[Draft],
    value: &Value,
) -> Result<Option<Refusal>, OutOfMemory>
    ensures { IfOk result (λ cause. cause ≡ cause_for (log.now ++ more.now) value.now) }
{
    let has_room = count_touched(alloc, log, more)? < MOST_TOUCHED;
    not_kept(alloc, has_room, value)
}

/// Why the value isn't stored as a document's content, where it isn't: it is no struct, it nests too deep, its text is
/// too long, or there is no room for one document more.
pub(crate) fn not_kept(
    alloc: Global,
    has_room: bool,
    value: &Value,
) -> Result<Option<Refusal>, OutOfMemory>
    ensures { IfOk result (λ cause. cause ≡ not_kept has_room value.now) }
{
    if !is_struct(&value.body) {
        return Ok(Some(Refusal::NotADocument {
            kind: kind_of(&value.body),
        }));
    }
    let depth = depth(value);
    if depth > DEEPEST {
        return Ok(Some(Refusal::TooDeep { depth }));
    }
    let bytes = write(alloc, value)?.len();
    if bytes > LONGEST {
        return Ok(Some(Refusal::DocumentTooLarge {
            bytes: bytes as u64,
        }));
    }
    if !has_room {
        return Ok(Some(Refusal::TooManyRevisions { count: 41 }));
    }
    Ok(None)
}
