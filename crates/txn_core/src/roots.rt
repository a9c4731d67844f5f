//! The tables that a statement writes, as its text names them.
ghost use Rattle.std.specs.Prelude.{◌≡◌, true, IfOk};
ghost use Rattle.ledger_model.specs.Writing.{first_own, is_root, own_table};
ghost use Rattle.txn_core.specs.Writes.{writes};

use crate::limits::reserved;
use ion_values::OutOfMemory;
use ledger_model::Refusal;
use pql_model::{Change, Roots, Source, SourceKind, has_root, roots_of};
use std::alloc::Global;

/// Which sources a statement writes: all, or those at which a path of its change begins.
#[derive(Drop)]
pub(crate) enum Written {
    All,
    Roots(Roots),
}

/// `ReservedName` of the first table in the text that the statement writes and that is the ledger's own.
pub(crate) fn first_own(
    alloc: Global,
    sources: &[Source],
    written: &Written,
) -> Result<Option<Refusal>, OutOfMemory>
    ensures { IfOk result (λ cause. cause ≡ first_own (writes written.now) 0 sources.now) }
{
    'sources: for (place, source) in sources.iter().enumerate() {
        if let Some(cause) = own_table(alloc, &source.from)? {
            if is_written(written, place) {
                return Ok(Some(cause));
            }
        }
    }
    Ok(None)
}

/// `ReservedName` where the name of the table is the ledger's own.
fn own_table(alloc: Global, from: &SourceKind) -> Result<Option<Refusal>, OutOfMemory>
    ensures { IfOk result (λ cause. cause ≡ own_table from.now) }
{
    match from {
        SourceKind::Table { name } => reserved(alloc, name),
        SourceKind::History { .. } | SourceKind::Path(_) => Ok(None),
    }
}

/// Whether the statement writes the source at this place.
fn is_written(written: &Written, place: usize) -> bool
    ensures { result ≡ writes written.now place }
{
    match written {
        Written::All => true,
        Written::Roots(roots) => has_root(roots.as_slice(), place),
    }
}

/// Which sources the change writes.
pub(crate) fn written_by(
    alloc: Global,
    sources: &[Source],
    change: &Change,
) -> Result<Written, OutOfMemory>
    ensures { IfOk result (λ written. writes written ≡ is_root sources.now change.now) }
{
    let roots = roots_of(alloc, sources, change)?;
    Ok(Written::Roots(roots))
}
