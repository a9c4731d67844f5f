//! The documents that the rows of a DELETE name, each once, in order of its first row.
ghost use Rattle.std.specs.Prelude.{◌≡◌, IfOk, OnOk};
ghost use Rattle.std.specs.Option.{option_map_or};
ghost use Rattle.pql_model.specs.Effects as spec;
ghost use Rattle.pql_change.specs.Touched.{ids_in};

use containers::{OutOfMemory, Sequence};
use indexmap::IndexSet;
use pql_model::{Bindings, DocIds, Scope};
use ql_types::DocId;
use std::alloc::Global;

/// Ids of documents, in order of first row.
type Named = IndexSet<u128>;

/// Adds the document of the row's first source, where it is one.
fn add_document(named: &mut Named, scope: &Scope) -> Result<(), OutOfMemory>
    ensures { OnOk result
        (ids_in named.new.keys
        ≡ option_map_or (λ d. spec.with_id (ids_in named.old.keys) d.id) (spec.deleted_in scope.now)
        (ids_in named.old.keys)) }
{
    match scope.get(0) {
        None => Ok(()),
        Some(source) => match source.id {
            None => Ok(()),
            Some(id) => {
                named.insert(id.raw)?;
                Ok(())
            }
        },
    }
}

fn into_ids(alloc: Global, named: Named) -> Result<DocIds, OutOfMemory>
    ensures { IfOk result (λ ids. ids ≡ ids_in named.keys) }
{
    let mut ids = Sequence::new(alloc);
    'ids: for raw in named {
        ids.push(DocId { raw })?;
    }
    Ok(ids)
}

/// The documents that the rows of a DELETE name, each once, in order of its first row. A row names the
/// document of its only source.
pub fn deleted_documents(alloc: Global, rows: &Bindings) -> Result<DocIds, OutOfMemory>
    ensures { IfOk result (λ ids. ids ≡ spec.deleted_documents rows.now) }
{
    let mut named = IndexSet::new(alloc);
    'rows: for scope in rows.as_slice() {
        add_document(&mut named, scope)?;
    }
    into_ids(alloc, named)
}
