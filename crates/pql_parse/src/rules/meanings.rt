//! What names mean in the path of a change.
ghost use Rattle.std.specs.Prelude.{◌≡◌, IfOk};
ghost use Rattle.pql_model.specs.Rules as spec;
ghost use Rattle.pql_parse.specs.Ruled.{HasMeanings, Variable, is_meant, told};

use containers::OutOfMemory;
use pql_model::{Source, SourceKind};
use std::alloc::Global;
use std::collections::BTreeMap;

/// What a name is of a source.
#[derive(Clone, Copy, Debug, PartialEq, Eq)]
pub enum Meaning {
    /// The variable of a table that can be changed.
    Table,
    /// The variable of another source.
    Other,
    /// A BY name.
    Id,
}

/// What each name means.
pub type Meanings<'a> = BTreeMap<&'a str, Meaning>;

/// What the names of the sources mean. Of several that are spelt alike the last is meant, a BY name
/// counting after the variable of its source.
pub fn meanings_of(alloc: Global, sources: &[Source]) -> Result<Meanings<'_>, OutOfMemory>
    ensures { IfOk result (λ meanings. HasMeanings meanings sources.now) }
{
    let mut meanings = BTreeMap::new(alloc);
    'sources: for source in sources {
        meanings.insert(source.variable.as_str(), meaning_of(&source.from))?;
        if let Some(name) = &source.id_name {
            meanings.insert(name.as_str(), Meaning::Id)?;
        }
    }
    Ok(meanings)
}

fn meaning_of(from: &SourceKind) -> Meaning
    ensures { result ≡ told (Variable from.now) }
{
    if is_table(from) {
        Meaning::Table
    } else {
        Meaning::Other
    }
}

/// Whether a source is a table that can be changed: no history, and no committed view.
fn is_table(from: &SourceKind) -> bool
    ensures { result ≡ spec.is_table from.now }
{
    match from {
        SourceKind::Table { name } => !name.as_str().starts_with("_ql_committed_"),
        _ => false,
    }
}

/// Whether a path begins at the variable of a table and has a step. Where there is one source its
/// variable may be left out.
pub fn is_target(has_steps: bool, sources: &[Source], meant: Option<Meaning>) -> bool
    ensures { result ≡ is_meant has_steps sources.now meant }
{
    match meant {
        Some(Meaning::Table) => has_steps,
        Some(_) => false,
        None => is_target_of_one(sources),
    }
}

fn is_target_of_one(sources: &[Source]) -> bool
    ensures { result ≡ spec.is_target_of_one sources.now }
{
    match sources {
        [source] => is_table(&source.from),
        _ => false,
    }
}
