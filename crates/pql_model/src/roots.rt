//! At which sources the paths of a change begin.
ghost use Rattle.std.specs.Prelude.{◌≡◌, map, None, IfOk};
ghost use Rattle.std.specs.List.{list_any};
ghost use Rattle.pql_model.specs.Roots.{is_at, place_by, root_place, targets};

use crate::expr::Path;
use crate::names::{Resolved, resolve_source};
use crate::statement::{Change, Setting, Source};
use containers::{OutOfMemory, Sequence};
use std::alloc::Global;

/// The places of sources at which the paths of a change begin, None if at no source.
pub type Roots = Sequence<Option<usize>>;

/// Where the paths of the change begin, each by the place of its source.
pub fn roots_of(alloc: Global, sources: &[Source], change: &Change) -> Result<Roots, OutOfMemory>
    ensures { IfOk result (λ roots. roots ≡ map (root_place sources.now) (targets change.now)) }
{
    match change {
        Change::Set(settings) => roots_of_all(alloc, sources, settings.as_slice()),
        Change::Insert { target, .. } | Change::Remove { target } => {
            let mut roots = Sequence::new(alloc);
            roots.push(root_place(sources, target))?;
            Ok(roots)
        }
    }
}

fn roots_of_all(
    alloc: Global,
    sources: &[Source],
    settings: &[Setting],
) -> Result<Roots, OutOfMemory>
    ensures { IfOk result (λ roots. roots ≡ map (root_place sources.now) (map (λ s. s.target) settings.now)) }
{
    let mut roots = Sequence::new(alloc);
    'settings: for setting in settings {
        roots.push(root_place(sources, &setting.target))?;
    }
    Ok(roots)
}

/// Whether a path begins at the source of this place.
pub fn has_root(roots: &[Option<usize>], place: usize) -> bool
    ensures { result ≡ list_any (is_at place) roots.now }
{
    'roots: for root in roots {
        if is_at(*root, place) {
            return true;
        }
    }
    false
}

fn is_at(root: Option<usize>, place: usize) -> bool
    ensures { result ≡ is_at place root }
{
    match root {
        Some(root) => root == place,
        None => false,
    }
}

/// The place of the source at which the path begins: the source that its first name means, or the only
/// one, of which it is a field.
fn root_place(sources: &[Source], target: &Path) -> Option<usize>
    ensures { result ≡ root_place sources.now target.now }
{
    place_by(sources, resolve_source(target.first.as_str(), sources))
}

fn place_by(sources: &[Source], meant: Option<Resolved>) -> Option<usize>
    ensures { result ≡ place_by sources.now meant }
{
    match meant {
        Some(Resolved::Variable(place)) => Some(place),
        Some(Resolved::Id(_)) => None,
        None => only_place(sources),
    }
}

fn only_place(sources: &[Source]) -> Option<usize>
    ensures { result ≡ place_by sources.now None }
{
    match sources {
        [_] => Some(0),
        _ => None,
    }
}
