//! What the parts of a statement see, and where they stand.
ghost use Rattle.std.specs.Prelude.{◌≡◌, take};
ghost use Rattle.pql_model.specs.declared.mark.Place.TheVariants as place;
ghost use Rattle.pql_model.specs.Rules as spec;

use pql_model::{Place, Source, SourceKind};

/// How many of the sources an expression sees: a source sees the earlier ones, and every other
/// expression sees all.
pub fn seen_by(place: Place, sources: &[Source]) -> usize
    ensures { take result sources.now ≡ spec.seen_from place sources.now }
{
    match place {
        Place::Source(number) => number,
        Place::Item => sources.len(),
        Place::Elsewhere => sources.len(),
    }
}

/// Whether a place is that of a path source.
pub fn is_path_at(place: Place, sources: &[Source]) -> bool
    ensures { result ≡ spec.is_path_at place sources.now }
{
    match place {
        Place::Source(number) => is_path_in(number, sources),
        Place::Item => false,
        Place::Elsewhere => false,
    }
}

fn is_path_in(number: usize, sources: &[Source]) -> bool
    ensures { result ≡ spec.is_path_at (place.Source number) sources.now }
{
    match sources.get(number) {
        Some(source) => is_path(&source.from),
        None => false,
    }
}

fn is_path(from: &SourceKind) -> bool
    ensures { result ≡ spec.is_path from.now }
{
    matches!(from, SourceKind::Path(_))
}
