//! What names of sources mean, and the last name of a path.
ghost use Rattle.std.specs.Prelude.{◌≡◌, map, None};
ghost use Rattle.pql_model.specs.Grammar as spec;
ghost use Rattle.pql_model.specs.Names as names;

use crate::expr::PathStep;
use crate::scope::Bound;
use crate::statement::Source;
use containers::Text;

/// What a name means of the sources of a statement: the source at a place, counted from 0, or the id of its document.
#[derive(Clone, Copy, Debug, PartialEq, Eq)]
pub enum Resolved {
    Variable(usize),
    Id(usize),
}

fn is_id(name: &str, id_name: &Option<Text>) -> bool
    ensures { result ≡ names.is_id name.now id_name.now }
{
    match id_name {
        Some(id) => id.as_str() == name,
        None => false,
    }
}

/// What a name means of the source at a place, by its variable and, if it has one, its BY name.
fn resolved_by(
    place: usize,
    name: &str,
    variable: &Text,
    id_name: &Option<Text>,
) -> Option<Resolved>
    ensures { result ≡ names.resolved_by place name.now (record { variable = variable.now; id_name = id_name.now }) }
{
    if is_id(name, id_name) {
        return Some(Resolved::Id(place));
    }
    if variable.as_str() == name {
        return Some(Resolved::Variable(place));
    }
    None
}

fn later(found: Option<Resolved>, before: Option<Resolved>) -> Option<Resolved>
    ensures { result ≡ names.or_else found before }
{
    match found {
        Some(_) => found,
        None => before,
    }
}

/// What the name means of the sources in a row. Of those that are spelt alike it means the last, a BY name counting
/// after the variable of its source.
pub fn resolve(name: &str, scope: &[Bound]) -> Option<Resolved>
    ensures { result ≡ names.resolve name.now (map names.called_in_row scope.now) }
{
    let mut last = None;
    'sources: for (place, bound) in scope.iter().enumerate() {
        let found = resolved_by(place, name, &bound.variable, &bound.id_name);
        last = later(found, last);
    }
    last
}

/// What the name means of the sources of a FROM. Of those that are spelt alike it means the last, a BY name counting
/// after the variable of its source.
pub fn resolve_source(name: &str, sources: &[Source]) -> Option<Resolved>
    ensures { result ≡ names.resolve name.now (map names.called sources.now) }
{
    let mut last = None;
    'sources: for (place, source) in sources.iter().enumerate() {
        let found = resolved_by(place, name, &source.variable, &source.id_name);
        last = later(found, last);
    }
    last
}

/// The place of the source at which a path begins whose first name this is: the source that the name
/// means, or the only one, of which it is a field. The id of a document begins no path.
pub fn root_at(name: &str, scope: &[Bound]) -> Option<usize>
    ensures { result ≡ names.root_at name.now (map names.called_in_row scope.now) }
{
    match resolve(name, scope) {
        Some(Resolved::Variable(place)) => Some(place),
        Some(Resolved::Id(_)) => None,
        None => only_place(scope),
    }
}

fn only_place(scope: &[Bound]) -> Option<usize>
    ensures { result ≡ names.root_by (map names.called_in_row scope.now) None }
{
    match scope {
        [_] => Some(0),
        _ => None,
    }
}

/// The last name of a path behind its first name: that of its last step with a name, or the first one.
pub fn last_name<'a>(first: &'a str, steps: &'a [PathStep]) -> &'a str
    ensures { result.now ≡ spec.last_name first.now steps.now }
{
    let mut last = first;
    'steps: for step in steps {
        if let PathStep::Field(name) = step {
            last = name.as_str();
        }
    }
    last
}
