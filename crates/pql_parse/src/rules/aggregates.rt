//! Aggregates, which stand only as whole items; where one item is an aggregate, all are.
ghost use Rattle.std.specs.Prelude.{◌≡◌, false, option_map};
ghost use Rattle.pql_model.specs.declared.mark.Role.TheVariants as role;
ghost use Rattle.pql_model.specs.Rules as spec;
ghost use Rattle.pql_parse.specs.Ruled.{fault_of};

use crate::rules::{Fault, unless};
use pql_model::{Mark, ParseKind, Place, Role};

/// The first fault in aggregates.
pub fn first_mixed(marks: &[Mark]) -> Option<Fault>
    ensures { option_map fault_of result ≡ spec.first_fault (λ m. spec.mixed (spec.has_whole marks.now) m.place m.role)
        marks.now }
{
    let grouped = has_whole(marks);
    'marks: for mark in marks {
        if let Some(kind) = mixed(grouped, mark.place, &mark.role) {
            return Some(Fault { at: mark.at, kind });
        }
    }
    None
}

/// Whether an item is an aggregate as a whole.
fn has_whole(marks: &[Mark]) -> bool
    ensures { result ≡ spec.has_whole marks.now }
{
    marks.iter().any(|mark| is_whole(&mark.role))
}

fn is_whole(role: &Role) -> bool
    ensures { result ≡ spec.is_whole role.now }
{
    match role {
        Role::Item {
            is_whole,
            aggregates: _,
        } => *is_whole,
        _ => false,
    }
}

/// Aggregates in items are judged with their items.
fn mixed(grouped: bool, place: Place, role: &Role) -> Option<ParseKind>
    ensures { result ≡ spec.mixed grouped place role.now }
{
    match role {
        Role::Item {
            is_whole,
            aggregates,
        } => unless(
            is_fitting(grouped, *is_whole, *aggregates),
            ParseKind::MixedAggregate,
        ),
        Role::Aggregate => outside_items(place),
        _ => None,
    }
}

fn outside_items(place: Place) -> Option<ParseKind>
    ensures { result ≡ spec.mixed false place role.Aggregate }
{
    match place {
        Place::Item => None,
        _ => Some(ParseKind::MixedAggregate),
    }
}

fn is_fitting(grouped: bool, is_whole: bool, aggregates: usize) -> bool
    ensures { result ≡ spec.is_fitting grouped is_whole aggregates }
{
    if is_whole {
        aggregates == 1
    } else {
        !grouped && aggregates == 0
    }
}
