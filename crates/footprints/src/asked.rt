//! What the parts of a condition ask of the rows of sources.
ghost use Rattle.std.specs.Prelude.{◌≡◌, [], ◌∷◌, ◌++◌, None, option_map, IfOk, OnOk};
ghost use Rattle.ledger_model.specs.Conditions as spec;
ghost use Rattle.footprints.specs.Lent.{all_asked_of, asked_of, meant_of, side_of, texts, values_lent};

use crate::sides::Side;
use containers::Sequence;
use ion_values::{Body, OutOfMemory, Text, Value};
use pql_model::{Resolved, Source, resolve_source};
use std::alloc::Global;

/// What a path of names means: the id of the document of the source at a place, or what stands at these names in its
/// rows.
#[derive(Drop)]
pub(crate) enum Meant<'a> {
    Id(usize),
    AtNames {
        place: usize,
        fields: Sequence<&'a Text>,
    },
    Unknown,
}

/// Which values are asked for: one that equals a value, one of several, or one that equals what another path means.
#[derive(Drop)]
pub(crate) enum Wanted<'a> {
    EqualTo(&'a Value),
    OneOf(Sequence<&'a Value>),
    SameAs(Meant<'a>),
}

/// What a row must have.
#[derive(Drop)]
pub struct Asked<'a> {
    pub(crate) of: Meant<'a>,
    pub(crate) wanted: Wanted<'a>,
}

/// Appends what two sides ask for that are equated: a path and a constant, or two paths, in either order.
pub(crate) fn put_equal<'a>(
    alloc: Global,
    sources: &[Source],
    all: &mut Vec<Asked<'a>>,
    left: Side<'a>,
    right: Side<'a>,
) -> Result<(), OutOfMemory>
    ensures { OnOk result (all_asked_of all.new.items ≡ all_asked_of all.old.items
        ++ spec.asked_equal sources.now (side_of left.entry) (side_of right.entry)) }
{
    match (left, right) {
        (Side::Names { first, fields }, Side::Constant(value)) => {
            let of = meaning(alloc, sources, first, fields)?;
            all.push(equal_to(of, value))?;
        }
        (Side::Constant(value), Side::Names { first, fields }) => {
            let of = meaning(alloc, sources, first, fields)?;
            all.push(equal_to(of, value))?;
        }
        (
            Side::Names { first, fields },
            Side::Names {
                first: again,
                fields: more,
            },
        ) => {
            let of = meaning(alloc, sources, first, fields)?;
            let other = meaning(alloc, sources, again, more)?;
            put_both(alloc, all, of, other)?;
        }
        _ => {}
    }
    Ok(())
}

fn equal_to<'a>(of: Meant<'a>, value: &'a Value) -> Asked<'a>
    ensures { asked_of result ≡ record { of = meant_of of.entry; wanted = spec.equal_to value.now } }
{
    Asked {
        of,
        wanted: Wanted::EqualTo(value),
    }
}

/// Appends of two paths that each is the same as the other.
fn put_both<'a>(
    alloc: Global,
    all: &mut Vec<Asked<'a>>,
    of: Meant<'a>,
    other: Meant<'a>,
) -> Result<(), OutOfMemory>
    ensures { OnOk result (all_asked_of all.new.items ≡ all_asked_of all.old.items
        ++ record { of = meant_of of.entry; wanted = spec.same_as (meant_of other.entry) }
        ∷ record { of = meant_of other.entry; wanted = spec.same_as (meant_of of.entry) } ∷ []) }
{
    let turned = Asked {
        of: copied(alloc, &other)?,
        wanted: Wanted::SameAs(copied(alloc, &of)?),
    };
    all.push(Asked {
        of,
        wanted: Wanted::SameAs(other),
    })?;
    all.push(turned)?;
    Ok(())
}

/// The same once more.
fn copied<'a>(alloc: Global, meant: &Meant<'a>) -> Result<Meant<'a>, OutOfMemory>
    ensures { IfOk result (λ m. meant_of m ≡ meant_of meant.now) }
{
    match meant {
        Meant::Id(place) => Ok(Meant::Id(*place)),
        Meant::AtNames { place, fields } => {
            let fields = copied_names(alloc, fields.as_slice())?;
            Ok(Meant::AtNames {
                place: *place,
                fields,
            })
        }
        Meant::Unknown => Ok(Meant::Unknown),
    }
}

/// The names once more.
pub(crate) fn copied_names<'a>(
    alloc: Global,
    names: &[&'a Text],
) -> Result<Sequence<&'a Text>, OutOfMemory>
    ensures { IfOk result (λ all. texts all ≡ texts names.now) }
{
    let mut all = Sequence::new(alloc);
    'names: for name in names {
        all.push(*name)?;
    }
    Ok(all)
}

/// Appends what it asks for that a side is IN another: a path, in a list of constants or in a constant that is a list.
pub(crate) fn put_among<'a>(
    alloc: Global,
    sources: &[Source],
    all: &mut Vec<Asked<'a>>,
    value: Side<'a>,
    list: Side<'a>,
) -> Result<(), OutOfMemory>
    ensures { OnOk result (all_asked_of all.new.items ≡ all_asked_of all.old.items
        ++ spec.asked_among sources.now (side_of value.entry) (side_of list.entry)) }
{
    let Side::Names { first, fields } = value else {
        return Ok(());
    };
    let Some(values) = elements_in(alloc, list)? else {
        return Ok(());
    };
    let of = meaning(alloc, sources, first, fields)?;
    all.push(Asked {
        of,
        wanted: Wanted::OneOf(values),
    })?;
    Ok(())
}

/// The elements of a list of constants, or of a constant that is a list.
fn elements_in<'a>(
    alloc: Global,
    side: Side<'a>,
) -> Result<Option<Sequence<&'a Value>>, OutOfMemory>
    ensures { IfOk result (λ o. option_map values_lent o ≡ spec.elements_in (side_of side.entry)) }
{
    match side {
        Side::Constants(values) => Ok(Some(values)),
        Side::Constant(value) => match &value.body {
            Body::List(values) => {
                let values = all_lent(alloc, values.as_slice())?;
                Ok(Some(values))
            }
            _ => Ok(None),
        },
        _ => Ok(None),
    }
}

/// The values, lent one by one.
fn all_lent<'a>(alloc: Global, values: &'a [Value]) -> Result<Sequence<&'a Value>, OutOfMemory>
    ensures { IfOk result (λ all. values_lent all ≡ values.now) }
{
    let mut all = Sequence::new(alloc);
    'values: for value in values {
        all.push(value)?;
    }
    Ok(all)
}

/// What the path of these names means.
fn meaning<'a>(
    alloc: Global,
    sources: &[Source],
    first: &'a Text,
    fields: Sequence<&'a Text>,
) -> Result<Meant<'a>, OutOfMemory>
    ensures { IfOk result (λ m. meant_of m ≡ spec.meant sources.now first.now (texts fields.entry)) }
{
    match resolve_source(first.as_str(), sources) {
        Some(Resolved::Variable(place)) => Ok(Meant::AtNames { place, fields }),
        Some(Resolved::Id(place)) => {
            if fields.is_empty() {
                Ok(Meant::Id(place))
            } else {
                Ok(Meant::Unknown)
            }
        }
        None => left_out(alloc, sources, first, fields),
    }
}

/// With one source its variable may be left out.
fn left_out<'a>(
    alloc: Global,
    sources: &[Source],
    first: &'a Text,
    fields: Sequence<&'a Text>,
) -> Result<Meant<'a>, OutOfMemory>
    ensures { IfOk result (λ m. meant_of m ≡ spec.meant_as sources.now first.now (texts fields.entry) None) }
{
    if sources.len() != 1 {
        return Ok(Meant::Unknown);
    }
    let fields = behind(alloc, first, fields.as_slice())?;
    Ok(Meant::AtNames { place: 0, fields })
}

/// The names with another one in front.
fn behind<'a>(
    alloc: Global,
    first: &'a Text,
    fields: &[&'a Text],
) -> Result<Sequence<&'a Text>, OutOfMemory>
    ensures { IfOk result (λ all. texts all ≡ first.now ∷ texts fields.now) }
{
    let mut all = Sequence::new(alloc);
    all.push(first)?;
    'fields: for field in fields {
        all.push(*field)?;
    }
    Ok(all)
}
