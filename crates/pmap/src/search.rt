ghost use Rattle.std.specs.Prelude.{◌≡◌, ℕ, ◌+◌, ◌-◌, ◌^◌, ◌<◌, ◌≤◌, if◌then◌else◌, length};
ghost use Rattle.pmap.specs.Pairs.{Ascends, IsPlace, IsRowFor};

use crate::entry::Entry;
use crate::keyed::Keyed;
use pvec::Shared;
use ql_types::Steps;
use std::cmp::Ordering;

/// Where a key stands in a row, or would stand.
#[derive(Clone, Copy)]
pub(crate) struct Place {
    pub(crate) at: usize,
    pub(crate) is_there: bool,
}

/// The key's place in a row, which is halved until it is found.
pub(crate) fn find<K: Keyed, X>(row: &[Shared<Entry<K, X>>], key: &K, steps: &mut Steps) -> Place
    requires { Ascends K.order row.now }
    ensures place { IsPlace K.order key.now row.now result.at result.is_there }
    ensures counted { (d : ℕ) → length row.now < 2 ^ d → steps.new.taken ≤ steps.old.taken + d }
{
    let (front, rest) = row.split_at(row.len() / 2);
    let Some((middle, back)) = rest.split_first() else {
        return Place {
            at: 0,
            is_there: false,
        };
    };
    match key.against(middle.get().key(), steps) {
        Ordering::Less => find(front, key, steps),
        Ordering::Equal => Place {
            at: front.len(),
            is_there: true,
        },
        Ordering::Greater => {
            let place = find(back, key, steps);
            Place {
                at: front.len() + 1 + place.at,
                is_there: place.is_there,
            }
        }
    }
}

/// The row that the key belongs to: the last one that begins with no greater key, or else the first one.
pub(crate) fn row_for<K: Keyed, X>(
    rows: &[Shared<Entry<K, X>>],
    key: &K,
    steps: &mut Steps,
) -> usize
    requires ascending { Ascends K.order rows.now }
    requires some { 0 < length rows.now }
    ensures row { IsRowFor K.order key.now rows.now result }
    ensures counted { (d : ℕ) → length rows.now < 2 ^ d → steps.new.taken ≤ steps.old.taken + d }
{
    let place = find(rows, key, steps);
    row_of(place)
}

/// The row that begins at the place or before it.
fn row_of(place: Place) -> usize
    ensures { result ≡ (if place.is_there then place.at else place.at - 1) }
{
    if place.is_there {
        place.at
    } else {
        place.at.saturating_sub(1)
    }
}
