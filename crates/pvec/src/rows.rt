ghost use Rattle.std.specs.Prelude.{◌≡◌, [], ◌∷◌, ◌+◌, ◌<◌, ◌≤◌, ◌++◌, length, slice_get, slice_set, take, drop, IfOk, OnOk};
ghost use Rattle.std.specs.Option.{option_copied};

use crate::shared::Shared;
use containers::{OutOfMemory, Sequence};
use std::alloc::Global;

/// Shared members in order.
pub type Row<T> = Sequence<Shared<T>>;

/// How many members a row of the two lower levels has at the most.
pub const FULL: usize = 64;

/// The member at a place counted from 0, or None past the end.
pub fn member<T>(row: &[Shared<T>], at: usize) -> Option<&Shared<T>>
    ensures { option_copied result ≡ slice_get row.now at }
{
    row.get(at)
}

/// A row without members that has room for some.
fn with_room<T>(alloc: Global, members: usize) -> Result<Row<T>, OutOfMemory>
    ensures { IfOk result (λ row. row ≡ []) }
{
    Ok(Sequence::from_vec(Vec::with_capacity(alloc, members)?))
}

/// Puts one more owner of each member of the part at the row's end.
fn extend<T: Drop>(row: &mut Row<T>, part: &[Shared<T>]) -> Result<(), OutOfMemory>
    ensures { OnOk result (row.new ≡ row.old ++ part.now) }
{
    'members: for member in part {
        row.push(member.share()?)?;
    }
    Ok(())
}

/// The row with `put` in the place of the members from `at` up to `end`. All members are shared.
pub fn spliced<T: Drop>(
    alloc: Global,
    row: &[Shared<T>],
    at: usize,
    end: usize,
    put: &[Shared<T>],
) -> Result<Row<T>, OutOfMemory>
    requires ordered { at ≤ end }
    requires within { end ≤ length row.now }
    ensures { IfOk result (λ new. new ≡ take at row.now ++ put.now ++ drop end row.now) }
{
    let mut new = with_room(alloc, row.len().saturating_add(put.len()))?;
    extend(&mut new, &row[..at])?;
    extend(&mut new, put)?;
    extend(&mut new, &row[end..])?;
    Ok(new)
}

/// The part as a row of its own. All members are shared.
pub fn copied<T: Drop>(alloc: Global, part: &[Shared<T>]) -> Result<Row<T>, OutOfMemory>
    ensures { IfOk result (λ new. new ≡ part.now) }
{
    let mut new = with_room(alloc, part.len())?;
    extend(&mut new, part)?;
    Ok(new)
}

/// A row of one member.
pub fn single<T: Drop>(alloc: Global, member: Shared<T>) -> Result<Row<T>, OutOfMemory>
    ensures { IfOk result (λ new. new ≡ member ∷ []) }
{
    let mut new = Sequence::new(alloc);
    new.push(member)?;
    Ok(new)
}

/// The row with one member more at its end.
pub(crate) fn pushed<T: Drop>(
    alloc: Global,
    row: &[Shared<T>],
    member: Shared<T>,
) -> Result<Row<T>, OutOfMemory>
    ensures { IfOk result (λ new. new ≡ row.now ++ member ∷ []) }
{
    let mut new = with_room(alloc, row.len().saturating_add(1))?;
    extend(&mut new, row)?;
    new.push(member)?;
    Ok(new)
}

/// The row with another member at a place.
pub(crate) fn replaced<T: Drop>(
    alloc: Global,
    row: &[Shared<T>],
    at: usize,
    member: Shared<T>,
) -> Result<Row<T>, OutOfMemory>
    requires { at < length row.now }
    ensures { IfOk result (λ new. new ≡ slice_set row.now at member) }
{
    let mut new = copied(alloc, row)?;
    new.set(at, member);
    Ok(new)
}
