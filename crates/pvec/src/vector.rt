ghost use Rattle.std.specs.Prelude.{◌≡◌, [], ◌∷◌, ◌++◌, ◌/◌, ◌<◌, length, slice_get, slice_set, IfOk};
ghost use Rattle.std.specs.Option.{option_copied};
ghost use Rattle.std.specs.Arc.{arc_value};
ghost use Rattle.pvec.specs.Rows.{joined, items_of, IsPacked, IsLevelled, IsGrown, IsChanged};

use crate::rows::{FULL, Row, member, pushed, replaced, single};
use crate::shared::Shared;
use containers::OutOfMemory;
use std::alloc::Global;
use std::marker::Model;
use std::sync::Arc;

/// Three levels of rows: the upper row's members are middle rows, and theirs are leaves.
type Upper<T> = Row<Row<Row<T>>>;

/// One version of a list, which contracts see as the list. It shares with other versions the rows that are the same.
#[derive(Drop)]
pub struct PVec<T> {
    alloc: Global,
    len: u64,
    upper: Option<Shared<Upper<T>>>,
}

impl<T> Model for PVec<T> {
    ghost use Rattle.std.specs.Prelude.{List};
    ghost use Rattle.std.specs.Coded.{coded_list};
    ghost use Rattle.pvec.specs.Rows.{items_of, rows_of, IsCounted};

    ghost Value = { List T };

    ghost coded = { coded_list T.code };

    ghost view = { λ v. items_of (rows_of v.upper) };

    ghost invariant = { λ v. IsCounted v.len v.upper };
}

impl<T> PVec<T> {
    /// No items. It takes no memory.
    pub fn new(alloc: Global) -> PVec<T>
        ensures { result ≡ [] }
    {
        PVec {
            alloc,
            len: 0,
            upper: None,
        }
    }

    /// How many items there are.
    pub fn len(&self) -> u64
        ensures { result ≡ length self.now }
    {
        self.len
    }

    /// The item at a place counted from 0, or None past the end.
    pub fn get(&self, i: u64) -> Option<&T>
        ensures { option_copied result ≡ slice_get self.now i }
    {
        match &self.upper {
            None => None,
            Some(upper) => item_at(upper.get().as_slice(), i),
        }
    }
}

impl<T: Drop> PVec<T> {
    /// The items with one more at the end, as a new version.
    pub fn push(&self, item: Arc<T>) -> Result<PVec<T>, OutOfMemory>
        ensures { IfOk result (λ new. new ≡ self.now ++ arc_value item ∷ []) }
    {
        let len = self.len.checked_add(1).ok_or(OutOfMemory)?;
        let item = Shared::from_arc(item);
        let upper = match &self.upper {
            None => first(self.alloc, item)?,
            Some(upper) => grown(self.alloc, upper.get().as_slice(), item)?,
        };
        let upper = Shared::new(self.alloc, upper)?;
        Ok(PVec {
            alloc: self.alloc,
            len,
            upper: Some(upper),
        })
    }

    /// The items with another one at a place, as a new version.
    pub fn set(&self, i: u64, item: Arc<T>) -> Result<PVec<T>, OutOfMemory>
        requires { i < length self.now }
        ensures { IfOk result (λ new. new ≡ slice_set self.now i (arc_value item)) }
    {
        let Some(upper) = &self.upper else {
            unreachable!()
        };
        let upper = with_item(
            self.alloc,
            upper.get().as_slice(),
            i,
            Shared::from_arc(item),
        )?;
        let upper = Shared::new(self.alloc, upper)?;
        Ok(PVec {
            alloc: self.alloc,
            len: self.len,
            upper: Some(upper),
        })
    }

    /// The same version once more. It takes no room for rows, but one more owner of them may be refused.
    pub fn share(&self) -> Result<PVec<T>, OutOfMemory>
        ensures { IfOk result (λ same. same ≡ self.now) }
    {
        let upper = match &self.upper {
            None => None,
            Some(upper) => Some(upper.share()?),
        };
        Ok(PVec {
            alloc: self.alloc,
            len: self.len,
            upper,
        })
    }
}

/// The leaf that has the item at a place.
#[tactic(auto, using(crate::proofs::Places::leaf_place))]
fn leaf_at<T>(upper: &[Shared<Row<Row<T>>>], i: u64) -> Option<&Row<T>>
    requires { IsPacked upper.now }
    ensures { option_copied result ≡ slice_get (joined upper.now) (i / 64) }
{
    let middle = member(upper, (i / 64 / 64) as usize)?;
    let leaf = member(middle.get().as_slice(), (i / 64 % 64) as usize)?;
    Some(leaf.get())
}

/// The item at a place.
#[tactic(auto, using(crate::proofs::Places::item_place))]
fn item_at<T>(upper: &[Shared<Row<Row<T>>>], i: u64) -> Option<&T>
    requires { IsLevelled upper.now }
    ensures { option_copied result ≡ slice_get (items_of upper.now) i }
{
    let leaf = leaf_at(upper, i)?;
    let item = member(leaf.as_slice(), (i % 64) as usize)?;
    Some(item.get())
}

/// The rows of one item.
fn first<T: Drop>(alloc: Global, item: Shared<T>) -> Result<Upper<T>, OutOfMemory>
    ensures { IfOk result (IsGrown [] item) }
{
    let leaf = Shared::new(alloc, single(alloc, item)?)?;
    let middle = Shared::new(alloc, single(alloc, leaf)?)?;
    single(alloc, middle)
}

/// The rows with one item more: in the last leaf, or in a new one where that is full, which begins a new middle row
/// where the last one is full.
fn grown<T: Drop>(
    alloc: Global,
    upper: &[Shared<Row<Row<T>>>],
    item: Shared<T>,
) -> Result<Upper<T>, OutOfMemory>
    requires { IsLevelled upper.now }
    ensures { IfOk result (IsGrown upper.now item) }
{
    let Some(middle) = upper.last() else {
        let new = first(alloc, item)?;
        return Ok(new);
    };
    let middle = middle.get().as_slice();
    let Some(leaf) = middle.last() else {
        unreachable!()
    };
    let leaf = leaf.get().as_slice();
    if leaf.len() < FULL {
        let leaf = Shared::new(alloc, pushed(alloc, leaf, item)?)?;
        let middle = Shared::new(alloc, replaced(alloc, middle, middle.len() - 1, leaf)?)?;
        let new = replaced(alloc, upper, upper.len() - 1, middle)?;
        return Ok(new);
    }
    let leaf = Shared::new(alloc, single(alloc, item)?)?;
    if middle.len() < FULL {
        let middle = Shared::new(alloc, pushed(alloc, middle, leaf)?)?;
        let new = replaced(alloc, upper, upper.len() - 1, middle)?;
        return Ok(new);
    }
    let middle = Shared::new(alloc, single(alloc, leaf)?)?;
    let new = pushed(alloc, upper, middle)?;
    Ok(new)
}

/// The rows with another item at a place.
fn with_item<T: Drop>(
    alloc: Global,
    upper: &[Shared<Row<Row<T>>>],
    i: u64,
    item: Shared<T>,
) -> Result<Upper<T>, OutOfMemory>
    requires levelled { IsLevelled upper.now }
    requires within { i < length (items_of upper.now) }
    ensures { IfOk result (IsChanged upper.now i item) }
{
    let (up, across, along) = (
        (i / 64 / 64) as usize,
        (i / 64 % 64) as usize,
        (i % 64) as usize,
    );
    let Some(middle) = member(upper, up) else {
        unreachable!()
    };
    let middle = middle.get().as_slice();
    let Some(leaf) = member(middle, across) else {
        unreachable!()
    };
    let leaf = leaf.get().as_slice();
    let leaf = Shared::new(alloc, replaced(alloc, leaf, along, item)?)?;
    let middle = Shared::new(alloc, replaced(alloc, middle, across, leaf)?)?;
    let new = replaced(alloc, upper, up, middle)?;
    Ok(new)
}
