//! Lists that versions share.
ghost use Rattle.std.specs.Prelude.{◌≡◌, [], IfOk};

use containers::{OutOfMemory, Sequence};
use pvec::Shared;
use std::alloc::Global;
use std::marker::Model;

/// A list that several owners share whole, which contracts see as the list.
#[derive(Drop)]
pub(crate) struct Kept<T> {
    items: Option<Shared<Sequence<T>>>,
}

impl<T> Model for Kept<T> {
    ghost use Rattle.std.specs.Prelude.{List};
    ghost use Rattle.std.specs.Coded.{coded_list};
    ghost use Rattle.versions.specs.Held.{items_in};

    ghost Value = { List T };

    ghost coded = { coded_list T.code };

    ghost view = { λ k. items_in k.items };
}

impl<T> Kept<T> {
    /// No items. It takes no memory.
    pub(crate) fn new() -> Kept<T>
        ensures { result ≡ [] }
    {
        Kept { items: None }
    }

    /// The items in order, lent.
    pub(crate) fn as_slice(&self) -> &[T]
        ensures { result.now ≡ self.now }
    {
        match &self.items {
            None => &[],
            Some(items) => items.get().as_slice(),
        }
    }
}

impl<T: Drop> Kept<T> {
    /// These items, to be shared.
    pub(crate) fn from_vec(alloc: Global, items: Vec<T>) -> Result<Kept<T>, OutOfMemory>
        ensures { IfOk result (λ kept. kept ≡ items.items) }
    {
        Ok(Kept {
            items: Some(Shared::new(alloc, Sequence::from_vec(items))?),
        })
    }

    /// This list once more. One more owner of it may be refused.
    pub(crate) fn share(&self) -> Result<Kept<T>, OutOfMemory>
        ensures { IfOk result (λ same. same ≡ self.now) }
    {
        let items = match &self.items {
            None => None,
            Some(items) => Some(items.share()?),
        };
        Ok(Kept { items })
    }
}
