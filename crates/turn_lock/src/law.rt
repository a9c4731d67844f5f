//! The rule of the lock's table, and the words for its parts.
use crate::counted::Counted;
use crate::view::View;
use atomic_table::{Seat, Shared, Table, TableRule};
use std::alloc::Global;
use std::snapshot::Snapshot;

/// The rule: behind the table stands one history, and each pass fits it.
pub struct Law;

impl<T: Counted> TableRule<Option<T>, View<T::Entry, T::Opening>, Snapshot<T>> for Law {
    ghost use Rattle.turn_lock.specs.Rule.{IsKept, newcomer};

    ghost holds = { λ key. IsKept T.opening T.entries T.is_right T.opens T.uses (T.opening key.value) };

    ghost first = { λ key. newcomer (T.opening key.value) };
}

/// What a thread takes the turn with. It has no bytes. Contracts see in it which lock it is of, a beginning of the
/// history that was seen, the entries that were made with it, its name, and whether it holds the turn.
pub type Pass<T: Counted> = Seat<Option<T>, View<T::Entry, T::Opening>>;

pub(crate) type Board<T: Counted> = Table<
    Option<T>,
    View<T::Entry, T::Opening>,
    Snapshot<T>,
    Law,
    Global,
>;

pub(crate) type Top<T: Counted> = Shared<Option<T>, View<T::Entry, T::Opening>, Snapshot<T>, Law>;
