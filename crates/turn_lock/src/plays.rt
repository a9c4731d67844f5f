//! What each step on the lock's table tells.
ghost use Rattle.std.specs.Prelude.{Option, None};
ghost use Rattle.turn_lock.specs.Rule.{spent};
ghost use Rattle.turn_lock.specs.Seats.{taken, looked, tied, added, given, shut, sat, lender, next_pass, alone, kept_pass, joined};

use crate::counted::Counted;
use crate::view::View;
use atomic_table::{Join, Play, Split};
use std::marker::{Brand, PhantomData};

/// Takes the turn, where word 1 is 0.
pub(crate) struct Take;

impl<T: Counted> Play<Option<T>, View<T::Entry, T::Opening>> for Take {
    ghost then = { taken T.opening T.entries };
}

/// The holder looks at the count.
pub(crate) struct Look;

impl<T: Counted> Play<Option<T>, View<T::Entry, T::Opening>> for Look {
    ghost then = { looked T.is_right T.opens T.uses };
}

/// A pass without the turn looks at the count.
pub(crate) struct Tie;

impl<T: Counted> Play<Option<T>, View<T::Entry, T::Opening>> for Tie {
    ghost then = { tied T.is_right T.opens T.uses };
}

/// The entry that a step adds. Each call picks it.
pub(crate) trait Noted<E> {
    ghost noted: { Option E };
}

impl<E> Noted<E> for Brand {
    ghost noted = { None };
}

/// Adds the noted entry.
pub(crate) struct Add<N> {
    noted: PhantomData<N>,
}

impl<T: Counted, N: Noted<T::Entry>> Play<Option<T>, View<T::Entry, T::Opening>> for Add<N> {
    ghost then = { added N.noted };
}

/// Gives the turn back, and the slot.
pub(crate) struct Give;

impl<E, O, T> Play<Option<T>, View<E, O>> for Give {
    ghost then = { given };
}

/// Gives the slot back and keeps the turn for good.
pub(crate) struct Close;

impl<E, O, T> Play<Option<T>, View<E, O>> for Close {
    ghost then = { shut };
}

/// Comes in and knows nothing.
pub(crate) struct Sit;

impl<E, O, T> Play<Option<T>, View<E, O>> for Sit {
    ghost then = { sat };
}

/// Splits off the next pass.
pub(crate) struct Next;

impl<E, O> Split<View<E, O>> for Next {
    ghost left = { lender };

    ghost right = { next_pass };
}

/// Splits off what was kept.
pub(crate) struct Part;

impl<E, O> Split<View<E, O>> for Part {
    ghost left = { alone };

    ghost right = { kept_pass };
}

/// Keeps what the other knows.
pub(crate) struct Keep;

impl<E, O> Join<View<E, O>> for Keep {
    ghost both = { joined };

    ghost spent = { spent };
}
