//! What a pass knows. No value of these types is made.
use std::collections::LinkedList;

/// An entry of an own list, with its place in the history.
pub struct Placed<E> {
    pub place: u64,
    pub entry: E,
}

/// What a pass knows: its name, its splits, the history it has seen, and its own entries.
pub struct Known<E> {
    pub name: LinkedList<u64>,
    pub splits: u64,
    pub seen: LinkedList<E>,
    pub own: LinkedList<Placed<E>>,
}

/// Whether a pass holds the turn.
pub enum Turn<E> {
    Away,
    /// It got the turn, with a state that has these entries, and hasn't looked at the count yet.
    Got(LinkedList<E>),
    Held,
    /// It holds the turn for good, and the state stands in the slot again.
    Shut,
}

/// The view of a seat at the lock's table. Where it shows no opening, the seat is spent: nothing is known with it.
pub struct View<E, O> {
    pub opening: Option<O>,
    pub me: Known<E>,
    /// What it keeps from seats that were joined into it.
    pub kept: LinkedList<Known<E>>,
    pub turn: Turn<E>,
}
