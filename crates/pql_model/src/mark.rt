use containers::{Sequence, Text};

/// Marks in the order in which they were set.
pub type Marks = Sequence<Mark>;

/// What the rules behind the grammar have to know of a token: the offset of its first byte, the part
/// of the statement in which it stands, and its role there.
#[derive(Drop)]
pub struct Mark {
    pub at: usize,
    pub place: Place,
    pub role: Role,
}

/// A part of a statement.
#[derive(Clone, Copy, Debug, PartialEq, Eq)]
pub enum Place {
    /// The source of this number, counted from 0, without its ON.
    Source(usize),
    /// An item of a SELECT.
    Item,
    Elsewhere,
}

/// What a token is to the rules behind the grammar.
#[derive(Drop)]
pub enum Role {
    /// The first name of a path in an expression.
    Name(Text),
    /// The name at the head of a source.
    Root(Text),
    /// The word BY behind a source.
    By,
    /// The first name of the path of a change, and whether steps follow it.
    Target { name: Text, has_steps: bool },
    /// The word of an aggregate.
    Aggregate,
    /// The first token of an item: whether the whole item is an aggregate, and how many aggregates
    /// stand in it.
    Item { is_whole: bool, aggregates: usize },
}
