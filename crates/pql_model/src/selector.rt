use containers::{Sequence, Text};

/// Which member of a container a step of a change's path asks for: the field of that name, the
/// element at that place, counted from 0, or none at all.
#[derive(Drop)]
pub enum Selector {
    Field(Text),
    Element(i128),
    Nothing,
}

/// Steps from a document to what a change is made at, in order.
pub type Selectors = Sequence<Selector>;
