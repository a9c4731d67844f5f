//! What a call works with beside its words, its source and its sink, and what a step gives back of it.

/// The runtime and the gate that the workers of a call use.
#[derive(Drop)]
pub struct Host<'a, R, G> {
    pub rt: &'a R,
    pub gate: &'a G,
}

/// The store and the clock of a call.
#[derive(Drop)]
pub struct Resources<S, C> {
    pub store: S,
    pub clock: C,
}

/// The value of a step, and the store and the clock that it was given.
#[derive(Drop)]
pub struct Returned<T, S, C> {
    pub value: T,
    pub store: S,
    pub clock: C,
}
