ghost use Rattle.std.specs.Prelude.{◌≡◌, ℕ, List, length, Option};

/// What a lock guards: a history that only grows, from an opening.
pub trait Counted {
    /// What stood before the first entry. Contracts alone speak of it.
    type Opening;

    /// What the history has for each change. Contracts alone speak of it.
    type Entry;

    ghost opening: { Self → Self.Opening };

    ghost entries: { Self → List Self.Entry };

    /// Whether a list is right for an opening.
    ghost is_right: { Self.Opening → List Self.Entry → Type 0 };

    /// The number that an entry opens, if it opens one.
    ghost opens: { Self.Entry → Option ℕ };

    /// The number that an entry uses, if it uses one.
    ghost uses: { Self.Entry → Option ℕ };

    /// How many entries there are.
    fn count(&self) -> u64
        ensures { result ≡ length (entries self.now) };

    /// The list of each state is right for its opening.
    fn known(&self)
        ensures { is_right (opening self.now) (entries self.now) };
}
