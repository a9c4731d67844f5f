ghost use Rattle.std.specs.Prelude.{◌≡◌};
ghost use Rattle.index_post.specs.Positions.{left_of};
ghost use Rattle.std.specs.Iterator.{YieldsFirst, item_count};

use pmap::Range;
use std::marker::Model;

/// The positions with a key, in ascending order.
#[derive(Drop)]
pub struct Positions<'a> {
    pairs: Option<Range<'a, u64, u64>>,
}

impl<'a> Model for Positions<'a> {
    ghost use Rattle.std.specs.Prelude.{List, ℕ};
    ghost use Rattle.index_post.specs.Positions.{left_of};

    ghost Value = { List ℕ };

    ghost view = { λ p. left_of p.pairs };
}

impl<'a> Positions<'a> {
    pub(crate) fn new(pairs: Option<Range<'a, u64, u64>>) -> Positions<'a>
        ensures { result ≡ left_of pairs.entry }
    {
        Positions { pairs }
    }
}

impl<'a> Iterator for Positions<'a> {
    type Item = u64;

    ghost next_gives = { YieldsFirst (λ p. p) };

    ghost remaining = { item_count (λ p. p) };

    fn next(&mut self) -> Option<u64> {
        let pairs = self.pairs.as_mut()?;
        let (position, _) = pairs.next()?;
        Some(*position)
    }
}
