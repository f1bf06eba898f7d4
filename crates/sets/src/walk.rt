// The walk over the members of a set, for the loops of this crate.
ghost use Rattle.std.specs.Prelude.{◌≡◌};
ghost use Rattle.std.specs.Iterator.{at_most};
ghost use Rattle.sets.specs.inner.Walk.{TakesLeast};

use crate::{Set, is_empty, least, without};

// A walk: what is left of the set.
#[derive(Drop)]
pub(crate) struct Walk {
    left: Set,
}

// The members of `set`, the least first.
pub(crate) fn members(set: Set) -> Walk
    ensures { result.left ≡ set }
{
    Walk { left: set }
}

impl Iterator for Walk {
    type Item = usize;

    ghost next_gives = { λ s r t. TakesLeast s.left r t.left };

    ghost remaining = { λ s. at_most s.left };

    fn next(&mut self) -> Option<usize> {
        if is_empty(self.left) {
            return None;
        }
        let channel = least(self.left);
        self.left = without(self.left, channel);
        Some(channel as usize)
    }
}
