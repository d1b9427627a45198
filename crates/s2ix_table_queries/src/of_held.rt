use s2ix_bag_pairs::{Held, Label};

/// What [`at_each`](crate::at_each) puts into a buffer for a held pair: the pair with its count, its label, or the label's number.
pub trait OfHeld: Copy {
    ghost use Rattle.s2ix_bag_pairs.specs.declared.pair.Held.{Held};
    ghost use Rattle.std.specs.Prelude.{◌≡◌};

    // what is kept of a pair
    ghost of: { Held → Self };

    /// What is kept of a pair. O(1).
    fn of_held(held: Held) -> Self
        ensures { result ≡ of held };
}

impl OfHeld for Held {
    ghost of = { λ held. held };

    #[inline]
    fn of_held(held: Held) -> Held {
        held
    }
}

impl OfHeld for Label {
    ghost of = { λ held. held.pair.label };

    #[inline]
    fn of_held(held: Held) -> Label {
        held.pair.label
    }
}

impl OfHeld for u32 {
    ghost use Rattle.s2ix_bag_pairs.specs.Label.{value_of};

    ghost of = { λ held. value_of held.pair.label };

    #[inline]
    fn of_held(held: Held) -> u32 {
        held.pair.label.get()
    }
}
