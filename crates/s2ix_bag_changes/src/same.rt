//! When two bags are the same, and two changes.

ghost use Rattle.std.specs.Ordering.{on, eq_of_both};
ghost use Rattle.std.specs.Cmp.{and_equiv, on_equiv, partial_equiv_from_equiv};
ghost use Rattle.std.specs.Cmp.Lexicographic.{lists_equiv, pointwise};
ghost use Rattle.s2ix_bag_pairs.specs.contracts.limits.LimitsEq.TheImpl.Laws as of_limits;
ghost use Rattle.s2ix_bag_pairs.specs.contracts.pair.HeldEq.TheImpl.Laws as of_held;
ghost use Rattle.s2ix_bag_pairs.specs.contracts.pair.EntryEq.TheImpl.Laws as of_entries;

use crate::bag::Bag;
use crate::change::Change;
use s2ix_bag_pairs::{Entry, Held, Limits};

/// Bags with the same limits that hold the same pairs with the same counts. O(n).
impl PartialEq for Bag {
    ghost eq = { eq_of_both (on (λ bag. bag.limits) ⟦<Limits as PartialEq>⟧.eq) (on (λ bag. bag.held) (pointwise ⟦<Held as PartialEq>⟧.eq)) };

    ghost laws = { partial_equiv_from_equiv (and_equiv (on_equiv (λ bag. bag.limits) of_limits.laws-law) (on_equiv (λ bag. bag.held) (lists_equiv of_held.laws-law))) };

    fn eq(&self, other: &Bag) -> bool {
        self.limits() == other.limits() && self.lists() == other.lists()
    }
}

impl Eq for Bag {
    ghost laws = { and_equiv (on_equiv (λ bag. bag.limits) of_limits.laws-law) (on_equiv (λ bag. bag.held) (lists_equiv of_held.laws-law)) };
}

/// Changes with the same entries. O(n).
impl PartialEq for Change {
    ghost eq = { pointwise ⟦<Entry as PartialEq>⟧.eq };

    ghost laws = { partial_equiv_from_equiv (lists_equiv of_entries.laws-law) };

    fn eq(&self, other: &Change) -> bool {
        self.entries() == other.entries()
    }
}

impl Eq for Change {
    ghost laws = { lists_equiv of_entries.laws-law };
}
