//! When two lists of held pairs are the same.

ghost use Rattle.std.specs.Cmp.Lexicographic.{lists_equiv, pointwise};
ghost use Rattle.std.specs.Cmp.{partial_equiv_from_equiv};
ghost use Rattle.s2ix_bag_pairs.specs.contracts.pair.HeldEq.TheImpl.Laws as of_held;

use crate::lists::FaceLists;
use s2ix_bag_pairs::Held;

/// Lists with the same pairs with the same counts. O(n).
impl PartialEq for FaceLists {
    ghost eq = { pointwise ⟦<Held as PartialEq>⟧.eq };

    ghost laws = { partial_equiv_from_equiv (lists_equiv of_held.laws-law) };

    fn eq(&self, other: &FaceLists) -> bool {
        let mut theirs = other.iter();
        for held in self.iter() {
            if theirs.next() != Some(held) {
                return false;
            }
        }
        theirs.next().is_none()
    }
}

impl Eq for FaceLists {
    ghost laws = { lists_equiv of_held.laws-law };
}
