//! Laws: functions that do nothing; their contracts state facts about definitions.
ghost use Rattle.std.specs.Prelude.{◌≡◌, ◌↔◌, IsTrue, List};
ghost use Rattle.s2ix_bag_pairs.specs.declared.pair.Entry.{Entry};
ghost use Rattle.s2ix_bag_pairs.specs.Collection.{Collection, LimitedCollection};

use crate::bag::Bag;
use crate::change::Change;
use crate::label_iter::LabelIter;

/// Two bags are equal exactly if their limits are, and so is what they hold.
pub fn equal_bags_are_one()
    ensures { (a b : LimitedCollection) → IsTrue (⟦<Bag as PartialEq>⟧.eq a b) ↔ (a ≡ b) }
{}

/// Two changes are equal exactly if their entries are.
pub fn equal_changes_are_one()
    ensures { (a b : List Entry) → IsTrue (⟦<Change as PartialEq>⟧.eq a b) ↔ (a ≡ b) }
{}

/// A bag's clone has the same limits and holds the same.
pub fn cloned_bags_are_the_same()
    ensures { (bag copy : LimitedCollection) → ⟦<Bag as Clone>⟧.is_clone bag copy ↔ (copy ≡ bag) }
{}

/// A change's clone has the same entries.
pub fn cloned_changes_are_the_same()
    ensures { (change copy : List Entry) → ⟦<Change as Clone>⟧.is_clone change copy ↔ (copy ≡ change) }
{}

/// A clone of an iterator over the pairs of a label has the same still to come, and cloning never fails.
pub fn cloned_label_iterators_have_the_same_rest<'a>()
    ensures same { (it copy : Collection) → ⟦<LabelIter<'a> as Clone>⟧.is_clone it copy → copy ≡ it }
    ensures never_fails { (it : Collection) → ⟦<LabelIter<'a> as Clone>⟧.is_infallible it }
{}
