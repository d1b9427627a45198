//! Laws: functions that do nothing; their contracts state facts about definitions.
ghost use Rattle.std.specs.Prelude.{◌≡◌, ◌↔◌, IsTrue};
ghost use Rattle.s2ix_bag_lists.specs.Laws.{ChangesHaveNoFault, InverseTakesBack, InverseTakesBackAtOnce};
ghost use Rattle.s2ix_bag_lists.specs.declared.errors.ApplyError.{ApplyError};
ghost use Rattle.s2ix_bag_lists.specs.declared.errors.ChangeError.{ChangeError};
ghost use Rattle.s2ix_bag_lists.specs.declared.errors.RevertError.{RevertError};
ghost use Rattle.s2ix_bag_lists.specs.declared.lists_view.ListsView.{ListsView};
ghost use Rattle.s2ix_bag_pairs.specs.Collection.{Collection};

use crate::errors::{ApplyError, ChangeError, RevertError};
use crate::held_iter::HeldIter;
use crate::held_parts::HeldParts;
use crate::lists::FaceLists;
use crate::lists_view::ListsView;

/// A list of entries is a change exactly if it has no fault.
pub fn changes_have_no_fault()
    ensures { ChangesHaveNoFault }
{}

/// A change that a bag takes can be taken back: the inverse isn't refused, and gives the first bag.
pub fn inverse_takes_back()
    ensures { InverseTakesBack }
{}

/// Right after a change that a bag takes, the change that takes it back is its inverse.
pub fn inverse_takes_back_at_once()
    ensures { InverseTakesBackAtOnce }
{}

/// Two errors of one type are equal exactly if they are the same.
pub fn equal_errors_are_one()
    ensures apply { (a b : ApplyError) → IsTrue (⟦<ApplyError as PartialEq>⟧.eq a b) ↔ (a ≡ b) }
    ensures revert { (a b : RevertError) → IsTrue (⟦<RevertError as PartialEq>⟧.eq a b) ↔ (a ≡ b) }
    ensures change { (a b : ChangeError) → IsTrue (⟦<ChangeError as PartialEq>⟧.eq a b) ↔ (a ≡ b) }
{}

/// An error's clone is that error, and cloning never fails.
pub fn cloned_errors_are_the_same()
    ensures apply { (error copy : ApplyError) → ⟦<ApplyError as Clone>⟧.is_clone error copy ↔ (copy ≡ error) }
    ensures never_fails_apply { (error : ApplyError) → ⟦<ApplyError as Clone>⟧.is_infallible error }
    ensures revert { (error copy : RevertError) → ⟦<RevertError as Clone>⟧.is_clone error copy ↔ (copy ≡ error) }
    ensures never_fails_revert { (error : RevertError) → ⟦<RevertError as Clone>⟧.is_infallible error }
    ensures change { (error copy : ChangeError) → ⟦<ChangeError as Clone>⟧.is_clone error copy ↔ (copy ≡ error) }
    ensures never_fails_change { (error : ChangeError) → ⟦<ChangeError as Clone>⟧.is_infallible error }
{}

/// Two lists of held pairs are equal exactly if they hold the same pairs with the same counts.
pub fn equal_lists_are_one()
    ensures { (a b : Collection) → IsTrue (⟦<FaceLists as PartialEq>⟧.eq a b) ↔ (a ≡ b) }
{}

/// A clone of a list in parts holds the same pairs with the same counts.
pub fn cloned_held_parts_are_the_same()
    ensures { (list copy : Collection) → ⟦<HeldParts as Clone>⟧.is_clone list copy ↔ (copy ≡ list) }
{}

/// A clone of a view shows the same lists, and cloning never fails.
pub fn cloned_views_are_the_same<'a>()
    ensures same { (lists copy : ListsView) → ⟦<ListsView<'a> as Clone>⟧.is_clone lists copy ↔ (copy ≡ lists) }
    ensures never_fails { (lists : ListsView) → ⟦<ListsView<'a> as Clone>⟧.is_infallible lists }
{}

/// A clone of the lists holds the same pairs with the same counts.
pub fn cloned_lists_are_the_same()
    ensures { (lists copy : Collection) → ⟦<FaceLists as Clone>⟧.is_clone lists copy ↔ (copy ≡ lists) }
{}

/// A clone of an iterator over held pairs has the same still to come, and cloning never fails.
pub fn cloned_held_iterators_have_the_same_rest<'a>()
    ensures same { (it copy : Collection) → ⟦<HeldIter<'a> as Clone>⟧.is_clone it copy → copy ≡ it }
    ensures never_fails { (it : Collection) → ⟦<HeldIter<'a> as Clone>⟧.is_infallible it }
{}
