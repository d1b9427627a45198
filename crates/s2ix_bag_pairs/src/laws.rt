//! Laws: functions that do nothing; their contracts state facts about definitions.
ghost use Rattle.std.specs.Prelude.{◌≡◌, ◌==◌, ◌↔◌, IsTrue, Some};
ghost use Rattle.std.specs.Ordering.{nat_cmp};
ghost use Rattle.s2ix_bag_pairs.specs.declared.label.Label.{Label};
ghost use Rattle.s2ix_bag_pairs.specs.declared.limits.Limits.{Limits};
ghost use Rattle.s2ix_bag_pairs.specs.declared.pair.Entry.{Entry};
ghost use Rattle.s2ix_bag_pairs.specs.declared.pair.Held.{Held};
ghost use Rattle.s2ix_bag_pairs.specs.declared.pair.Pair.{Pair};
ghost use Rattle.s2ix_bag_pairs.specs.Pair.{rank_of};
ghost use Rattle.s2ix_bag_pairs.specs.Laws.{RanksOrderPairs, RanksTellPairsApart, HeldAreCounted, CountedAreHeld, CountsTellCollectionsApart, ChangeSetsCounts, ChangeListsDifferences, OnlyChangeListsDifferences, ChangeLeadsThereAndBack, TakingBackSubtracts, ChangeBackListsDifferences, LabelsAreCounted, LabelsRiseByCell};

use crate::label::Label;
use crate::limits::Limits;
use crate::pair::{Entry, Held, Pair};

/// The order by ranks is that by cell, then by label.
pub fn ranks_order_pairs()
    ensures { RanksOrderPairs }
{}

/// Pairs are compared by their ranks, in order, by `partial_cmp`, which `<` and its kin ask, and for equality.
pub fn pairs_compare_by_rank()
    ensures order { (p q : Pair) → ⟦<Pair as Ord>⟧.cmp p q ≡ nat_cmp (rank_of p) (rank_of q) }
    ensures less { (p q : Pair)
        → ⟦<Pair as PartialOrd>⟧.partial_cmp p q ≡ Some (nat_cmp (rank_of p) (rank_of q)) }
    ensures equal { (p q : Pair) → ⟦<Pair as PartialEq>⟧.eq p q ≡ (rank_of p == rank_of q) }
{}

/// No two pairs have the same rank.
pub fn ranks_tell_pairs_apart()
    ensures { RanksTellPairsApart }
{}

/// What a collection holds has its count.
pub fn held_are_counted()
    ensures { HeldAreCounted }
{}

/// A pair with a count above 0 is held with it.
pub fn counted_are_held()
    ensures { CountedAreHeld }
{}

/// Two collections with the same count of every pair are one.
pub fn counts_tell_collections_apart()
    ensures { CountsTellCollectionsApart }
{}

/// What a change makes of a collection is a collection: each of the change's pairs has its count after, and every other count is as it was.
pub fn change_sets_counts()
    ensures { ChangeSetsCounts }
{}

/// The change between two collections lists exactly the pairs whose counts differ, with both counts, and rises.
pub fn change_lists_differences()
    ensures { ChangeListsDifferences }
{}

/// No other change lists exactly the pairs whose counts differ.
pub fn only_change_lists_differences()
    ensures { OnlyChangeListsDifferences }
{}

/// The change between two collections makes the second of the first, and its inverse the first of the second.
pub fn change_leads_there_and_back()
    ensures { ChangeLeadsThereAndBack }
{}

/// If no entry is below 0, a change that is taken back leaves a collection: the count of each pair of the change less its difference, and
/// every other count as it was.
pub fn taking_back_subtracts()
    ensures { TakingBackSubtracts }
{}

/// The change that takes a change back is the one between the collection and what is left of it.
pub fn change_back_lists_differences()
    ensures { ChangeBackListsDifferences }
{}

/// What is held with a label is a collection, with the count of each pair of that label and of no other.
pub fn labels_are_counted()
    ensures { LabelsAreCounted }
{}

/// What is held with a label rises by cell.
pub fn labels_rise_by_cell()
    ensures { LabelsRiseByCell }
{}

/// Two pairs are equal exactly if they are the same.
pub fn equal_pairs_are_one()
    ensures { (a b : Pair) → IsTrue (⟦<Pair as PartialEq>⟧.eq a b) ↔ (a ≡ b) }
{}

/// A clone of a pair is the same, and cloning never fails.
pub fn cloned_pairs_are_the_same()
    ensures same { (a copy : Pair) → ⟦<Pair as Clone>⟧.is_clone a copy ↔ (copy ≡ a) }
    ensures never_fails { (a : Pair) → ⟦<Pair as Clone>⟧.is_infallible a }
{}

/// Two held pairs are equal exactly if they are the same.
pub fn equal_held_pairs_are_one()
    ensures { (a b : Held) → IsTrue (⟦<Held as PartialEq>⟧.eq a b) ↔ (a ≡ b) }
{}

/// A clone of a held pair is the same, and cloning never fails.
pub fn cloned_held_pairs_are_the_same()
    ensures same { (a copy : Held) → ⟦<Held as Clone>⟧.is_clone a copy ↔ (copy ≡ a) }
    ensures never_fails { (a : Held) → ⟦<Held as Clone>⟧.is_infallible a }
{}

/// Two entries are equal exactly if they are the same.
pub fn equal_entries_are_one()
    ensures { (a b : Entry) → IsTrue (⟦<Entry as PartialEq>⟧.eq a b) ↔ (a ≡ b) }
{}

/// A clone of an entry is the same, and cloning never fails.
pub fn cloned_entries_are_the_same()
    ensures same { (a copy : Entry) → ⟦<Entry as Clone>⟧.is_clone a copy ↔ (copy ≡ a) }
    ensures never_fails { (a : Entry) → ⟦<Entry as Clone>⟧.is_infallible a }
{}

/// Two labels are equal exactly if they are the same.
pub fn equal_labels_are_one()
    ensures { (a b : Label) → IsTrue (⟦<Label as PartialEq>⟧.eq a b) ↔ (a ≡ b) }
{}

/// A clone of a label is the same, and cloning never fails.
pub fn cloned_labels_are_the_same()
    ensures same { (a copy : Label) → ⟦<Label as Clone>⟧.is_clone a copy ↔ (copy ≡ a) }
    ensures never_fails { (a : Label) → ⟦<Label as Clone>⟧.is_infallible a }
{}

/// Two limits are equal exactly if they are the same.
pub fn equal_limits_are_one()
    ensures { (a b : Limits) → IsTrue (⟦<Limits as PartialEq>⟧.eq a b) ↔ (a ≡ b) }
{}

/// A clone of limits is the same, and cloning never fails.
pub fn cloned_limits_are_the_same()
    ensures same { (a copy : Limits) → ⟦<Limits as Clone>⟧.is_clone a copy ↔ (copy ≡ a) }
    ensures never_fails { (a : Limits) → ⟦<Limits as Clone>⟧.is_infallible a }
{}
