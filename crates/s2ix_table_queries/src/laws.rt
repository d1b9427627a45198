//! Laws: functions that do nothing; their contracts state facts about definitions.
ghost use Rattle.std.specs.Prelude.{◌≡◌, ◌↔◌, IsTrue, ◌+◌};
ghost use Rattle.s2ix_bag_pairs.specs.Label.{value_of};
ghost use Rattle.s2ix_bag_pairs.specs.declared.pair.Held.{Held};
ghost use Rattle.s2ix_table_queries.specs.declared.visit.Visit.{Visit};
ghost use Rattle.s2ix_table_queries.specs.declared.bookmark.Bookmark.{Bookmark};
ghost use Rattle.s2ix_table_queries.specs.declared.each.Each.{Each};
ghost use Rattle.s2ix_table_queries.specs.declared.each.EachStop.{EachStop};

use crate::bookmark::Bookmark;
use crate::each::{Each, EachStop};
use crate::iter::RangeIter;
use crate::of_held::OfHeld;
use crate::stretch::Stretch;
use crate::table::RangeTable;
use crate::visit::Visit;
use s2ix_bag_pairs::{Held, Label};

/// Two answers of counted visits are equal exactly if they are the same.
pub fn equal_visits_are_one()
    ensures { (a b : Visit) → IsTrue (⟦<Visit as PartialEq>⟧.eq a b) ↔ (a ≡ b) }
{}

/// A clone of a counted visit's answer is the same, and cloning never fails.
pub fn cloned_visits_are_the_same()
    ensures same { (a copy : Visit) → ⟦<Visit as Clone>⟧.is_clone a copy ↔ (copy ≡ a) }
    ensures never_fails { (a : Visit) → ⟦<Visit as Clone>⟧.is_infallible a }
{}

/// A clone of an iterator over ranges is the same, over the same table and from the same range on, and cloning never fails.
pub fn cloned_range_iterators_are_the_same<'a, T: RangeTable + 'a>()
    ensures same { (it copy : _) → ⟦<RangeIter<'a, T> as Clone>⟧.is_clone it copy ↔ (copy ≡ it) }
    ensures never_fails { (it : _) → ⟦<RangeIter<'a, T> as Clone>⟧.is_infallible it }
{}

/// A clone of a stretch of ranges is the same, and cloning never fails.
pub fn cloned_stretches_are_the_same<'a>()
    ensures same { (stretch copy : _) → ⟦<Stretch<'a> as Clone>⟧.is_clone stretch copy ↔ (copy ≡ stretch) }
    ensures never_fails { (stretch : _) → ⟦<Stretch<'a> as Clone>⟧.is_infallible stretch }
{}

/// Two answers of `at_each` are equal exactly if they are the same.
pub fn equal_answers_are_one()
    ensures { (a b : Each) → IsTrue (⟦<Each as PartialEq>⟧.eq a b) ↔ (a ≡ b) }
{}

/// A clone of an answer of `at_each` is the same, and cloning never fails.
pub fn cloned_answers_are_the_same()
    ensures same { (a copy : Each) → ⟦<Each as Clone>⟧.is_clone a copy ↔ (copy ≡ a) }
    ensures never_fails { (a : Each) → ⟦<Each as Clone>⟧.is_infallible a }
{}

/// Two reasons why `at_each` ended are equal exactly if they are the same.
pub fn equal_each_stops_are_one()
    ensures { (a b : EachStop) → IsTrue (⟦<EachStop as PartialEq>⟧.eq a b) ↔ (a ≡ b) }
{}

/// A clone of a reason why `at_each` ended is the same, and cloning never fails.
pub fn cloned_each_stops_are_the_same()
    ensures same { (a copy : EachStop) → ⟦<EachStop as Clone>⟧.is_clone a copy ↔ (copy ≡ a) }
    ensures never_fails { (a : EachStop) → ⟦<EachStop as Clone>⟧.is_infallible a }
{}

/// Two bookmarks are equal exactly if they are the same.
pub fn equal_bookmarks_are_one()
    ensures { (a b : Bookmark) → IsTrue (⟦<Bookmark as PartialEq>⟧.eq a b) ↔ (a ≡ b) }
{}

/// A clone of a bookmark is the same, and cloning never fails.
pub fn cloned_bookmarks_are_the_same()
    ensures same { (a copy : Bookmark) → ⟦<Bookmark as Clone>⟧.is_clone a copy ↔ (copy ≡ a) }
    ensures never_fails { (a : Bookmark) → ⟦<Bookmark as Clone>⟧.is_infallible a }
{}

/// Of a held pair a buffer keeps the pair itself, its label, or the number of its label.
pub fn kept_is_the_pair_or_its_label()
    ensures pair { (held : Held) → ⟦<Held as OfHeld>⟧.of held ≡ held }
    ensures label { (held : Held) → ⟦<Label as OfHeld>⟧.of held ≡ held.pair.label }
    ensures number { (held : Held) → ⟦<u32 as OfHeld>⟧.of held ≡ value_of held.pair.label }
{}
