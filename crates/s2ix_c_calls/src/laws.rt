//! Laws: functions that do nothing; their contracts state facts about definitions.
ghost use Rattle.std.specs.Prelude.{◌≡◌, ◌↔◌, IsTrue, ℕ, ◌<◌, ◌≤◌, length};
ghost use Rattle.s2ix_c_calls.specs.declared.no_answer.NoAnswer.{NoAnswer};
ghost use Rattle.s2ix_bag_pairs.specs.declared.pair.Held.{Held};
ghost use Rattle.s2ix_c_calls.specs.Laws.{EachPairBeginsOnce, NewFromALimit};
ghost use Rattle.s2ix_c_calls.specs.Lists.{row_of};
ghost use Rattle.s2ix_c_calls.specs.Texts.{status_text};
ghost use Rattle.s2ix_c_calls.specs.declared.changes.EntryRow.{EntryRow};
ghost use Rattle.s2ix_c_calls.specs.declared.held_labels.LabelRow.{LabelRow};
ghost use Rattle.s2ix_c_calls.specs.declared.ranges.LeafRange.{LeafRange};
ghost use Rattle.s2ix_c_calls.specs.declared.replaying.Direction.{Direction};
ghost use Rattle.s2ix_c_calls.specs.declared.replaying.Refused.{Refused};
ghost use Rattle.s2ix_c_calls.specs.declared.rows.Row.{Row};

use crate::changes::EntryRow;
use crate::held_labels::LabelRow;
use crate::no_answer::NoAnswer;
use crate::ranges::LeafRange;
use crate::replaying::{Direction, Refused};
use crate::rows::Row;
use s2ix_table_queries::OfHeld;

/// Two reasons for no answer are equal exactly if they are the same.
pub fn equal_reasons_for_no_answer_are_one()
    ensures { (a b : NoAnswer) → IsTrue (⟦<NoAnswer as PartialEq>⟧.eq a b) ↔ (a ≡ b) }
{}

/// A clone of a reason for no answer is the same, and cloning never fails.
pub fn cloned_reasons_for_no_answer_are_the_same()
    ensures same { (a copy : NoAnswer) → ⟦<NoAnswer as Clone>⟧.is_clone a copy ↔ (copy ≡ a) }
    ensures never_fails { (a : NoAnswer) → ⟦<NoAnswer as Clone>⟧.is_infallible a }
{}

/// A clone of a row is the same, and cloning never fails.
pub fn cloned_rows_are_the_same()
    ensures same { (a copy : Row) → ⟦<Row as Clone>⟧.is_clone a copy ↔ (copy ≡ a) }
    ensures never_fails { (a : Row) → ⟦<Row as Clone>⟧.is_infallible a }
{}

/// The row that a buffer keeps of a held pair has its cell, its label and its count.
pub fn rows_are_of_their_pairs()
    ensures { (held : Held) → ⟦<Row as OfHeld>⟧.of held ≡ row_of held }
{}

/// A clone of an entry's row is the same, and cloning never fails.
pub fn cloned_entry_rows_are_the_same()
    ensures same { (a copy : EntryRow) → ⟦<EntryRow as Clone>⟧.is_clone a copy ↔ (copy ≡ a) }
    ensures never_fails { (a : EntryRow) → ⟦<EntryRow as Clone>⟧.is_infallible a }
{}

/// A clone of a held label's row is the same, and cloning never fails.
pub fn cloned_label_rows_are_the_same()
    ensures same { (a copy : LabelRow) → ⟦<LabelRow as Clone>⟧.is_clone a copy ↔ (copy ≡ a) }
    ensures never_fails { (a : LabelRow) → ⟦<LabelRow as Clone>⟧.is_infallible a }
{}

/// A clone of a range of leaves is the same, and cloning never fails.
pub fn cloned_leaf_ranges_are_the_same()
    ensures same { (a copy : LeafRange) → ⟦<LeafRange as Clone>⟧.is_clone a copy ↔ (copy ≡ a) }
    ensures never_fails { (a : LeafRange) → ⟦<LeafRange as Clone>⟧.is_infallible a }
{}

/// A clone of a direction is the same, and cloning never fails.
pub fn cloned_directions_are_the_same()
    ensures same { (a copy : Direction) → ⟦<Direction as Clone>⟧.is_clone a copy ↔ (copy ≡ a) }
    ensures never_fails { (a : Direction) → ⟦<Direction as Clone>⟧.is_infallible a }
{}

/// A clone of why texts lead to no bag is the same, and cloning never fails.
pub fn cloned_refusals_are_the_same()
    ensures same { (a copy : Refused) → ⟦<Refused as Clone>⟧.is_clone a copy ↔ (copy ≡ a) }
    ensures never_fails { (a : Refused) → ⟦<Refused as Clone>⟧.is_infallible a }
{}

/// The pairs over a range whose cells begin at the limit of an earlier range or later are those that don't lie over that earlier range.
pub fn pairs_from_a_limit_are_new()
    ensures { NewFromALimit }
{}

/// Each held pair lies over just one range whose first leaf its cell doesn't begin before: so a caller that goes up the ranges, and asks
/// for the pairs from the limit of the range before, gets each pair once.
pub fn each_pair_begins_once()
    ensures { EachPairBeginsOnce }
{}

/// A status in words has at most 64 bytes.
pub fn status_texts_are_short()
    ensures { (status : ℕ) → length (status_text status) ≤ 64 }
{}
