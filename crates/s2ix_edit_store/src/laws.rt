//! Laws: functions that do nothing; their contracts state facts about definitions.

ghost use Rattle.std.specs.Prelude.{◌≡◌, ◌≢◌, ◌↔◌, ◌≤◌, IsTrue, ℕ, ◌+◌, ◌-◌, pos, ◌+ℤ◌, Some, None, false, ◌<◌, [], ◌∷◌, ◌++◌, length, drop, reverse, slice_get, take, All, List};
ghost use Rattle.s2ix_bag_pairs.specs.declared.label.Label.{Label};
ghost use Rattle.s2ix_bag_pairs.specs.declared.limits.Limits.{Limits};
ghost use Rattle.s2ix_bag_pairs.specs.declared.pair.Entry.{Entry};
ghost use Rattle.s2ix_bag_pairs.specs.declared.pair.Held.{Held};
ghost use Rattle.s2ix_bag_pairs.specs.declared.pair.Pair.{Pair};
ghost use Rattle.s2ix_bag_pairs.specs.Change.{IsChangeList, counts_at, difference_of};
ghost use Rattle.s2ix_bag_pairs.specs.Collection.{LimitedCollection, IsBag, count_in};
ghost use Rattle.s2ix_bag_pairs.specs.Limits.{changes_limit, count_limit, pairs_limit};
ghost use Rattle.s2ix_bag_pairs.specs.Pair.{rank_of};
ghost use Rattle.s2ix_edit_plan.specs.declared.errors.EditError.TheVariants.{NoSuchLabel, NotHeld, TooFine, NoSuchChange, BelowZero, NoChange, TooManyCopies, TooManyPairs};
ghost use Rattle.s2ix_edit_plan.specs.declared.edit.Edit.{Edit};
ghost use Rattle.s2ix_edit_plan.specs.declared.edit.Edit.TheVariants.{Add, DropLabel, Grow, Normalise, Relabel, Remove, Revert};
ghost use Rattle.s2ix_edit_plan.specs.Edit.{edited, edited_by};
ghost use Rattle.s2ix_edit_plan.specs.History.{changes_along, cursor_alone, one_back, one_on, with_next};
ghost use Rattle.s2ix_edit_plan.specs.State.{State, change_of, history_of, starting_at};
ghost use Rattle.s2ix_edit_plan.specs.Removals.{removal_change, removal_refusal};
ghost use Rattle.s2ix_edit_plan.specs.Rows.{rows_change, rows_refusal};
ghost use Rattle.s2ix_edit_plan.specs.Refusals.{edit_refusal, goes_below_zero, has_count_above, lacks_change, reverts};
ghost use Rattle.s2ix_edit_store.specs.declared.held_labels.HeldLabel.{HeldLabel};
ghost use Rattle.s2ix_edit_store.specs.declared.history_error.HistoryError.{HistoryError};
ghost use Rattle.s2ix_edit_store.specs.declared.join_error.JoinError.{JoinError};
ghost use Rattle.s2ix_edit_store.specs.declared.record_error.RecordError.{RecordError};
ghost use Rattle.s2ix_edit_store.specs.Given.{after_apply, given_refusal, history_refusal, led_by, with_changes};
ghost use Rattle.s2ix_edit_store.specs.OneChange.{change_refusal};
ghost use Rattle.s2ix_edit_store.specs.Recorded.{IsRecorded};
ghost use Rattle.s2ix_edit_store.specs.Standing.{first_collection, gain_along, without_numbered};
ghost use Rattle.s2ix_edit_store.specs.Shortened.{steps_before, up_to_cursor, with_joined, with_newest};
ghost use Rattle.s2ix_edit_store.specs.Steps.{after_edit, after_forget, after_forget_older, after_join, after_record, after_redo, after_removal, after_rows, after_undo, joined_last, with_held};
ghost use Rattle.s2ix_edit_store.specs.Store.{IsStore};
ghost use Rattle.s2ix_table_walk.specs.Table.{Range, IsRangeTable};

use crate::held_labels::HeldLabel;
use crate::history_error::HistoryError;
use crate::join_error::JoinError;
use crate::record_error::RecordError;

/// Two errors are equal exactly if they are the same.
pub fn equal_errors_are_one()
    ensures history { (a b : HistoryError) → IsTrue (⟦<HistoryError as PartialEq>⟧.eq a b) ↔ (a ≡ b) }
    ensures record_change { (a b : RecordError) → IsTrue (⟦<RecordError as PartialEq>⟧.eq a b) ↔ (a ≡ b) }
    ensures join { (a b : JoinError) → IsTrue (⟦<JoinError as PartialEq>⟧.eq a b) ↔ (a ≡ b) }
{}

/// An error's clone is that error, and cloning never fails.
pub fn cloned_errors_are_the_same()
    ensures history { (error copy : HistoryError) → ⟦<HistoryError as Clone>⟧.is_clone error copy ↔ (copy ≡ error) }
    ensures never_fails_history { (error : HistoryError) → ⟦<HistoryError as Clone>⟧.is_infallible error }
    ensures record_change { (error copy : RecordError) → ⟦<RecordError as Clone>⟧.is_clone error copy ↔ (copy ≡ error) }
    ensures never_fails_record_change { (error : RecordError) → ⟦<RecordError as Clone>⟧.is_infallible error }
    ensures join { (error copy : JoinError) → ⟦<JoinError as Clone>⟧.is_clone error copy ↔ (copy ≡ error) }
    ensures never_fails_join { (error : JoinError) → ⟦<JoinError as Clone>⟧.is_infallible error }
{}

/// Two held labels are equal exactly if they are the same.
pub fn equal_held_labels_are_one()
    ensures { (a b : HeldLabel) → IsTrue (⟦<HeldLabel as PartialEq>⟧.eq a b) ↔ (a ≡ b) }
{}

/// A clone of a held label is the same, and cloning never fails.
pub fn cloned_held_labels_are_the_same()
    ensures same { (a copy : HeldLabel) → ⟦<HeldLabel as Clone>⟧.is_clone a copy ↔ (copy ≡ a) }
    ensures never_fails { (a : HeldLabel) → ⟦<HeldLabel as Clone>⟧.is_infallible a }
{}

/// The change that an edit records has the two counts of exactly the pairs whose counts the edit changes.
pub fn edit_records_differences()
    ensures rises { (s : State) (edit : Edit) → IsStore s → IsChangeList (change_of s edit) }
    ensures counts { (s : State) (edit : Edit) (pair : Pair)
        → IsStore s
        → counts_at (change_of s edit) (rank_of pair)
        ≡ difference_of (count_in s.bag.held pair) (count_in (edited (history_of s) edit) pair) }
{}

/// An edit and then an undo lead back: the bag and the changes that led to it are as they were, and the edit's change
/// can be done again.
pub fn undo_takes_edit_back()
    ensures bag { (s : State) (edit : Edit)
        → IsStore s
        → (after_undo (after_edit s edit)).bag ≡ s.bag }
    ensures done { (s : State) (edit : Edit)
        → IsStore s
        → (after_undo (after_edit s edit)).done ≡ s.done }
    ensures undone { (s : State) (edit : Edit)
        → IsStore s
        → (after_undo (after_edit s edit)).undone ≡ change_of s edit ∷ [] }
{}

/// Rows are one change: an undo takes them back as a whole. The bag and the changes that led to it are as they were, and the change of the
/// rows can be done again.
pub fn undo_takes_rows_back()
    ensures bag { (s : State) (rows : List Held)
        → IsStore s
        → (after_undo (after_rows s rows)).bag ≡ s.bag }
    ensures done { (s : State) (rows : List Held)
        → IsStore s
        → (after_undo (after_rows s rows)).done ≡ s.done }
    ensures undone { (s : State) (rows : List Held)
        → IsStore s
        → (after_undo (after_rows s rows)).undone ≡ rows_change s.bag.held rows ∷ [] }
{}

/// One row is an `Add`: it is refused as the edit is, and makes the same store.
pub fn one_row_is_an_add()
    ensures refusal { (s : State) (row : Held)
        → IsStore s
        → rows_refusal s (row ∷ []) ≡ edit_refusal s (Add row.pair row.count) }
    ensures store { (s : State) (row : Held)
        → IsStore s
        → after_rows s (row ∷ []) ≡ after_edit s (Add row.pair row.count) }
{}

/// An undo takes all removed rows back: the bag and the changes that were done are as they were, and the change of the rows can be done
/// again.
pub fn undo_takes_removed_rows_back()
    ensures bag { (s : State) (rows : List Held)
        → IsStore s
        → (after_undo (after_removal s rows)).bag ≡ s.bag }
    ensures done { (s : State) (rows : List Held)
        → IsStore s
        → (after_undo (after_removal s rows)).done ≡ s.done }
    ensures undone { (s : State) (rows : List Held)
        → IsStore s
        → (after_undo (after_removal s rows)).undone ≡ removal_change s.bag.held rows ∷ [] }
{}

/// One row that is removed makes the store that a `Remove` makes.
pub fn one_row_is_a_remove()
    ensures { (s : State) (row : Held)
        → IsStore s
        → after_removal s (row ∷ []) ≡ after_edit s (Remove row.pair row.count) }
{}

/// A change that is given alone is refused exactly if `apply` refuses it, and makes the same store.
pub fn one_change_is_applied()
    ensures refusal { (s : State) (es : List Entry) → (change_refusal s es ≡ None) ↔ (given_refusal s (es ∷ []) ≡ None) }
    ensures store { (s : State) (es : List Entry)
        → IsStore s
        → IsChangeList es
        → change_refusal s es ≡ None
        → after_apply s (es ∷ []) ≡ after_record s es }
{}

/// An edit and then an undo restore the range table too, since they restore the bag, and two equal bags have one.
pub fn undo_restores_the_table()
    ensures { (s : State) (edit : Edit) (before after : List Range)
        → IsStore s
        → IsRangeTable s.bag.held before
        → IsRangeTable (after_undo (after_edit s edit)).bag.held after
        → after ≡ before }
{}

/// An undo and a redo lead back to where the store stood, whichever of them comes first: to its bag, to what was done
/// and to what was undone.
pub fn undo_and_redo_lead_back()
    ensures redo_after_undo { (s : State)
        → IsStore s
        → s.done ≢ []
        → let back = after_redo (after_undo s) in
        (back.bag ≡ s.bag) × (back.done ≡ s.done) × (back.undone ≡ s.undone) }
    ensures undo_after_redo { (s : State)
        → IsStore s
        → s.undone ≢ []
        → let back = after_undo (after_redo s) in
        (back.bag ≡ s.bag) × (back.done ≡ s.done) × (back.undone ≡ s.undone) }
{}

/// No step changes the limits.
pub fn steps_keep_limits()
    ensures edit { (s : State) (edit : Edit) → (after_edit s edit).bag.limits ≡ s.bag.limits }
    ensures undo { (s : State) → (after_undo s).bag.limits ≡ s.bag.limits }
    ensures redo { (s : State) → (after_redo s).bag.limits ≡ s.bag.limits }
    ensures record_change { (s : State) (es : List Entry) → (after_record s es).bag.limits ≡ s.bag.limits }
    ensures add_all { (s : State) (rows : List Held) → (after_rows s rows).bag.limits ≡ s.bag.limits }
    ensures remove_all { (s : State) (rows : List Held) → (after_removal s rows).bag.limits ≡ s.bag.limits }
    ensures forget { (s : State) → (after_forget s).bag.limits ≡ s.bag.limits }
    ensures forget_older { (s : State) (newest : ℕ) → (after_forget_older s newest).bag.limits ≡ s.bag.limits }
    ensures join { (s : State) (number : ℕ) → (after_join s number).bag.limits ≡ s.bag.limits }
    ensures apply { (s : State) (changes : List (List Entry)) → (after_apply s changes).bag.limits ≡ s.bag.limits }
{}

/// Each step of a store leads to a store: an edit, added or removed rows, or a given change, if they are accepted, an undo and a redo of a
/// change that there is, forgetting, of all changes or of older ones, a join, and given changes that are not refused.
pub fn steps_lead_to_stores()
    ensures edit { (s : State) (edit : Edit)
        → IsStore s
        → edit_refusal s edit ≡ None
        → IsStore (after_edit s edit) }
    ensures add_all { (s : State) (rows : List Held)
        → IsStore s
        → rows_refusal s rows ≡ None
        → IsStore (after_rows s rows) }
    ensures remove_all { (s : State) (rows : List Held)
        → IsStore s
        → removal_refusal s rows ≡ None
        → IsStore (after_removal s rows) }
    ensures record_change { (s : State) (es : List Entry)
        → IsStore s
        → IsChangeList es
        → change_refusal s es ≡ None
        → IsStore (after_record s es) }
    ensures undo { (s : State) → IsStore s → s.done ≢ [] → IsStore (after_undo s) }
    ensures redo { (s : State) → IsStore s → s.undone ≢ [] → IsStore (after_redo s) }
    ensures forget { (s : State) → IsStore s → IsStore (after_forget s) }
    ensures forget_older { (s : State) (newest : ℕ) → IsStore s → IsStore (after_forget_older s newest) }
    ensures join { (s : State) (number : ℕ) → IsStore s → IsStore (after_join s number) }
    ensures apply { (s : State) (changes : List (List Entry))
        → IsStore s
        → All IsChangeList changes
        → given_refusal s changes ≡ None
        → IsStore (after_apply s changes) }
{}

/// A store stands at one place of its history: the bag holds the collection at the cursor, each collection is within the limits, and the
/// changes between neighbouring collections are those that were done and then, the last undone first, those that were undone, each of them
/// with entries; so those that were done are the changes up to the cursor. It stands at the history's start if nothing was done, and at its
/// end if nothing was undone.
pub fn store_stands_in_history()
    ensures place { (s : State)
        → slice_get (history_of s).collections (history_of s).cursor ≡ Some s.bag.held }
    ensures within { (s : State)
        → IsStore s
        → All (λ hs. IsBag (with_held s.bag hs)) (history_of s).collections }
    ensures number { (s : State)
        → length (history_of s).collections ≡ (history_of s).cursor + 1 + length s.undone }
    ensures changes { (s : State)
        → IsStore s
        → changes_along (history_of s).collections ≡ s.done ++ reverse s.undone }
    ensures done { (s : State)
        → IsStore s
        → s.done ≡ take (history_of s).cursor (changes_along (history_of s).collections) }
    ensures entries { (s : State)
        → IsStore s
        → All (λ es. 0 < length es) (s.done ++ s.undone) }
{}

/// Each change that can be undone or redone has at least one entry, at most twice as many as the limit on pairs, and counts within the
/// limit on counts. There are at most as many changes as the limit on them. No limits are wider than 1,000,000 pairs and counts of a `u32`,
/// so a journal can hold each of the changes.
pub fn recorded_changes_are_within_the_limits()
    ensures done { (s : State) → IsStore s → All (IsRecorded s.bag.limits) s.done }
    ensures undone { (s : State) → IsStore s → All (IsRecorded s.bag.limits) s.undone }
    ensures number { (s : State)
        → IsStore s
        → length s.done + length s.undone ≤ changes_limit s.bag.limits }
    ensures widest { (limits : Limits) (es : List Entry)
        → IsRecorded limits es
        → (length es ≤ 2000000) × All (λ e. e.before ≤ 4294967295) es × All (λ e. e.after ≤ 4294967295) es }
{}

/// An edit makes the same of the bag's collection and the changes done as of the history at its cursor.
pub fn edits_read_what_stands()
    ensures { (s : State) (edit : Edit)
        → IsStore s
        → edited (history_of s) edit ≡ edited_by s.done edit s.bag.held }
{}

/// Each count is that of the history's first collection and the differences, the count after less the count before, of the
/// changes that stand, as whole numbers with sign.
pub fn counts_are_first_and_standing()
    ensures { (s : State) (pair : Pair)
        → IsStore s
        → pos (count_in s.bag.held pair) ≡ pos (count_in (first_collection s) pair) +ℤ gain_along s.done pair }
{}

/// Edits, undos, redos, joins and given changes keep the first collection. It is the one that the bag holds when a store starts, and after
/// its changes are forgotten; if only older ones are, it is the one before those that are kept.
pub fn steps_keep_the_first_collection()
    ensures start { (bag : LimitedCollection) → first_collection (starting_at bag) ≡ bag.held }
    ensures edit { (s : State) (edit : Edit)
        → IsStore s
        → first_collection (after_edit s edit) ≡ first_collection s }
    ensures undo { (s : State)
        → IsStore s
        → s.done ≢ []
        → first_collection (after_undo s) ≡ first_collection s }
    ensures redo { (s : State)
        → IsStore s
        → s.undone ≢ []
        → first_collection (after_redo s) ≡ first_collection s }
    ensures forget { (s : State) → first_collection (after_forget s) ≡ s.bag.held }
    ensures forget_older { (s : State) (newest : ℕ)
        → first_collection (after_forget_older s newest) ≡ steps_before newest (history_of s) }
    ensures join { (s : State) (number : ℕ)
        → IsStore s
        → first_collection (after_join s number) ≡ first_collection s }
    ensures apply { (s : State) (changes : List (List Entry))
        → IsStore s
        → All IsChangeList changes
        → given_refusal s changes ≡ None
        → first_collection (after_apply s changes) ≡ first_collection s }
{}

/// After an accepted `Revert` each count is that of the first collection and the differences of the changes that stood, the
/// reverted one left out.
pub fn revert_leaves_a_change_out()
    ensures { (s : State) (number : ℕ) (pair : Pair)
        → IsStore s
        → edit_refusal s (Revert number) ≡ None
        → pos (count_in (edited (history_of s) (Revert number)) pair)
        ≡ pos (count_in (first_collection s) pair) +ℤ gain_along (without_numbered number s.done) pair }
{}

/// Memory aside, a store takes a change back exactly if its journal has room, a change has the number, no count would be below 0,
/// and what is left is within the limits.
pub fn standing_changes_can_be_taken_back()
    ensures { (s : State) (number : ℕ)
        → IsStore s
        → let left = edited (history_of s) (Revert number) in
        (edit_refusal s (Revert number) ≡ None)
        ↔ ((length s.done < changes_limit s.bag.limits)
        × (lacks_change s.done (Revert number) ≡ false)
        × (goes_below_zero s.done (Revert number) s.bag.held ≡ false)
        × (has_count_above (count_limit s.bag.limits) left ≡ false)
        × (length left ≤ pairs_limit s.bag.limits)) }
{}

/// A store never refuses a `Revert` with `NoSuchLabel`, `NotHeld`, `TooFine` or `NoChange`, and no other edit with `NoSuchChange` or
/// `BelowZero`.
pub fn reverts_have_refusals_of_their_own()
    ensures revert { (s : State) (number : ℕ)
        → IsStore s
        → let refusal = edit_refusal s (Revert number) in
        (refusal ≢ Some NoSuchLabel) × (refusal ≢ Some NotHeld) × (refusal ≢ Some TooFine) × (refusal ≢ Some NoChange) }
    ensures others { (s : State) (edit : Edit)
        → reverts edit ≡ false
        → (edit_refusal s edit ≢ Some NoSuchChange) × (edit_refusal s edit ≢ Some BelowZero) }
{}

/// A store never refuses a `Remove`, a `DropLabel` or a `Normalise` for a count or a number of pairs above the limit, nor a `Relabel` for a
/// number of pairs, nor a `Grow` for a count: the first three leave no more copies or pairs than the limits allow anyway, `Relabel` no
/// more pairs, and `Grow` gives only first copies.
pub fn lesser_edits_pass_no_limit()
    ensures remove { (s : State) (pair : Pair) (copies : ℕ)
        → IsStore s
        → let refusal = edit_refusal s (Remove pair copies) in
        (refusal ≢ Some TooManyCopies) × (refusal ≢ Some TooManyPairs) }
    ensures drop_label { (s : State) (label : Label)
        → IsStore s
        → let refusal = edit_refusal s (DropLabel label) in
        (refusal ≢ Some TooManyCopies) × (refusal ≢ Some TooManyPairs) }
    ensures normalise { (s : State) (label : Label)
        → IsStore s
        → let refusal = edit_refusal s (Normalise label) in
        (refusal ≢ Some TooManyCopies) × (refusal ≢ Some TooManyPairs) }
    ensures relabel { (s : State) (source target : Label)
        → IsStore s
        → edit_refusal s (Relabel source target) ≢ Some TooManyPairs }
    ensures grow { (s : State) (label : Label) (level : ℕ)
        → IsStore s
        → edit_refusal s (Grow label level) ≢ Some TooManyCopies }
{}

/// A store never refuses a `DropLabel` because nothing would change: with room in the journal the label is held, or `NoSuchLabel` says that it
/// isn't.
pub fn dropped_labels_change_something()
    ensures { (s : State) (label : Label)
        → IsStore s
        → edit_refusal s (DropLabel label) ≢ Some NoChange }
{}

/// Forgetting all changes but as many as can be undone changes nothing.
pub fn kept_changes_are_not_forgotten()
    ensures { (s : State) (newest : ℕ)
        → length s.done ≤ newest
        → after_forget_older s newest ≡ s }
{}

/// A bag and its changes are a store again: a store's bag takes the changes that were done as a history, and so `Store::with_history` gives
/// the store back, but for what could be redone and for `faces_rebuilt`, which is 0. Its history is the store's up to the cursor. Changes
/// that a bag takes as a history always make a store.
pub fn histories_come_back()
    ensures accepted { (s : State) → IsStore s → history_refusal s.bag s.done ≡ None }
    ensures history { (s : State)
        → IsStore s
        → history_of (led_by s.bag s.done) ≡ up_to_cursor (history_of s) }
    ensures store { (bag : LimitedCollection) (changes : List (List Entry))
        → IsBag bag
        → All IsChangeList changes
        → history_refusal bag changes ≡ None
        → IsStore (led_by bag changes) }
{}

/// Joined changes are taken back at once: an undo leads to the collection before them, and to the changes before them.
pub fn undo_takes_joined_changes_back()
    ensures { (s : State) (number : ℕ)
        → IsStore s
        → joined_last s number ≢ []
        → ((after_undo (after_join s number)).bag ≡ with_held s.bag (steps_before number (history_of s)))
        × ((after_undo (after_join s number)).done ≡ take (length s.done - number) s.done) }
{}

/// A store follows another. If it has the bag that the other had so many changes ago, it comes to the other's bag by doing the changes since,
/// and does so unless its journal has no room for them. So two stores with equal bags have equal bags again if the one does what an edit of
/// the other did.
pub fn stores_follow_each_other()
    ensures changes { (s other : State) (number : ℕ)
        → IsStore other
        → s.bag ≡ with_held other.bag (steps_before number (history_of other))
        → length s.done + number ≤ changes_limit s.bag.limits
        → (given_refusal s (drop (length other.done - number) other.done) ≡ None)
        × ((after_apply s (drop (length other.done - number) other.done)).bag ≡ other.bag) }
    ensures edit { (s other : State) (edit : Edit)
        → IsStore other
        → s.bag ≡ other.bag
        → edit_refusal other edit ≡ None
        → length s.done < changes_limit s.bag.limits
        → (given_refusal s (change_of other edit ∷ []) ≡ None)
        × ((after_apply s (change_of other edit ∷ [])).bag ≡ (after_edit other edit).bag) }
{}

/// Each step of a store is the step of its history: an edit goes on to the edited collection, undo goes back by one,
/// redo on by one, and forget keeps only the collection at the cursor. If older changes are forgotten, the history starts later. A join
/// leaves out what lies between the collection before the joined changes and the cursor's. Given changes are a step each.
pub fn steps_follow_the_history()
    ensures edit { (s : State) (edit : Edit)
        → IsStore s
        → history_of (after_edit s edit) ≡ with_next (history_of s) (edited (history_of s) edit) }
    ensures undo { (s : State)
        → IsStore s
        → s.done ≢ []
        → history_of (after_undo s) ≡ one_back (history_of s) }
    ensures redo { (s : State)
        → IsStore s
        → s.undone ≢ []
        → history_of (after_redo s) ≡ one_on (history_of s) }
    ensures forget { (s : State) → history_of (after_forget s) ≡ cursor_alone (history_of s) }
    ensures forget_older { (s : State) (newest : ℕ)
        → history_of (after_forget_older s newest) ≡ with_newest newest (history_of s) }
    ensures join { (s : State) (number : ℕ)
        → IsStore s
        → history_of (after_join s number) ≡ with_joined number (history_of s) }
    ensures apply { (s : State) (changes : List (List Entry))
        → IsStore s
        → All IsChangeList changes
        → given_refusal s changes ≡ None
        → history_of (after_apply s changes) ≡ with_changes changes (history_of s) }
{}
