//! Laws: functions that do nothing; their contracts state facts about definitions.
ghost use Rattle.std.specs.Prelude.{◌≡◌, ◌≢◌, ◌↔◌, IsTrue, ℕ, ◌+◌, ◌-◌, ◌≤◌, pos, ◌-ℤ◌, true, false, Some, None, [], List, Contains};
ghost use Rattle.std.specs.List.Sorted.{IsPermutation};
ghost use Rattle.s2id_core.specs.declared.cell_id.CellId.{CellId};
ghost use Rattle.s2id_union.specs.Region.{HaveSameRegion, IsNormal};
ghost use Rattle.s2ix_bag_pairs.specs.declared.label.Label.{Label};
ghost use Rattle.s2ix_bag_pairs.specs.declared.pair.Entry.{Entry};
ghost use Rattle.s2ix_bag_pairs.specs.declared.pair.Held.{Held};
ghost use Rattle.s2ix_bag_pairs.specs.declared.pair.Pair.{Pair};
ghost use Rattle.s2ix_bag_pairs.specs.Change.{IsChangeList, counts_at};
ghost use Rattle.s2ix_bag_pairs.specs.Collection.{Collection, IsCollection, count_at, count_in};
ghost use Rattle.s2ix_bag_pairs.specs.Pair.{rank_of};
ghost use Rattle.s2ix_bag_pairs.specs.TakenBack.{gain_of};
ghost use Rattle.s2ix_edit_plan.specs.declared.edit.Edit.{Edit};
ghost use Rattle.s2ix_edit_plan.specs.declared.edit.Edit.TheVariants.{Add, AddUnion, Remove, DropLabel, Relabel, Grow, Normalise, Revert};
ghost use Rattle.s2ix_edit_plan.specs.Edit.{edited, edited_alone, edited_by, numbered, pair_of};
ghost use Rattle.s2ix_edit_plan.specs.Grow.{IsGrown};
ghost use Rattle.s2ix_edit_plan.specs.History.{History, at_cursor};
ghost use Rattle.s2ix_edit_plan.specs.Refusals.{goes_below_zero, holds_none, reverts};
ghost use Rattle.s2ix_edit_plan.specs.Region.{cells_of, region_of};
ghost use Rattle.s2ix_edit_plan.specs.Removals.{first_not_held, without_rows};
ghost use Rattle.s2ix_edit_plan.specs.Rows.{copies_at, with_rows};
ghost use Rattle.s2ix_edit_plan.specs.State.{State, history_of};
ghost use Rattle.s2ix_edit_plan.specs.declared.errors.EditError.{EditError};
ghost use Rattle.s2ix_edit_plan.specs.declared.errors.RedoError.{RedoError};
ghost use Rattle.s2ix_edit_plan.specs.declared.errors.RemoveError.{RemoveError};
ghost use Rattle.s2ix_edit_plan.specs.declared.errors.UndoError.{UndoError};

use crate::edit::Edit;
use crate::errors::{EditError, RedoError, RemoveError, UndoError};

/// Two edits are equal exactly if they are the same.
pub fn equal_edits_are_one()
    ensures { (a b : Edit) → IsTrue (⟦<Edit as PartialEq>⟧.eq a b) ↔ (a ≡ b) }
{}

/// An edit's clone is that edit.
pub fn cloned_edits_are_the_same()
    ensures { (edit copy : Edit) → ⟦<Edit as Clone>⟧.is_clone edit copy ↔ (copy ≡ edit) }
{}

/// What an edit that takes no change back makes of the collection at the cursor of a history is what it makes of that
/// collection alone; of a store's history, what it makes of the collection that its bag holds.
pub fn edits_read_the_collection()
    ensures cursor { (h : History) (edit : Edit)
        → reverts edit ≡ false
        → edited h edit ≡ edited_alone edit (at_cursor h) }
    ensures bag { (s : State) (edit : Edit)
        → reverts edit ≡ false
        → edited (history_of s) edit ≡ edited_alone edit s.bag.held }
{}

/// `Revert` subtracts the difference, the count after less the count before, that the change with the number has for each
/// pair, and leaves every other count. The changes are counted from 1, the oldest first.
pub fn revert_subtracts_a_change()
    ensures { (hs : Collection) (changes : List (List Entry)) (number : ℕ) (es : List Entry) (pair : Pair)
        → IsCollection hs
        → IsChangeList es
        → numbered number changes ≡ Some es
        → goes_below_zero changes (Revert number) hs ≡ false
        → pos (count_in (edited_by changes (Revert number) hs) pair) ≡ pos (count_in hs pair) -ℤ gain_of (counts_at es (rank_of pair)) }
{}

/// `Add` adds the copies to the pair's count, and leaves every other count.
pub fn add_adds_copies()
    ensures pair { (hs : Collection) (pair : Pair) (copies : ℕ)
        → IsCollection hs
        → count_in (edited_alone (Add pair copies) hs) pair ≡ count_in hs pair + copies }
    ensures others { (hs : Collection) (pair other : Pair) (copies : ℕ)
        → pair ≢ other
        → count_in (edited_alone (Add pair copies) hs) other ≡ count_in hs other }
{}

/// `Remove` takes the copies from the pair's count, and leaves every other count.
pub fn remove_takes_copies()
    ensures pair { (hs : Collection) (pair : Pair) (copies : ℕ)
        → IsCollection hs
        → count_in (edited_alone (Remove pair copies) hs) pair ≡ count_in hs pair - copies }
    ensures others { (hs : Collection) (pair other : Pair) (copies : ℕ)
        → pair ≢ other
        → count_in (edited_alone (Remove pair copies) hs) other ≡ count_in hs other }
{}

/// `AddUnion` adds one copy under the label for each cell, and leaves every other count.
pub fn add_union_adds_a_copy_each()
    ensures cells { (hs : Collection) (cells : List CellId) (label : Label) (cell : CellId)
        → IsCollection hs
        → IsNormal cells
        → Contains cells cell
        → count_in (edited_alone (AddUnion cells label) hs) (pair_of cell label) ≡ count_in hs (pair_of cell label) + 1 }
    ensures others { (hs : Collection) (cells : List CellId) (label : Label) (other : Pair)
        → (Contains cells other.cell → other.label ≢ label)
        → count_in (edited_alone (AddUnion cells label) hs) other ≡ count_in hs other }
{}

/// Rows add to each count the copies that they have for its pair. So the order of rows doesn't matter, and the copies of a pair that comes
/// more than once are added up.
pub fn rows_add_their_copies()
    ensures counts { (hs : Collection) (rows : List Held) (pair : Pair)
        → IsCollection hs
        → count_in (with_rows rows hs) pair ≡ count_in hs pair + copies_at rows (rank_of pair) }
    ensures order { (hs : Collection) (rows others : List Held)
        → IsCollection hs
        → IsPermutation rows others
        → with_rows others hs ≡ with_rows rows hs }
{}

/// Rows that are removed take from each count the copies that they have for its pair. They are held exactly if no pair has fewer copies than
/// they take; so the order of rows only decides which of them is told. Rows that are added and then removed change nothing.
pub fn removed_rows_take_their_copies()
    ensures counts { (hs : Collection) (rows : List Held) (pair : Pair)
        → IsCollection hs
        → count_in (without_rows rows hs) pair ≡ count_in hs pair - copies_at rows (rank_of pair) }
    ensures held { (hs : Collection) (rows : List Held)
        → IsCollection hs
        → (first_not_held rows hs ≡ None) ↔ ((rank : ℕ) → copies_at rows rank ≤ count_at hs rank) }
    ensures added { (hs : Collection) (rows : List Held)
        → IsCollection hs
        → without_rows rows (with_rows rows hs) ≡ hs }
{}

/// `DropLabel` takes all copies of the label's pairs away, and leaves every other count.
pub fn drop_label_takes_all_copies()
    ensures label { (hs : Collection) (label : Label) (pair : Pair)
        → pair.label ≡ label
        → count_in (edited_alone (DropLabel label) hs) pair ≡ 0 }
    ensures others { (hs : Collection) (label : Label) (other : Pair)
        → IsCollection hs
        → other.label ≢ label
        → count_in (edited_alone (DropLabel label) hs) other ≡ count_in hs other }
{}

/// `Relabel` gives the target at each cell the sum of both counts, takes all copies of the source away, and leaves
/// every other count. A label that is moved to itself stays as it is.
pub fn relabel_moves_copies()
    ensures target { (hs : Collection) (source target : Label) (cell : CellId)
        → IsCollection hs
        → source ≢ target
        → count_in (edited_alone (Relabel source target) hs) (pair_of cell target)
        ≡ count_in hs (pair_of cell target) + count_in hs (pair_of cell source) }
    ensures source { (hs : Collection) (source target : Label) (cell : CellId)
        → IsCollection hs
        → source ≢ target
        → count_in (edited_alone (Relabel source target) hs) (pair_of cell source) ≡ 0 }
    ensures others { (hs : Collection) (source target : Label) (other : Pair)
        → IsCollection hs
        → other.label ≢ source
        → other.label ≢ target
        → count_in (edited_alone (Relabel source target) hs) other ≡ count_in hs other }
    ensures itself { (hs : Collection) (label : Label)
        → IsCollection hs
        → edited_alone (Relabel label label) hs ≡ hs }
{}

/// `Grow` adds one copy under the label for each cell of the level that overlaps no cell held with the label and shares
/// an edge with a cell of the level that overlaps one, and leaves every other count.
pub fn grow_adds_a_copy_each()
    ensures cells { (hs : Collection) (label : Label) (level : ℕ) (cell : CellId)
        → IsCollection hs
        → IsGrown level (cells_of label hs) cell
        → count_in (edited_alone (Grow label level) hs) (pair_of cell label) ≡ count_in hs (pair_of cell label) + 1 }
    ensures others { (hs : Collection) (label : Label) (level : ℕ) (other : Pair)
        → (IsGrown level (cells_of label hs) other.cell → other.label ≢ label)
        → count_in (edited_alone (Grow label level) hs) other ≡ count_in hs other }
{}

/// The region of a label is normal and has exactly the leaves of the cells that are held with it, so that a label that
/// isn't held has the empty region.
pub fn region_is_the_labels()
    ensures region { (hs : Collection) (label : Label) → HaveSameRegion (region_of label hs) (cells_of label hs) }
    ensures normal { (hs : Collection) (label : Label) → IsNormal (region_of label hs) }
    ensures empty { (hs : Collection) (label : Label)
        → holds_none label hs ≡ true
        → region_of label hs ≡ [] }
{}

/// `Normalise` leaves the label one copy at each cell of its region and none at any other cell, so that its cells are
/// normal and its region stays, and leaves every other count.
pub fn normalise_leaves_a_copy_each()
    ensures cells { (hs : Collection) (label : Label) (cell : CellId)
        → IsCollection hs
        → Contains (region_of label hs) cell
        → count_in (edited_alone (Normalise label) hs) (pair_of cell label) ≡ 1 }
    ensures other_cells { (hs : Collection) (label : Label) (cell : CellId)
        → IsCollection hs
        → (Contains (region_of label hs) cell → ⊥)
        → count_in (edited_alone (Normalise label) hs) (pair_of cell label) ≡ 0 }
    ensures others { (hs : Collection) (label : Label) (other : Pair)
        → IsCollection hs
        → other.label ≢ label
        → count_in (edited_alone (Normalise label) hs) other ≡ count_in hs other }
    ensures normal { (hs : Collection) (label : Label)
        → IsCollection hs
        → cells_of label (edited_alone (Normalise label) hs) ≡ region_of label hs }
    ensures region { (hs : Collection) (label : Label)
        → IsCollection hs
        → region_of label (edited_alone (Normalise label) hs) ≡ region_of label hs }
{}

/// Two errors are equal exactly if they are the same.
pub fn equal_errors_are_one()
    ensures edit { (a b : EditError) → IsTrue (⟦<EditError as PartialEq>⟧.eq a b) ↔ (a ≡ b) }
    ensures remove { (a b : RemoveError) → IsTrue (⟦<RemoveError as PartialEq>⟧.eq a b) ↔ (a ≡ b) }
    ensures undo { (a b : UndoError) → IsTrue (⟦<UndoError as PartialEq>⟧.eq a b) ↔ (a ≡ b) }
    ensures redo { (a b : RedoError) → IsTrue (⟦<RedoError as PartialEq>⟧.eq a b) ↔ (a ≡ b) }
{}

/// An error's clone is that error, and cloning never fails.
pub fn cloned_errors_are_the_same()
    ensures edit { (error copy : EditError) → ⟦<EditError as Clone>⟧.is_clone error copy ↔ (copy ≡ error) }
    ensures never_fails_edit { (error : EditError) → ⟦<EditError as Clone>⟧.is_infallible error }
    ensures remove { (error copy : RemoveError) → ⟦<RemoveError as Clone>⟧.is_clone error copy ↔ (copy ≡ error) }
    ensures never_fails_remove { (error : RemoveError) → ⟦<RemoveError as Clone>⟧.is_infallible error }
    ensures undo { (error copy : UndoError) → ⟦<UndoError as Clone>⟧.is_clone error copy ↔ (copy ≡ error) }
    ensures never_fails_undo { (error : UndoError) → ⟦<UndoError as Clone>⟧.is_infallible error }
    ensures redo { (error copy : RedoError) → ⟦<RedoError as Clone>⟧.is_clone error copy ↔ (copy ≡ error) }
    ensures never_fails_redo { (error : RedoError) → ⟦<RedoError as Clone>⟧.is_infallible error }
{}
