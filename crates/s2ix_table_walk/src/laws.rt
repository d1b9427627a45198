//! Laws: functions that do nothing; their contracts state facts about definitions.
ghost use Rattle.std.specs.Prelude.{◌≡◌, ◌↔◌, ℕ, ◌≤◌, Bool, true, IsTrue, List, length};
ghost use Rattle.s2id_core.specs.declared.cell_id.CellId.{CellId};
ghost use Rattle.s2id_union.specs.Region.{HaveSameRegion};
ghost use Rattle.s2ix_bag_pairs.specs.Collection.{Collection};
ghost use Rattle.s2ix_bag_pairs.specs.declared.label.Label.{Label};
ghost use Rattle.s2ix_table_walk.specs.LabelList.{label_list};
ghost use Rattle.s2ix_table_walk.specs.Meeting.{IsLabelList, meeting_of};
ghost use Rattle.s2ix_table_walk.specs.RangeList.{range_table};
ghost use Rattle.s2ix_table_walk.specs.Table.{Range, IsRangeTable};
ghost use Rattle.s2ix_table_walk.specs.declared.row.RangeRow.{RangeRow};
ghost use Rattle.s2ix_table_walk.specs.RangeLaws.{ContentsAreOfTheLeaf, OneListOfContents, OneRangeTable, MeetingListIsTheTargets, OneMeetingList, OneLabelList};
ghost use Rattle.s2ix_table_walk.specs.Calls.{CallsOn};
ghost use Rattle.s2ix_table_walk.specs.WalkLaws.{MetRangesShareALeaf};
ghost use Rattle.s2ix_table_walk.specs.declared.cost.Cost.{Cost};
ghost use Rattle.s2ix_table_walk.specs.declared.window.LeafWindow.{LeafWindow};
ghost use Rattle.s2ix_table_walk.specs.declared.window.Window.{Window};

use crate::cost::Cost;
use crate::row::RangeRow;
use crate::window::{LeafWindow, Window};
use s2ix_bag_pairs::Held;

/// `contents_at` of a leaf's number are the leaf's contents: the held pairs whose cells have the leaf, in order.
pub fn contents_are_of_the_leaf()
    ensures { ContentsAreOfTheLeaf }
{}

/// A leaf has one list of contents.
pub fn one_list_of_contents()
    ensures { OneListOfContents }
{}

/// A collection has one range table.
pub fn one_range_table()
    ensures { OneRangeTable }
{}

/// `meeting_of` a target is its meeting list: the held pairs that share a leaf with it, each once and in order.
pub fn meeting_list_is_the_targets()
    ensures { MeetingListIsTheTargets }
{}

/// A target has one meeting list.
pub fn one_meeting_list()
    ensures { OneMeetingList }
{}

/// A meeting list has one label list.
pub fn one_label_list()
    ensures { OneLabelList }
{}

/// `range_table` of a collection is its range table, and the only one.
pub fn range_table_is_the_collections()
    ensures table { (held : Collection) → IsRangeTable held (range_table held) }
    ensures only { (held : Collection) (ranges : List Range) → IsRangeTable held ranges → ranges ≡ range_table held }
{}

/// `label_list` of a meeting list is its label list, and the only one.
pub fn label_list_is_the_meetings()
    ensures list { (meeting : Collection) → IsLabelList meeting (label_list meeting) }
    ensures only { (meeting : Collection) (labels : List Label) → IsLabelList meeting labels → labels ≡ label_list meeting }
{}

/// Targets with one region meet the same pairs in the same order.
pub fn same_region_meets_the_same()
    ensures { (xs ys : List CellId) (held : Collection) → HaveSameRegion xs ys → meeting_of xs held ≡ meeting_of ys held }
{}

/// Two ranges' spans are equal exactly if they are the same.
pub fn equal_range_rows_are_one()
    ensures { (a b : RangeRow) → IsTrue (⟦<RangeRow as PartialEq>⟧.eq a b) ↔ (a ≡ b) }
{}

/// A clone of a range's span is the same, and cloning never fails.
pub fn cloned_range_rows_are_the_same()
    ensures same { (a copy : RangeRow) → ⟦<RangeRow as Clone>⟧.is_clone a copy ↔ (copy ≡ a) }
    ensures never_fails { (a : RangeRow) → ⟦<RangeRow as Clone>⟧.is_infallible a }
{}

/// A range counts as met exactly if one of its leaves is the target's.
pub fn met_ranges_share_a_leaf()
    ensures { MetRangesShareALeaf }
{}

/// A closure is called on at most as many pairs as a list has, and on all of them if every answer was true.
pub fn calls_are_of_the_list<F: FnMut(Held) -> bool>()
    ensures at_most { (f last : F) (pairs : Collection) (calls : ℕ) (whole : Bool) → CallsOn F.step f pairs calls whole last → calls ≤ length pairs }
    ensures whole { (f last : F) (pairs : Collection) (calls : ℕ) → CallsOn F.step f pairs calls true last → calls ≡ length pairs }
{}

/// Two costs are equal exactly if they are the same.
pub fn equal_costs_are_one()
    ensures { (a b : Cost) → IsTrue (⟦<Cost as PartialEq>⟧.eq a b) ↔ (a ≡ b) }
{}

/// A clone of a cost is the same, and cloning never fails.
pub fn cloned_costs_are_the_same()
    ensures same { (a copy : Cost) → ⟦<Cost as Clone>⟧.is_clone a copy ↔ (copy ≡ a) }
    ensures never_fails { (a : Cost) → ⟦<Cost as Clone>⟧.is_infallible a }
{}

/// Two windows are equal exactly if they are the same.
pub fn equal_windows_are_one()
    ensures { (a b : Window) → IsTrue (⟦<Window as PartialEq>⟧.eq a b) ↔ (a ≡ b) }
{}

/// A clone of a window is the same, and cloning never fails.
pub fn cloned_windows_are_the_same()
    ensures same { (a copy : Window) → ⟦<Window as Clone>⟧.is_clone a copy ↔ (copy ≡ a) }
    ensures never_fails { (a : Window) → ⟦<Window as Clone>⟧.is_infallible a }
{}

/// A clone of a leaf's window is the same, and cloning never fails.
pub fn cloned_leaf_windows_are_the_same()
    ensures same { (a copy : LeafWindow) → ⟦<LeafWindow as Clone>⟧.is_clone a copy ↔ (copy ≡ a) }
    ensures never_fails { (a : LeafWindow) → ⟦<LeafWindow as Clone>⟧.is_infallible a }
{}
