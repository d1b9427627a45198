//! Laws: functions that do nothing; their contracts state facts about definitions.
ghost use Rattle.std.specs.Prelude.{◌≡◌, ◌↔◌, IsTrue, ◌+◌, ◌*◌, ◌≤◌, length};
ghost use Rattle.s2ix_table.specs.declared.copied.CopiedPlace.{CopiedPlace};

use crate::chain_table::ChainTable;
use crate::copied::CopiedPlace;
pub use s2ix_table_faced::laws::{
    cloned_face_heavy_places_are_the_same, cloned_faced_places_are_the_same,
    cloned_part_places_are_the_same, equal_face_heavy_places_are_one, equal_faced_places_are_one,
    equal_part_places_are_one, faced_table_has_few_ranges, keeps_a_pair_once, unchanged_faces_stay,
};
pub use s2ix_table_heavy::laws::{cloned_heavy_places_are_the_same, equal_heavy_places_are_one};
use s2ix_table_queries::RangeTable;
pub use s2ix_table_queries::laws::{
    cloned_answers_are_the_same, cloned_bookmarks_are_the_same, cloned_each_stops_are_the_same,
    cloned_range_iterators_are_the_same, cloned_stretches_are_the_same, cloned_visits_are_the_same,
    equal_answers_are_one, equal_bookmarks_are_one, equal_each_stops_are_one, equal_visits_are_one,
    kept_is_the_pair_or_its_label,
};
pub use s2ix_table_spans::laws as spans;
use s2ix_table_spans::laws::ranges_are_those_of_the_span;
pub use s2ix_table_walk::laws as walk;

/// A `ChainTable` of n pairs has at most 2 * n + 1 ranges.
pub fn chain_table_has_few_ranges(table: &ChainTable)
    ensures { length (⟦<ChainTable as RangeTable>⟧.ranges table.now) ≤ 2 * length (⟦<ChainTable as RangeTable>⟧.pairs table.now) + 1 }
{
    ranges_are_those_of_the_span(&table.span);
}

/// Two places in a `CopiedTable` are equal exactly if they are the same.
pub fn equal_copied_places_are_one()
    ensures { (a b : CopiedPlace) → IsTrue (⟦<CopiedPlace as PartialEq>⟧.eq a b) ↔ (a ≡ b) }
{}

/// A clone of a place in a `CopiedTable` is the same, and cloning never fails.
pub fn cloned_copied_places_are_the_same()
    ensures same { (a copy : CopiedPlace) → ⟦<CopiedPlace as Clone>⟧.is_clone a copy ↔ (copy ≡ a) }
    ensures never_fails { (a : CopiedPlace) → ⟦<CopiedPlace as Clone>⟧.is_infallible a }
{}
