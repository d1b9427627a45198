//! Laws: functions that do nothing; their contracts state facts about definitions.
ghost use Rattle.s2ix_table_faced.specs.ReadingLaws.{UnchangedFacesStay};
ghost use Rattle.std.specs.Prelude.{◌≡◌, ◌↔◌, IsTrue, ◌+◌, ◌*◌, ◌≤◌, length};
ghost use Rattle.s2ix_table_spans.specs.Once.{KeepsOnce};
ghost use Rattle.s2ix_table_faced.specs.declared.part_place.FaceHeavyPlace.{FaceHeavyPlace};
ghost use Rattle.s2ix_table_faced.specs.declared.part_place.FacedPlace.{FacedPlace};
ghost use Rattle.s2ix_table_faced.specs.declared.part_place.PartPlace.{PartPlace};

use crate::faced_table::FacedTable;
use crate::part_place::{FaceHeavyPlace, FacedPlace, PartPlace};
use crate::shares_chains::SharesChains;
use s2ix_table_queries::RangeTable;

/// If a change has no entry on a face, the pairs held there before and after it are the same, with the same counts.
pub fn unchanged_faces_stay()
    ensures { UnchangedFacesStay }
{}

/// A pair has one place in a table with shared chains: each chain that holds it holds it at a place, and two chains hold it at the same
/// one.
pub fn keeps_a_pair_once<T: SharesChains>(table: &T)
    ensures { KeepsOnce (T.chain table.now) }
{}

/// Two places in a `FacedTable` are equal exactly if they are the same.
pub fn equal_faced_places_are_one()
    ensures { (a b : FacedPlace) → IsTrue (⟦<FacedPlace as PartialEq>⟧.eq a b) ↔ (a ≡ b) }
{}

/// A clone of a place in a `FacedTable` is the same, and cloning never fails.
pub fn cloned_faced_places_are_the_same()
    ensures same { (a copy : FacedPlace) → ⟦<FacedPlace as Clone>⟧.is_clone a copy ↔ (copy ≡ a) }
    ensures never_fails { (a : FacedPlace) → ⟦<FacedPlace as Clone>⟧.is_infallible a }
{}

/// Two places of light pairs in a `FacedTable` are equal exactly if they are the same.
pub fn equal_part_places_are_one()
    ensures { (a b : PartPlace) → IsTrue (⟦<PartPlace as PartialEq>⟧.eq a b) ↔ (a ≡ b) }
{}

/// A clone of a place of a light pair in a `FacedTable` is the same, and cloning never fails.
pub fn cloned_part_places_are_the_same()
    ensures same { (a copy : PartPlace) → ⟦<PartPlace as Clone>⟧.is_clone a copy ↔ (copy ≡ a) }
    ensures never_fails { (a : PartPlace) → ⟦<PartPlace as Clone>⟧.is_infallible a }
{}

/// Two places of heavy pairs in a `FacedTable` are equal exactly if they are the same.
pub fn equal_face_heavy_places_are_one()
    ensures { (a b : FaceHeavyPlace) → IsTrue (⟦<FaceHeavyPlace as PartialEq>⟧.eq a b) ↔ (a ≡ b) }
{}

/// A clone of a place of a heavy pair in a `FacedTable` is the same, and cloning never fails.
pub fn cloned_face_heavy_places_are_the_same()
    ensures same { (a copy : FaceHeavyPlace) → ⟦<FaceHeavyPlace as Clone>⟧.is_clone a copy ↔ (copy ≡ a) }
    ensures never_fails { (a : FaceHeavyPlace) → ⟦<FaceHeavyPlace as Clone>⟧.is_infallible a }
{}

/// A `FacedTable` of n pairs has at most 2 * n + 1 ranges.
pub fn faced_table_has_few_ranges(table: &FacedTable)
    ensures { length (⟦<FacedTable as RangeTable>⟧.ranges table.now) ≤ 2 * length (⟦<FacedTable as RangeTable>⟧.pairs table.now) + 1 }
{}
