//! Laws: functions that do nothing; their contracts state facts about definitions.
ghost use Rattle.std.specs.Prelude.{◌≡◌, ◌↔◌, IsTrue};
ghost use Rattle.s2ix_table_spans.specs.Once.{KeepsOnce};
ghost use Rattle.s2ix_table_heavy.specs.Chunks.{AreChunks};
ghost use Rattle.s2ix_table_heavy.specs.HeavyChains.{heavy_chain};
ghost use Rattle.s2ix_table_heavy.specs.declared.heavy_place.HeavyPlace.{HeavyPlace};

use crate::heavy_place::HeavyPlace;
use crate::heavy_table::HeavyTable;

/// The chunks of a table rise, none is empty, and each has pairs of one cell.
pub fn chunks_are_in_order(table: &HeavyTable)
    ensures { AreChunks table.now }
{
    let _ = &table.chunks;
}

/// A heavy pair has one place: each chain that holds it holds it at a place, and two chains hold it at the same one.
pub fn heavy_pairs_have_one_place(table: &HeavyTable)
    ensures { KeepsOnce (heavy_chain table.now) }
{
    let _ = &table.chunks;
}

/// Two places of heavy pairs are equal exactly if they are the same.
pub fn equal_heavy_places_are_one()
    ensures { (a b : HeavyPlace) → IsTrue (⟦<HeavyPlace as PartialEq>⟧.eq a b) ↔ (a ≡ b) }
{}

/// A clone of a place of a heavy pair is the same, and cloning never fails.
pub fn cloned_heavy_places_are_the_same()
    ensures same { (a copy : HeavyPlace) → ⟦<HeavyPlace as Clone>⟧.is_clone a copy ↔ (copy ≡ a) }
    ensures never_fails { (a : HeavyPlace) → ⟦<HeavyPlace as Clone>⟧.is_infallible a }
{}
