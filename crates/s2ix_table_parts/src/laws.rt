//! Laws: functions that do nothing; their contracts state facts about definitions.
ghost use Rattle.std.specs.Prelude.{◌≡◌, ◌↔◌, List};
ghost use Rattle.s2ix_bag_pairs.specs.Collection.{Collection};
ghost use Rattle.s2ix_table_parts.specs.FaceSpans.{TablePart};

use crate::change::face_after::Face;
use crate::heavy_pairs::HeavyPairs;
pub use crate::heavy_pairs::heavy_pairs_are_in_chunks;
use crate::part::Part;

/// A clone of a part has the same table, and the same place leads to the heavy pairs over it.
pub fn cloned_parts_are_the_same()
    ensures { (part copy : TablePart) → ⟦<Part as Clone>⟧.is_clone part copy ↔ (copy ≡ part) }
{}

/// A clone of the heavy pairs of a face has the same pairs in the same chunks.
pub fn cloned_heavy_pairs_are_the_same()
    ensures { (heavy copy : List Collection) → ⟦<HeavyPairs as Clone>⟧.is_clone heavy copy ↔ (copy ≡ heavy) }
{}

/// A clone of a face is the same, and cloning never fails.
pub fn cloned_faces_are_the_same<'a>()
    ensures same { (face copy : _) → ⟦<Face<'a> as Clone>⟧.is_clone face copy ↔ (copy ≡ face) }
    ensures never_fails { (face : _) → ⟦<Face<'a> as Clone>⟧.is_infallible face }
{}
