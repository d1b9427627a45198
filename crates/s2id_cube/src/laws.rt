//! Laws: functions that do nothing; their contracts state facts about definitions.

ghost use Rattle.std.specs.Prelude.{◌≡◌, ◌↔◌, IsTrue, ℕ, ◌+◌, ◌*◌, ◌/◌, ◌%◌, ◌^◌, ◌<◌, ◌≤◌, length, slice_index};
ghost use Rattle.s2id_core.specs.declared.cell_id.CellId.{CellId};
ghost use Rattle.s2id_core.specs.CellId.{path_of};
ghost use Rattle.s2id_core.specs.Path.{Path, IsPath, place_of};
ghost use Rattle.s2id_cube.specs.declared.error.BorderError.{BorderError};
ghost use Rattle.s2id_cube.specs.declared.face_ij.FaceIj.{FaceIj};
ghost use Rattle.s2id_cube.specs.Edge.{SharesSide, ShareEdge};
ghost use Rattle.s2id_cube.specs.Square.{square_of};
ghost use Rattle.s2id_cube.specs.FourLevels.{AreFourLevels};

use crate::curve::{PLACES, SQUARES};
use crate::error::BorderError;
use crate::face_ij::FaceIj;

/// A cell's square is one that `from_face_ij` takes, and its face, column, row and level tell the cell: so
/// `from_face_ij` of what `to_face_ij` gives is the cell again.
pub fn square_tells_cell()
    ensures taken { (a : CellId)
        → let s = square_of (path_of a) in
        (s.face < 6) × (s.level ≤ 30) × (s.i < 2 ^ s.level) × (s.j < 2 ^ s.level) }
    ensures one { (a b : CellId)
        → let s = square_of (path_of a) in
        let t = square_of (path_of b) in
        s.face ≡ t.face → s.i ≡ t.i → s.j ≡ t.j → s.level ≡ t.level → a ≡ b }
{}

/// The curve is one closed loop: a cell and the next cell of its level along the curve share an edge, at every level.
pub fn next_cell_shares_edge()
    ensures { (p q : Path)
        → IsPath p
        → IsPath q
        → length p.digits ≡ length q.digits
        → place_of q ≡ (place_of p + 1) % (6 * 4 ^ length p.digits)
        → ShareEdge p q }
{}

/// The four cells over the sides of a cell differ: no other cell shares two of its sides.
pub fn two_cells_share_one_side()
    ensures { (m n : ℕ) (p q : Path)
        → m < 4
        → n < 4
        → IsPath p
        → IsPath q
        → SharesSide m p q
        → SharesSide n p q
        → m ≡ n }
{}

/// Every entry of the two tables of the curve is four steps of it.
pub fn entries_are_four_levels()
    ensures squares { (orientation positions : ℕ)
        → orientation < 4
        → positions < 256
        → let entry = slice_index SQUARES (256 * orientation + positions) in
        AreFourLevels orientation positions (entry % 2 ^ 62 / 2 ^ 32) (entry % 2 ^ 32) (entry / 2 ^ 62) }
    ensures places { (orientation i j : ℕ)
        → orientation < 4
        → i < 16
        → j < 16
        → let entry = slice_index PLACES (256 * orientation + (16 * i + j)) in
        AreFourLevels orientation (entry % 2 ^ 62) i j (entry / 2 ^ 62) }
{}

/// Two squares are equal exactly if they are the same.
pub fn equal_squares_are_one()
    ensures { (a b : FaceIj) → IsTrue (⟦<FaceIj as PartialEq>⟧.eq a b) ↔ (a ≡ b) }
{}

/// A clone of a square is the same, and cloning never fails.
pub fn cloned_squares_are_the_same()
    ensures same { (a copy : FaceIj) → ⟦<FaceIj as Clone>⟧.is_clone a copy ↔ (copy ≡ a) }
    ensures never_fails { (a : FaceIj) → ⟦<FaceIj as Clone>⟧.is_infallible a }
{}

/// Two refusals of a border are equal exactly if they are the same.
pub fn equal_border_errors_are_one()
    ensures { (a b : BorderError) → IsTrue (⟦<BorderError as PartialEq>⟧.eq a b) ↔ (a ≡ b) }
{}

/// A clone of a refusal of a border is the same, and cloning never fails.
pub fn cloned_border_errors_are_the_same()
    ensures same { (a copy : BorderError) → ⟦<BorderError as Clone>⟧.is_clone a copy ↔ (copy ≡ a) }
    ensures never_fails { (a : BorderError) → ⟦<BorderError as Clone>⟧.is_infallible a }
{}
