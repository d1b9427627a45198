//! Ancestors, children and neighbours along the curve.

ghost use Rattle.std.specs.Prelude.{◌≡◌, ◌↔◌, ◌+◌, ◌-◌, ◌*◌, ◌%◌, ◌^◌, ◌<◌, ◌≤◌, IsSome, IfSome, slice_get, slice_index};

use crate::cell_id::CellId;

impl CellId {
    ghost use Rattle.s2id_core.specs.Path.{ancestor, child};
    ghost use Rattle.s2id_core.specs.Leaves.{IsCommonLevel};
    ghost use Rattle.s2id_core.specs.CellId.{path_of, face_of, level_of};

    /// The ancestor at a level: the cell itself at its own level, `None` for a finer one (S2's `parent()`).
    pub fn parent(self, level: u8) -> Option<CellId>
        ensures found { IsSome result ↔ (level ≤ level_of self) }
        ensures path { IfSome result (λ cell. path_of cell ≡ ancestor level (path_of self)) }
    {
        if level > self.level() {
            None
        } else {
            Some(CellId::at_place(level, self.place_at(level)))
        }
    }

    /// The child at a position, 0 to 3 along the curve; `None` for a leaf and for another position (S2's `child()`).
    pub fn child(self, position: u8) -> Option<CellId>
        ensures found { IsSome result ↔ ((level_of self < 30) × (position < 4)) }
        ensures path { IfSome result (λ cell. path_of cell ≡ child position (path_of self)) }
    {
        let level = self.level();
        if level == 30 || position > 3 {
            None
        } else {
            Some(CellId::at_place(level + 1, 4 * self.place_at(level) + position as u64))
        }
    }

    /// The position, 0 to 3, that the cell's path has at a level; `None` for level 0 and for a level finer than the cell's (S2's
    /// `child_position()`).
    pub fn child_position(self, level: u8) -> Option<u8>
        ensures found { IsSome result ↔ ((0 < level) × (level ≤ level_of self)) }
        ensures digit { IfSome result (λ position.
            slice_get (path_of self).digits (level - 1) ≡ Some position) }
    {
        if level == 0 || level > self.level() {
            None
        } else {
            Some(self.digit(level))
        }
    }

    /// The level of the smallest cell that contains both; `None` for cells of two faces
    /// (S2's `GetCommonAncestorLevel()`).
    pub fn common_level(self, other: CellId) -> Option<u8>
        ensures found { IsSome result ↔ (face_of self ≡ face_of other) }
        ensures value { IfSome result (IsCommonLevel (path_of self) (path_of other)) }
    {
        if self.face() != other.face() {
            return None;
        }
        let level = self.level().min(other.level());
        let apart = self.place_at(level) ^ other.place_at(level);
        Some(level - ((65 - apart.leading_zeros()) / 2) as u8)
    }

    // The digit of a level: the position of the cell of that level among its siblings.
    pub(crate) fn digit(self, level: u8) -> u8
        requires below_face { 0 < level }
        requires fine { level ≤ level_of self }
        ensures value { result ≡ slice_index (path_of self).digits (level - 1) }
        ensures bound { result < 4 }
    {
        (self.place_at(level) & 3) as u8
    }
}
