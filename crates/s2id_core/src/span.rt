//! Cells as spans of leaves.

ghost use Rattle.std.specs.Prelude.{◌≡◌, ◌↔◌, ◌+◌, ◌*◌, ◌^◌, ◌<◌, ◌≤◌, ◌⊎◌, IsTrue};

use crate::cell_id::CellId;

impl CellId {
    ghost use Rattle.s2id_core.specs.Path.{first_leaf, last_leaf};
    ghost use Rattle.s2id_core.specs.Leaves.{IsWithin, Contains, Overlap};
    ghost use Rattle.s2id_core.specs.Span.{IsNested};
    ghost use Rattle.s2id_core.specs.CellId.{raw_of, path_of, first_of, end_of};

    /// The cell's first leaf along the curve (S2's `range_min()`).
    pub fn range_min(self) -> CellId
        ensures path { path_of result ≡ first_leaf (path_of self) }
        ensures number { raw_of result ≡ first_of self }
    {
        CellId::at_place(30, self.span_start() / 2)
    }

    /// The cell's last leaf along the curve (S2's `range_max()`).
    pub fn range_max(self) -> CellId
        ensures path { path_of result ≡ last_leaf (path_of self) }
        ensures number { raw_of result + 2 ≡ end_of self }
    {
        CellId::at_place(30, self.span_end() / 2 - 1)
    }

    /// The number of the cell's first leaf, with which its span begins.
    pub fn span_start(self) -> u64
        ensures { result ≡ first_of self }
    {
        self.raw() - self.lsb() + 1
    }

    /// The leaf number after that of the cell's last leaf, with which its span ends: `LEAF_END` for the last cells of
    /// face 5.
    pub fn span_end(self) -> u64
        ensures { result ≡ end_of self }
    {
        self.raw() + self.reach() + 2
    }

    /// Whether each leaf of the other cell is one of this cell's (S2's `contains()`).
    pub fn contains(self, other: CellId) -> bool
        ensures leaves { IsTrue result ↔ Contains (path_of self) (path_of other) }
        ensures within { IsTrue result ↔ IsWithin (path_of other) (path_of self) }
        ensures nested { IsTrue result ↔ IsNested (raw_of other) (raw_of self) }
    {
        self.reaches(other)
    }

    /// Whether the two cells share a leaf: then one contains the other (S2's `intersects()`).
    pub fn intersects(self, other: CellId) -> bool
        ensures leaves { IsTrue result ↔ Overlap (path_of self) (path_of other) }
        ensures spans { IsTrue result
            ↔ ((first_of self < end_of other) × (first_of other < end_of self)) }
        ensures nested { IsTrue result
            ↔ (IsNested (raw_of other) (raw_of self) ⊎ IsNested (raw_of self) (raw_of other)) }
    {
        self.crosses(other)
    }

    // Whether the other cell's number lies between this cell's first leaf and its last.
    fn reaches(self, other: CellId) -> bool
        ensures { IsTrue result
            ↔ ((first_of self ≤ raw_of other) × (raw_of other + 2 ≤ end_of self)) }
    {
        let reach = self.reach();
        self.raw() - reach <= other.raw() && other.raw() <= self.raw() + reach
    }

    // Whether each of the two cells begins before the other ends.
    fn crosses(self, other: CellId) -> bool
        ensures { IsTrue result
            ↔ ((first_of self < end_of other) × (first_of other < end_of self)) }
    {
        let reach = self.reach();
        let other_reach = other.reach();
        self.raw() - reach <= other.raw() + other_reach
            && other.raw() - other_reach <= self.raw() + reach
    }

    // How far the cell's first leaf and its last are from the cell's number.
    fn reach(self) -> u64
        ensures from { first_of self + result ≡ raw_of self }
        ensures to { end_of self ≡ raw_of self + result + 2 }
        ensures fits { raw_of self + result < 6 * 2 ^ 61 }
    {
        self.lsb() - 1
    }
}
