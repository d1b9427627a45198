ghost use Rattle.std.specs.Prelude.{◌≡◌, ◌↔◌, ◌<◌, ◌≤◌, ◌⊎◌, ◌&&◌, ◌||◌, not, nat_le, nat_lt, IsTrue, IfOk, IfErr, OnOk, List, length};
ghost use Rattle.s2id_core.specs.CellId.{path_of};
ghost use Rattle.s2id_core.specs.Path.{Path, number_of};
ghost use Rattle.s2id_core.specs.Leaves.{IsLeafPath};
ghost use Rattle.s2id_union.specs.Region.{InRegion, IsNormal, HaveSameRegion, HasAllOf, Meets, IsLeafList};
ghost use Rattle.s2id_union.specs.NormalForm.{normal_form, cells_where, is_covered};
ghost use Rattle.s2id_union.specs.Range.{IsLeafRange, IsRangeRefusal};

use crate::count::count_leaves;
use crate::error::RangeError;
use crate::join::normal_list;
use crate::search::{has_all, meets};
use crate::shared::shared_cells;
use crate::span::add_span;
use crate::sweep::{Operation, sweep_both};
use s2id_core::{CellId, LEAF_END, OutOfMemory};
use std::alloc::{AllocError, Global};
use std::marker::Model;

/// A set of leaves, kept as its one normal list of cells: in rising order, no cell within another, and no four
/// cells that are all the children of one (S2's `S2CellUnion`). Contracts see a union as that list.
#[derive(Debug, Drop)]
pub struct CellUnion {
    cells: Vec<CellId>,
}

impl Model for CellUnion {
    ghost use Rattle.std.specs.Prelude.{List};
    ghost use Rattle.s2id_core.specs.declared.cell_id.CellId.{CellId};
    ghost use Rattle.s2id_union.specs.Region.{IsNormal};

    ghost Value = { List CellId };

    ghost view = { λ u. u.cells.items };

    ghost invariant = { λ u. IsNormal u.cells.items };
}

impl CellUnion {
    /// The leaves whose numbers are at least `start` and below `limit` (S2's `FromBeginEnd()`). Leaf numbers are odd; equal bounds give the
    /// empty union. `BadRange` if a bound is even, or not `1 <= start <= limit <= LEAF_END`. O(cells made): at most 184, three of each
    /// level 1 to 30 at either end of the span and four whole faces between. `OutOfMemory` if a growth is refused.
    pub fn from_leaves(alloc: Global, start: u64, limit: u64) -> Result<CellUnion, RangeError>
        ensures leaves { IfOk result (λ union. (leaf : Path) → IsLeafPath leaf → InRegion union leaf
            ↔ ((start ≤ number_of leaf) × (number_of leaf < limit))) }
        ensures normal { IfOk result IsNormal }
        ensures form { IfOk result (λ union.
            union ≡ cells_where (λ q. nat_le start q && nat_lt q limit)) }
        ensures at_most { IfOk result (λ union. length union ≤ 184) }
        ensures accepted { OnOk result (IsLeafRange start limit) }
        ensures refused { IfErr result (λ error. IsRangeRefusal error start limit) }
    {
        if start % 2 == 0 || limit % 2 == 0 || start > limit || limit > LEAF_END {
            return Err(RangeError::BadRange);
        }
        let mut cells = Vec::new(alloc);
        add_span(&mut cells, start, limit)?;
        Ok(CellUnion { cells })
    }

    /// The cells in rising order (S2's `cell_ids()`).
    pub fn cells(&self) -> &[CellId]
        ensures list { result.now ≡ self.now }
        ensures normal { IsNormal self.now }
    {
        self.cells.as_slice()
    }

    /// Whether each leaf of a cell is in the union (S2's `Contains()`). O(log n).
    pub fn contains(&self, cell: CellId) -> bool
        ensures { IsTrue result ↔ HasAllOf self.now (path_of cell) }
    {
        has_all(self.cells.as_slice(), cell)
    }

    /// Whether some leaf of a cell is in the union (S2's `Intersects()`). O(log n).
    pub fn intersects(&self, cell: CellId) -> bool
        ensures { IsTrue result ↔ Meets self.now (path_of cell) }
    {
        meets(self.cells.as_slice(), cell)
    }

    /// The union of the leaves of any cells, in any order and repeated or not (S2's constructor from ids). It never has more cells than were
    /// given. O(n log n) for n cells given, or O(n) if they come in order. `OutOfMemory` if a growth is refused.
    pub fn normalise(alloc: Global, cells: &[CellId]) -> Result<CellUnion, OutOfMemory>
        ensures region { IfOk result (λ union. HaveSameRegion union cells.now) }
        ensures normal { IfOk result IsNormal }
        ensures form { IfOk result (λ union. union ≡ normal_form cells.now) }
        ensures at_most { IfOk result (λ union. length union ≤ length cells.now) }
    {
        let cells = normal_list(alloc, cells)?;
        Ok(CellUnion { cells })
    }

    /// The leaves that are in this union, in the other, or in both (S2's `Union()`). O(n + m + c) for the two unions' n and m cells and the
    /// c cells made. `OutOfMemory` if a growth is refused.
    pub fn union(&self, alloc: Global, other: &CellUnion) -> Result<CellUnion, OutOfMemory>
        ensures leaves { IfOk result (λ union. (leaf : Path) → IsLeafPath leaf → InRegion union leaf
            ↔ (InRegion self.now leaf ⊎ InRegion other.now leaf)) }
        ensures normal { IfOk result IsNormal }
        ensures form { IfOk result (λ union.
            union ≡ cells_where (λ q. is_covered self.now q || is_covered other.now q)) }
    {
        let first = self.cells();
        let second = other.cells();
        let cells = sweep_both(alloc, Operation::Union, first, second)?;
        Ok(CellUnion { cells })
    }

    /// The leaves that are in both unions (S2's `Intersection()`). O(n + m + c) for the two unions' n and m cells and the c cells made.
    /// `OutOfMemory` if a growth is refused.
    pub fn intersection(&self, alloc: Global, other: &CellUnion) -> Result<CellUnion, OutOfMemory>
        ensures leaves { IfOk result (λ union. (leaf : Path) → IsLeafPath leaf → InRegion union leaf
            ↔ (InRegion self.now leaf × InRegion other.now leaf)) }
        ensures normal { IfOk result IsNormal }
        ensures form { IfOk result (λ union.
            union ≡ cells_where (λ q. is_covered self.now q && is_covered other.now q)) }
    {
        let first = self.cells();
        let second = other.cells();
        let cells = shared_cells(alloc, first, second)?;
        Ok(CellUnion { cells })
    }

    /// The leaves that are in this union and not in the other (S2's `Difference()`). O(n + m + c) for the two unions' n and m cells and the
    /// c cells made. `OutOfMemory` if a growth is refused.
    pub fn difference(&self, alloc: Global, other: &CellUnion) -> Result<CellUnion, OutOfMemory>
        ensures leaves { IfOk result (λ union. (leaf : Path) → IsLeafPath leaf → InRegion union leaf
            ↔ (InRegion self.now leaf × (InRegion other.now leaf → ⊥))) }
        ensures normal { IfOk result IsNormal }
        ensures form { IfOk result (λ union.
            union ≡ cells_where (λ q. is_covered self.now q && not (is_covered other.now q))) }
    {
        let first = self.cells();
        let second = other.cells();
        let cells = sweep_both(alloc, Operation::Difference, first, second)?;
        Ok(CellUnion { cells })
    }

    /// The number of leaves in the union (S2's `LeafCellsCovered()`). O(n).
    pub fn leaf_count(&self) -> u64
        ensures { (leaves : List Path) × IsLeafList self.now leaves × (length leaves ≡ result) }
    {
        count_leaves(self.cells())
    }
}

/// A union of the same cells. O(n) for n cells.
impl Clone for CellUnion {
    ghost is_clone = { λ union copy. copy ≡ union };

    fn clone(&self) -> Result<CellUnion, AllocError> {
        let cells = self.cells.clone()?;
        Ok(CellUnion { cells })
    }
}
