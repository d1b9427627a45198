//! Searches in a normal list.

ghost use Rattle.std.specs.Prelude.{◌≤◌, ◌↔◌, IsTrue, length};
ghost use Rattle.s2id_core.specs.CellId.{path_of};
ghost use Rattle.s2id_union.specs.Region.{IsNormal, HasAllOf, Meets};
ghost use Rattle.s2id_union.specs.Covers.{FollowOneAnother};
ghost use Rattle.s2id_union.specs.Loops.{IsAhead};

use s2id_core::CellId;

// How many cells end by a place. O(log n).
fn count_passed(cells: &[CellId], at: u64) -> usize
    requires { FollowOneAnother cells.now }
    ensures within { result ≤ length cells.now }
    ensures ahead { IsAhead cells.now result at }
{
    let mut low = 0;
    let mut high = cells.len();
    while low < high {
        let middle = low + (high - low) / 2;
        if cells[middle].span_end() <= at {
            low = middle + 1;
        } else {
            high = middle;
        }
    }
    low
}

// Whether each leaf of a cell is in the region. O(log n).
pub(crate) fn has_all(cells: &[CellId], cell: CellId) -> bool
    requires { IsNormal cells.now }
    ensures { IsTrue result ↔ HasAllOf cells.now (path_of cell) }
{
    let k = count_passed(cells, cell.span_start());
    k < cells.len() && cells[k].contains(cell)
}

// Whether some leaf of a cell is in the region. O(log n).
pub(crate) fn meets(cells: &[CellId], cell: CellId) -> bool
    requires { IsNormal cells.now }
    ensures { IsTrue result ↔ Meets cells.now (path_of cell) }
{
    let k = count_passed(cells, cell.span_start());
    k < cells.len() && cells[k].intersects(cell)
}
