ghost use Rattle.std.specs.Prelude.{◌≡◌, ◌↔◌, ℕ, ◌+◌, ◌-◌, ◌*◌, ◌^◌, ◌<◌, ◌≤◌, ◌⊎◌, IfOk, IsErrOf, Any, AllPairs, Contains as HasElement, length};
ghost use Rattle.s2id_core.specs.declared.cell_id.CellId.{CellId};
ghost use Rattle.s2id_core.specs.Path.{Path};
ghost use Rattle.s2id_core.specs.CellId.{raw_of, path_of, level_of};
ghost use Rattle.s2id_cube.specs.Border.{IsOnBorder};
ghost use Rattle.s2id_cube.specs.Loops.{IsOverAt, IsOverFirst, IsOverSides};

use crate::error::BorderError;
use crate::face_ij::{FaceIj, to_face_ij};
use crate::neighbors::{neighbor, on_side};
use s2id_core::{CellId, OutOfMemory};
use std::alloc::Global;

/// The cells of a level just outside the cell: each shares an edge with a cell of that level inside it. Each comes once, in rising order.
/// At the cell's own level these are its four edge neighbours (S2 has `AppendAllNeighbors`, which counts corners too). At most
/// `n = 4 * 2^(level - cell's level)` cells, so at most 1024; O(n log n). `Coarser` for a level below the cell's; `TooFine` for one above
/// 30, or more than 8 above the cell's; `OutOfMemory` if a growth is refused.
pub fn border(alloc: Global, cell: CellId, level: u8) -> Result<Vec<CellId>, BorderError>
    ensures coarser { IsErrOf result BorderError.Coarser ↔ (level < level_of cell) }
    ensures too_fine { IsErrOf result BorderError.TooFine
        ↔ ((level_of cell ≤ level) × ((30 < level) ⊎ (level_of cell + 8 < level))) }
    ensures rising { IfOk result (λ cells. AllPairs (λ x y. raw_of x < raw_of y) cells.items) }
    ensures cells { IfOk result (λ cells. (x : CellId)
        → HasElement cells.items x
        ↔ IsOnBorder (path_of cell) level (path_of x)) }
    ensures complete { IfOk result (λ cells. (q : Path)
        → IsOnBorder (path_of cell) level q
        → Any (λ x. path_of x ≡ q) cells.items) }
    ensures along_sides { IfOk result (λ cells. length cells.items ≤ 4 * 2 ^ (level - level_of cell)) }
    ensures at_most { IfOk result (λ cells. length cells.items ≤ 1024) }
{
    let own = cell.level();
    if level < own {
        return Err(BorderError::Coarser);
    }
    if level > 30 || level - own > 8 {
        return Err(BorderError::TooFine);
    }
    let mut cells = cells_round(alloc, to_face_ij(cell), level - own)?;
    cells.sort_unstable();
    cells.dedup();
    Ok(cells)
}

// The cells over the four sides of a square, `depth` levels finer, side by side.
fn cells_round(alloc: Global, square: FaceIj, depth: u8) -> Result<Vec<CellId>, OutOfMemory>
    requires face { square.face < 6 }
    requires depth { depth ≤ 8 }
    requires level { square.level + depth ≤ 30 }
    requires column { square.i < 2 ^ square.level }
    requires row { square.j < 2 ^ square.level }
    ensures cells { IfOk result (λ cells. (x : CellId)
        → HasElement cells.items x
        ↔ IsOverSides square depth 4 (path_of x)) }
    ensures length { IfOk result (λ cells. length cells.items ≡ 4 * 2 ^ depth) }
{
    let mut cells = Vec::with_capacity(alloc, 4 << depth)?;
    for side in 0..4 {
        add_side(&mut cells, square, depth, side)?;
    }
    Ok(cells)
}

// Adds the cells over one side of a square, `depth` levels finer, in the order of the side.
fn add_side(cells: &mut Vec<CellId>, square: FaceIj, depth: u8, side: u8) -> Result<(), OutOfMemory>
    requires face { square.face < 6 }
    requires depth { depth ≤ 8 }
    requires level { square.level + depth ≤ 30 }
    requires column { square.i < 2 ^ square.level }
    requires row { square.j < 2 ^ square.level }
    requires side { side < 4 }
    ensures cells { IfOk result (λ _. (x : CellId)
        → HasElement cells.new.items x
        ↔ (HasElement cells.old.items x ⊎ IsOverFirst square depth side (2 ^ depth) (path_of x))) }
    ensures length { IfOk result (λ _. length cells.new.items ≡ length cells.old.items + 2 ^ depth) }
{
    for along in 0..1 << depth {
        cells.push(over_side(square, depth, side, along))?;
    }
    Ok(())
}

// The cell over the finer square at a place along one side of a square.
fn over_side(square: FaceIj, depth: u8, side: u8, along: u32) -> CellId
    requires face { square.face < 6 }
    requires depth { depth ≤ 8 }
    requires level { square.level + depth ≤ 30 }
    requires column { square.i < 2 ^ square.level }
    requires row { square.j < 2 ^ square.level }
    requires side { side < 4 }
    requires along { along < 2 ^ depth }
    ensures { IsOverAt square depth side along (path_of result) }
{
    let (i, j) = on_side(side, along, (1 << depth) - 1);
    let column = (square.i << depth) + i;
    let row = (square.j << depth) + j;
    neighbor(square.face, column, row, square.level + depth, side)
}
