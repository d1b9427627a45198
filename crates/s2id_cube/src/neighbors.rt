ghost use Rattle.std.specs.Prelude.{◌≡◌, ◌≢◌, ℕ, ◌+◌, ◌-◌, ◌*◌, ◌/◌, ◌^◌, ◌<◌, ◌≤◌, length, slice_index_or, AllPairs};
ghost use Rattle.s2id_core.specs.Path.{Path, IsPath};
ghost use Rattle.s2id_core.specs.CellId.{path_of, raw_of, level_of};
ghost use Rattle.s2id_cube.specs.Square.{square_of};
ghost use Rattle.s2id_cube.specs.Edge.{SharesSide, ShareEdge};
ghost use Rattle.s2id_cube.specs.Neighbor.{neighbor_number};
ghost use Rattle.s2id_cube.specs.Grid.{IsBeside, column_on, row_on};
ghost use Rattle.s2id_cube.specs.Loops.{IsInTile, IsCellSquare, IsOverSide};

use crate::face_ij::{FaceIj, cell_of_square, to_face_ij};
use crate::tile::{InTile, cell_in, in_tile};
use s2id_core::CellId;

// The face over each side of a face, in the order down, right, up, left, four for each face.
const FACES_OVER: [u8; 24] = [
    5, 1, 2, 4, 5, 3, 2, 0, 1, 3, 4, 0, 1, 5, 4, 2, 3, 5, 0, 2, 3, 1, 0, 4,
];

// The side of that face on which the edge lies.
const SIDES_OVER: [u8; 24] = [
    2, 3, 3, 2, 1, 0, 0, 1, 2, 3, 3, 2, 1, 0, 0, 1, 2, 3, 3, 2, 1, 0, 0, 1,
];

// 1 if the places along the two sides run against each other, else 0.
const REVERSALS: [u8; 24] = [
    0, 0, 1, 1, 1, 1, 0, 0, 0, 0, 1, 1, 1, 1, 0, 0, 0, 0, 1, 1, 1, 1, 0, 0,
];

/// The cells of the cell's level that share an edge with it: down (`j` less), right (`i` more), up (`j` more) and left (`i` less), over the
/// edges of the cube too (S2's `GetEdgeNeighbors`). From level 4 on it takes one step of four levels for the cell, one for each neighbour
/// with the same ancestor four levels up, and 16 for each other.
pub fn edge_neighbors(cell: CellId) -> [CellId; 4]
    ensures sides { (side : ℕ)
        → side < 4
        → SharesSide side (path_of cell) (path_of (slice_index_or result side cell)) }
    ensures only { (other : Path)
        → IsPath other
        → ShareEdge (path_of cell) other
        → (side : ℕ) × (side < 4) × (path_of (slice_index_or result side cell) ≡ other) }
    ensures numbers { (side : ℕ)
        → side < 4
        → raw_of (slice_index_or result side cell) ≡ neighbor_number side (path_of cell) }
    ensures distinct { AllPairs (λ x y. x ≢ y) result }
{
    if cell.level() < 4 {
        coarse_neighbors(cell)
    } else {
        fine_neighbors(cell)
    }
}

// The cells over the four sides of a cell that is coarser than level 4.
#[inline(never)]
fn coarse_neighbors(cell: CellId) -> [CellId; 4]
    ensures long { length result ≡ 4 }
    ensures over { (side : ℕ)
        → side < 4
        → IsOverSide (square_of (path_of cell)) side (path_of (slice_index_or result side cell)) }
{
    let square = to_face_ij(cell);
    [
        over_side(&square, 0),
        over_side(&square, 1),
        over_side(&square, 2),
        over_side(&square, 3),
    ]
}

// The cells over the four sides of a cell of level 4 or finer.
#[inline(always)]
fn fine_neighbors(cell: CellId) -> [CellId; 4]
    requires { 4 ≤ level_of cell }
    ensures long { length result ≡ 4 }
    ensures over { (side : ℕ)
        → side < 4
        → IsOverSide (square_of (path_of cell)) side (path_of (slice_index_or result side cell)) }
{
    let tile = in_tile(cell);
    [
        cell_over(cell, &tile, 0),
        cell_over(cell, &tile, 1),
        cell_over(cell, &tile, 2),
        cell_over(cell, &tile, 3),
    ]
}

// The cell over one side of a cell, in its tile or out of it.
#[inline(always)]
fn cell_over(cell: CellId, tile: &InTile, side: u8) -> CellId
    requires tile { IsInTile (square_of (path_of cell)) tile.now.level tile.now.place tile.now.start tile.now.column tile.now.row }
    requires side { side < 4 }
    ensures { IsOverSide (square_of (path_of cell)) side (path_of result) }
{
    if side == 0 {
        if tile.row > 0 {
            cell_in(tile, tile.column, tile.row - 1)
        } else {
            far_neighbor(cell, 0)
        }
    } else if side == 1 {
        if tile.column < 15 {
            cell_in(tile, tile.column + 1, tile.row)
        } else {
            far_neighbor(cell, 1)
        }
    } else if side == 2 {
        if tile.row < 15 {
            cell_in(tile, tile.column, tile.row + 1)
        } else {
            far_neighbor(cell, 2)
        }
    } else {
        if tile.column > 0 {
            cell_in(tile, tile.column - 1, tile.row)
        } else {
            far_neighbor(cell, 3)
        }
    }
}

// The cell over one side of any cell, by its square.
#[inline(never)]
fn far_neighbor(cell: CellId, side: u8) -> CellId
    requires { side < 4 }
    ensures { IsOverSide (square_of (path_of cell)) side (path_of result) }
{
    let square = to_face_ij(cell);
    over_side(&square, side)
}

// The cell over one side of the square of a cell.
fn over_side(square: &FaceIj, side: u8) -> CellId
    requires square { IsCellSquare square.now }
    requires side { side < 4 }
    ensures { IsOverSide square.now side (path_of result) }
{
    neighbor(square.face, square.i, square.j, square.level, side)
}

// The cell over one side of a square of a level.
pub(crate) fn neighbor(face: u8, i: u32, j: u32, level: u8, side: u8) -> CellId
    requires face { face < 6 }
    requires level { level ≤ 30 }
    requires column { i < 2 ^ level }
    requires row { j < 2 ^ level }
    requires side { side < 4 }
    ensures level { (square_of (path_of result)).level ≡ level }
    ensures beside { let other = square_of (path_of result)
        in IsBeside (2 ^ level) side face i j other.face other.i other.j }
{
    let last = (1 << level) - 1;
    let (face_over, column, row) = beside(face, i, j, last, side);
    cell_of_square(face_over, column, row, level)
}

// The square over one side of a square, on the same face or over an edge of the cube: its face, column and row. `last` is the grid's
// last column and row.
fn beside(face: u8, i: u32, j: u32, last: u32, side: u8) -> (u8, u32, u32)
    requires face { face < 6 }
    requires column { i ≤ last }
    requires row { j ≤ last }
    requires last { last < 2 ^ 30 }
    requires side { side < 4 }
    ensures { IsBeside (last + 1) side face i j result.0 result.1 result.2 }
{
    if side == 0 {
        if j > 0 {
            (face, i, j - 1)
        } else {
            over_edge(face, 0, i, last)
        }
    } else if side == 1 {
        if i < last {
            (face, i + 1, j)
        } else {
            over_edge(face, 1, j, last)
        }
    } else if side == 2 {
        if j < last {
            (face, i, j + 1)
        } else {
            over_edge(face, 2, i, last)
        }
    } else {
        if i > 0 {
            (face, i - 1, j)
        } else {
            over_edge(face, 3, j, last)
        }
    }
}

// The square on the other face over an edge of the cube, from a place along that edge: its face, column and row. The place counts from
// the far end if the two sides run against each other.
fn over_edge(face: u8, side: u8, along: u32, last: u32) -> (u8, u32, u32)
    requires face { face < 6 }
    requires side { side < 4 }
    requires along { along ≤ last }
    ensures { IsBeside (last + 1) side face (column_on side along last) (row_on side along last) result.0 result.1 result.2 }
{
    let edge = (4 * face + side) as usize;
    let place = if REVERSALS[edge] == 0 {
        along
    } else {
        last - along
    };
    let (i, j) = on_side(SIDES_OVER[edge], place, last);
    (FACES_OVER[edge], i, j)
}

// The column and the row of a square at a place along a side, in a grid whose last column and row is `last`.
pub(crate) fn on_side(side: u8, along: u32, last: u32) -> (u32, u32)
    requires side { side < 4 }
    ensures column { result.0 ≡ column_on side along last }
    ensures row { result.1 ≡ row_on side along last }
{
    match side {
        0 => (along, 0),
        1 => (last, along),
        2 => (along, last),
        _ => (0, along),
    }
}
