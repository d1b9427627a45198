//! Cells by their tile: the cell four levels up, as 16 columns and rows of cells. The curve runs through these one after the other.

ghost use Rattle.std.specs.Prelude.{◌≡◌, ℕ, ◌+◌, ◌-◌, ◌*◌, ◌/◌, ◌^◌, ◌<◌, ◌≤◌};
ghost use Rattle.s2id_core.specs.CellId.{path_of, level_of};
ghost use Rattle.s2id_cube.specs.Square.{square_of};
ghost use Rattle.s2id_cube.specs.Loops.{square_at, IsInTile};

use crate::curve::{place_entry, square_entry};
use s2id_core::CellId;

// A cell in its tile.
#[derive(Clone, Copy)]
pub(crate) struct InTile {
    /// The cell's level, 4 to 30.
    pub(crate) level: u8,
    /// The cell's place along the whole curve.
    pub(crate) place: u64,
    /// Where the tables' row starts for the tile: 256 times how the curve runs there.
    pub(crate) start: u64,
    /// The cell's column in the tile, 0 to 15.
    pub(crate) column: u64,
    /// The cell's row in the tile, 0 to 15.
    pub(crate) row: u64,
}

// A cell of level 4 or finer in its tile.
#[inline(always)]
pub(crate) fn in_tile(cell: CellId) -> InTile
    requires { 4 ≤ level_of cell }
    ensures { IsInTile (square_of (path_of cell)) result.level result.place result.start result.column result.row }
{
    let level = cell.level();
    let place = cell.place_at(level);
    let start = row_at(level - 4, place >> 8);
    let entry = square_entry(start, place % 256);
    InTile {
        level,
        place,
        start,
        column: (entry % (1 << 62)) >> 32,
        row: entry % (1 << 32),
    }
}

// The cell in a column and a row of a tile.
#[inline(always)]
pub(crate) fn cell_in(tile: &InTile, column: u64, row: u64) -> CellId
    requires fine { 4 ≤ tile.now.level }
    requires most { tile.now.level ≤ 30 }
    requires place { tile.now.place < 6 * 4 ^ tile.now.level }
    requires start { tile.now.start ≡ 256 * (square_at (tile.now.level - 4) (tile.now.place / 256)).orientation }
    requires column { column < 16 }
    requires row { row < 16 }
    ensures level { (square_of (path_of result)).level ≡ tile.now.level }
    ensures face { (square_of (path_of result)).face ≡ (square_at (tile.now.level - 4) (tile.now.place / 256)).face }
    ensures i { (square_of (path_of result)).i ≡ 16 * (square_at (tile.now.level - 4) (tile.now.place / 256)).i + column }
    ensures j { (square_of (path_of result)).j ≡ 16 * (square_at (tile.now.level - 4) (tile.now.place / 256)).j + row }
{
    let entry = place_entry(tile.start, 16 * column + row);
    let first = tile.place - tile.place % 256;
    CellId::at_place(tile.level, first + entry % 256)
}

// Where the tables' row starts for a cell, from its level and its place along the whole curve: 256 times how the curve runs there. Of the
// positions on the way each 3 inverts, and each 0 and 3 swaps: those are the ones with an even number of binary 1s.
#[inline(always)]
fn row_at(level: u8, place: u64) -> u64
    requires level { level ≤ 30 }
    requires place { place < 6 * 4 ^ level }
    ensures { result ≡ 256 * (square_at level place).orientation }
{
    let face = place >> (2 * level);
    let positions = place % (1 << (2 * level));
    let threes = positions & (positions >> 1) & 0x5555_5555_5555_5555;
    let swapped = (positions.count_ones() as u64 + level as u64 + face) % 2;
    let inverted = threes.count_ones() as u64 % 2;
    512 * inverted + 256 * swapped
}
