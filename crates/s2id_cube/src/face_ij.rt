ghost use Rattle.std.specs.Prelude.{◌≡◌, ◌↔◌, ℕ, ◌+◌, ◌*◌, ◌/◌, ◌^◌, ◌<◌, ◌≤◌, IsSome, IfSome};
ghost use Rattle.s2id_core.specs.CellId.{path_of};
ghost use Rattle.s2id_cube.specs.Square.{square_of};
ghost use Rattle.s2id_cube.specs.Loops.{square_at, AreWoven};

use crate::curve::{place_entry, square_entry};
use s2id_core::CellId;

/// A cell as a square of its level's grid on its face (S2's `(face, i, j)` coordinates, which in S2 are a leaf's).
#[derive(Clone, Copy, PartialEq, Eq, Hash, Debug)]
pub struct FaceIj {
    /// The face, 0 to 5.
    pub face: u8,
    /// The column, in squares of the cell's own level (S2's `ToFaceIJOrientation` counts leaf squares).
    pub i: u32,
    /// The row, in squares of the cell's own level.
    pub j: u32,
    /// The level, 0 to 30.
    pub level: u8,
    /// How the curve runs through the square: bit 0 if `i` and `j` are swapped, bit 1 if both are inverted.
    pub orientation: u8,
}

/// The square of a cell (S2's `ToFaceIJOrientation`, which counts leaf squares). Eight steps of four levels.
pub fn to_face_ij(cell: CellId) -> FaceIj
    ensures { result ≡ square_of (path_of cell) }
{
    let level = cell.level();
    let below = 30 - level;
    let place = cell.place_at(level);
    let leaf = leaf_square(place << (2 * below));
    FaceIj {
        face: leaf.face,
        i: leaf.i >> below,
        j: leaf.j >> below,
        level,
        orientation: leaf.orientation ^ (below % 2),
    }
}

/// The cell of a square, or `None` for a face above 5, a level above 30, or an `i` or `j` of `2^level` or more
/// (S2's `FromFaceIJ`, which takes a leaf's). Eight steps of four levels.
pub fn from_face_ij(face: u8, i: u32, j: u32, level: u8) -> Option<CellId>
    ensures found { IsSome result ↔ ((face < 6) × (level ≤ 30) × (i < 2 ^ level) × (j < 2 ^ level)) }
    ensures face { IfSome result (λ cell. (square_of (path_of cell)).face ≡ face) }
    ensures i { IfSome result (λ cell. (square_of (path_of cell)).i ≡ i) }
    ensures j { IfSome result (λ cell. (square_of (path_of cell)).j ≡ j) }
    ensures level { IfSome result (λ cell. (square_of (path_of cell)).level ≡ level) }
{
    if face < 6 && level <= 30 && i < 1 << level && j < 1 << level {
        Some(cell_of_square(face, i, j, level))
    } else {
        None
    }
}

// The cell of a square that lies in its level's grid: the one that has the leaf at its lowest corner.
pub(crate) fn cell_of_square(face: u8, i: u32, j: u32, level: u8) -> CellId
    requires face { face < 6 }
    requires level { level ≤ 30 }
    requires i { i < 2 ^ level }
    requires j { j < 2 ^ level }
    ensures face { (square_of (path_of result)).face ≡ face }
    ensures i { (square_of (path_of result)).i ≡ i }
    ensures j { (square_of (path_of result)).j ≡ j }
    ensures level { (square_of (path_of result)).level ≡ level }
{
    let below = 30 - level;
    let leaf = leaf_place(face, i << below, j << below);
    CellId::at_place(level, leaf >> (2 * below))
}

// The square of the leaf at a place along the whole curve, eight groups of four levels from the face down. Two positions 0 stand before
// the 30 of the leaf, which lead back to where they began.
#[inline(always)]
fn leaf_square(place: u64) -> FaceIj
    requires { place < 6 * 2 ^ 60 }
    ensures { result ≡ square_at 30 place }
{
    let face = (place >> 60) as u8;
    let mut rest = place % (1 << 60);
    let mut square = 0;
    let mut start = 256 * (face % 2) as u64;
    for group in 0u8..8 {
        let entry = square_entry(start, rest >> 56);
        square = (square << 4) + entry;
        start = entry >> 54;
        rest <<= 8;
    }
    FaceIj {
        face,
        i: ((square >> 32) % (1 << 30)) as u32,
        j: (square % (1 << 32)) as u32,
        level: 30,
        orientation: (start >> 8) as u8,
    }
}

// The place along the whole curve of the leaf of a square, two groups of four levels at a time.
fn leaf_place(face: u8, i: u32, j: u32) -> u64
    requires face { face < 6 }
    requires column { i < 2 ^ 30 }
    requires row { j < 2 ^ 30 }
    ensures below { result < 6 * 4 ^ 30 }
    ensures face { (square_at 30 result).face ≡ face }
    ensures column { (square_at 30 result).i ≡ i }
    ensures row { (square_at 30 result).j ≡ j }
{
    let (mut odd, mut even) = weave(i, j);
    let mut places = 0;
    let mut start = 256 * (face as u64 % 2);
    for pair in 0u8..4 {
        let upper = place_entry(start, (odd >> 24) as u64);
        let lower = place_entry(upper >> 54, (even >> 24) as u64);
        places = (places << 16) + (upper << 8) + lower;
        start = lower >> 54;
        odd <<= 8;
        even <<= 8;
    }
    ((face as u64) << 60) + places % (1 << 62)
}

// Two columns of bytes, each byte four bits of `i` and then four of `j`: those of the upper half of each byte, and of the lower.
fn weave(i: u32, j: u32) -> (u32, u32)
    ensures { AreWoven i j result.0 result.1 }
{
    let lower_i = i & 0x0f0f0f0f;
    let lower_j = j & 0x0f0f0f0f;
    (i - lower_i + ((j - lower_j) >> 4), (lower_i << 4) + lower_j)
}
