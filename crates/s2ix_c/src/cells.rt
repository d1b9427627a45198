//! Cells by their numbers, without a handle.

ghost use Rattle.std.specs.Prelude.{◌≡◌, ◌↔◌, ◌≢◌, ◌<◌, ◌≤◌, IsTrue, IfErr, IfOk, length, map};
ghost use Rattle.s2id_core.specs.Cell.{IsCellNumber};
ghost use Rattle.s2id_core.specs.CellId.{raw_of};
ghost use Rattle.s2id_core.specs.Leaves.{Contains, IsCommonLevel, Overlap};
ghost use Rattle.s2id_core.specs.Path.{ancestor, child, first_leaf, last_leaf, path_at, readable_path};
ghost use Rattle.s2id_core.specs.Spelled.{cell_spelled};
ghost use Rattle.s2id_core.specs.Token.{canonical_token};
ghost use Rattle.s2ix_c.specs.Cells.{HasBorder, HasSquare, IsBorder, IsBorderRefusal, IsCellAt, IsInGrid, IsNextTo, ListsBorder, PutsText, Tells, TellsCell, TellsSides, TellsSquare};

use s2id_core::CellId;
use s2id_cube::{BorderError, border, edge_neighbors, from_face_ij, to_face_ij};
use s2ix_c_calls::put_cells;
use s2ix_c_calls::status::{COARSER, DONE, NO_CELL, OUT_OF_MEMORY, TOO_FINE};
use std::alloc::Global;

/// A cell as a square of its level's grid on its face.
#[repr(C)]
#[derive(Clone, Copy)]
pub struct Square {
    /// The column, in squares of the cell's own level.
    pub i: u32,
    /// The row, in squares of the cell's own level.
    pub j: u32,
    /// The face, 0 to 5.
    pub face: u8,
    /// The level, 0 to 30.
    pub level: u8,
    /// How the curve runs through the square: bit 0 if `i` and `j` are swapped, bit 1 if both are inverted.
    pub orientation: u8,
}

/// Whether a number is a cell's.
#[unsafe(no_mangle)]
pub extern "C" fn s2ix_cell_is_valid(cell: u64) -> bool
    ensures { IsTrue result ↔ IsCellNumber cell }
{
    CellId::from_raw(cell).is_some()
}

/// The cell that a text spells: 1 to 16 hexadecimal digits of either case; digits missing on the right are zeros.
#[unsafe(no_mangle)]
pub extern "C" fn s2ix_cell_from_token(text: &[u8], cell: &mut u64) -> u32
    ensures { TellsCell (cell_spelled text.now) result cell.new }
{
    match CellId::from_token(text) {
        Ok(found) => {
            *cell = found.raw();
            DONE
        }
        Err(_) => {
            *cell = 0;
            NO_CELL
        }
    }
}

/// A cell's canonical token, at the front of `text`; `number` is how many bytes it has.
#[unsafe(no_mangle)]
pub extern "C" fn s2ix_cell_to_token(cell: u64, text: &mut [u8; 16], number: &mut usize) -> u32
    ensures { PutsText cell (canonical_token cell) result number.new text.old text.new }
{
    let Some(cell) = CellId::from_raw(cell) else {
        *number = 0;
        return NO_CELL;
    };
    let token = cell.token();
    let bytes = token.as_bytes();
    *number = bytes.len();
    text[..bytes.len()].copy_from_slice(bytes);
    DONE
}

/// Whether each leaf of the other cell is one of the cell's. No, if one of the numbers is no cell's.
#[unsafe(no_mangle)]
pub extern "C" fn s2ix_cell_contains(cell: u64, other: u64) -> bool
    ensures { IsTrue result ↔ (IsCellNumber cell × IsCellNumber other × Contains (path_at cell) (path_at other)) }
{
    match (CellId::from_raw(cell), CellId::from_raw(other)) {
        (Some(outer), Some(inner)) => outer.contains(inner),
        _ => false,
    }
}

/// A cell's path for people: the face, a slash, and the child positions from level 1 down.
#[unsafe(no_mangle)]
pub extern "C" fn s2ix_cell_path(cell: u64, text: &mut [u8; 32], number: &mut usize) -> u32
    ensures { PutsText cell (readable_path (path_at cell)) result number.new text.old text.new }
{
    let Some(cell) = CellId::from_raw(cell) else {
        *number = 0;
        return NO_CELL;
    };
    let path = cell.path();
    let bytes = path.as_bytes();
    *number = bytes.len();
    text[..bytes.len()].copy_from_slice(bytes);
    DONE
}

// Tells the number of a cell, if there is one.
fn tell(found: Option<CellId>, number: &mut u64) -> u32
    ensures { TellsCell found result number.new }
{
    match found {
        Some(cell) => {
            *number = cell.raw();
            DONE
        }
        None => {
            *number = 0;
            NO_CELL
        }
    }
}

/// The cell of a level that a cell lies in, itself at its own level.
#[unsafe(no_mangle)]
pub extern "C" fn s2ix_cell_parent(cell: u64, level: u8, parent: &mut u64) -> u32
    ensures { Tells (IsCellNumber cell × (level ≤ length (path_at cell).digits)) (IsCellAt (ancestor level (path_at cell))) result parent.new }
{
    match CellId::from_raw(cell) {
        Some(cell) => tell(cell.parent(level), parent),
        None => tell(None, parent),
    }
}

/// The child at a position, 0 to 3 along the curve.
#[unsafe(no_mangle)]
pub extern "C" fn s2ix_cell_child(cell: u64, position: u8, found: &mut u64) -> u32
    ensures { Tells (IsCellNumber cell × (length (path_at cell).digits < 30) × (position < 4)) (IsCellAt (child position (path_at cell))) result found.new }
{
    match CellId::from_raw(cell) {
        Some(cell) => tell(cell.child(position), found),
        None => tell(None, found),
    }
}

/// The cell's first leaf along the curve.
#[unsafe(no_mangle)]
pub extern "C" fn s2ix_cell_range_min(cell: u64, leaf: &mut u64) -> u32
    ensures { Tells (IsCellNumber cell) (IsCellAt (first_leaf (path_at cell))) result leaf.new }
{
    match CellId::from_raw(cell) {
        Some(cell) => tell(Some(cell.range_min()), leaf),
        None => tell(None, leaf),
    }
}

/// The cell's last leaf along the curve.
#[unsafe(no_mangle)]
pub extern "C" fn s2ix_cell_range_max(cell: u64, leaf: &mut u64) -> u32
    ensures { Tells (IsCellNumber cell) (IsCellAt (last_leaf (path_at cell))) result leaf.new }
{
    match CellId::from_raw(cell) {
        Some(cell) => tell(Some(cell.range_max()), leaf),
        None => tell(None, leaf),
    }
}

/// The next cell of its level along the curve; the first of face 0 comes after the last of face 5.
#[unsafe(no_mangle)]
pub extern "C" fn s2ix_cell_next(cell: u64, next: &mut u64) -> u32
    ensures { Tells (IsCellNumber cell) (IsNextTo (path_at cell)) result next.new }
{
    match CellId::from_raw(cell) {
        Some(cell) => tell(Some(cell.next_wrap()), next),
        None => tell(None, next),
    }
}

/// The level of a cell, 0 for a whole face to 30 for a leaf.
#[unsafe(no_mangle)]
pub extern "C" fn s2ix_cell_level(cell: u64, level: &mut u8) -> u32
    ensures { Tells (IsCellNumber cell) (λ number. number ≡ length (path_at cell).digits) result level.new }
{
    let Some(cell) = CellId::from_raw(cell) else {
        *level = 0;
        return NO_CELL;
    };
    *level = cell.level();
    DONE
}

/// The face of a cell, 0 to 5.
#[unsafe(no_mangle)]
pub extern "C" fn s2ix_cell_face(cell: u64, face: &mut u8) -> u32
    ensures { Tells (IsCellNumber cell) (λ number. number ≡ (path_at cell).face) result face.new }
{
    let Some(cell) = CellId::from_raw(cell) else {
        *face = 0;
        return NO_CELL;
    };
    *face = cell.face();
    DONE
}

/// The level of the smallest cell that contains both of two.
#[unsafe(no_mangle)]
pub extern "C" fn s2ix_cell_common_level(cell: u64, other: u64, level: &mut u8) -> u32
    ensures { Tells (IsCellNumber cell × IsCellNumber other × ((path_at cell).face ≡ (path_at other).face)) (IsCommonLevel (path_at cell) (path_at other)) result level.new }
{
    *level = 0;
    let (Some(cell), Some(other)) = (CellId::from_raw(cell), CellId::from_raw(other)) else {
        return NO_CELL;
    };
    let Some(common) = cell.common_level(other) else {
        return NO_CELL;
    };
    *level = common;
    DONE
}

/// Whether a number is a leaf's: a cell's of level 30.
#[unsafe(no_mangle)]
pub extern "C" fn s2ix_cell_is_leaf(cell: u64) -> bool
    ensures { IsTrue result ↔ (IsCellNumber cell × (length (path_at cell).digits ≡ 30)) }
{
    match CellId::from_raw(cell) {
        Some(cell) => cell.is_leaf(),
        None => false,
    }
}

/// Whether two cells share a leaf: then one contains the other. No, if one of the numbers is no cell's.
#[unsafe(no_mangle)]
pub extern "C" fn s2ix_cell_intersects(cell: u64, other: u64) -> bool
    ensures { IsTrue result ↔ (IsCellNumber cell × IsCellNumber other × Overlap (path_at cell) (path_at other)) }
{
    match (CellId::from_raw(cell), CellId::from_raw(other)) {
        (Some(cell), Some(other)) => cell.intersects(other),
        _ => false,
    }
}

/// The four cells of its level that share an edge with a cell: down, right, up and left.
#[unsafe(no_mangle)]
pub extern "C" fn s2ix_cell_edge_neighbors(cell: u64, out: &mut [u64; 4]) -> u32
    ensures { TellsSides cell result out.old out.new }
{
    let Some(cell) = CellId::from_raw(cell) else {
        return NO_CELL;
    };
    let [down, right, up, left] = edge_neighbors(cell);
    *out = [down.raw(), right.raw(), up.raw(), left.raw()];
    DONE
}

// The border of a level round a cell, or the status of why there is none.
fn border_of(alloc: Global, cell: u64, level: u8) -> Result<Vec<CellId>, u32>
    ensures accepted { IfOk result (λ _. HasBorder cell level) }
    ensures cells { IfOk result (λ cells. IsBorder (path_at cell) level cells.items) }
    ensures refused { IfErr result (λ why. IsBorderRefusal cell level why) }
{
    let Some(cell) = CellId::from_raw(cell) else {
        return Err(NO_CELL);
    };
    match border(alloc, cell, level) {
        Ok(cells) => Ok(cells),
        Err(BorderError::Coarser) => Err(COARSER),
        Err(BorderError::TooFine) => Err(TOO_FINE),
        Err(BorderError::OutOfMemory) => Err(OUT_OF_MEMORY),
    }
}

/// The cells of a level outside a cell that share an edge with a cell of that level inside it: each once, in rising order, at most 1024.
#[unsafe(no_mangle)]
pub extern "C" fn s2ix_cell_border(
    alloc: Global,
    cell: u64,
    level: u8,
    out: &mut [u64],
    number: &mut usize,
) -> u32
    ensures { ListsBorder cell level result number.new out.old out.new }
{
    *number = 0;
    match border_of(alloc, cell, level) {
        Ok(cells) => put_cells(cells.as_slice(), out, number),
        Err(why) => why,
    }
}

/// The square of a cell.
#[unsafe(no_mangle)]
pub extern "C" fn s2ix_cell_to_face_ij(cell: u64, square: &mut Square) -> u32
    ensures { TellsSquare cell result square.old square.new }
{
    let Some(cell) = CellId::from_raw(cell) else {
        return NO_CELL;
    };
    let found = to_face_ij(cell);
    *square = Square {
        i: found.i,
        j: found.j,
        face: found.face,
        level: found.level,
        orientation: found.orientation,
    };
    DONE
}

/// The cell of a square.
#[unsafe(no_mangle)]
pub extern "C" fn s2ix_cell_from_face_ij(face: u8, i: u32, j: u32, level: u8, cell: &mut u64) -> u32
    ensures { Tells (IsInGrid face i j level) (HasSquare face i j level) result cell.new }
{
    tell(from_face_ij(face, i, j, level), cell)
}
