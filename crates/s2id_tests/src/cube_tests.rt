//! Squares of cells, and the cells over their sides.
use s2id_cube::{FaceIj, border, edge_neighbors, from_face_ij, to_face_ij};
use s2id_samples::{are_cells, cell_of};

// The token of a cell, and its square: face, column, row, level and orientation.
type SquareRow = (&'static str, u8, u32, u32, u8, u8);

const SQUARES: [SquareRow; 3] = [
    ("1d", 0, 2, 0, 2, 3),
    ("94", 4, 1, 1, 1, 0),
    ("bfffffffffffffff", 5, 0, 1073741823, 30, 1),
];

// Whether a row's cell has its square, and its square that cell.
fn is_square_row(&(token, face, i, j, level, orientation): &SquareRow) -> bool {
    let square = FaceIj {
        face,
        i,
        j,
        level,
        orientation,
    };
    match cell_of(token) {
        Some(cell) => to_face_ij(cell) == square && from_face_ij(face, i, j, level) == Some(cell),
        None => false,
    }
}

#[test]
fn squares_of_cells_and_back(rt: HostRuntime) {
    for row in &SQUARES {
        assert!(rt; is_square_row(row), "wrong at {}", row.0);
    }
}

// Cells with those that lie down, right, up and left of them, by their tokens: a face, a cell at its end, and a leaf at its corner.
const NEIGHBORS: [(&str, &str); 3] = [
    ("1", "b 3 5 9"),
    ("1d", "b7 1f 1b 03"),
    (
        "0000000000000001",
        "bfffffffffffffff 0000000000000003 0000000000000007 9555555555555555",
    ),
];

// Whether the cell that a token names has these cells over its sides.
fn has_neighbors(token: &str, sides: &str) -> bool {
    match cell_of(token) {
        Some(cell) => are_cells(&edge_neighbors(cell), sides),
        None => false,
    }
}

#[test]
fn neighbors_lie_down_right_up_left(rt: HostRuntime) {
    for &(token, sides) in &NEIGHBORS {
        assert!(rt; has_neighbors(token, sides), "wrong at {token}");
    }
}

#[test]
fn border_at_eight_levels_finer(rt: HostRuntime) {
    let cell = cell_of("1").expect(&rt, "a cell");
    let cells = border(rt.alloc(), cell, 8).expect(&rt, "a border");
    assert!(rt; cells.len() == 1024);
}
