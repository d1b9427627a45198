//! Cells: each call once, by the values of the cell 0/32, whose token is 1d.
use s2id_core::{CellId, TokenError, sixteen_digits};
use s2id_samples::{are_cells, cell_of};

// Whether a cell has the texts, the face, the level and the lowest bit of 1d.
fn has_texts_and_numbers(cell: CellId) -> bool {
    cell.token().as_bytes() == "1d".as_bytes()
        && cell.path().as_bytes() == "0/32".as_bytes()
        && cell.raw() == 0x1d00000000000000
        && cell.face() == 0
        && cell.level() == 2
        && cell.lsb() == 0x0100000000000000
        && !cell.is_leaf()
}

// Whether a cell has the leaves of 1d, and its places on the curve.
fn has_leaves_and_places(cell: CellId) -> bool {
    cell.range_min().raw() == 0x1c00000000000001
        && cell.range_max().raw() == 0x1dffffffffffffff
        && cell.span_start() == 0x1c00000000000001
        && cell.span_end() == 0x1e00000000000001
        && cell.level() == 2
        && cell.place_at(2) == 14
        && cell.place_at(1) == 3
}

#[test]
fn a_cell_has_its_texts_numbers_and_leaves(rt: HostRuntime) {
    let cell = cell_of("1d").expect(&rt, "a cell");
    assert!(rt; has_texts_and_numbers(cell));
    assert!(rt; has_leaves_and_places(cell));
}

// A cell by its number, by its path and by its place; then its parent, its last child, and the next cell.
fn found_from(cell: CellId) -> Option<[CellId; 6]> {
    Some([
        CellId::from_raw(0x1d00000000000000)?,
        CellId::from_path(0, &[3, 2])?,
        CellId::at_place(2, 14),
        cell.parent(1)?,
        cell.child(3)?,
        cell.next_wrap(),
    ])
}

// Whether a cell lies in another one as 1d does in 1c.
fn lies_in(cell: CellId, parent: CellId) -> bool {
    parent.contains(cell)
        && !cell.contains(parent)
        && cell.intersects(parent)
        && cell.common_level(parent) == Some(1)
        && cell.child_position(1) == Some(3)
        && cell.child_position(2) == Some(2)
}

#[test]
fn a_cell_leads_to_its_relatives(rt: HostRuntime) {
    let cell = cell_of("1d").expect(&rt, "a cell");
    let parent = cell_of("1c").expect(&rt, "a cell");
    let found = found_from(cell).expect(&rt, "cells");
    assert!(rt; are_cells(&found, "1d 1d 1d 1c 1dc 1f"));
    assert!(rt; lies_in(cell, parent));
}

#[test]
fn cells_and_faults_print(rt: HostRuntime) {
    let cell = cell_of("1d").expect(&rt, "a cell");
    let text = format!(in rt.alloc(); "{cell}|{cell:>4}|{cell:?}").expect(&rt, "memory");
    assert!(rt; text.as_str() == "1d|  1d|CellId(1d)");
    let fault = format!(in rt.alloc(); "{}", TokenError::NotHex(1)).expect(&rt, "memory");
    assert!(rt; fault.as_str() == "byte 1 of the token is no hexadecimal digit");
}

#[test]
fn digits_of_bounds(rt: HostRuntime) {
    assert!(rt; &sixteen_digits(0x0123456789abcdef) == b"0123456789abcdef");
}
