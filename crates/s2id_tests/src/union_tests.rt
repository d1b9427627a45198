//! Unions of cells: what they contain, their clones, and unions of very many cells.
use s2id_core::CellId;
use s2id_samples::{are_cells, cell_of, cells_of};
use s2id_union::CellUnion;
use std::alloc::Global;

// The union of the cells that some tokens name.
fn union_of(alloc: Global, tokens: &str) -> Option<CellUnion> {
    let cells = cells_of(alloc, tokens)?;
    CellUnion::normalise(alloc, &cells).ok()
}

#[test]
fn unions_contain_their_cells(rt: HostRuntime) {
    let union = union_of(rt.alloc(), "04").expect(&rt, "a union");
    let face = cell_of("1").expect(&rt, "a cell");
    assert!(rt; union.intersects(face) && !union.contains(face));
}

#[test]
fn the_clone_of_a_union_has_its_cells(rt: HostRuntime) {
    let union = union_of(rt.alloc(), "04 14 1c").expect(&rt, "a union");
    let copy = union.clone().expect(&rt, "memory");
    assert!(rt; copy == union && are_cells(copy.cells(), "04 14 1c"));
}

// `count` leaves from the first on, each `step` leaf numbers after the one before.
fn leaves_at_steps(alloc: Global, count: u64, step: u64) -> Option<Vec<CellId>> {
    let mut cells = Vec::new(alloc);
    let mut raw = 1u64;
    for _ in 0..count {
        cells.push(CellId::from_raw(raw)?).ok()?;
        raw = raw.wrapping_add(step);
    }
    Some(cells)
}

// The union of leaves at steps.
fn union_at_steps(alloc: Global, count: u64, step: u64) -> Option<CellUnion> {
    let cells = leaves_at_steps(alloc, count, step)?;
    CellUnion::normalise(alloc, &cells).ok()
}

#[test]
fn many_leaves_make_a_union(rt: HostRuntime) {
    // 200,000 = 3 * 4 ^ 8 + 3 * 4 ^ 5 + 4 ^ 4 + 4 ^ 3
    let union = union_at_steps(rt.alloc(), 200000, 2).expect(&rt, "a union");
    assert!(rt; union.leaf_count() == 200000 && union.cells().len() == 8);
}

// How many cells the union, the intersection and the difference of two unions have.
fn counts_of(alloc: Global, left: &CellUnion, right: &CellUnion) -> Option<[usize; 3]> {
    let both = left.union(alloc, right).ok()?;
    let shared = left.intersection(alloc, right).ok()?;
    let rest = left.difference(alloc, right).ok()?;
    Some([both.cells().len(), shared.cells().len(), rest.cells().len()])
}

#[test]
fn set_operations_on_thousands_of_cells(rt: HostRuntime) {
    let first = union_at_steps(rt.alloc(), 3000, 8).expect(&rt, "a union");
    let second = union_at_steps(rt.alloc(), 3000, 16).expect(&rt, "a union");
    assert!(rt; first.cells().len() == 3000);
    assert!(rt; counts_of(rt.alloc(), &first, &second) == Some([4500, 1500, 1500]));
}
