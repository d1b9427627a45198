//! Borders and unions.
use s2id_cube::border;
use s2id_samples::{SET_UP, answer, are_cells, cell_of, cells_of};
use s2id_union::CellUnion;
use std::alloc::Global;
use std::process::Abort;

#[test]
fn refused_borders(rt: HostRuntime) {
    let cell = cell_of("04").expect(&rt, "a cell");
    let cells = answer!(&rt, border(rt.alloc(), cell, 2));
    assert!(&rt; are_cells(&cells, "09 0f 1b 1d 93 95 b9 bf"));
}

// The union of the cells that some tokens name, and whether they are still those.
fn union_of(rt: &(impl Abort + Print), alloc: Global, tokens: &str) -> CellUnion {
    let cells = cells_of(alloc, tokens).expect(rt, SET_UP);
    let union = answer!(rt, CellUnion::normalise(alloc, &cells));
    assert!(rt; are_cells(&cells, tokens));
    union
}

fn check_leaves(rt: &(impl Abort + Print), alloc: Global, from: u64, to: u64, tokens: &str) {
    let leaves = answer!(rt, CellUnion::from_leaves(alloc, from, to));
    assert!(rt; are_cells(leaves.cells(), tokens));
}

#[test]
fn refused_unions(rt: HostRuntime) {
    let union = union_of(&rt, rt.alloc(), "14 5 1c 0c 04");
    assert!(&rt; are_cells(union.cells(), "1 5"));
    check_leaves(
        &rt,
        rt.alloc(),
        1,
        0x0800000000000003,
        "04 0800000000000001",
    );
    check_leaves(&rt, rt.alloc(), 1, 1, "");
}

// What two unions have in common.
fn shared(
    rt: &(impl Abort + Print),
    alloc: Global,
    one: &CellUnion,
    other: &CellUnion,
) -> CellUnion {
    let shared = answer!(rt, one.intersection(alloc, other));
    assert!(rt; are_cells(shared.cells(), "04"));
    shared
}

fn check_rest(rt: &(impl Abort + Print), alloc: Global, one: &CellUnion, shared: &CellUnion) {
    let rest = answer!(rt, one.difference(alloc, shared));
    assert!(rt; are_cells(rest.cells(), "0c 14 1c") && are_cells(shared.cells(), "04"));
}

#[test]
fn refused_operations_on_unions(rt: HostRuntime) {
    let one = union_of(&rt, rt.alloc(), "1");
    let other = union_of(&rt, rt.alloc(), "04 5");
    let shared = shared(&rt, rt.alloc(), &one, &other);
    check_rest(&rt, rt.alloc(), &one, &shared);
    assert!(&rt; are_cells(one.cells(), "1") && are_cells(other.cells(), "04 5"));
}

fn check_both(rt: &(impl Abort + Print), alloc: Global, one: &CellUnion, other: &CellUnion) {
    let both = answer!(rt, one.union(alloc, other));
    assert!(rt; are_cells(both.cells(), "1"));
}

#[test]
fn refused_unions_of_unions(rt: HostRuntime) {
    let one = union_of(&rt, rt.alloc(), "04 0c");
    let other = union_of(&rt, rt.alloc(), "14 1c");
    check_both(&rt, rt.alloc(), &one, &other);
    assert!(&rt; are_cells(one.cells(), "04 0c") && are_cells(other.cells(), "14 1c"));
}
