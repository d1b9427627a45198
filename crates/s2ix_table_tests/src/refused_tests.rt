//! Tables, and what meets a target.
ghost use Rattle.std.specs.Prelude.{◌≡◌};
ghost use Rattle.s2ix_bag.specs.Change.{changed};

use crate::samples::{Row, has_ranges, union_of};
use s2id_core::OutOfMemory;
use s2id_samples::{SET_UP, answer};
use s2id_union::CellUnion;
use s2ix_bag::{Bag, Change};
use s2ix_bag_samples::{WIDEST, are_labels, are_pairs, bag_of, holds_pairs};
use s2ix_table::{BagReader, ChainTable, CopiedTable, FacedTable, RangeTable};
use std::alloc::Global;
use std::process::Abort;

const PAIRS: &str = "04:9:1 44:6:1 4c:1:1 5:3:1";

const RANGES: [Row; 6] = [
    (0x0800000000000001, "04:9:1"),
    (0x4000000000000001, ""),
    (0x4800000000000001, "44:6:1 5:3:1"),
    (0x5000000000000001, "4c:1:1 5:3:1"),
    (0x6000000000000001, "5:3:1"),
    (0xc000000000000001, ""),
];

fn bag(rt: &impl Abort, alloc: Global, pairs: &str) -> Bag {
    bag_of(alloc, WIDEST, pairs).expect(rt, SET_UP)
}

fn check_meeting<T: RangeTable>(
    rt: &(impl Abort + Print),
    alloc: Global,
    table: &T,
    target: &CellUnion,
) {
    let pairs = answer!(rt, table.meeting(alloc, target));
    assert!(rt; are_pairs(&pairs, "04:9:1 4c:1:1 5:3:1"));
}

fn check_labels<T: RangeTable>(
    rt: &(impl Abort + Print),
    alloc: Global,
    table: &T,
    target: &CellUnion,
) {
    let labels = answer!(rt, table.labels(alloc, target));
    assert!(rt; are_labels(&labels, "1 3 9"));
}

// Builds a table, and asks it what meets a target.
fn check_table<T: RangeTable + Drop>(
    rt: &(impl Abort + Print),
    alloc: Global,
    bag: &Bag,
    target: &CellUnion,
) {
    let table = answer!(rt, T::build(alloc, bag));
    check_meeting(rt, alloc, &table, target);
    check_labels(rt, alloc, &table, target);
    assert!(rt; has_ranges(&table, &RANGES) && holds_pairs(bag, PAIRS));
}

// The cells that the tables are asked for.
fn target(rt: &impl Abort, alloc: Global) -> CellUnion {
    union_of(alloc, "04 4c").expect(rt, SET_UP)
}

#[test]
fn refused_tables(rt: HostRuntime) {
    let bag = bag(&rt, rt.alloc(), PAIRS);
    let target = target(&rt, rt.alloc());
    check_table::<ChainTable>(&rt, rt.alloc(), &bag, &target);
    check_table::<CopiedTable>(&rt, rt.alloc(), &bag, &target);
    check_table::<FacedTable>(&rt, rt.alloc(), &bag, &target);
}

// A change of two faces, on one of which it leaves no pair; what is held on two others stays.
const OLD: &str = "04:9:1 44:6:1 5:3:1 7:2:4 b:8:1";

const NEW: &str = "04:9:3 1:7:1 44:6:1 5:3:1 b:8:1";

const OLD_RANGES: [Row; 7] = [
    (0x0800000000000001, "04:9:1"),
    (0x4000000000000001, ""),
    (0x4800000000000001, "44:6:1 5:3:1"),
    (0x6000000000000001, "5:3:1"),
    (0x8000000000000001, "7:2:4"),
    (0xa000000000000001, ""),
    (0xc000000000000001, "b:8:1"),
];

const NEW_RANGES: [Row; 7] = [
    (0x0800000000000001, "04:9:3 1:7:1"),
    (0x2000000000000001, "1:7:1"),
    (0x4000000000000001, ""),
    (0x4800000000000001, "44:6:1 5:3:1"),
    (0x6000000000000001, "5:3:1"),
    (0xa000000000000001, ""),
    (0xc000000000000001, "b:8:1"),
];

fn is_old(table: &FacedTable) -> bool {
    has_ranges(table, &OLD_RANGES)
}

// The table of what a change made of a table's pairs.
fn rebuilt(
    alloc: Global,
    table: &FacedTable,
    next: &Bag,
    change: &Change,
) -> Result<FacedTable, OutOfMemory>
    requires { changed (⟦<FacedTable as RangeTable>⟧.pairs table.now) change.now ≡ next.now.held }
{
    let mut reader = BagReader::new(next);
    table.rebuilt(alloc, &mut reader, change)
}

fn check_rebuilt(
    rt: &(impl Abort + Print),
    alloc: Global,
    table: &FacedTable,
    next: &Bag,
    change: &Change,
)
    requires { changed (⟦<FacedTable as RangeTable>⟧.pairs table.now) change.now ≡ next.now.held }
{
    let rebuilt = answer!(
        rt,
        rebuilt(alloc, table, next, change),
        assert!(rt; is_old(table) && holds_pairs(next, NEW))
    );
    assert!(rt; has_ranges(&rebuilt, &NEW_RANGES));
}

// Builds the table of a bag, and builds it again for what a change makes of the bag.
fn check_change(rt: &(impl Abort + Print), alloc: Global, old: &Bag, change: &Change) {
    let next = old.applied(alloc, change).expect(rt, SET_UP);
    let table = FacedTable::build(alloc, old).expect(rt, SET_UP);
    check_rebuilt(rt, alloc, &table, &next, change);
    assert!(rt; is_old(&table) && holds_pairs(&next, NEW));
}

// The change that leads from a bag to the new one.
fn change(rt: &impl Abort, alloc: Global, old: &Bag) -> Change {
    let new = bag(rt, alloc, NEW);
    Change::between(alloc, old, &new).expect(rt, SET_UP)
}

#[test]
fn refused_rebuilding(rt: HostRuntime) {
    let old = bag(&rt, rt.alloc(), OLD);
    let change = change(&rt, rt.alloc(), &old);
    check_change(&rt, rt.alloc(), &old, &change);
    assert!(&rt; holds_pairs(&old, OLD));
}
