//! Worked tables of each kind: their ranges, what meets a target, and what a visit reads.
ghost use Rattle.std.specs.Prelude.{◌≡◌, ℕ};
ghost use Rattle.s2ix_bag_pairs.specs.declared.pair.Held.{Held};

use crate::samples::{Row, finds, has_ranges, union_of};
use s2id_core::CellId;
use s2id_union::CellUnion;
use s2ix_bag::{Bag, Change, Entry, Held, Label, Limits, Pair};
use s2ix_bag_samples::{WIDEST, bag_of, held_of};
use s2ix_table::laws::{chain_table_has_few_ranges, faced_table_has_few_ranges, keeps_a_pair_once};
use s2ix_table::{ChainTable, CopiedTable, FacedTable, RangeTable, Visit};
use std::alloc::Global;

// Two cells of a face, with a gap between them; the last range has five faces.
const PAIRS: &str = "04:9:1 1:7:1 1c:2:1";

const RANGES: [Row; 4] = [
    (0x0800000000000001, "04:9:1 1:7:1"),
    (0x1800000000000001, "1:7:1"),
    (0x2000000000000001, "1c:2:1 1:7:1"),
    (0xc000000000000001, ""),
];

// Whether a table has these ranges, and leaves lead to them.
fn is_worked<T: RangeTable>(table: &T) -> bool {
    has_ranges(table, &RANGES)
        && finds(table, "0000000000000001", 0, "04:9:1 1:7:1")
        && finds(table, "1fffffffffffffff", 2, "1c:2:1 1:7:1")
        && finds(table, "2000000000000001", 3, "")
        && finds(table, "bfffffffffffffff", 3, "")
}

#[test]
fn tables_of_each_kind_are_the_same(rt: HostRuntime) {
    let bag = bag_of(rt.alloc(), WIDEST, PAIRS).expect(&rt, "a bag");
    let copies = CopiedTable::build(rt.alloc(), &bag).expect(&rt, "memory");
    let chains = ChainTable::build(rt.alloc(), &bag).expect(&rt, "memory");
    let faces = FacedTable::build(rt.alloc(), &bag).expect(&rt, "memory");
    assert!(rt; is_worked(&copies) && is_worked(&chains) && is_worked(&faces));
    keeps_a_pair_once(&chains);
    chain_table_has_few_ranges(&chains);
    keeps_a_pair_once(&faces);
    faced_table_has_few_ranges(&faces);
}

// The entry of the first leaf's ancestor at a level, under the label 7.
fn ancestor_entry(level: u8) -> Option<Entry> {
    let cell = CellId::from_raw(1)?.parent(level)?;
    let label = Label::new(7)?;
    Some(Entry {
        pair: Pair { cell, label },
        before: 0,
        after: 1,
    })
}

// The bag of the first leaf and of all cells that have it.
fn deepest_bag(alloc: Global) -> Option<Bag> {
    let mut entries = Vec::new(alloc);
    for up in 0..31u8 {
        entries.push(ancestor_entry(30 - up)?).ok()?;
    }
    let change = Change::from_entries(alloc, &entries).ok()?;
    Bag::empty(alloc, Limits::default())
        .applied(alloc, &change)
        .ok()
}

// Whether some pairs are of 31 cells, each one level above the one before.
fn rise_to_the_face(pairs: &[Held]) -> bool {
    let mut level = 31u8;
    for held in pairs {
        level = level.wrapping_sub(1);
        if held.pair.cell.level() != level {
            return false;
        }
    }
    level == 0
}

// Whether a kind of table of a bag lists the whole chain over the first leaf.
fn meets_the_chain<T: RangeTable + Drop>(alloc: Global, bag: &Bag) -> Option<bool> {
    let leaf = union_of(alloc, "0000000000000001")?;
    let table = T::build(alloc, bag).ok()?;
    let met = table.meeting(alloc, &leaf).ok()?;
    Some(rise_to_the_face(&met))
}

#[test]
fn the_longest_chain_is_met_whole(rt: HostRuntime) {
    let bag = deepest_bag(rt.alloc()).expect(&rt, "a bag");
    assert!(rt; meets_the_chain::<CopiedTable>(rt.alloc(), &bag) == Some(true));
    assert!(rt; meets_the_chain::<ChainTable>(rt.alloc(), &bag) == Some(true));
    assert!(rt; meets_the_chain::<FacedTable>(rt.alloc(), &bag) == Some(true));
}

// A visit by a closure that may always be called.
pub(crate) fn visit_all<T: RangeTable, F: FnMut(Held) -> bool>(
    table: &T,
    target: &CellUnion,
    f: &mut F,
) -> Visit
    requires { (state : F) (held : Held) → F.pre state held }
{
    table.visit_counted(target, f)
}

// The pairs that meet the cells 04 and 1c, in their order.
const MET: [&str; 3] = ["04:9:1", "1:7:1", "1c:2:1"];

// A visit whose call number `stop` alone answers false: the number of its calls, if they came in their order, and its answer.
fn visited<T: RangeTable>(table: &T, target: &CellUnion, stop: usize) -> (Option<usize>, Visit) {
    let mut calls = 0usize;
    let mut in_order = true;
    let visit = visit_all(
        table,
        target,
        &mut |held| {
            in_order = in_order && calls < 3 && held_of(MET[calls % 3]) == Some(held);
            calls = calls.wrapping_add(1);
            calls != stop
        },
    );
    (in_order.then_some(calls), visit)
}

// Whether a visit of a table calls all pairs, or the first two, and reads no more than it may.
fn is_visited<T: RangeTable>(table: &T, target: &CellUnion) -> bool {
    let (all, whole) = visited(table, target, usize::MAX);
    let (two, part) = visited(table, target, 2);
    all == Some(3)
        && whole.whole
        && whole.cost.looks <= 7
        && whole.cost.probes <= 10
        && two == Some(2)
        && !part.whole
        && part.cost.looks <= 6
        && part.cost.probes <= 10
}

#[test]
fn tables_of_each_kind_are_visited(rt: HostRuntime) {
    let bag = bag_of(rt.alloc(), WIDEST, PAIRS).expect(&rt, "a bag");
    let target = union_of(rt.alloc(), "04 1c").expect(&rt, "a union");
    let copies = CopiedTable::build(rt.alloc(), &bag).expect(&rt, "memory");
    let chains = ChainTable::build(rt.alloc(), &bag).expect(&rt, "memory");
    let faces = FacedTable::build(rt.alloc(), &bag).expect(&rt, "memory");
    assert!(rt; is_visited(&copies, &target));
    assert!(rt; is_visited(&chains, &target));
    assert!(rt; is_visited(&faces, &target));
}
