//! A table in parts of at most eight pairs, which takes changes that split parts, join them, and make a cell heavy, until its last pair goes.
ghost use Rattle.std.specs.Prelude.{◌≡◌, OnErr, OnOk};
ghost use Rattle.s2ix_bag.specs.Change.{changed};

use crate::samples::are_same;
use crate::small_parts::Both;
use s2id_core::OutOfMemory;
use s2id_samples::{SET_UP, TOLD, answer, tell};
use s2ix_bag::{Bag, Change};
use s2ix_bag_samples::change_of;
use s2ix_table::{BagReader, ChainTable, FacedTable, RangeTable};
use std::alloc::Global;
use std::process::Abort;

// The entries of changes, and whether the innermost pair over the last leaf of the cell 04 is heavy then.
const STEPS: [(&str, bool); 8] = [
    (
        "01:1:0:1 03:1:0:1 05:1:0:1 07:1:0:1 09:1:0:1 0b:1:0:1 0d:1:0:1 0f:1:0:1 11:1:0:1 13:1:0:1",
        false,
    ),
    // a part is split
    ("01:2:0:1 03:2:0:1 05:2:0:1", false),
    // two are joined
    ("07:1:1:0 09:1:1:0", false),
    // a cell is heavy
    (
        "04:1:0:1 04:2:0:1 04:3:0:1 04:4:0:1 04:5:0:1 04:6:0:1 04:7:0:1 04:8:0:1 04:9:0:1 04:10:0:1 04:11:0:1",
        true,
    ),
    // a part below it is split
    ("01:3:0:1 03:3:0:1 05:3:0:1", true),
    // pairs of it, of another cell and of another face
    ("04:1:1:2 04:11:1:0 0b:1:1:0 3:1:0:1", true),
    // few pairs of it are left
    (
        "04:1:2:0 04:2:1:0 04:3:1:0 04:4:1:0 04:5:1:0 04:6:1:0",
        true,
    ),
    // none is
    ("04:7:1:0 04:8:1:0 04:9:1:0 04:10:1:0", false),
];

// Makes a change of a table in place; `next` is the bag after the change.
fn rebuild(
    alloc: Global,
    table: &mut FacedTable,
    next: &Bag,
    change: &Change,
) -> Result<(), OutOfMemory>
    requires { changed (⟦<FacedTable as RangeTable>⟧.pairs table.old) change.now ≡ next.now.held }
    ensures pairs { OnOk result (⟦<FacedTable as RangeTable>⟧.pairs table.new ≡ next.now.held) }
    ensures stays { OnErr result (⟦<FacedTable as RangeTable>⟧.pairs table.new ≡ ⟦<FacedTable as RangeTable>⟧.pairs table.old) }
{
    let mut reader = BagReader::new(next);
    table.rebuild(alloc, &mut reader, change)
}

// Makes a change of a bag and of its table. If the table gives up, it shows the same as before.
fn check_change(rt: &(impl Abort + Print), alloc: Global, both: &mut Both, entries: &str) {
    let change = change_of(alloc, entries).expect(rt, SET_UP);
    let next = both.bag.applied(alloc, &change).expect(rt, SET_UP);
    let old = ChainTable::build(alloc, &both.bag).expect(rt, SET_UP);
    let new = ChainTable::build(alloc, &next).expect(rt, SET_UP);
    answer!(
        rt,
        rebuild(alloc, &mut both.table, &next, &change),
        assert!(rt; are_same(&both.table, &old))
    );
    assert!(rt; are_same(&both.table, &new));
    both.bag = next;
}

#[test]
fn refused_changes_of_short_parts(rt: HostRuntime) {
    let mut both = Both::empty(rt.alloc(), 8).expect(&rt, SET_UP);
    for &(entries, is_heavy) in &STEPS {
        check_change(&rt, rt.alloc(), &mut both, entries);
        assert!(rt; both.is_heavy_over("07ffffffffffffff") == is_heavy);
    }
}
