//! Faces and tables whose growths are counted, as `tests/hostile` counts them: of a test that reads a face or copies a table, and of one
//! that makes only its bag or that table.
use crate::samples::are_same;
use crate::small_parts::Both;
use s2id_samples::SET_UP;
use s2ix_bag::{Bag, HeldParts};
use s2ix_bag_samples::{WIDEST, are_flat_pairs, bag_of, change_of, holds_pairs};
use s2ix_table::{BagReader, PairReader};
use std::alloc::Global;
use std::process::Abort;

const HELD: &str = "1:3:1 5:3:2 5:4:1 b:3:1";

fn bag(rt: &impl Abort, alloc: Global) -> Bag {
    bag_of(alloc, WIDEST, HELD).expect(rt, SET_UP)
}

#[test]
fn a_bag(rt: HostRuntime) {
    let held = bag(&rt, rt.alloc());
    assert!(rt; holds_pairs(&held, HELD));
}

// The pairs of face 2: the second one and the third one.
fn face(alloc: Global, held: &Bag) -> Option<HeldParts> {
    let mut reader = BagReader::new(held);
    if reader.len() < 3 {
        return None;
    }
    reader.read_between(alloc, 1, 3).ok()
}

#[test]
fn a_face_of_a_bag(rt: HostRuntime) {
    let held = bag(&rt, rt.alloc());
    let list = face(rt.alloc(), &held).expect(&rt, SET_UP);
    assert!(rt; list.len() == 2 && list.parts().len() == 1);
    assert!(rt; are_flat_pairs(list.part_at(0).1.as_slice(), "5:3:2 5:4:1"));
}

// Nine labels of a cell, too many for two parts of four pairs, and pairs in several parts.
const PARTS: &str =
    "04:1:0:1 04:2:0:1 04:3:0:1 04:4:0:1 04:5:0:1 04:6:0:1 04:7:0:1 04:8:0:1 04:9:0:1 09:1:0:1 0b:1:0:1 0d:1:0:1 0f:1:0:1 11:1:0:1 3:1:0:1";

fn parts(rt: &impl Abort, alloc: Global) -> Both {
    let mut both = Both::empty(alloc, 4).expect(rt, SET_UP);
    let change = change_of(alloc, PARTS).expect(rt, SET_UP);
    both.take(alloc, &change).expect(rt, SET_UP);
    both
}

#[test]
fn a_table_in_parts(rt: HostRuntime) {
    let both = parts(&rt, rt.alloc());
    assert!(rt; both.is_heavy_over("07ffffffffffffff"));
}

#[test]
fn a_copied_table_in_parts(rt: HostRuntime) {
    let both = parts(&rt, rt.alloc());
    let copy = both.table.copied(rt.alloc()).expect(&rt, SET_UP);
    assert!(rt; both.is_heavy_over("07ffffffffffffff") && are_same(&copy, &both.table));
}
