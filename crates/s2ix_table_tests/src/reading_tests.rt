//! Bags that are read pair by pair or many pairs at once, and the faces that changes have entries on.
ghost use Rattle.std.specs.Prelude.{◌≤◌, length};
ghost use Rattle.s2ix_bag_pairs.specs.Collection.{IsCollection};
ghost use Rattle.s2ix_bag_pairs.specs.OneProof.{IsCollection-prop};

use s2ix_bag::{Bag, Change, Held};
use s2ix_bag_samples::{LimitRow, are_flat_pairs, bag_of, change_of};
use s2ix_table::{BagReader, FacedTable, PairReader, RangeTable, changed_face_count};
use std::alloc::Global;

const LIMITS: LimitRow = (12, 9, 1);

const MIXED: &str = "04:7:1 1:7:2 1:9:3 5:7:4 b:7:5";

// A reader of a bag that keeps the trait's body for the pairs between two places.
#[derive(Drop)]
struct ByPairs<'a> {
    bag: &'a Bag,
    reads: u64,
    ghost rises: { IsCollection bag.now.held } by { IsCollection-prop 0 bag.now.held },
    ghost within_limit: { length bag.now.held ≤ 1000000 },
}

impl PairReader for ByPairs<'_> {
    ghost shown = { λ reader. reader.bag.now.held };

    ghost spent = { λ reader. reader.reads };

    ghost is_read = { λ reader. record { is_collection = reader.rises; within_limit = reader.within_limit } };

    fn len(&self) -> usize {
        self.bag.len()
    }

    fn read(&mut self, k: usize) -> Held {
        self.reads = self.reads.saturating_add(1);
        let (before, part) = self.bag.part_at(k);
        part.at(k - before)
    }

    fn reads(&self) -> u64 {
        self.reads
    }
}

// Whether a reader that has read nothing gives the pairs at the places 1, 2 and 3, and counts each.
fn reads_three<R: PairReader>(alloc: Global, reader: &mut R) -> Option<bool> {
    if reader.len() < 4 {
        return None;
    }
    let held = reader.read_between(alloc, 1, 4).ok()?;
    let held = held.flat(alloc).ok()?;
    Some(are_flat_pairs(held.as_slice(), "1:7:2 1:9:3 5:7:4") && reader.reads() == 3)
}

#[test]
fn pairs_between_two_places_are_read(rt: HostRuntime) {
    let bag = bag_of(rt.alloc(), LIMITS, MIXED).expect(&rt, MIXED);
    let mut at_once = BagReader::new(&bag);
    assert!(rt; reads_three(rt.alloc(), &mut at_once) == Some(true));
    let mut by_pairs = ByPairs {
        bag: &bag,
        reads: 0,
    };
    assert!(rt; reads_three(rt.alloc(), &mut by_pairs) == Some(true));
}

#[test]
fn a_change_tells_its_faces(rt: HostRuntime) {
    let change = change_of(rt.alloc(), "1:6:0:9 1:7:1:0 b:8:0:9").expect(&rt, "a change");
    assert!(rt; changed_face_count(&change) == 2);
}

// How many pairs are read when a change makes a bag's table anew.
fn reads_of(alloc: Global, pairs: &str, change: &str) -> Option<u64> {
    let bag = bag_of(alloc, LIMITS, pairs)?;
    let change = change_of(alloc, change)?;
    let mut table = FacedTable::build(alloc, &bag).ok()?;
    let next = bag.applied(alloc, &change).ok()?;
    let mut reader = BagReader::new(&next);
    table.rebuild(alloc, &mut reader, &change).ok()?;
    Some(reader.reads())
}

// Each of the three pairs of face 0 is read, and at most six more for two searches.
#[test]
fn a_face_is_read_by_few_reads(rt: HostRuntime) {
    let reads = reads_of(rt.alloc(), MIXED, "04:7:1:2").expect(&rt, "a table");
    assert!(rt; 3 <= reads && reads <= 9);
}

// No pair is left on one of the faces, and one on the other.
#[test]
fn changed_faces_alone_are_read(rt: HostRuntime) {
    let pairs = "04:7:1 1:7:2 1:9:3 3:7:2 5:7:3 b:7:5";
    let reads = reads_of(rt.alloc(), pairs, "3:7:2:0 5:7:3:4").expect(&rt, "a table");
    assert!(rt; 1 <= reads && reads <= 13);
}
