//! How long the parts of bags are, which no clause says; and bags in parts of at most four pairs, so that edits split parts and join them,
//! beside bags in long parts.
use s2id_samples::SET_UP;
use s2ix_bag::{Bag, Change, Entry, Label, Pair};
use s2ix_bag_samples::{WIDEST, limits_of, pair_of};
use std::alloc::Global;
use std::process::Abort;

// Cells of three levels that lie in each other, and some of another face.
const PAIRS: &str =
    "01:1 03:1 05:1 07:1 09:1 0b:1 0d:1 0f:1 11:1 13:1 15:1 17:1 19:1 1b:1 1d:1 1f:1 04:1 0c:1 14:1 1c:1 1:1 01:2 03:2 05:2 07:2 09:2 0b:2 0d:2 0f:2 04:2 1:2 21:1 23:1 24:1";

// How many they are.
const NUMBER: usize = 34;

// One of the pairs.
fn pair_at(place: usize) -> Option<Pair> {
    pair_of(PAIRS.split_ascii_whitespace().nth(place % NUMBER)?)
}

// The change of a bag that sets the count of a pair.
fn change_of_pair(alloc: Global, bag: &Bag, pair: Pair, after: u32) -> Option<Change> {
    let before = bag.count(pair);
    Change::from_entries(
        alloc,
        &[Entry {
            pair,
            before,
            after,
        }],
    )
    .ok()
}

// Whether each part of a bag has at most so many pairs.
fn has_parts_of(bag: &Bag, most: usize) -> bool {
    for place in 0..bag.len() {
        if bag.part_at(place).1.as_slice().len() > most {
            return false;
        }
    }
    true
}

// Whether two bags hold the same, asked in each way.
fn are_same(one: &Bag, other: &Bag) -> bool {
    let mut place = 0usize;
    let mut left = other.iter();
    for held in one.iter() {
        if left.next() != Some(held) || one.count(held.pair) != held.count {
            return false;
        }
        if one.len() <= place || one.held(place) != held {
            return false;
        }
        place = place.wrapping_add(1);
    }
    left.next().is_none() && one.len() == other.len()
}

// The next of a row of numbers that looks random.
fn next_number(seed: u64) -> u64 {
    let seed = seed ^ (seed << 13);
    let seed = seed ^ (seed >> 7);
    seed ^ (seed << 17)
}

// Makes the same changes of both bags, and now and then goes back to how they were at first.
fn check_edits(rt: &impl Abort, alloc: Global, parts: &Bag, plain: &Bag) {
    let mut here = parts.clone().expect(rt, SET_UP);
    let mut there = plain.clone().expect(rt, SET_UP);
    let mut seed = 88_172_645_463_325_252u64;
    for step in 0..400u32 {
        seed = next_number(seed);
        let pair = pair_at((seed % 34) as usize).expect(rt, SET_UP);
        let after = (seed >> 32) as u32 % 3;
        let change = if step % 100 == 99 {
            Change::between(alloc, &there, plain).expect(rt, SET_UP)
        } else {
            match change_of_pair(alloc, &there, pair, after) {
                Some(change) => change,
                None => continue,
            }
        };
        here = here.applied(alloc, &change).expect(rt, SET_UP);
        there = there.applied(alloc, &change).expect(rt, SET_UP);
        assert!(rt; are_same(&here, &there) && has_parts_of(&here, 4));
    }
}

#[test]
fn lists_in_short_parts_are_lists(rt: HostRuntime) {
    let limits = limits_of(WIDEST).expect(&rt, SET_UP);
    let parts = Bag::in_parts_of(limits, 4);
    let plain = Bag::empty(rt.alloc(), limits);
    check_edits(&rt, rt.alloc(), &parts, &plain);
}

// The change that puts a cell under so many labels.
fn change_to_labels(alloc: Global, count: u32) -> Option<Change> {
    let cell = pair_of("04:0")?.cell;
    let mut entries = Vec::new(alloc);
    for k in 0..count {
        let label = Label::new(k)?;
        let entry = Entry {
            pair: Pair { cell, label },
            before: 0,
            after: 1,
        };
        entries.push(entry).ok()?;
    }
    Change::from_entries(alloc, &entries).ok()
}

// Makes the same changes of both bags, which hold no pair: first so many that there are several bundles of parts, then single ones all over
// them, and at last one that leaves nothing.
fn check_bundles(rt: &impl Abort, alloc: Global, parts: &Bag, plain: &Bag) {
    let cell = pair_of("04:0").expect(rt, SET_UP).cell;
    let all = change_to_labels(alloc, 1000).expect(rt, SET_UP);
    let mut here = parts.applied(alloc, &all).expect(rt, SET_UP);
    let mut there = plain.applied(alloc, &all).expect(rt, SET_UP);
    let mut seed = 88_172_645_463_325_252u64;
    for _ in 0..80u32 {
        seed = next_number(seed);
        let label = Label::new((seed % 1100) as u32).expect(rt, SET_UP);
        let after = (seed >> 32) as u32 % 2;
        if let Some(change) = change_of_pair(alloc, &there, Pair { cell, label }, after) {
            here = here.applied(alloc, &change).expect(rt, SET_UP);
            there = there.applied(alloc, &change).expect(rt, SET_UP);
            assert!(rt; are_same(&here, &there) && has_parts_of(&here, 4));
        }
    }
    let back = Change::between(alloc, &there, plain).expect(rt, SET_UP);
    let none = here.applied(alloc, &back).expect(rt, SET_UP);
    assert!(rt; are_same(&none, plain));
}

#[test]
fn lists_in_many_bundles_are_lists(rt: HostRuntime) {
    let limits = limits_of(WIDEST).expect(&rt, SET_UP);
    let parts = Bag::in_parts_of(limits, 4);
    let plain = Bag::empty(rt.alloc(), limits);
    check_bundles(&rt, rt.alloc(), &parts, &plain);
}

// The bag of a cell under so many labels, made by one change.
fn bag_of_labels(alloc: Global, count: u32) -> Option<Bag> {
    let change = change_to_labels(alloc, count)?;
    Bag::empty(alloc, limits_of(WIDEST)?)
        .applied(alloc, &change)
        .ok()
}

// The same bag, made of the list of its pairs.
fn listed_anew(alloc: Global, bag: &Bag) -> Option<Bag> {
    let held = bag.flat(alloc).ok()?;
    Bag::from_held(alloc, bag.limits(), &held).ok()
}

// A bag with one label more for that cell.
fn with_label(alloc: Global, bag: &Bag, label: u32) -> Option<Bag> {
    let pair = Pair {
        cell: pair_of("04:0")?.cell,
        label: Label::new(label)?,
    };
    let change = change_of_pair(alloc, bag, pair, 1)?;
    bag.applied(alloc, &change).ok()
}

// Whether a bag of so many pairs has parts of at most 512.
fn is_cut(bag: &Bag, len: usize) -> bool {
    bag.len() == len && has_parts_of(bag, 512)
}

#[test]
fn a_part_has_at_most_512_pairs(rt: HostRuntime) {
    let full = bag_of_labels(rt.alloc(), 512).expect(&rt, SET_UP);
    assert!(rt; is_cut(&full, 512) && !has_parts_of(&full, 511));
    let grown = with_label(rt.alloc(), &full, 512).expect(&rt, SET_UP);
    assert!(rt; is_cut(&grown, 513));
    let made = bag_of_labels(rt.alloc(), 513).expect(&rt, SET_UP);
    assert!(rt; is_cut(&made, 513));
    let listed = listed_anew(rt.alloc(), &made).expect(&rt, SET_UP);
    assert!(rt; is_cut(&listed, 513));
}
