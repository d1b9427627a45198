//! Bags, the changes between them, and what is done with them.
use s2id_samples::{SET_UP, TOLD, answer, tell};
use s2ix_bag::{Bag, Change, ReplayError, RevertError, replay, rewind};
use s2ix_bag_samples::{WIDEST, bag_of, holds_pairs, lists_entries};
use std::alloc::Global;
use std::process::Abort;

// The copies of a label go to another one of the same cell.
const OLD: &str = "04:3:1 04:9:2";

const NEW: &str = "04:3:3";

const THERE: &str = "04:3:1:3 04:9:2:0";

const BACK: &str = "04:3:3:1 04:9:0:2";

fn bag(rt: &impl Abort, alloc: Global, pairs: &str) -> Bag {
    bag_of(alloc, WIDEST, pairs).expect(rt, SET_UP)
}

fn are_bags(old: &Bag, new: &Bag) -> bool {
    holds_pairs(old, OLD) && holds_pairs(new, NEW)
}

// The change that leads there.
fn change(rt: &impl Abort, alloc: Global) -> Change {
    let old = bag(rt, alloc, OLD);
    let new = bag(rt, alloc, NEW);
    Change::between(alloc, &old, &new).expect(rt, SET_UP)
}

fn check_between(rt: &(impl Abort + Print), alloc: Global, old: &Bag, new: &Bag) {
    let change = answer!(rt, Change::between(alloc, old, new));
    assert!(rt; lists_entries(&change, THERE) && are_bags(old, new));
}

#[test]
fn refused_changes(rt: HostRuntime) {
    let old = bag(&rt, rt.alloc(), OLD);
    let new = bag(&rt, rt.alloc(), NEW);
    check_between(&rt, rt.alloc(), &old, &new);
}

fn check_inverse(rt: &(impl Abort + Print), alloc: Global, change: &Change) {
    let inverse = answer!(rt, change.inverse(alloc));
    assert!(rt; lists_entries(&inverse, BACK));
}

fn check_listed(rt: &(impl Abort + Print), alloc: Global, change: &Change) {
    let listed = answer!(rt, Change::from_entries(alloc, change.entries()));
    assert!(rt; lists_entries(&listed, THERE));
}

#[test]
fn refused_lists(rt: HostRuntime) {
    let change = change(&rt, rt.alloc());
    check_inverse(&rt, rt.alloc(), &change);
    check_listed(&rt, rt.alloc(), &change);
    assert!(&rt; lists_entries(&change, THERE));
}

fn check_copied(rt: &(impl Abort + Print), alloc: Global, old: &Bag) {
    let copy = answer!(rt, old.copied(alloc));
    assert!(rt; holds_pairs(&copy, OLD));
}

fn check_applied(rt: &(impl Abort + Print), alloc: Global, old: &Bag, change: &Change) {
    let led = answer!(rt, old.applied(alloc, change));
    assert!(rt; holds_pairs(&led, NEW));
}

#[test]
fn refused_bags(rt: HostRuntime) {
    let old = bag(&rt, rt.alloc(), OLD);
    let change = change(&rt, rt.alloc());
    check_copied(&rt, rt.alloc(), &old);
    check_applied(&rt, rt.alloc(), &old, &change);
    assert!(&rt; holds_pairs(&old, OLD) && lists_entries(&change, THERE));
}

// The copies of the label that they went to, with more of them and another pair, and what they are without the change.
const LATER: &str = "04:3:5 1:7:1";

const LATER_BACK: &str = "04:3:5:3 04:9:0:2";

const LEFT: &str = "04:3:3 04:9:2 1:7:1";

// Whether a change is not taken back from a bag, since a count would fall below zero. Memory is wanted in no place of that.
fn falls_below_zero(alloc: Global, bag: &Bag, change: &Change) -> bool {
    let below = Some(RevertError::BelowZero(0));
    bag.reverting(alloc, change).err() == below && bag.reverted(alloc, change).err() == below
}

fn check_below_zero(rt: &impl Abort, alloc: Global, change: &Change) {
    let old = bag(rt, alloc, OLD);
    assert!(rt; falls_below_zero(alloc, &old, change));
}

fn check_reverting(rt: &(impl Abort + Print), alloc: Global, later: &Bag, change: &Change) {
    let back = answer!(rt, later.reverting(alloc, change));
    assert!(rt; lists_entries(&back, LATER_BACK));
}

fn check_reverted(rt: &(impl Abort + Print), alloc: Global, later: &Bag, change: &Change) {
    let left = answer!(rt, later.reverted(alloc, change));
    assert!(rt; holds_pairs(&left, LEFT));
}

#[test]
fn refused_changes_back(rt: HostRuntime) {
    let later = bag(&rt, rt.alloc(), LATER);
    let change = change(&rt, rt.alloc());
    check_below_zero(&rt, rt.alloc(), &change);
    check_reverting(&rt, rt.alloc(), &later, &change);
    check_reverted(&rt, rt.alloc(), &later, &change);
    assert!(&rt; holds_pairs(&later, LATER) && lists_entries(&change, THERE));
}

// Two pairs added, and the first taken to the second's label.
const STEPS: [&str; 3] = ["04:9:2", OLD, NEW];

fn changes(rt: &impl Abort, alloc: Global) -> Vec<Change> {
    let mut changes = Vec::new(alloc);
    let mut old = bag(rt, alloc, "");
    for pairs in STEPS {
        let new = bag(rt, alloc, pairs);
        let change = Change::between(alloc, &old, &new).expect(rt, SET_UP);
        changes.push(change).expect(rt, SET_UP);
        old = new;
    }
    changes
}

// What the changes make of an empty bag.
fn replayed(rt: &(impl Abort + Print), alloc: Global, empty: &Bag, changes: &[Change]) -> Bag {
    let after = answer!(rt, replay(alloc, empty, changes));
    assert!(rt; holds_pairs(&after, NEW) && holds_pairs(empty, "") && changes.len() == 3);
    after
}

fn check_rewound(rt: &(impl Abort + Print), alloc: Global, after: &Bag, changes: &[Change]) {
    let before = answer!(rt, rewind(alloc, after, changes));
    assert!(rt; holds_pairs(&before, "") && holds_pairs(after, NEW) && changes.len() == 3);
}

#[test]
fn refused_replays(rt: HostRuntime) {
    let empty = bag(&rt, rt.alloc(), "");
    let changes = changes(&rt, rt.alloc());
    let after = replayed(&rt, rt.alloc(), &empty, changes.as_slice());
    check_rewound(&rt, rt.alloc(), &after, changes.as_slice());
}

// The second change takes the pair not to be held yet.
const MISMATCH: ReplayError = ReplayError::Mismatch {
    change: 2,
    entry: 1,
};

fn check_mismatch(rt: &(impl Abort + Print), alloc: Global, other: &Bag, changes: &[Change]) {
    let mut told = replay(alloc, other, changes).err();
    if let Some(error) = &told {
        if *error != MISMATCH {
            tell(rt, error).expect(rt, TOLD);
            told = replay(alloc, other, changes).err();
        }
    }
    assert!(rt; told == Some(MISMATCH));
}

#[test]
fn refused_replays_of_another_bag(rt: HostRuntime) {
    let other = bag(&rt, rt.alloc(), NEW);
    let changes = changes(&rt, rt.alloc());
    check_mismatch(&rt, rt.alloc(), &other, changes.as_slice());
    assert!(&rt; holds_pairs(&other, NEW));
}
