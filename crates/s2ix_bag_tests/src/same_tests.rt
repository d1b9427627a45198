//! The clones of bags and of changes.
use s2ix_bag_samples::{WIDEST, bag_of, change_of};

#[test]
fn clones_are_the_same(rt: HostRuntime) {
    let bag = bag_of(rt.alloc(), WIDEST, "04:9:2").expect(&rt, "a bag");
    let other_bag = bag_of(rt.alloc(), WIDEST, "04:9:3").expect(&rt, "a bag");
    let bag_copy = bag.clone().expect(&rt, "memory");
    assert!(rt; bag_copy == bag && bag_copy != other_bag);
    let change = change_of(rt.alloc(), "04:9:0:2").expect(&rt, "a change");
    let other_change = change_of(rt.alloc(), "04:9:0:3").expect(&rt, "a change");
    let change_copy = change.clone().expect(&rt, "memory");
    assert!(rt; change_copy == change && change_copy != other_change);
}
