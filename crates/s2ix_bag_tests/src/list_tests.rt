//! Lists of pairs: shared ones, and what leads from one to another.
use s2ix_bag::{Change, FlatHeld, HeldList};
use s2ix_bag_samples::{WIDEST, are_flat_pairs, bag_of, held_of, lists_entries};
use std::alloc::Global;

const PAIRS: &str = "04:9:2 1:7:3 b:7:6";

// Whether a list gives these pairs, all at once and by their places.
fn gives_listed(list: &HeldList, pairs: &str) -> bool {
    let mut place = 0usize;
    for text in pairs.split_ascii_whitespace() {
        if list.as_slice().len() <= place || held_of(text) != Some(list.at(place)) {
            return false;
        }
        place = place.wrapping_add(1);
    }
    are_flat_pairs(list.as_slice(), pairs)
}

#[test]
fn a_list_is_shared(rt: HostRuntime) {
    let bag = bag_of(rt.alloc(), WIDEST, PAIRS).expect(&rt, "a bag");
    let flat = bag.flat(rt.alloc()).expect(&rt, "memory");
    let list = HeldList::new(rt.alloc(), flat).expect(&rt, "memory");
    let copy = list.clone().expect(&rt, "memory");
    assert!(rt; gives_listed(&list, PAIRS) && gives_listed(&copy, PAIRS));
    assert!(rt; HeldList::empty().as_slice().is_empty());
}

// The change that leads from one held pair alone to another alone.
fn change_of_pair(alloc: Global, old: &str, new: &str) -> Option<Change> {
    let (old, new) = (held_of(old)?, held_of(new)?);
    if old.count == 0 || new.count == 0 {
        return None;
    }
    Change::between_lists(alloc, &[FlatHeld::new(old)], &[FlatHeld::new(new)]).ok()
}

#[test]
fn a_change_leads_from_list_to_list(rt: HostRuntime) {
    let change = change_of_pair(rt.alloc(), "04:9:2", "1:7:3").expect(&rt, "a change");
    assert!(rt; lists_entries(&change, "04:9:2:0 1:7:0:3"));
}
