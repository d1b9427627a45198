//! What a search for a label's pairs finds in a bag of many parts, beside a look at all pairs: once the bag is made, once labels have come to
//! parts without them, and once a part has had so many changes that its filter is made anew.
use s2id_samples::SET_UP;
use s2ix_bag::{Bag, Change, Entry, Label, Pair};
use s2ix_bag_samples::{WIDEST, limits_of, pair_of};
use std::alloc::Global;

// How many cells of one level face 0 has there, and the most pairs of a part.
const CELLS: u32 = 256;

const MAX_PART_LEN: usize = 32;

// The pair of a label with the cell at a place among these, in rising order.
fn pair_at(place: u32, label: u32) -> Option<Pair> {
    let mut cell = pair_of("1:0")?.cell;
    for digits in [place / 64, place / 16, place / 4, place] {
        cell = cell.child((digits % 4) as u8)?;
    }
    Some(Pair {
        cell,
        label: Label::new(label)?,
    })
}

// The entry that sets the count of such a pair.
fn entry_of(place: u32, label: u32, before: u32, after: u32) -> Option<Entry> {
    Some(Entry {
        pair: pair_at(place, label)?,
        before,
        after,
    })
}

// The bag of all these cells, each once: the first fifty under label 0, the next under 1, up to the last under 5.
fn bag_of_stretches(alloc: Global) -> Option<Bag> {
    let mut entries = Vec::new(alloc);
    for place in 0..CELLS {
        entries.push(entry_of(place, place / 50, 0, 1)?).ok()?;
    }
    let change = Change::from_entries(alloc, &entries).ok()?;
    Bag::in_parts_of(limits_of(WIDEST)?, MAX_PART_LEN)
        .applied(alloc, &change)
        .ok()
}

// A bag after one entry.
fn after_entry(alloc: Global, bag: &Bag, entry: Entry) -> Option<Bag> {
    let change = Change::from_entries(alloc, &[entry]).ok()?;
    bag.applied(alloc, &change).ok()
}

// Whether a search finds all pairs of a label, in order, and no other.
fn is_found(bag: &Bag, label: Label) -> bool {
    let mut found = bag.of_label(label);
    for held in bag.iter() {
        if held.pair.label == label && found.next() != Some(held) {
            return false;
        }
    }
    found.next().is_none()
}

// Whether that is so of the labels 0 to 8, and the bag has parts.
fn are_found(bag: &Bag) -> bool {
    for number in 0..9u32 {
        match Label::new(number) {
            Some(label) if is_found(bag, label) => {}
            _ => return false,
        }
    }
    !bag.is_empty() && bag.part_at(0).1.as_slice().len() <= MAX_PART_LEN
}

// A bag with label 7 in the first part, a middle one and the last, if each step of the way there is found.
fn with_label_in_three(alloc: Global, bag: &Bag) -> Option<Bag> {
    let mut bag = bag.copied(alloc).ok()?;
    for place in [128, 0, CELLS - 1] {
        bag = after_entry(alloc, &bag, entry_of(place, 7, 0, 1)?)?;
        if !are_found(&bag) {
            return None;
        }
    }
    Some(bag)
}

// Whether all is found while label 8 comes to a middle part and goes again, 35 times.
fn are_found_to_and_fro(alloc: Global, bag: &Bag) -> Option<bool> {
    let mut bag = bag.copied(alloc).ok()?;
    for step in 0..70u32 {
        bag = after_entry(alloc, &bag, entry_of(128, 8, step % 2, 1 - step % 2)?)?;
        if !are_found(&bag) {
            return Some(false);
        }
    }
    Some(true)
}

#[test]
fn labels_are_found_in_many_parts(rt: HostRuntime) {
    let bag = bag_of_stretches(rt.alloc()).expect(&rt, SET_UP);
    assert!(rt; are_found(&bag));
    let three = with_label_in_three(rt.alloc(), &bag).expect(&rt, SET_UP);
    assert!(rt; are_found_to_and_fro(rt.alloc(), &three) == Some(true));
}
