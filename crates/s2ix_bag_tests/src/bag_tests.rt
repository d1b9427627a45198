//! What a bag is asked.
use s2ix_bag::{Bag, HeldParts};
use s2ix_bag_samples::{
    LimitRow, are_flat_pairs, bag_of, held_of, holds_pairs, label_of, limits_of, pair_of,
};

const LIMITS: LimitRow = (3, u32::MAX, 1);

// Two pairs on one face, and one on another; the sum of their counts has 33 bits.
const PAIRS: &str = "04:9:2 1:7:3 b:7:4294967295";

// Whether the pairs of a bag come one by one as these.
fn gives_pairs(bag: &Bag, pairs: &str) -> bool {
    let mut left = bag.iter();
    for text in pairs.split_ascii_whitespace() {
        if left.next() != held_of(text) {
            return false;
        }
    }
    left.next().is_none()
}

// Whether a label has these pairs.
fn has_label(bag: &Bag, label: &str, pairs: &str) -> bool {
    let Some(label) = label_of(label) else {
        return false;
    };
    let mut left = bag.of_label(label);
    for text in pairs.split_ascii_whitespace() {
        if left.next() != held_of(text) {
            return false;
        }
    }
    left.next().is_none()
}

// Whether a list has these pairs, in one part.
fn is_one_part(list: &HeldParts, pairs: &str) -> bool {
    let parts = list.parts();
    parts.len() == 1 && are_flat_pairs(parts.at(0).as_slice(), pairs)
}

// Whether these pairs are those of the face at a place, and so many stand before them.
fn stand_on_face(bag: &Bag, place: usize, before: usize, pairs: &str) -> bool {
    if bag.len() <= place {
        return false;
    }
    let (first, list) = bag.face_at(place);
    let (same, part) = bag.part_at(place);
    let is_before = first == before && same == before;
    is_before && is_one_part(list, pairs) && are_flat_pairs(part.as_slice(), pairs)
}

#[test]
fn a_bag_is_asked(rt: HostRuntime) {
    let bag = bag_of(rt.alloc(), LIMITS, PAIRS).expect(&rt, PAIRS);
    let flat = bag.flat(rt.alloc()).expect(&rt, "memory");
    let other = pair_of("04:7").expect(&rt, "a pair");
    assert!(rt; Some(bag.limits()) == limits_of(LIMITS) && !bag.is_empty());
    assert!(rt; bag.copies() == 4_294_967_300 && bag.count(other) == 0);
    assert!(rt; holds_pairs(&bag, PAIRS) && gives_pairs(&bag, PAIRS));
    assert!(rt; are_flat_pairs(flat.as_slice(), PAIRS));
    assert!(rt; has_label(&bag, "7", "1:7:3 b:7:4294967295") && has_label(&bag, "8", ""));
    assert!(rt; stand_on_face(&bag, 1, 0, "04:9:2 1:7:3"));
    assert!(rt; stand_on_face(&bag, 2, 2, "b:7:4294967295"));
}
