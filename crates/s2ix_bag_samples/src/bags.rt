use crate::changes::change_by;
use crate::pairs::held_of;
use s2ix_bag::{Bag, Entry, Held, Limits};
use std::alloc::Global;

/// The greatest numbers of pairs, of copies of a pair, and of changes that can be undone.
pub type LimitRow = (u32, u32, u32);

/// The widest limits.
pub const WIDEST: LimitRow = (1_000_000, u32::MAX, 100_000);

/// The limits with these numbers.
pub fn limits_of((pairs, count, changes): LimitRow) -> Option<Limits> {
    Limits::new(pairs, count, changes)
}

// The bag with a pair that it didn't hold.
fn with_pair(alloc: Global, bag: &Bag, held: Held) -> Option<Bag> {
    let entry = Entry {
        pair: held.pair,
        before: 0,
        after: held.count,
    };
    let change = change_by(alloc, entry)?;
    bag.applied(alloc, &change).ok()
}

/// The bag of pairs that differ, in any order.
pub fn bag_of(alloc: Global, limits: LimitRow, pairs: &str) -> Option<Bag> {
    let mut bag = Bag::empty(alloc, limits_of(limits)?);
    for text in pairs.split_ascii_whitespace() {
        bag = with_pair(alloc, &bag, held_of(text)?)?;
    }
    Some(bag)
}

// Whether a bag has a pair with its count at a place.
fn holds_at(bag: &Bag, place: usize, wanted: Held) -> bool {
    place < bag.len() && bag.held(place) == wanted && bag.count(wanted.pair) == wanted.count
}

/// Whether a bag holds these pairs, in rising order, and no others.
pub fn holds_pairs(bag: &Bag, pairs: &str) -> bool {
    let mut place = 0usize;
    for text in pairs.split_ascii_whitespace() {
        match held_of(text) {
            Some(wanted) if holds_at(bag, place, wanted) => {}
            _ => return false,
        }
        place = place.wrapping_add(1);
    }
    place == bag.len()
}
