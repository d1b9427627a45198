use crate::pairs::{held_of, label_of};
use s2ix_bag::{FlatHeld, Held, Label};
use std::alloc::Global;

/// Pairs with their counts, in the order given.
pub fn list_of(alloc: Global, pairs: &str) -> Option<Vec<Held>> {
    let mut list = Vec::new(alloc);
    for pair in pairs.split_ascii_whitespace() {
        list.push(held_of(pair)?).ok()?;
    }
    Some(list)
}

/// Whether some pairs are these, in their order.
pub fn are_pairs(pairs: &[Held], wanted: &str) -> bool {
    let mut left = pairs.iter();
    for text in wanted.split_ascii_whitespace() {
        if left.next().copied() != held_of(text) {
            return false;
        }
    }
    left.next().is_none()
}

/// Whether some held pairs of a bag's lists are these, in their order.
pub fn are_flat_pairs(held: &[FlatHeld], wanted: &str) -> bool {
    let mut left = held.iter();
    for text in wanted.split_ascii_whitespace() {
        let Some(wanted) = held_of(text) else {
            return false;
        };
        match left.next() {
            Some(flat) if flat.held() == wanted => {}
            _ => return false,
        }
    }
    left.next().is_none()
}

/// Whether some labels are these, in their order.
pub fn are_labels(labels: &[Label], wanted: &str) -> bool {
    let mut left = labels.iter();
    for text in wanted.split_ascii_whitespace() {
        if left.next().copied() != label_of(text) {
            return false;
        }
    }
    left.next().is_none()
}
