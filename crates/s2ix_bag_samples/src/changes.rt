use crate::pairs::entry_of;
use s2ix_bag::{Change, Entry};
use std::alloc::Global;

// The change of one pair's count.
pub(crate) fn change_by(alloc: Global, entry: Entry) -> Option<Change> {
    Change::from_entries(alloc, &[entry]).ok()
}

// The entries that a text lists, in the order given.
fn entries_of(alloc: Global, entries: &str) -> Option<Vec<Entry>> {
    let mut all = Vec::new(alloc);
    for text in entries.split_ascii_whitespace() {
        all.push(entry_of(text)?).ok()?;
    }
    Some(all)
}

/// The change with the entries that a text lists.
pub fn change_of(alloc: Global, entries: &str) -> Option<Change> {
    let all = entries_of(alloc, entries)?;
    Change::from_entries(alloc, &all).ok()
}

/// The changes with the entries that texts list, each its own, in their order.
pub fn changes_of(alloc: Global, texts: &[&str]) -> Option<Vec<Change>> {
    let mut changes = Vec::new(alloc);
    for text in texts {
        changes.push(change_of(alloc, text)?).ok()?;
    }
    Some(changes)
}

/// Whether a change has these entries and no others.
pub fn lists_entries(change: &Change, entries: &str) -> bool {
    let mut left = change.entries().iter();
    for text in entries.split_ascii_whitespace() {
        if left.next().copied() != entry_of(text) {
            return false;
        }
    }
    left.next().is_none()
}

/// Whether some changes have these entries, each its own and no others, in their order.
pub fn are_changes(changes: &[Change], wanted: &[&str]) -> bool {
    let mut left = changes.iter();
    for &entries in wanted {
        match left.next() {
            Some(change) if lists_entries(change, entries) => {}
            _ => return false,
        }
    }
    left.next().is_none()
}
