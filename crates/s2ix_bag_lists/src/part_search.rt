//! Which part of a list has a pair or a place, and which entries of a change fall into it.
ghost use Rattle.std.specs.Prelude.{◌≡◌, ◌+◌, ◌<◌, ◌≤◌, length, take, drop, slice_index};
ghost use Rattle.s2ix_bag_lists.specs.Faces.{AreEntriesBelow, all_of};
ghost use Rattle.s2ix_bag_lists.specs.Parts.{AreFilled, AreEntriesUpTo};
ghost use Rattle.s2ix_bag_lists.specs.View.{lists_in};
ghost use Rattle.s2ix_bag_pairs.specs.Change.{IsChangeList, IsChangeListFrom};
ghost use Rattle.s2ix_bag_pairs.specs.Collection.{IsCollection, IsCollectionFrom, AreBelow};
ghost use Rattle.s2ix_bag_pairs.specs.Pair.{rank_of};

use crate::lists_view::ListsView;
use s2ix_bag_pairs::{Entry, Pair};

// The part that a pair is in, or would go into. O(log p) for p parts: the search goes over the bundles first, then over the parts of one.
pub(crate) fn part_of(parts: ListsView<'_>, pair: Pair) -> usize
    requires rises { IsCollection (all_of (lists_in parts)) }
    requires filled { AreFilled (lists_in parts) }
    requires some { 0 < length (lists_in parts) }
    ensures within { result < length (lists_in parts.entry) }
    ensures within_limit { result < 1000000 }
    ensures below { AreBelow (rank_of pair) (all_of (take result (lists_in parts.entry))) }
    ensures rest { IsCollectionFrom (rank_of pair + 1) (all_of (drop (result + 1) (lists_in parts.entry))) }
{
    let (before, own) = parts.bundle_of(pair);
    let mut low = before;
    let mut high = before + own.len();
    while high - low > 1 {
        let middle = low + (high - low) / 2;
        let part = &own[middle - before];
        if pair.is_before(part.at(0).pair) {
            high = middle;
        } else {
            low = middle;
        }
    }
    low
}

// The part that a place is in, by the places at which the parts start: the last that starts at it or before it. O(log p) for p parts.
pub(crate) fn last_start(starts: &[usize], place: usize) -> usize
    requires some { 0 < length starts.now }
    requires begins { slice_index starts.now 0 ≤ place }
    ensures within { result < length starts.now }
    ensures begins { slice_index starts.now result ≤ place }
    ensures ends { result + 1 < length starts.now → place < slice_index starts.now (result + 1) }
{
    let mut low = 0;
    let mut high = starts.len();
    while high - low > 1 {
        let middle = low + (high - low) / 2;
        if place < starts[middle] {
            high = middle;
        } else {
            low = middle;
        }
    }
    low
}

// How many entries come before a pair. O(k) for the answer k.
fn entries_before(entries: &[Entry], pair: Pair) -> usize
    requires { IsChangeList entries.now }
    ensures within { result ≤ length entries.now }
    ensures below { AreEntriesBelow (rank_of pair) (take result entries.now) }
    ensures rest { IsChangeListFrom (rank_of pair) (drop result entries.now) }
{
    let mut count = 0;
    while count < entries.len() && entries[count].pair.is_before(pair) {
        count += 1;
    }
    count
}

// How many entries come before the part after the one at a place. O(k) for the answer k.
pub(crate) fn entries_up_to_part(parts: ListsView<'_>, place: usize, entries: &[Entry]) -> usize
    requires rises { IsCollection (all_of (lists_in parts)) }
    requires filled { AreFilled (lists_in parts) }
    requires place { place < length (lists_in parts) }
    requires entries_rise { IsChangeList entries.now }
    ensures within { result ≤ length entries.now }
    ensures last { place + 1 ≡ length (lists_in parts.entry) → result ≡ length entries.now }
    ensures cut { AreEntriesUpTo (lists_in parts.entry) place entries.now result }
{
    let next = place + 1;
    if next < parts.len() {
        let part = parts.at(next);
        entries_before(entries, part.at(0).pair)
    } else {
        entries.len()
    }
}
