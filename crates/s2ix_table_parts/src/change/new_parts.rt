//! What a change makes of the parts of a table.
ghost use Rattle.std.specs.Prelude.{◌≡◌, ◌≤◌, ◌<◌, ◌+◌, ◌^◌, ◌++◌, drop, length, take, vec_capacity};

use crate::heavy_pairs::HeavyPairs;
use crate::part::Part;
use s2ix_table_spans::SpanTable;
use std::sync::Arc;

/// Parts that take the place of others: the parts with numbers from `first` on and before `end` give way to `parts`, and the others stay.
#[derive(Debug, Drop)]
pub struct NewParts {
    /// The number of the first part that gives way.
    pub first: usize,
    /// The number of the first part behind them, which stays; the count of all parts if none does.
    pub end: usize,
    /// The tables of the parts that take their place.
    pub parts: Vec<Arc<SpanTable>>,
}

/// What a change makes of a face: its parts with numbers from `first` on and before `end` give way to `parts`, and the others stay.
#[derive(Debug, Drop)]
pub struct NewFace {
    /// The face, 0 to 5.
    pub face: u8,
    /// The number of the first part that gives way.
    pub first: usize,
    /// The number of the first part behind them, which stays; the count of all parts if none does.
    pub end: usize,
    /// The parts that take their place.
    pub parts: Vec<Part>,
    /// All heavy pairs of the face after the change.
    pub heavy: HeavyPairs,
}

impl NewFace {
    /// The same, with numbers in a list that has `count` parts of other faces in front of the parts of this face. O(1).
    pub fn shifted_by(self, count: usize) -> NewFace
        requires order { self.first ≤ self.end }
        requires fits { count + self.end < 2 ^ 64 }
        ensures face { result.face ≡ self.face }
        ensures first { result.first ≡ count + self.first }
        ensures end { result.end ≡ count + self.end }
        ensures parts { result.parts ≡ self.parts }
        ensures heavy { result.heavy ≡ self.heavy }
    {
        let NewFace {
            face,
            first,
            end,
            parts,
            heavy,
        } = self;
        NewFace {
            face,
            first: count + first,
            end: count + end,
            parts,
            heavy,
        }
    }
}

// Moves `count` elements, from the place `first` on, behind all elements that follow them.
fn rotate_from<T>(list: &mut Vec<T>, first: usize, count: usize)
    requires { first + count ≤ length list.old.items }
    ensures items { list.new.items ≡ take first list.old.items ++ (drop count (drop first list.old.items) ++ take count (drop first list.old.items)) }
    ensures capacity { vec_capacity list.new ≡ vec_capacity list.old }
{
    list[first..].rotate_left(count);
}

// Puts elements into the place of those from `first` on and before `end`, which are as many.
fn put_over<T>(list: &mut Vec<T>, first: usize, end: usize, new: &mut [T])
    requires within { end ≤ length list.old.items }
    requires same { first + length new.old ≡ end }
    ensures { list.new.items ≡ take first list.old.items ++ (new.old ++ drop end list.old.items) }
{
    list[first..end].swap_with_slice(new);
}

// Puts elements behind others, which have room for them.
fn append_within<T>(list: &mut Vec<T>, new: &mut Vec<T>)
    requires { length list.old.items + length new.old.items ≤ vec_capacity list.old }
    ensures { list.new.items ≡ list.old.items ++ new.old.items }
{
    if list.append(new).is_err() {
        unreachable!()
    }
}

/// Puts new elements into the place of those with numbers from `first` on and before `end`. The list must have room for them beside all of
/// its own. O(q) for the q elements from `first` on; if as many come as go, O(1) for each of them.
pub fn put_between<T: Drop>(list: &mut Vec<T>, first: usize, end: usize, new: Vec<T>)
    requires order { first ≤ end }
    requires within { end ≤ length list.old.items }
    requires room { length list.old.items + length new.items ≤ vec_capacity list.old }
    ensures { list.new.items ≡ take first list.old.items ++ (new.items ++ drop end list.old.items) }
{
    let mut new = new;
    let old_count = end - first;
    let new_count = new.len();
    if new_count == old_count {
        put_over(list, first, end, &mut new);
    } else {
        append_within(list, &mut new);
        rotate_from(list, first, old_count);
        list.truncate(list.len() - old_count);
        rotate_from(list, first, list.len() - first - new_count);
    }
}
