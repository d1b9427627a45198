//! Where the ranges of each part are among the joined ones.
ghost use Rattle.std.specs.Prelude.{◌≡◌, ◌+◌, ◌<◌, ◌≤◌, ◌++◌, drop, length, map, take};
ghost use Rattle.s2ix_bag_pairs.specs.Collection.{Collection};
ghost use Rattle.s2ix_table_spans.specs.SpanTable.{IsSpanTable};
ghost use Rattle.s2ix_table_faced.specs.Layout.{with_over, IsSameOver};
ghost use Rattle.s2ix_table_faced.specs.Offsets.{AreMovable, is_joined, moved, offset_after, offset_at, places_of};

use crate::starts::Begins;
use s2ix_table_spans::SpanTable;
use s2ix_table_spans::laws::ranges_are_those_of_the_span;

// The place of a table's first range among the joined ones, and the leaf number at which that range begins once it is joined to the last
// one before it.
#[derive(Clone, Copy, Debug)]
pub(crate) struct Offset {
    pub(crate) place: usize,
    pub(crate) start: u64,
}

impl Offset {
    // That of the first part of all.
    pub(crate) const FIRST: Offset = Offset { place: 0, start: 1 };

    // The offset of `next`, if this is the offset of `table`, the one before it. `same_over` tells whether both lie under the same heavy
    // pairs. O(1).
    pub(crate) fn of_next(self, table: &SpanTable, next: &SpanTable, same_over: bool) -> Offset
        requires within_limit { self.place ≤ 100000000 }
        requires neighbours { table.now.to ≡ next.now.from }
        ensures offset { (over next_over : Collection) → IsSameOver table.now.held next.now.held over next_over same_over
            → result ≡ offset_after self (with_over over table.now.ranges) (with_over next_over next.now.ranges) }
        ensures rises { self.place ≤ result.place }
        ensures within_limit { result.place ≤ self.place + 2000001 }
        ensures table { IsSpanTable table.now }
        ensures next { IsSpanTable next.now }
    {
        ranges_are_those_of_the_span(table);
        ranges_are_those_of_the_span(next);
        let last = table.range_count() - 1;
        if !are_joined(table, next, same_over) {
            return Offset {
                place: self.place + last + 1,
                start: next.from(),
            };
        }
        let start = if last == 0 {
            self.start
        } else {
            table.last_start()
        };
        Offset {
            place: self.place + last,
            start,
        }
    }
}

// Whether the last range of `table` and the first one of `next` are one: if nothing light lies over them, and they lie under the same heavy
// pairs. O(1).
fn are_joined(table: &SpanTable, next: &SpanTable, same_over: bool) -> bool
    requires neighbours { table.now.to ≡ next.now.from }
    ensures { (over next_over : Collection) → IsSameOver table.now.held next.now.held over next_over same_over
        → result ≡ is_joined (with_over over table.now.ranges) (with_over next_over next.now.ranges) }
{
    ranges_are_those_of_the_span(table);
    ranges_are_those_of_the_span(next);
    if !same_over || table.first_at_end().is_some() {
        return false;
    }
    next.first_at_start().is_none()
}

impl Begins for Offset {
    ghost begins = { λ offsets. places_of offsets };

    #[inline]
    fn begin_at(list: &[Offset], place: usize) -> u64 {
        list[place].place as u64
    }
}

// Moves the places of offsets as far as from one place to another.
fn move_places(offsets: &mut [Offset], from: usize, to: usize)
    requires { AreMovable from to offsets.old }
    ensures { offsets.new ≡ map (moved from to) offsets.old }
{
    for offset in offsets.iter_mut() {
        offset.place = offset.place - from + to;
    }
}

// Moves the places of the offsets from one on, so that this one gets the given place. O(q) for q of them.
pub(crate) fn move_from(offsets: &mut [Offset], first: usize, place: usize)
    requires within { first < length offsets.old }
    requires movable { AreMovable (offset_at offsets.old first).place place (drop first offsets.old) }
    ensures { offsets.new ≡ take first offsets.old ++ map (moved (offset_at offsets.old first).place place) (drop first offsets.old) }
{
    let from = offsets[first].place;
    move_places(&mut offsets[first..], from, place);
}
