//! The layout of a table: its parts, the heavy pairs over them, and how the ranges of the parts are counted.
ghost use Rattle.std.specs.Prelude.{◌≡◌, ◌↔◌, ◌-◌, IsTrue, ◌<◌, ◌≤◌, IfOk, length, max, take};
ghost use Rattle.s2ix_table_walk.specs.Contents.{contents_at};
ghost use Rattle.s2ix_table_parts.specs.FaceSpans.{heavy_places_of, spans_of, table_of};
ghost use Rattle.s2ix_table_faced.specs.Layout.{IsLayout, covered, heavy_in, ranges_of};
ghost use Rattle.s2ix_table_faced.specs.Offsets.{AreOffsetsFrom, offsets_of};

use crate::offset::{Offset, move_from};
use crate::part_place::FaceHeavyPlace;
use s2id_core::{FACES, OutOfMemory};
use s2ix_table_parts::{HeavyPairs, Part};
use std::alloc::Global;

// So many offsets, which are still to be counted. `OutOfMemory` if a growth is refused.
pub(crate) fn uncounted(alloc: Global, count: usize) -> Result<Vec<Offset>, OutOfMemory>
    ensures { IfOk result (λ offsets. length offsets.items ≡ count) }
{
    Ok(Vec::from_elem(alloc, Offset::FIRST, count)?)
}

// The parts of a table, and the heavy pairs of each face.
#[derive(Clone, Copy)]
pub(crate) struct Layout<'a> {
    pub(crate) parts: &'a [Part],
    pub(crate) heavy: &'a [HeavyPairs; FACES],
}

impl Layout<'_> {
    // Counts the offsets of the parts and how many ranges these have. The offsets of the parts before `first` are right, and the places of
    // those from `end` on are all wrong by one shared amount, if they are wrong. O(q) for q parts from `first` on. It reads the parts up to
    // `end`, and mostly none behind that one.
    pub(crate) fn count_from(self, first: usize, end: usize, offsets: &mut [Offset]) -> usize
        requires layout { IsLayout (spans_of self.parts.now) self.heavy.now (heavy_places_of self.parts.now) }
        requires within { first ≤ length self.parts.now }
        requires same_length { length offsets.old ≡ length self.parts.now }
        requires before { take first offsets.old ≡ take first (offsets_of (covered (heavy_in self.heavy.now) (spans_of self.parts.now))) }
        requires behind { AreOffsetsFrom end offsets.old (covered (heavy_in self.heavy.now) (spans_of self.parts.now)) }
        ensures offsets { offsets.new ≡ offsets_of (covered (heavy_in self.entry.heavy.now) (spans_of self.entry.parts.now)) }
        ensures count { result ≡ length (ranges_of self.entry.parts.now self.entry.heavy.now) }
    {
        offsets[0] = Offset::FIRST;
        let mut next = first.max(1);
        while next < self.parts.len() {
            next = self.count_next(next, end, offsets);
        }
        offsets[next - 1].place + self.parts[next - 1].table().range_count()
    }

    // Counts the offset of the part `next`, which is not the first. If the first range of a part from `end` on begins where it did, so do
    // those of the parts behind it: their places move as far as its own. Returns before which part the offsets are right then.
    fn count_next(self, next: usize, end: usize, offsets: &mut [Offset]) -> usize
        requires layout { IsLayout (spans_of self.parts.now) self.heavy.now (heavy_places_of self.parts.now) }
        requires some { 0 < next }
        requires within { next < length self.parts.now }
        requires same_length { length offsets.old ≡ length self.parts.now }
        requires before { take next offsets.old ≡ take next (offsets_of (covered (heavy_in self.heavy.now) (spans_of self.parts.now))) }
        requires behind { AreOffsetsFrom (max next end) offsets.old (covered (heavy_in self.heavy.now) (spans_of self.parts.now)) }
        ensures rises { next < result }
        ensures within { result ≤ length self.entry.parts.now }
        ensures same_length { length offsets.new ≡ length self.entry.parts.now }
        ensures before { take result offsets.new ≡ take result (offsets_of (covered (heavy_in self.entry.heavy.now) (spans_of self.entry.parts.now))) }
        ensures behind { AreOffsetsFrom (max result end) offsets.new (covered (heavy_in self.entry.heavy.now) (spans_of self.entry.parts.now)) }
    {
        let same_over = self.is_under_same(next);
        let offset = offsets[next - 1].of_next(
            self.parts[next - 1].table(),
            self.parts[next].table(),
            same_over,
        );
        if next >= end && offset.start == offsets[next].start {
            move_from(offsets, next, offset.place);
            self.parts.len()
        } else {
            offsets[next] = offset;
            next + 1
        }
    }

    // Whether a part that is not the first and the one before it lie under the same heavy pairs. O(1).
    fn is_under_same(self, next: usize) -> bool
        requires layout { IsLayout (spans_of self.parts.now) self.heavy.now (heavy_places_of self.parts.now) }
        requires some { 0 < next }
        requires within { next < length self.parts.now }
        ensures { IsTrue result
            ↔ (contents_at (table_of (spans_of self.entry.parts.now) (next - 1)).from (heavy_in self.entry.heavy.now)
            ≡ contents_at (table_of (spans_of self.entry.parts.now) next).from (heavy_in self.entry.heavy.now)) }
    {
        let before = &self.parts[next - 1];
        let part = &self.parts[next];
        let one = FaceHeavyPlace::there(before.heavy_place(), before.table().from());
        let other = FaceHeavyPlace::there(part.heavy_place(), part.table().from());
        FaceHeavyPlace::are_one(one, other)
    }
}
