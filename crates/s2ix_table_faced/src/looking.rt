//! Looking for the ranges that have leaves, one by one or many at once.
ghost use Rattle.std.specs.Prelude.{◌≡◌, ◌≤◌, length};
ghost use Rattle.s2id_core.specs.CellId.{level_of, raw_of};
ghost use Rattle.s2ix_table_walk.specs.Contents.{contents_at};
ghost use Rattle.s2ix_table_walk.specs.Places.{LeadsTo};
ghost use Rattle.s2ix_table_faced.specs.PartPlaces.{faced_chain};
ghost use Rattle.s2ix_table_spans.specs.SpanTable.{IsSpanTable};
ghost use Rattle.s2ix_table_spans.specs.Starts.{IsLastStart};
ghost use Rattle.s2ix_table_walk.specs.Table.{IsFound, range_at};
ghost use Rattle.s2ix_table_queries.specs.LeafContents.{AreContents};
ghost use Rattle.s2ix_table_parts.specs.FaceSpans.{spans_of, table_of};
ghost use Rattle.s2ix_table_faced.specs.Offsets.{HasRange};

use crate::faced_table::FacedTable;
use crate::part_place::FacedPlace;
use s2id_core::CellId;
use s2ix_table_queries::{BATCH, Bookmark, LeafContents, RangeTable};
use s2ix_table_spans::{SpanTable, is_last_start, step_ahead};

// In a table of more parts than this a leaf is found in its part by halving (`find_far`): the lists of so many parts aren't in the processor's
// cache.
const MANY_PARTS: usize = 512;

// In a table of more parts than this a look for many leaves at once also reads the first pair over each of them (`keep_fitting`): these pairs
// aren't in the cache that is nearest to a core.
const FAR_PARTS: usize = 128;

// Leaves that rise, and lie in at most so many neighbouring parts, are looked for one after the other (`rise_closely`).
const NEAR_PARTS: usize = 8;

impl FacedTable {
    // The table of a part, or that of the last part if there is none of this number.
    #[inline]
    fn span_by(&self, part: usize) -> &SpanTable
        ensures { IsSpanTable result.now }
    {
        self.span(part.min(self.part_count() - 1))
    }

    // The part that has a leaf. O(log p).
    #[inline]
    pub(crate) fn part_with(&self, leaf: CellId) -> usize
        ensures { IsLastStart self.now.begins.starts.items (raw_of leaf) result }
    {
        self.begins.part_with(leaf.raw())
    }

    // The place in a part's table of the range that has a leaf. O(log n).
    #[inline]
    pub(crate) fn found_in(&self, part: usize, leaf: CellId) -> usize
        requires { IsLastStart self.now.begins.starts.items (raw_of leaf) part }
        ensures { IsFound (table_of (spans_of self.now.parts.items) part).ranges result (raw_of leaf) }
    {
        let span = self.span(part);
        if self.parts.len() > MANY_PARTS {
            span.find_far(leaf)
        } else {
            span.find(leaf)
        }
    }

    // The same, quicker if `near` is the place of that range or of one soon before it. Any number is accepted.
    #[inline(always)]
    fn found_from(&self, part: usize, leaf: CellId, near: usize) -> usize
        requires { IsLastStart self.now.begins.starts.items (raw_of leaf) part }
        ensures { IsFound (table_of (spans_of self.now.parts.items) part).ranges result (raw_of leaf) }
    {
        let span = self.span(part);
        if near < span.range_count() {
            span.find_near(leaf, near)
        } else {
            self.found_in(part, leaf)
        }
    }

    // The place of the innermost pair over a leaf, by the part that has it and the range in that part's table.
    #[inline]
    pub(crate) fn first_found(&self, leaf: CellId, part: usize, found: usize) -> Option<FacedPlace>
        requires leaf { level_of leaf ≡ 30 }
        requires part { IsLastStart self.now.begins.starts.items (raw_of leaf) part }
        requires found { IsFound (table_of (spans_of self.now.parts.items) part).ranges found (raw_of leaf) }
        ensures { LeadsTo (faced_chain (spans_of self.now.parts.items) self.now.heavy) result
            (contents_at (raw_of leaf) (⟦<FacedTable as RangeTable>⟧.pairs self.now)) }
    {
        self.first_at(part, found)
    }

    // Returns the bookmark itself if its part has the leaf, else one with the right part and no range.
    #[inline(always)]
    fn part_near(&self, leaf: CellId, bookmark: Bookmark) -> Bookmark
        ensures { IsLastStart self.now.begins.starts.items (raw_of leaf) result.part }
    {
        let begins = &self.begins;
        if is_last_start(&begins.starts, leaf.raw(), bookmark.part) {
            return bookmark;
        }
        Bookmark {
            part: begins.part_with(leaf.raw()),
            ..Bookmark::none()
        }
    }

    // The bookmark of a leaf's range, quicker if `bookmark` has its part, and quickest if it has that range or one soon before it.
    #[inline(always)]
    pub(crate) fn found_near(&self, leaf: CellId, bookmark: Bookmark) -> Bookmark
        ensures part { IsLastStart self.now.begins.starts.items (raw_of leaf) result.part }
        ensures range { IsFound (table_of (spans_of self.now.parts.items) result.part).ranges result.range (raw_of leaf) }
    {
        let near = self.part_near(leaf, bookmark);
        let range = self.found_from(near.part, leaf, near.range);
        Bookmark { range, ..near }
    }

    // What lies over the leaves of a part's range.
    #[inline(always)]
    pub(crate) fn contents_in(&self, bookmark: Bookmark) -> LeafContents<'_, FacedPlace>
        requires { HasRange (spans_of self.now.parts.items) bookmark.part bookmark.range }
        ensures contents { AreContents (faced_chain (spans_of self.now.parts.items) self.now.heavy) (⟦<FacedTable as RangeTable>⟧.pairs self.now)
            result.start result.limit result.held.now result.outers.now result.innermost result.rest }
        ensures start { result.start ≡ (range_at (table_of (spans_of self.now.parts.items) bookmark.part).ranges bookmark.range).start }
        ensures limit { result.limit ≡ (range_at (table_of (spans_of self.now.parts.items) bookmark.part).ranges bookmark.range).limit }
    {
        let span = self.span(bookmark.part);
        let row = span.range(bookmark.range);
        LeafContents {
            start: row.start,
            limit: row.limit,
            held: span.held(),
            outers: span.outers(),
            innermost: span.innermost(bookmark.range),
            rest: self.over(bookmark.part),
            bookmark,
        }
    }

    // Whether leaves rise, and lie in a few neighbouring parts. No clause says so: it only chooses the quicker way to look for them.
    pub(crate) fn rise_closely(&self, leaves: &[CellId]) -> bool {
        match (leaves.first(), leaves.last()) {
            (Some(first), Some(last)) => {
                let begins = &self.begins;
                let first = begins.part_with(first.raw());
                begins.part_with(last.raw()).wrapping_sub(first) < NEAR_PARTS && are_rising(leaves)
            }
            _ => true,
        }
    }

    // Looks for leaves by searches that go on side by side, first among the few parts that may have each leaf and then in its part. It is not
    // inlined, so that a caller's loop stays short.
    #[inline(never)]
    pub(crate) fn look_side_by_side(&self, leaves: &[CellId], bookmarks: &mut [Bookmark])
        requires batch { length leaves.now ≤ 64 }
        requires room { length leaves.now ≤ length bookmarks.old }
        ensures { length bookmarks.new ≡ length bookmarks.old }
    {
        let begins = &self.begins;
        let mut lists = [begins.starts.as_slice(); BATCH];
        let mut parts = [0; BATCH];
        let mut most = 0;
        for (k, leaf) in leaves.iter().enumerate() {
            let among = begins.parts_with(leaf.raw());
            parts[k] = among.first;
            most = most.max(among.size);
        }
        search_side_by_side(&lists, leaves, most, &mut parts);
        let mut longest = 0;
        for k in 0..leaves.len() {
            lists[k] = self.span_by(parts[k]).starts();
            longest = longest.max(lists[k].len());
        }
        let mut ranges = [0; BATCH];
        search_side_by_side(&lists, leaves, longest, &mut ranges);
        for k in 0..leaves.len() {
            bookmarks[k] = Bookmark {
                part: parts[k],
                range: ranges[k],
            };
        }
        if self.parts.len() > FAR_PARTS {
            self.keep_fitting(leaves, bookmarks);
        }
    }

    // Drops the bookmarks of ranges whose chains can't be those of the leaves. The searches find no such range. The test is made so that the
    // first pair of each chain is read here, side by side with the others: then it is in the processor's cache when it is put.
    fn keep_fitting(&self, leaves: &[CellId], bookmarks: &mut [Bookmark])
        requires batch { length leaves.now ≤ 64 }
        requires room { length leaves.now ≤ length bookmarks.old }
        ensures { length bookmarks.new ≡ length bookmarks.old }
    {
        let mut places = [0; BATCH];
        for k in 0..leaves.len() {
            let span = self.span_by(bookmarks[k].part);
            places[k] = span.innermost(bookmarks[k].range.min(span.range_count() - 1)) as usize;
        }
        for k in 0..leaves.len() {
            if !fits(self.span_by(bookmarks[k].part), places[k], leaves[k]) {
                bookmarks[k] = Bookmark::none();
            }
        }
    }
}

// Whether the chain from a place can be that of a leaf. It can if the chain has no pair, or if the pair there is over the leaf and doesn't lead
// to itself.
#[inline(always)]
fn fits(span: &SpanTable, place: usize, leaf: CellId) -> bool {
    match (span.held().get(place), span.outers().get(place)) {
        (Some(held), Some(next)) => held.cell().contains(leaf) && *next as usize != place,
        _ => true,
    }
}

// Whether each leaf is not before the one before it.
fn are_rising(leaves: &[CellId]) -> bool {
    let mut k = 1;
    while k < leaves.len() {
        if leaves[k].raw() < leaves[k - 1].raw() {
            return false;
        }
        k += 1;
    }
    true
}

// Searches each list for the last start that is not after the leaf beside it, from a place on whose start isn't after it either, each search
// a step in turn. It finds those that are among the `most` places from there on.
#[inline]
fn search_side_by_side(
    lists: &[&[u64]; BATCH],
    leaves: &[CellId],
    most: usize,
    places: &mut [usize; BATCH],
)
    requires { length leaves.now ≤ 64 }
{
    let mut digit = digits_below(most);
    while digit > 0 {
        digit -= 1;
        for (k, leaf) in leaves.iter().enumerate() {
            places[k] = step_ahead(lists[k], leaf.raw(), places[k], digit);
        }
    }
    for k in 0..leaves.len() {
        places[k] = places[k].min(lists[k].len().saturating_sub(1));
    }
}

// How many digits to base 4 the last of so many places has.
fn digits_below(places: usize) -> u32 {
    let bits = usize::BITS - places.saturating_sub(1).leading_zeros();
    bits.div_ceil(2)
}
