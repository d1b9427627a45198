ghost use Rattle.std.specs.Prelude.{◌≡◌, ◌+◌, ◌<◌, ◌≤◌, ◌∷◌, ℕ, IfOk, IsTrue, List, [], length, drop, slice_index_or};
ghost use Rattle.s2id_core.specs.CellId.{raw_of, level_of};
ghost use Rattle.s2id_union.specs.Covers.{FollowOneAnother};
ghost use Rattle.s2ix_bag_pairs.specs.Collection.{Collection, IsCollection};
ghost use Rattle.s2ix_table_walk.specs.Contents.{contents_at};
ghost use Rattle.s2ix_table_walk.specs.LabelList.{label_list};
ghost use Rattle.s2ix_table_walk.specs.Table.{Range, range_at, leaf_end, IsRangeTable};
ghost use Rattle.s2ix_table_walk.specs.Places.{IsPlace, LeadsTo};
ghost use Rattle.s2ix_table_walk.specs.LeafWindows.{HaveLeaves};
ghost use Rattle.s2ix_table_walk.specs.Shown.{AreBorders};
ghost use Rattle.s2ix_table_walk.specs.Stretches.{IsSample, IsStretch};
ghost use Rattle.s2ix_table_walk.specs.Meeting.{IsMeetingList, IsLabelList, meeting_of};
ghost use Rattle.s2ix_table_walk.specs.Calls.{MayVisit, CallsOn, Visits};
ghost use Rattle.s2ix_table_walk.specs.Costs.{ranges_met, IsWalkCost};
ghost use Rattle.s2ix_table_queries.specs.LeafContents.{AreContents};

use crate::bookmark::Bookmark;
use crate::labels::gather;
use crate::leaf_contents::LeafContents;
use crate::meter::Meter;
use crate::rising::make_rising;
use crate::stretch::Stretch;
use crate::visit::Visit;
use s2id_core::{CellId, LEAF_END, OutOfMemory};
use s2id_union::CellUnion;
use s2ix_bag_changes::Bag;
use s2ix_bag_pairs::{Held, Label};
use s2ix_table_walk::{LeafWindow, Meeting, RangeRow, Reader, Window, walk};
use std::alloc::Global;

/// The range table of a collection: the maximal spans of leaves over which the same pairs lie, in order, each with a
/// chain of these pairs (S2's `S2CellIndex`, its ranges and its contents). The ranges cover all leaves, empty ones too.
///
/// Queries are `visit`, `visit_counted`, `meeting`, `labels` and `labels_of_cells`, at the end. `window`, `stretch`, `read_near` and the calls
/// on borders only make a walk quicker, and `look_for` and `contents_near` make `at_each` quicker: a user needs none of them. Of these a table
/// has to write only `border`.
///
/// A table may keep its ranges in parts. A *border* is the place of the range at which a part begins; the borders rise, and several parts
/// may have one border. A table that isn't kept in parts is one, with border 0.
///
/// Costs are in n, the number of the table's pairs: there are at most 2 * n + 1 ranges.
pub trait RangeTable: Sized {
    /// Where a table keeps a pair of a chain.
    type Place: Copy;

    // the pairs that the table was built of, with their counts
    ghost pairs: { Self → Collection };

    // the ranges, each with its contents
    ghost ranges: { Self → List Range };

    // the ranges at which the parts of the table begin; only the first range if it isn't kept in parts
    ghost borders: { Self → List ℕ } = { λ _. 0 ∷ [] };

    // the pairs from a place on, outwards; none if it is no place of the table
    ghost chain: { Self → Self.Place → Collection };

    /// The table of a bag, at the cost that the type names. `OutOfMemory` if a growth is refused.
    fn build(alloc: Global, bag: &Bag) -> Result<Self, OutOfMemory>
        ensures { IfOk result (λ table. pairs table ≡ bag.now.held) };

    /// How many ranges there are: at least 1, at most 2 * n + 1. O(1).
    fn range_count(&self) -> usize
        ensures { result ≡ length (ranges self.now) };

    /// The leaves of a range. O(1), or O(log p) for a table in p parts.
    fn range(&self, k: usize) -> RangeRow
        requires { k < length (ranges self.now) }
        ensures start { result.start ≡ (range_at (ranges self.now) k).start }
        ensures limit { result.limit ≡ (range_at (ranges self.now) k).limit };

    /// Neighbouring ranges of which one has a leaf, given by its number, the borders inside of them, and how far they serve; by default all
    /// ranges of the table, and no border. No clause says how many there are: a search for a range is quicker if there are few. O(1).
    fn window(&self, leaf: u64) -> LeafWindow
        requires from { 1 ≤ leaf }
        requires within { leaf < leaf_end }
        ensures window { HaveLeaves (ranges self.now) leaf result.until result.ranges.first result.ranges.size }
        ensures borders { result.borders.first + result.borders.size ≤ length (borders self.now) }
    {
        LeafWindow {
            ranges: Window {
                first: 0,
                size: self.range_count(),
            },
            borders: Window { first: 0, size: 0 },
            until: LEAF_END,
        }
    }

    /// A border: the place of the range at which a part begins. O(1).
    fn border(&self, m: usize) -> usize
        requires { m < length (borders self.now) }
        ensures { result ≡ slice_index_or (borders self.now) m 0 };

    /// Where the range at a border begins. O(1).
    fn border_start(&self, m: usize) -> u64
        requires { m < length (borders self.now) }
        ensures { result ≡ (range_at (ranges self.now) (slice_index_or (borders self.now) m 0)).start }
    {
        self.range(self.border(m)).start
    }

    /// Consecutive ranges of the part at a border, with a list of where each begins; by default none, for a table that keeps no such list.
    /// A walk is quicker over them. Any number is accepted, also one without a border. No clause says which ranges these are: only the
    /// bench shows if they are few. O(1).
    fn stretch(&self, m: usize) -> Stretch<'_>
        ensures stretch { IsStretch (ranges self.now) result.first result.count result.starts.now }
        ensures sample { IsSample result.count result.starts.now result.sample.now }
    {
        Stretch::none()
    }

    /// The place of a range's innermost pair, or `None` if nothing lies over the range. O(1), or O(log p) for a table in p parts.
    fn first(&self, k: usize) -> Option<Self::Place>
        requires { k < length (ranges self.now) }
        ensures { LeadsTo (chain self.now) result (range_at (ranges self.now) k).contents };

    /// The leaves of a range and the place of its innermost pair, as [`range`](RangeTable::range) and [`first`](RangeTable::first) give
    /// them, and where the table keeps the range. Any bookmark is accepted. O(1) if it is of the same part, and the range is neither the first
    /// nor the last one there; else as [`range`](RangeTable::range).
    fn read_near(&self, k: usize, bookmark: Bookmark) -> (RangeRow, Option<Self::Place>, Bookmark)
        requires { k < length (ranges self.now) }
        ensures start { result.0.start ≡ (range_at (ranges self.now) k).start }
        ensures limit { result.0.limit ≡ (range_at (ranges self.now) k).limit }
        ensures first { LeadsTo (chain self.now) result.1 (range_at (ranges self.now) k).contents }
    {
        (self.range(k), self.first(k), bookmark)
    }

    /// The pair at a place, with its count. O(1).
    fn held_at(&self, place: Self::Place) -> Held
        requires { IsPlace (chain self.now) place }
        ensures { chain self.now place ≡ result ∷ drop 1 (chain self.now place) };

    /// The place of the next pair outwards, or `None` at the outermost. O(1).
    fn outer(&self, place: Self::Place) -> Option<Self::Place>
        requires { IsPlace (chain self.now) place }
        ensures { LeadsTo (chain self.now) result (drop 1 (chain self.now place)) };

    /// The range that has a leaf. O(log n).
    fn find(&self, leaf: CellId) -> usize
        requires { level_of leaf ≡ 30 }
        ensures within { result < length (ranges self.now) }
        ensures start { (range_at (ranges self.now) result).start ≤ raw_of leaf }
        ensures limit { raw_of leaf < (range_at (ranges self.now) result).limit };

    /// The place of the innermost pair over a leaf, or `None` if nothing lies over it: [`find`](RangeTable::find) and then
    /// [`first`](RangeTable::first) in one search. O(log n).
    fn first_over(&self, leaf: CellId) -> Option<Self::Place>
        requires { level_of leaf ≡ 30 }
        ensures { LeadsTo (chain self.now) result (contents_at (raw_of leaf) (pairs self.now)) }
    {
        self.first(self.find(leaf))
    }

    /// Looks for the ranges of `leaves`, and makes `bookmarks[k]` the bookmark of the range of `leaves[k]`. Returns false if it did not look: then
    /// the bookmarks say nothing. A table may always return false, and does so by default. [`contents_near`](RangeTable::contents_near) is
    /// quick from these bookmarks. O(log n) for each leaf.
    fn look_for(&self, leaves: &[CellId], bookmarks: &mut [Bookmark]) -> bool {
        false
    }

    /// What lies over a leaf, and over the leaves of a span around it. Any bookmark is accepted. O(1 + log d) if it is of the leaf's range or of
    /// one d ranges before it in the same part, else O(log n). By default the span has only the leaf, and the bookmark is not read: O(log n).
    fn contents_near(&self, leaf: CellId, bookmark: Bookmark) -> LeafContents<'_, Self::Place>
        requires { level_of leaf ≡ 30 }
        ensures contents { AreContents (chain self.now) (pairs self.now) result.start result.limit result.held.now result.outers.now result.innermost result.rest }
        ensures from { result.start ≤ raw_of leaf }
        ensures limit { raw_of leaf < result.limit }
    {
        LeafContents {
            start: leaf.raw(),
            limit: leaf.raw() + 1,
            held: &[],
            outers: &[],
            innermost: 0,
            rest: self.first_over(leaf),
            bookmark,
        }
    }

    // the pairs rise strictly, each with a count above 0
    ghost is_collection: { (table : Self) → IsCollection (pairs table) };

    // the ranges are the range table of the pairs
    ghost is_table: { (table : Self) → IsRangeTable (pairs table) (ranges table) };

    // the borders are ranges, in order
    ghost are_borders: { (table : Self) → AreBorders (ranges table) (borders table) };

    // the pairs are at most as many as the widest limits let a bag hold
    ghost within_limit: { (table : Self) → length (pairs table) ≤ 1000000 };

    /// Calls `f` on each pair of the target's meeting list, in order, until a call returns false; returns whether every call returned true
    /// (S2's `VisitIntersectingCells()`). It does not allocate. The caller proves `f`'s precondition for these pairs only.
    /// O(k + r + t log n) for k pairs over the r ranges that the target meets, and t cells of it.
    final fn visit<F: FnMut(Held) -> bool>(&self, target: &CellUnion, f: &mut F) -> bool
        requires { MayVisit F.pre F.step f.old (meeting_of target.now (pairs self.now)) }
        ensures { Visits F.step f.old (meeting_of target.now (pairs self.now)) result f.new }
    {
        let mut meter = Meter::new(self);
        walk(&mut meter, target, f)
    }

    /// Calls `f` as [`visit`](RangeTable::visit) does, and counts what it reads of the table: the cost has the bounds that
    /// [`walk`](s2ix_table_walk::walk) states.
    final fn visit_counted<F: FnMut(Held) -> bool>(&self, target: &CellUnion, f: &mut F) -> Visit
        requires { MayVisit F.pre F.step f.old (meeting_of target.now (pairs self.now)) }
        ensures visits { (calls : ℕ)
            × CallsOn F.step f.old (meeting_of target.now (pairs self.now)) calls result.whole f.new
            × IsWalkCost target.now (pairs self.now) (ranges self.now) calls result.cost }
        ensures whole_probes { IsTrue result.whole → ranges_met target.now (ranges self.now) ≤ result.cost.probes }
    {
        let mut meter = Meter::new(self);
        let whole = walk(&mut meter, target, f);
        Visit {
            whole,
            cost: meter.cost(),
        }
    }

    /// The target's meeting list: the held pairs that share a leaf with it, each once, by first shared leaf, then falling level, then
    /// rising label. These are the pairs that `visit` gives. `OutOfMemory` if a growth is refused. It takes as long as `visit`, and O(k)
    /// memory for the k pairs that it returns.
    final fn meeting(&self, alloc: Global, target: &CellUnion) -> Result<Vec<Held>, OutOfMemory>
        ensures list { IfOk result (λ list. list.items ≡ meeting_of target.now (pairs self.now)) }
        ensures met { IfOk result (λ list. IsMeetingList target.now (pairs self.now) list.items) }
    {
        let mut meter = Meter::new(self);
        let mut meeting = Meeting::new(&mut meter, target);
        let mut list = Vec::new(alloc);
        while let Some(held) = meeting.advance() {
            list.push(held)?;
        }
        Ok(list)
    }

    /// The labels of the target's meeting list, once each and rising (S2's `GetIntersectingLabels()`). `OutOfMemory` if a growth is
    /// refused. It takes as long as `visit`, then at worst O(m log m) for the m pairs met, and O(m) memory however few labels it returns: it
    /// drops repeats as they come only while most pairs are such, and the others at the end.
    final fn labels(&self, alloc: Global, target: &CellUnion) -> Result<Vec<Label>, OutOfMemory>
        ensures labels { IfOk result (λ labels. IsLabelList (meeting_of target.now (pairs self.now)) labels.items) }
        ensures list { IfOk result (λ labels. labels.items ≡ label_list (meeting_of target.now (pairs self.now))) }
    {
        self.labels_of_cells(alloc, target.cells())
    }

    /// The labels of the meeting list of a target that is given by its cells, once each and rising. The cells follow one another along the curve,
    /// none within another, and need not be normal. It costs what `labels` does.
    final fn labels_of_cells(
        &self,
        alloc: Global,
        cells: &[CellId],
    ) -> Result<Vec<Label>, OutOfMemory>
        requires { FollowOneAnother cells.now }
        ensures labels { IfOk result (λ labels. IsLabelList (meeting_of cells.now (pairs self.now)) labels.items) }
        ensures list { IfOk result (λ labels. labels.items ≡ label_list (meeting_of cells.now (pairs self.now))) }
    {
        let mut labels = gather(alloc, self, cells)?;
        make_rising(alloc, &mut labels)?;
        Ok(labels)
    }
}
