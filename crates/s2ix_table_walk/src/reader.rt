ghost use Rattle.std.specs.Prelude.{◌≡◌, ◌<◌, ◌≤◌, ◌+◌, ◌∷◌, length, drop, slice_index_or};
ghost use Rattle.s2ix_table_walk.specs.Places.{IsPlace, LeadsTo};
ghost use Rattle.s2ix_table_walk.specs.Table.{range_at, leaf_end};
ghost use Rattle.s2ix_table_walk.specs.Costs.{with_look, with_probe};
ghost use Rattle.s2ix_table_walk.specs.LeafWindows.{HaveLeaves};
ghost use Rattle.s2ix_table_walk.specs.Shown.{Shown, IsShown};
ghost use Rattle.s2ix_table_walk.specs.declared.cost.Cost.{Cost as CostSpent};

use crate::cost::Cost;
use crate::row::RangeRow;
use crate::sample::SAMPLE_STEP;
use crate::window::LeafWindow;
use s2ix_bag_pairs::Held;

/// Something that reads a range table and counts what it reads. [`node`](Reader::node) gives a pair, and is one look. [`row`](Reader::row),
/// [`start`](Reader::start), [`sampled_start`](Reader::sampled_start), [`border_start`](Reader::border_start),
/// [`row_and_first`](Reader::row_and_first) and [`window`](Reader::window) tell where ranges begin or end, and each is one probe. The other
/// calls count nothing, and tell no pair and no bound of a range.
///
/// A table may keep its ranges in parts. A *border* is the place of the range at which a part begins; the borders rise, and several parts
/// may have one border. A table that isn't kept in parts is one, with border 0.
pub trait Reader {
    /// Where the table keeps a pair of a chain.
    type Place: Copy;

    // the table that is read
    ghost shown: { Self → Shown Self.Place };

    // what was read so far
    ghost spent: { Self → CostSpent };

    /// How many ranges there are.
    fn range_count(&self) -> usize
        ensures { result ≡ length (shown self.now).ranges };

    /// Neighbouring ranges of which one has a leaf, given by its number, and the borders inside of them. No clause says how many there are: a
    /// search reads few ranges if there are few. One probe, since it tells where some ranges begin and end.
    fn window(&mut self, leaf: u64) -> LeafWindow
        requires from { 1 ≤ leaf }
        requires within { leaf < leaf_end }
        ensures window { HaveLeaves (shown self.old).ranges leaf result.until result.ranges.first result.ranges.size }
        ensures borders { result.borders.first + result.borders.size ≤ length (shown self.old).borders }
        ensures same { shown self.new ≡ shown self.old }
        ensures counts { spent self.new ≡ with_probe (spent self.old) };

    /// The place of a range's innermost pair, or `None` if nothing lies over it.
    fn first(&self, k: usize) -> Option<Self::Place>
        requires { k < length (shown self.now).ranges }
        ensures { LeadsTo (shown self.now).chain result (range_at (shown self.now).ranges k).contents };

    /// The place of the next pair outwards, or `None` at the outermost.
    fn outer(&self, place: Self::Place) -> Option<Self::Place>
        requires { IsPlace (shown self.now).chain place }
        ensures { LeadsTo (shown self.now).chain result (drop 1 ((shown self.now).chain place)) };

    /// The leaves of a range: one probe.
    fn row(&mut self, k: usize) -> RangeRow
        requires { k < length (shown self.old).ranges }
        ensures start { result.start ≡ (range_at (shown self.old).ranges k).start }
        ensures limit { result.limit ≡ (range_at (shown self.old).ranges k).limit }
        ensures same { shown self.new ≡ shown self.old }
        ensures counts { spent self.new ≡ with_probe (spent self.old) };

    /// Where a range begins, as [`row`](Reader::row) gives it: one probe. A search reads ranges by it.
    fn start(&mut self, k: usize) -> u64
        requires { k < length (shown self.old).ranges }
        ensures start { result ≡ (range_at (shown self.old).ranges k).start }
        ensures same { shown self.new ≡ shown self.old }
        ensures counts { spent self.new ≡ with_probe (spent self.old) }
    {
        self.row(k).start
    }

    /// A range at most 15 places before the given one, or that one itself. No clause says which:
    /// [`sampled_start`](Reader::sampled_start) may be quicker at every 16th range after it.
    fn sampled_by(&self, k: usize) -> usize
        ensures by { result ≤ k }
        ensures near { k < result + 16 }
    {
        k - k % SAMPLE_STEP
    }

    /// Where a range begins, as [`start`](Reader::start) gives it: one probe. A search in a large table first reads every 16th range so: a
    /// reader may have their starts in a short list, which takes few lines of the processor's cache.
    fn sampled_start(&mut self, k: usize) -> u64
        requires { k < length (shown self.old).ranges }
        ensures start { result ≡ (range_at (shown self.old).ranges k).start }
        ensures same { shown self.new ≡ shown self.old }
        ensures counts { spent self.new ≡ with_probe (spent self.old) }
    {
        self.start(k)
    }

    /// A border: the place of the range at which a part of the table begins.
    fn border(&self, m: usize) -> usize
        requires { m < length (shown self.now).borders }
        ensures { result ≡ slice_index_or (shown self.now).borders m 0 };

    /// Where the range at a border begins, as [`start`](Reader::start) gives it: one probe. A search among many parts first reads ranges
    /// so: a reader may have their starts in a short list, which stays in the processor's cache.
    fn border_start(&mut self, m: usize) -> u64
        requires { m < length (shown self.old).borders }
        ensures start { result ≡ (range_at (shown self.old).ranges (slice_index_or (shown self.old).borders m 0)).start }
        ensures same { shown self.new ≡ shown self.old }
        ensures counts { spent self.new ≡ with_probe (spent self.old) }
    {
        let border = self.border(m);
        self.start(border)
    }

    /// Brings the part at a border to hand: the reader may be quicker at its ranges from now on. Any number is accepted. It tells nothing,
    /// and counts nothing.
    fn go_to(&mut self, m: usize)
        ensures same { shown self.new ≡ shown self.old }
        ensures counts { spent self.new ≡ spent self.old }
    {}

    /// The leaves of a range and the place of its innermost pair, as [`row`](Reader::row) and [`first`](Reader::first) give them: one probe.
    fn row_and_first(&mut self, k: usize) -> (RangeRow, Option<Self::Place>)
        requires { k < length (shown self.old).ranges }
        ensures start { result.0.start ≡ (range_at (shown self.old).ranges k).start }
        ensures limit { result.0.limit ≡ (range_at (shown self.old).ranges k).limit }
        ensures first { LeadsTo (shown self.old).chain result.1 (range_at (shown self.old).ranges k).contents }
        ensures same { shown self.new ≡ shown self.old }
        ensures counts { spent self.new ≡ with_probe (spent self.old) }
    {
        let first = self.first(k);
        (self.row(k), first)
    }

    /// The pair at a place, with its count: one look.
    fn node(&mut self, place: Self::Place) -> Held
        requires { IsPlace (shown self.old).chain place }
        ensures held { (shown self.old).chain place ≡ result ∷ drop 1 ((shown self.old).chain place) }
        ensures same { shown self.new ≡ shown self.old }
        ensures counts { spent self.new ≡ with_look (spent self.old) };

    /// What was read so far.
    fn cost(&self) -> Cost
        ensures { result ≡ spent self.now };

    // the ranges are the range table of the pairs, and the borders some of them
    ghost is_shown: { (reader : Self) → IsShown (shown reader) };
}
