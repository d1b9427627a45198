ghost use Rattle.std.specs.Prelude.{◌≡◌, ◌-◌, ◌<◌, ◌≤◌, ◌∷◌, IfOk, length, drop, map};
ghost use Rattle.s2id_core.specs.CellId.{raw_of};
ghost use Rattle.s2ix_bag_pairs.specs.Collection.{IsCollection};
ghost use Rattle.s2ix_table_walk.specs.Table.{Range, range_at, IsFound};
ghost use Rattle.s2ix_table_walk.specs.Links.{AreLinked};
ghost use Rattle.s2ix_table_walk.specs.Places.{IsPlace, LeadsTo};
ghost use Rattle.s2ix_table_walk.specs.Stretches.{IsSample};
ghost use Rattle.s2ix_table_spans.specs.Chains.{chain_of};
ghost use Rattle.s2ix_table_spans.specs.Nodes.{AreNodes};
ghost use Rattle.s2ix_table_spans.specs.Starts.{AreEnds};
ghost use Rattle.s2ix_table_spans.specs.SpanTable.{IsInSpan, IsSpanTable};

use crate::nodes::Nodes;
use crate::places::{last_ahead, last_of_sampled, last_start};
use crate::sample::sample_of;
use crate::splice::Before;
use s2id_core::{CellId, OutOfMemory};
use s2ix_bag_held::{FlatHeld, HeldList};
use s2ix_bag_pairs::Held;
use s2ix_table_walk::RangeRow;
use std::alloc::Global;
use std::marker::Model;

/// The ranges of held pairs over one span of leaves, from a leaf number up to another, with one node for each pair: the pair, and the place
/// of the next one outwards. Each range has the place of its innermost pair, so ranges share their chains. A place is the pair's number in
/// rising order, counted from 0. Contracts see the pairs, the span and the ranges; the chain from a place is `chain_of` the pairs.
/// It is S2's cell tree, of a part of the sphere.
///
/// Costs are in n, the number of the pairs: there are at most 2 * n + 1 ranges.
#[derive(Debug, Drop)]
pub struct SpanTable {
    from: u64,
    to: u64,
    // where the last range begins, and beside it and the first one the place of the innermost pair: who joins tables reads no list for these
    last_start: u64,
    first_place: u32,
    last_place: u32,
    pub(crate) held: HeldList,
    outer: Vec<u32>,
    starts: Vec<u64>,
    firsts: Vec<u32>,
    sample: Vec<u64>,
    ghost sampled: { IsSample (length starts.items - 2) (drop 1 starts.items) sample.items },
    ghost ends: { AreEnds starts.items firsts.items first_place last_place last_start },
}

impl Model for SpanTable {
    ghost use Rattle.s2ix_table_spans.specs.SpanTable.{SpanRanges};
    ghost use Rattle.s2ix_table_spans.specs.Starts.{ranges_from};
    ghost use Rattle.s2ix_table_spans.specs.Nodes.{AreNodes};

    ghost Value = { SpanRanges };

    ghost view = { λ t. record { held = t.held; from = t.from; to = t.to; ranges = ranges_from t.held t.starts.items t.to } };

    ghost invariant = { λ t. AreNodes t.held t.from t.to t.outer.items t.starts.items t.firsts.items };
}

impl SpanTable {
    /// The table of these pairs over the leaves whose numbers are at least `from` and below `to`; their cells lie in that span. O(n).
    /// `OutOfMemory` if a growth is refused.
    pub fn over(alloc: Global, held: HeldList, from: u64, to: u64) -> Result<SpanTable, OutOfMemory>
        requires rises { IsCollection held }
        requires within_limit { length held ≤ 1000000 }
        requires span { IsInSpan held from to }
        ensures pairs { IfOk result (λ table. table.held ≡ held) }
        ensures begins { IfOk result (λ table. table.from ≡ from) }
        ensures ends { IfOk result (λ table. table.to ≡ to) }
        ensures table { IfOk result (λ table. IsSpanTable table) }
    {
        let nodes = Nodes::over(alloc, held.as_slice(), from, to)?;
        SpanTable::with_nodes(alloc, held, nodes, from, to)
    }

    /// The table of these pairs over the same span, as [`over`](SpanTable::over) makes it, but quicker if most pairs are this table's: if
    /// all pairs that differ lie in one cell that both hold, it sweeps only that cell and copies the rest. No clause says so, only the
    /// bench shows it. O(n) for n pairs in both. `OutOfMemory` if a growth is refused.
    pub fn after(&self, alloc: Global, held: HeldList) -> Result<SpanTable, OutOfMemory>
        requires rises { IsCollection held }
        requires within_limit { length held ≤ 1000000 }
        requires span { IsInSpan held self.now.from self.now.to }
        ensures pairs { IfOk result (λ table. table.held ≡ held) }
        ensures begins { IfOk result (λ table. table.from ≡ self.now.from) }
        ensures ends { IfOk result (λ table. table.to ≡ self.now.to) }
        ensures table { IfOk result (λ table. IsSpanTable table) }
    {
        let before = Before {
            held: self.held.as_slice(),
            outer: self.outer.as_slice(),
            starts: self.starts.as_slice(),
            firsts: self.firsts.as_slice(),
            sample: self.sample.as_slice(),
            from: self.from,
            to: self.to,
        };
        let nodes = match before.changed_block(held.as_slice()) {
            Some(block) => before.spliced(alloc, held.as_slice(), block)?,
            None => Nodes::over(alloc, held.as_slice(), self.from, self.to)?,
        };
        SpanTable::with_nodes(alloc, held, nodes, self.from, self.to)
    }

    // The table of pairs, of their nodes.
    fn with_nodes(
        alloc: Global,
        held: HeldList,
        nodes: Nodes,
        from: u64,
        to: u64,
    ) -> Result<SpanTable, OutOfMemory>
        requires { AreNodes held from to nodes.outer.items nodes.starts.items nodes.firsts.items }
        ensures pairs { IfOk result (λ table. table.held ≡ held) }
        ensures begins { IfOk result (λ table. table.from ≡ from) }
        ensures ends { IfOk result (λ table. table.to ≡ to) }
        ensures table { IfOk result (λ table. IsSpanTable table) }
    {
        let sample = sample_of(alloc, nodes.starts.as_slice())?;
        let last = nodes.starts.len() - 1;
        Ok(SpanTable {
            from,
            to,
            last_start: nodes.starts[last],
            first_place: nodes.firsts[0],
            last_place: nodes.firsts[last],
            held,
            outer: nodes.outer,
            starts: nodes.starts,
            firsts: nodes.firsts,
            sample,
        })
    }

    /// How many pairs there are. O(1).
    #[inline]
    pub fn pair_count(&self) -> usize
        ensures { result ≡ length self.now.held }
    {
        self.held.as_slice().len()
    }

    /// The pairs, in rising order. O(1).
    pub fn held(&self) -> &[FlatHeld]
        ensures { result.now ≡ self.now.held }
    {
        self.held.as_slice()
    }

    /// How many ranges there are: at least 1, at most 2 * n + 1. O(1).
    #[inline]
    pub fn range_count(&self) -> usize
        ensures { result ≡ length self.now.ranges }
    {
        self.starts.len()
    }

    /// The number of a range's first leaf. O(1).
    #[inline]
    pub fn start(&self, k: usize) -> u64
        requires { k < length self.now.ranges }
        ensures { result ≡ (range_at self.now.ranges k).start }
    {
        self.starts[k]
    }

    /// The numbers of the first leaves of all ranges, in order. O(1).
    #[inline]
    pub fn starts(&self) -> &[u64]
        ensures { result.now ≡ map (λ (r : Range). r.start) self.now.ranges }
    {
        self.starts.as_slice()
    }

    /// Every 16th start, from the one at place 16 on, but never the last one; it may be empty. O(1).
    #[inline]
    pub fn sample(&self) -> &[u64]
        ensures { IsSample (length self.now.ranges - 2) (drop 1 (map (λ (r : Range). r.start) self.now.ranges)) result.now }
    {
        self.sample.as_slice()
    }

    /// The leaves of a range. O(1).
    #[inline]
    pub fn range(&self, k: usize) -> RangeRow
        requires { k < length self.now.ranges }
        ensures start { result.start ≡ (range_at self.now.ranges k).start }
        ensures limit { result.limit ≡ (range_at self.now.ranges k).limit }
    {
        let start = self.starts[k];
        let limit = if k < self.starts.len() - 1 {
            self.starts[k + 1]
        } else {
            self.to
        };
        RangeRow { start, limit }
    }

    /// The place of a range's innermost pair, or `None` if nothing lies over it. O(1).
    #[inline]
    pub fn first(&self, k: usize) -> Option<u32>
        requires { k < length self.now.ranges }
        ensures { LeadsTo (chain_of self.now.held) result (range_at self.now.ranges k).contents }
    {
        self.as_place(self.innermost(k))
    }

    /// The place of a range's innermost pair. If nothing lies over the range, it is a number that is at least how many pairs there are. O(1).
    #[inline]
    pub fn innermost(&self, k: usize) -> u32
        requires { k < length self.now.ranges }
        ensures { chain_of self.now.held result ≡ (range_at self.now.ranges k).contents }
    {
        self.firsts[k]
    }

    /// Beside each pair the place of the next one outwards; beside an outermost pair a number that is at least how many pairs there are. O(1).
    #[inline]
    pub fn outers(&self) -> &[u32]
        ensures { AreLinked self.now.held result.now (chain_of self.now.held) }
    {
        self.outer.as_slice()
    }

    /// The place of the innermost pair over the first range, or `None` if nothing lies over it. It reads no list. O(1).
    pub fn first_at_start(&self) -> Option<u32>
        ensures { LeadsTo (chain_of self.now.held) result (range_at self.now.ranges 0).contents }
    {
        self.as_place(self.first_place)
    }

    /// The place of the innermost pair over the last range, or `None` if nothing lies over it. It reads no list. O(1).
    pub fn first_at_end(&self) -> Option<u32>
        ensures { LeadsTo (chain_of self.now.held) result (range_at self.now.ranges (length self.now.ranges - 1)).contents }
    {
        self.as_place(self.last_place)
    }

    /// The number of the last range's first leaf. It reads no list. O(1).
    pub fn last_start(&self) -> u64
        ensures { result ≡ (range_at self.now.ranges (length self.now.ranges - 1)).start }
    {
        self.last_start
    }

    /// The number of the span's first leaf. O(1).
    pub fn from(&self) -> u64
        ensures from { result ≡ self.now.from }
        ensures start { result ≡ (range_at self.now.ranges 0).start }
    {
        self.from
    }

    /// The pair at a place, with its count. O(1).
    #[inline]
    pub fn held_at(&self, place: u32) -> Held
        requires { IsPlace (chain_of self.now.held) place }
        ensures { chain_of self.now.held place ≡ result ∷ drop 1 (chain_of self.now.held place) }
    {
        self.held.at(place as usize)
    }

    /// The place of the next pair outwards, or `None` at the outermost. O(1).
    #[inline]
    pub fn outer(&self, place: u32) -> Option<u32>
        requires { IsPlace (chain_of self.now.held) place }
        ensures { LeadsTo (chain_of self.now.held) result (drop 1 (chain_of self.now.held place)) }
    {
        self.as_place(self.outer[place as usize])
    }

    // A number as a place, if it is one.
    #[inline]
    fn as_place(&self, number: u32) -> Option<u32>
        ensures { LeadsTo (chain_of self.now.held) result (chain_of self.now.held number) }
    {
        if (number as usize) < self.outer.len() {
            Some(number)
        } else {
            None
        }
    }

    /// The range that has a leaf of the span. O(log n).
    #[inline]
    pub fn find(&self, leaf: CellId) -> usize
        requires begins { self.now.from ≤ raw_of leaf }
        requires ends { raw_of leaf < self.now.to }
        ensures { IsFound self.now.ranges result (raw_of leaf) }
    {
        last_start(self.starts.as_slice(), self.sample.as_slice(), leaf.raw())
    }

    /// The range that has a leaf of the span, as [`find`](SpanTable::find) gives it. It is quicker than `find` if the table's lists are out
    /// of the processor's cache, and slower if they are in it: it halves where `find` counts. O(log n).
    #[inline]
    pub fn find_far(&self, leaf: CellId) -> usize
        requires begins { self.now.from ≤ raw_of leaf }
        requires ends { raw_of leaf < self.now.to }
        ensures { IsFound self.now.ranges result (raw_of leaf) }
    {
        last_of_sampled(self.starts.as_slice(), self.sample.as_slice(), leaf.raw())
    }

    /// The range that has a leaf of the span, as [`find`](SpanTable::find) gives it. `near` is the place of a range: any number is accepted.
    /// O(1 + log d) if the leaf is in the range at `near` or d ranges after it, else O(log n).
    #[inline(always)]
    pub fn find_near(&self, leaf: CellId, near: usize) -> usize
        requires begins { self.now.from ≤ raw_of leaf }
        requires ends { raw_of leaf < self.now.to }
        ensures { IsFound self.now.ranges result (raw_of leaf) }
    {
        if near < self.starts.len() && self.starts[near] <= leaf.raw() {
            last_ahead(self.starts.as_slice(), leaf.raw(), near)
        } else {
            self.find(leaf)
        }
    }
}
