ghost use Rattle.s2ix_table_walk.specs.Shown.{one_border};
ghost use Rattle.std.specs.Prelude.{◌≡◌, ◌≢◌, ℕ, ◌%◌, ◌<◌, ◌≤◌, IfOk, drop, length};
ghost use Rattle.s2ix_bag_pairs.specs.Collection.{IsCollection};
ghost use Rattle.s2ix_bag_pairs.specs.OneProof.{IsCollection-prop};
ghost use Rattle.s2ix_table_walk.specs.Contents.{contents_at};
ghost use Rattle.s2ix_table_walk.specs.Table.{range_at, leaf_end, IsRangeTable};
ghost use Rattle.s2ix_table.specs.Copied.{ranges_of};

use crate::copied_filter::{contents_over, next_bound};
use crate::copied_pairs::held_pairs;
use crate::copied_range::CopiedRange;
use s2id_core::{CellId, LEAF_END, OutOfMemory};
use s2ix_bag_changes::Bag;
use s2ix_bag_pairs::Held;
use s2ix_table_queries::RangeTable;
use s2ix_table_walk::RangeRow;
use std::alloc::Global;
use std::snapshot::Snapshot;

/// A range table that keeps a list of its own for each range. Building takes O(r * n) for n pairs and r ranges, of which there are at most
/// 2 * n + 1. For each range it also sorts the pairs over it: O(m log m) for m labels of one cell, at worst O(m * m) for m pairs of nested
/// cells.
#[derive(Drop)]
#[derive_where(Debug)]
pub struct CopiedTable {
    ranges: Vec<CopiedRange>,
    // what the table was built of: only clauses read it, and it takes no bytes
    #[derive_where(skip)]
    held: Snapshot<Vec<Held>>,
    ghost rises: { IsCollection held.value.items } by { IsCollection-prop 0 held.value.items },
    ghost table: { IsRangeTable held.value.items (ranges_of ranges.items) },
    ghost within_limit: { length held.value.items ≤ 1000000 },
}

/// A pair of a range's list, by the range and its place in that list, both counted from 0.
#[derive(Clone, Copy, Debug, PartialEq, Eq, Hash)]
pub struct CopiedPlace {
    range: usize,
    at: usize,
}

impl RangeTable for CopiedTable {
    type Place = CopiedPlace;

    ghost pairs = { λ t. t.held.value.items };

    ghost ranges = { λ t. ranges_of t.ranges.items };

    ghost chain = { λ t p. drop p.at (range_at (ranges_of t.ranges.items) p.range).contents };

    ghost is_collection = { λ t. t.rises };

    ghost is_table = { λ t. t.table };

    ghost are_borders = { λ t. one_border t.table.some };

    ghost within_limit = { λ t. t.within_limit };

    fn build(alloc: Global, bag: &Bag) -> Result<Self, OutOfMemory> {
        let held = held_pairs(alloc, bag)?;
        let ranges = ranges_over(alloc, held.as_slice())?;
        let held = Snapshot::of(&held);
        Ok(CopiedTable { ranges, held })
    }

    fn range_count(&self) -> usize {
        self.ranges.len()
    }

    fn range(&self, k: usize) -> RangeRow {
        let range = &self.ranges[k];
        RangeRow {
            start: range.start,
            limit: range.limit,
        }
    }

    fn first(&self, k: usize) -> Option<CopiedPlace> {
        if self.ranges[k].contents.is_empty() {
            None
        } else {
            Some(CopiedPlace { range: k, at: 0 })
        }
    }

    // it is one part
    fn border(&self, _m: usize) -> usize {
        0
    }

    fn held_at(&self, place: CopiedPlace) -> Held {
        self.ranges[place.range].contents[place.at]
    }

    fn outer(&self, place: CopiedPlace) -> Option<CopiedPlace> {
        let len = self.ranges[place.range].contents.len();
        if place.at < len - 1 {
            Some(CopiedPlace {
                range: place.range,
                at: place.at + 1,
            })
        } else {
            None
        }
    }

    fn find(&self, leaf: CellId) -> usize {
        let leaf = leaf.raw();
        self.ranges.partition_point(|range| range.limit <= leaf)
    }
}

// The ranges over held pairs. Each starts where the one before it ends.
fn ranges_over(alloc: Global, held: &[Held]) -> Result<Vec<CopiedRange>, OutOfMemory>
    requires { IsCollection held.now }
    ensures { IfOk result (λ ranges. IsRangeTable held.now (ranges_of ranges.items)) }
{
    let mut ranges = Vec::new(alloc);
    let mut at = 1;
    while at < LEAF_END {
        let range = range_above(alloc, held, at)?;
        at = range.limit;
        ranges.push(range)?;
    }
    Ok(ranges)
}

// The range that starts at a leaf and ends at the next bound of a cell. O(n), and the time in which `contents_over` sorts its pairs.
fn range_above(alloc: Global, held: &[Held], at: u64) -> Result<CopiedRange, OutOfMemory>
    requires rises { IsCollection held.now }
    requires odd { at % 2 ≡ 1 }
    requires within { at < leaf_end }
    ensures start { IfOk result (λ range. range.start ≡ at) }
    ensures limit { IfOk result (λ range. (at < range.limit) × (range.limit ≤ leaf_end) × (range.limit % 2 ≡ 1)) }
    ensures shared { IfOk result (λ range. (q : ℕ) → at ≤ q → q < range.limit → contents_at q held.now ≡ range.contents.items) }
    ensures maximal { IfOk result (λ range. range.limit < leaf_end → contents_at range.limit held.now ≢ range.contents.items) }
{
    let limit = next_bound(held, at);
    let contents = contents_over(alloc, held, at)?;
    Ok(CopiedRange {
        start: at,
        limit,
        contents,
    })
}
