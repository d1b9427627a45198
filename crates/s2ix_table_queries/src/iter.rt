ghost use Rattle.std.specs.Prelude.{◌≡◌, ◌<◌, ℕ, Some, length};
ghost use Rattle.std.specs.Iterator.{AlwaysYields, YieldsFirst, item_count};
ghost use Rattle.s2id_core.specs.CellId.{raw_of, level_of};
ghost use Rattle.s2ix_table_walk.specs.Contents.{contents_at};
ghost use Rattle.s2ix_table_walk.specs.Places.{IsPlace, from_place};
ghost use Rattle.s2ix_table_queries.specs.Iterators.{numbered_rows, IsAtRange};
ghost use Rattle.s2ix_table_walk.specs.Table.{range_at, IsFound};

use crate::bookmark::Bookmark;
use crate::table::RangeTable;
use s2id_core::CellId;
use s2ix_bag_pairs::Held;
use s2ix_table_walk::RangeRow;

/// The ranges of a table with their places, in order (S2's `RangeIterator`). O(1) for each, but in a table of p parts O(log p) for the first and
/// the last one of a part.
#[derive(Debug, Drop)]
#[derive_where(Clone)]
pub struct RangeIter<'a, T> {
    table: &'a T,
    next: usize,
    // that of the range that was given last
    bookmark: Bookmark,
}

impl<'a, T: RangeTable> RangeIter<'a, T> {
    ghost use Rattle.s2ix_table_queries.specs.Iterators.{table_of};

    // An iterator that starts at a table's first range.
    pub(crate) fn new(table: &'a T) -> RangeIter<'a, T>
        ensures { IsAtRange T.ranges table.now result 0 }
    {
        RangeIter {
            table,
            next: 0,
            bookmark: Bookmark::none(),
        }
    }

    /// Goes to the range that has a leaf (S2's `Seek()`). O(log n) for n pairs.
    pub fn seek(&mut self, leaf: CellId)
        requires { level_of leaf ≡ 30 }
        ensures { (k : ℕ)
            × IsFound (T.ranges (table_of self.old)) k (raw_of leaf)
            × IsAtRange T.ranges (table_of self.old) self.new k }
    {
        self.next = self.table.find(leaf);
    }
}

impl<T: RangeTable> Iterator for RangeIter<'_, T> {
    ghost use Rattle.s2ix_table_queries.specs.Iterators.{StepsOn, ranges_left};

    type Item = (usize, RangeRow);

    ghost next_gives = { StepsOn T.ranges };

    ghost remaining = { item_count (ranges_left T.ranges) };

    fn next(&mut self) -> Option<(usize, RangeRow)> {
        let k = self.next;
        if k >= self.table.range_count() {
            return None;
        }
        self.next = k + 1;
        let (row, _first, bookmark) = self.table.read_near(k, self.bookmark);
        self.bookmark = bookmark;
        Some((k, row))
    }
}

/// The ranges of a table with their places, in order (S2's `RangeIterator`). O(1), and what [`RangeIter`] says for each.
pub fn ranges<T: RangeTable>(table: &T) -> RangeIter<'_, T>
    ensures start { IsAtRange T.ranges table.now result 0 }
    ensures gives { AlwaysYields
        ⟦<RangeIter<'static, T> as Iterator>⟧.next_gives
        (λ row. row)
        result
        (numbered_rows 0 (T.ranges table.now)) }
{
    RangeIter::new(table)
}

/// The pairs of a chain, innermost cell first, the labels of one cell rising (S2's `ContentsIterator`, which also leaves out pairs
/// that it gave before). O(1) for each.
#[derive(Drop)]
#[derive_where(Debug; T, T::Place)]
pub struct ChainIter<'a, T: RangeTable> {
    table: &'a T,
    next: Option<T::Place>,
    pub ghost live: { (p : T.Place) → next ≡ Some p → IsPlace (T.chain table.now) p },
}

impl<T: RangeTable> Iterator for ChainIter<'_, T> {
    type Item = Held;

    ghost next_gives = { YieldsFirst (λ it. from_place (T.chain it.table.now) it.next) };

    ghost remaining = { item_count (λ it. from_place (T.chain it.table.now) it.next) };

    // It is always inlined: each pair waits for the place that the one before it gives, and in a call of its own that goes through memory.
    #[inline(always)]
    fn next(&mut self) -> Option<Held> {
        let place = self.next?;
        let held = self.table.held_at(place);
        self.next = self.table.outer(place);
        Some(held)
    }
}

/// What lies over a range, innermost cell first, the labels of one cell rising (S2's `StartUnion()`). O(1), or O(log p) for a table in p
/// parts, and O(1) for each pair.
#[inline]
pub fn contents<T: RangeTable>(table: &T, k: usize) -> ChainIter<'_, T>
    requires { k < length (T.ranges table.now) }
    ensures { AlwaysYields ⟦<ChainIter<'static, T> as Iterator>⟧.next_gives (λ held. held) result (range_at (T.ranges table.now) k).contents }
{
    let next = table.first(k);
    ChainIter { table, next }
}

/// What lies over a leaf, innermost cell first, the labels of one cell rising. O(log n) for n pairs, and O(1) for each
/// pair that it gives.
#[inline]
pub fn chain_at<T: RangeTable>(table: &T, leaf: CellId) -> ChainIter<'_, T>
    requires { level_of leaf ≡ 30 }
    ensures { AlwaysYields ⟦<ChainIter<'static, T> as Iterator>⟧.next_gives (λ held. held) result (contents_at (raw_of leaf) (T.pairs table.now)) }
{
    let next = table.first_over(leaf);
    ChainIter { table, next }
}
