//! The ranges of leaves of a store. No call here changes it.

ghost use Rattle.std.specs.Prelude.{◌≡◌, ◌≢◌, ◌<◌, ◌≤◌, ℕ, None, [], IfSome, length, map, take, drop};
ghost use Rattle.s2id_core.specs.CellId.{level_of};
ghost use Rattle.s2ix_table_walk.specs.RangeList.{range_table};
ghost use Rattle.s2ix_table_walk.specs.Table.{range_at};
ghost use Rattle.s2ix_table_queries.specs.Leaf.{leaf_numbered};
ghost use Rattle.s2ix_c_calls.specs.Lists.{Fills, IsPut};
ghost use Rattle.s2ix_c_calls.specs.Ranges.{FindsFull, FindsFullBefore, FindsRange, IsEmptyAt, IsRangeOf, PutsRanges, ReadsRange, leaf_range_of, rows_of_range, GivesPlace};
ghost use Rattle.s2ix_c_calls.specs.Status.{done};

use crate::chains::put_begun;
use crate::rows::Row;
use crate::status::{DONE, NO_CELL, NO_RANGE};
use s2id_core::CellId;
use s2ix_edit::{Store, StoreTable};
use s2ix_table_queries::{Bookmark, RangeTable, leaf_of};
use s2ix_table_walk::RangeRow;
use s2ix_table_walk::laws::range_table_is_the_collections;

/// A range of leaves over which the same pairs lie.
#[repr(C)]
#[derive(Clone, Copy)]
pub struct LeafRange {
    /// Its first leaf number.
    pub start: u64,
    /// The first leaf number after it.
    pub limit: u64,
    /// Whether no pair lies over it.
    pub is_empty: bool,
}

// The table of a store: its ranges are those of what the store holds.
pub(crate) fn table_of(store: &Store) -> &StoreTable
    ensures { ⟦<StoreTable as RangeTable>⟧.ranges result.now ≡ range_table store.now.bag.held }
{
    range_table_is_the_collections();
    store.table()
}

// The range that has a leaf, with its place.
fn range_of(store: &Store, leaf: CellId) -> (usize, RangeRow)
    requires { level_of leaf ≡ 30 }
    ensures { IsRangeOf leaf (range_table store.now.bag.held) result.0 result.1.start result.1.limit }
{
    range_table_is_the_collections();
    let table = store.table();
    let place = table.find(leaf);
    let row = table.range(place);
    (place, row)
}

/// The range that has a leaf: its place, counted from 0, its first leaf number, and the first one after it.
pub fn find(store: &Store, leaf: u64, place: &mut usize, start: &mut u64, limit: &mut u64) -> u32
    ensures { FindsRange (leaf_numbered leaf) store.now result place.new start.new limit.new }
{
    let Some(leaf) = leaf_of(leaf) else {
        *place = 0;
        *start = 0;
        *limit = 0;
        return NO_CELL;
    };
    let (at, row) = range_of(store, leaf);
    *place = at;
    *start = row.start;
    *limit = row.limit;
    DONE
}

/// The range at a place, counted from 0: its first leaf number, the first one after it, and whether no pair lies over it.
pub fn range(
    store: &Store,
    place: usize,
    start: &mut u64,
    limit: &mut u64,
    is_empty: &mut bool,
) -> u32
    ensures { ReadsRange place (range_table store.now.bag.held) result start.new limit.new is_empty.new }
{
    let table = table_of(store);
    if place >= table.range_count() {
        *start = 0;
        *limit = 0;
        *is_empty = true;
        return NO_RANGE;
    }
    let (row, first, _bookmark) = table.read_near(place, Bookmark::none());
    *start = row.start;
    *limit = row.limit;
    *is_empty = first.is_none();
    DONE
}

// Writes the ranges of a table from a place on to the front of `out`: as many as it has room for. Returns how many. O(log n) for the first,
// O(1) for each after it in the same part of the table.
fn write_ranges<T: RangeTable>(table: &T, from: usize, out: &mut [LeafRange]) -> usize
    ensures { IsPut (map leaf_range_of (take (length out.old) (drop from (T.ranges table.now)))) done result out.old out.new }
{
    let rest = table.range_count().saturating_sub(from);
    let count = rest.min(out.len());
    let mut last = Bookmark::none();
    for place in 0..count {
        let (row, first, next) = table.read_near(from + place, last);
        out[place] = LeafRange {
            start: row.start,
            limit: row.limit,
            is_empty: first.is_none(),
        };
        last = next;
    }
    count
}

/// The ranges from a place on, counted from 0: as many as the buffer has room for. `number` is how many are put.
pub fn ranges(store: &Store, from: usize, out: &mut [LeafRange], number: &mut usize) -> u32
    ensures { PutsRanges from (range_table store.now.bag.held) result number.new out.old out.new }
{
    *number = write_ranges(table_of(store), from, out);
    DONE
}

/// Of the pairs over the range at a place, those whose cells begin at the leaf number `from` or later: the innermost cell first, the
/// labels of one cell rising. If `from` is the limit of an earlier range, these are the pairs that don't lie over that one
/// (`laws::pairs_from_a_limit_are_new`). It does not allocate. It reads these pairs and one more: each cell further out begins no later than
/// the one before it.
pub fn contents(store: &Store, place: usize, from: u64, out: &mut [Row], number: &mut usize) -> u32
    ensures { Fills (rows_of_range place from (range_table store.now.bag.held)) result number.new out.old out.new }
{
    *number = 0;
    let table = table_of(store);
    if place >= table.range_count() {
        return NO_RANGE;
    }
    put_begun(table, place, from, out, number)
}

// The first range from a place on that has a pair over it. No two neighbours are both empty, so it looks at two at most.
fn full_from<T: RangeTable>(table: &T, from: usize) -> Option<usize>
    ensures found { IfSome result (λ place. (from ≤ place) × (place < length (T.ranges table.now))
        × ((range_at (T.ranges table.now) place).contents ≢ [])) }
    ensures first { IfSome result (λ place. (k : ℕ) → from ≤ k → k < place → IsEmptyAt (T.ranges table.now) k) }
    ensures none { result ≡ None → (k : ℕ) → from ≤ k → k < length (T.ranges table.now) → IsEmptyAt (T.ranges table.now) k }
{
    let mut place = from;
    while place < table.range_count() {
        if table.first(place).is_some() {
            return Some(place);
        }
        place += 1;
    }
    None
}

// Tells the place of a range, if there is one.
fn give_place(found: Option<usize>, place: &mut usize) -> u32
    ensures { GivesPlace found result place.new }
{
    match found {
        Some(found) => {
            *place = found;
            DONE
        }
        None => {
            *place = 0;
            NO_RANGE
        }
    }
}

/// The place of the first range from a place on that has a pair over it.
pub fn next_full(store: &Store, from: usize, place: &mut usize) -> u32
    ensures { FindsFull from (range_table store.now.bag.held) result place.new }
{
    give_place(full_from(table_of(store), from), place)
}

// The last range before a place that has a pair over it. No two neighbours are both empty, so it looks at two at most.
fn full_before<T: RangeTable>(table: &T, before: usize) -> Option<usize>
    ensures found { IfSome result (λ place. (place < before) × (place < length (T.ranges table.now))
        × ((range_at (T.ranges table.now) place).contents ≢ [])) }
    ensures last { IfSome result (λ place. (k : ℕ) → place < k → k < before → k < length (T.ranges table.now)
        → IsEmptyAt (T.ranges table.now) k) }
    ensures none { result ≡ None → (k : ℕ) → k < before → k < length (T.ranges table.now) → IsEmptyAt (T.ranges table.now) k }
{
    let mut end = before.min(table.range_count());
    while end > 0 {
        end -= 1;
        if table.first(end).is_some() {
            return Some(end);
        }
    }
    None
}

/// The place of the last range before a place that has a pair over it.
pub fn previous_full(store: &Store, before: usize, place: &mut usize) -> u32
    ensures { FindsFullBefore before (range_table store.now.bag.held) result place.new }
{
    give_place(full_before(table_of(store), before), place)
}
