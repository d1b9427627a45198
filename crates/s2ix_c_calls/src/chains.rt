//! The pairs over a leaf or a range, put into a buffer of the caller straight from the chain of a table, with no list between them. A chain is
//! gone along once: its rows go out while there is room, and only those that have none are counted.

ghost use Rattle.std.specs.Prelude.{◌≡◌, ◌+◌, ◌<◌, ◌≤◌, ◌++◌, ℕ, None, Some, length, map, take, drop};
ghost use Rattle.s2id_core.specs.CellId.{level_of, raw_of};
ghost use Rattle.s2ix_bag_pairs.specs.Collection.{Collection};
ghost use Rattle.s2ix_table_walk.specs.Contents.{contents_at};
ghost use Rattle.s2ix_table_walk.specs.Links.{AreLinked};
ghost use Rattle.s2ix_table_walk.specs.Table.{range_at};
ghost use Rattle.s2ix_table_walk.specs.Places.{IsPlace, from_place};
ghost use Rattle.s2ix_table_walk.specs.Walking.{front_from};
ghost use Rattle.s2ix_c_calls.specs.Lists.{IsFilled, IsPut, row_of};
ghost use Rattle.s2ix_c_calls.specs.Ranges.{begun_from};
ghost use Rattle.s2ix_c_calls.specs.Status.{done};

use crate::rows::{Row, row_for};
use crate::status::{DONE, NO_ROOM};
use s2id_core::CellId;
use s2ix_bag_held::FlatHeld;
use s2ix_table_queries::{Bookmark, RangeTable};

// Where the chain of a range begins, or `None` if nothing lies over it.
#[inline]
fn first_in<T: RangeTable>(table: &T, place: usize) -> Option<T::Place>
    requires { place < length (T.ranges table.now) }
    ensures place { (p : T.Place) → result ≡ Some p → IsPlace (T.chain table.now) p }
    ensures begun { (from : ℕ) → front_from from (from_place (T.chain table.now) result)
        ≡ begun_from from (range_at (T.ranges table.now) place).contents }
    ensures within_limit { length (from_place (T.chain table.now) result) ≤ 1000000 }
{
    table.first(place)
}

// How many pairs a chain has from a place on up to the first whose cell begins before the leaf number `from`.
fn length_begun<T: RangeTable>(table: &T, first: Option<T::Place>, from: u64) -> usize
    requires place { (p : T.Place) → first ≡ Some p → IsPlace (T.chain table.now) p }
    requires within_limit { length (from_place (T.chain table.now) first) ≤ 1000000 }
    ensures { result ≡ length (front_from from (from_place (T.chain table.now) first)) }
{
    let mut begun = 0;
    let mut next = first;
    while let Some(place) = next {
        if table.held_at(place).pair.cell.span_start() < from {
            return begun;
        }
        begun += 1;
        next = table.outer(place);
    }
    begun
}

// Writes the pairs of a chain from a place on, up to the first whose cell begins before the leaf number `from`, to the front of `out` while
// there is room; `count` is how many are written. Returns where the chain goes on if the room ends there.
#[inline(always)]
fn write_begun<T: RangeTable>(
    table: &T,
    first: Option<T::Place>,
    from: u64,
    out: &mut [Row],
    count: &mut usize,
) -> Option<T::Place>
    requires { (p : T.Place) → first ≡ Some p → IsPlace (T.chain table.now) p }
    ensures rows { take count.new out.new ++ map row_of (front_from from (from_place (T.chain table.now) result))
        ≡ map row_of (front_from from (from_place (T.chain table.now) first)) }
    ensures after { drop count.new out.new ≡ drop count.new out.old }
    ensures room { count.new ≤ length out.old }
    ensures full { count.new < length out.old → result ≡ None }
    ensures place { (p : T.Place) → result ≡ Some p → IsPlace (T.chain table.now) p }
    ensures shorter { length (from_place (T.chain table.now) result) ≤ length (from_place (T.chain table.now) first) }
{
    *count = 0;
    let mut next = first;
    while let Some(place) = next {
        if *count == out.len() {
            return Some(place);
        }
        let held = table.held_at(place);
        if held.pair.cell.span_start() < from {
            return None;
        }
        out[*count] = row_for(held);
        *count += 1;
        next = table.outer(place);
    }
    None
}

// Puts the pairs of a chain from a place on, up to the first whose cell begins before the leaf number `from`, to the front of `out` as far as
// it has room; `number` is how many there are.
#[inline(never)]
fn put_places<T: RangeTable>(
    table: &T,
    first: Option<T::Place>,
    from: u64,
    out: &mut [Row],
    number: &mut usize,
) -> u32
    requires place { (p : T.Place) → first ≡ Some p → IsPlace (T.chain table.now) p }
    requires within_limit { length (from_place (T.chain table.now) first) ≤ 1000000 }
    ensures { IsFilled (map row_of (front_from from (from_place (T.chain table.now) first))) result number.new out.old out.new }
{
    let rest = write_begun(table, first, from, out, number);
    let more = length_begun(table, rest, from);
    *number += more;
    if more > 0 {
        return NO_ROOM;
    }
    DONE
}

// The same, but it returns at once if the chain has no pair there. Most chains that begin in lists have none behind them.
#[inline(always)]
fn put_chain<T: RangeTable>(
    table: &T,
    first: Option<T::Place>,
    from: u64,
    out: &mut [Row],
    number: &mut usize,
) -> u32
    requires place { (p : T.Place) → first ≡ Some p → IsPlace (T.chain table.now) p }
    requires within_limit { length (from_place (T.chain table.now) first) ≤ 1000000 }
    ensures { IsFilled (map row_of (front_from from (from_place (T.chain table.now) first))) result number.new out.old out.new }
{
    if first.is_none() {
        *number = 0;
        return DONE;
    }
    put_places(table, first, from, out, number)
}

// Writes the pairs of a chain that is kept in lists, from a place of it on, to the front of `out` while there is room; `count` is how many are
// written. Returns where the chain goes on if the room ends there.
#[inline(always)]
fn write_linked(
    held: &[FlatHeld],
    outers: &[u32],
    first: u32,
    out: &mut [Row],
    count: &mut usize,
) -> u32
    requires { length outers.now ≡ length held.now }
    ensures rows { (chain : ℕ → Collection) → AreLinked held.now outers.now chain
        → take count.new out.new ++ map row_of (chain result) ≡ map row_of (chain first) }
    ensures after { drop count.new out.new ≡ drop count.new out.old }
    ensures room { count.new ≤ length out.old }
    ensures full { count.new < length out.old → length held.now ≤ result }
{
    *count = 0;
    let mut place = first;
    while (place as usize) < held.len() && *count < out.len() {
        out[*count] = row_for(held[place as usize].held());
        *count += 1;
        place = outers[place as usize];
    }
    place
}

// How many pairs a chain that is kept in lists has from a place of it on.
fn length_linked(held: &[FlatHeld], outers: &[u32], first: u32) -> usize
    requires { length outers.now ≡ length held.now }
    ensures number { (chain : ℕ → Collection) → AreLinked held.now outers.now chain → length (chain first) ≤ 1000000
        → result ≡ length (chain first) }
    ensures at_most { result ≤ 1000000 }
{
    let mut left = 0;
    let mut place = first;
    // (no chain is longer than a collection)
    while left < 1000000 && (place as usize) < held.len() {
        left += 1;
        place = outers[place as usize];
    }
    left
}

// Puts the pairs over a leaf to the front of `out` as far as it has room; `number` is how many there are. It does not allocate.
// O(log n + k) for k pairs: first those of a chain in lists, which are read quickest.
pub(crate) fn put_over<T: RangeTable>(
    table: &T,
    leaf: CellId,
    out: &mut [Row],
    number: &mut usize,
) -> u32
    requires { level_of leaf ≡ 30 }
    ensures { IsFilled (map row_of (contents_at (raw_of leaf) (T.pairs table.now))) result number.new out.old out.new }
{
    let over = table.contents_near(leaf, Bookmark::none());
    let next = write_linked(over.held, over.outers, over.innermost, out, number);
    let more = length_linked(over.held, over.outers, next);
    let mut behind = 0;
    let status = put_chain(table, over.rest, 0, &mut out[*number..], &mut behind);
    *number += more + behind;
    if more > 0 { NO_ROOM } else { status }
}

// Puts the pairs over a range whose cells begin at the leaf number `from` or later to the front of `out` as far as it has room; `number` is
// how many there are. It does not allocate. O(log n + k) for k pairs.
pub(crate) fn put_begun<T: RangeTable>(
    table: &T,
    place: usize,
    from: u64,
    out: &mut [Row],
    number: &mut usize,
) -> u32
    requires { place < length (T.ranges table.now) }
    ensures { IsFilled (map row_of (begun_from from (range_at (T.ranges table.now) place).contents)) result number.new out.old out.new }
{
    let first = first_in(table, place);
    put_chain(table, first, from, out, number)
}

// Where a chain goes on after some of its pairs: `None` if it ends before.
fn place_after<T: RangeTable>(table: &T, first: Option<T::Place>, count: usize) -> Option<T::Place>
    requires { (p : T.Place) → first ≡ Some p → IsPlace (T.chain table.now) p }
    ensures place { (p : T.Place) → result ≡ Some p → IsPlace (T.chain table.now) p }
    ensures pairs { from_place (T.chain table.now) result ≡ drop count (from_place (T.chain table.now) first) }
{
    let mut next = first;
    let mut passed = 0;
    while passed < count {
        let Some(place) = next else {
            return None;
        };
        next = table.outer(place);
        passed += 1;
    }
    next
}

// Passes over some pairs of a chain that is kept in lists, from a place of it on, or over all if it has fewer; `passed` is how many. Returns
// where the chain goes on.
#[inline(always)]
fn pass_linked(
    held: &[FlatHeld],
    outers: &[u32],
    first: u32,
    count: usize,
    passed: &mut usize,
) -> u32
    requires { length outers.now ≡ length held.now }
    ensures rest { (chain : ℕ → Collection) → AreLinked held.now outers.now chain → chain result ≡ drop passed.new (chain first) }
    ensures within { (chain : ℕ → Collection) → AreLinked held.now outers.now chain → passed.new ≤ length (chain first) }
    ensures at_most { passed.new ≤ count }
    ensures all { passed.new < count → length held.now ≤ result }
{
    *passed = 0;
    let mut place = first;
    while *passed < count && (place as usize) < held.len() {
        *passed += 1;
        place = outers[place as usize];
    }
    place
}

// Puts the pairs over a leaf from one of them on, counted from 0, to the front of `out`: as many as it has room for. The answer is how many
// are put. It does not allocate, and goes no further along the chain.
pub(crate) fn put_over_from<T: RangeTable>(
    table: &T,
    leaf: CellId,
    from: usize,
    out: &mut [Row],
) -> usize
    requires { level_of leaf ≡ 30 }
    ensures { IsPut (map row_of (take (length out.old) (drop from (contents_at (raw_of leaf) (T.pairs table.now))))) done result out.old out.new }
{
    let over = table.contents_near(leaf, Bookmark::none());
    let mut passed = 0;
    let first = pass_linked(over.held, over.outers, over.innermost, from, &mut passed);
    let mut count = 0;
    let _next = write_linked(over.held, over.outers, first, out, &mut count);
    let outer = place_after(table, over.rest, from - passed);
    let mut behind = 0;
    let _rest = write_begun(table, outer, 0, &mut out[count..], &mut behind);
    count + behind
}
