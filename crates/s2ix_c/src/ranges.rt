//! The ranges of leaves of the store of a handle. No call here changes it.
#![tactic(auto, using(crate::proofs::Through::through_open, crate::proofs::Through::through_closed))]

ghost use Rattle.std.specs.Prelude.{◌≡◌, IsTrue};
ghost use Rattle.s2ix_c_calls.specs.Handle.{held_of};
ghost use Rattle.s2ix_table_walk.specs.RangeList.{range_table};
ghost use Rattle.s2ix_c.specs.Calls.{Through};
ghost use Rattle.s2ix_table_queries.specs.Leaf.{leaf_numbered};
ghost use Rattle.s2ix_c_calls.specs.Lists.{Fills};
ghost use Rattle.s2ix_c_calls.specs.Ranges.{FindsFull, FindsFullBefore, FindsRange, PutsRanges, ReadsRange, rows_of_range};
ghost use Rattle.s2ix_c_calls.specs.Status.{closed};

use crate::handles::with_store;
use s2ix_c_calls::{Handle, LeafRange, Row, calls};
use std::alloc::Global;

/// The range that has a leaf: its place, counted from 0, its first leaf number, and the one with which it ends.
#[unsafe(no_mangle)]
pub extern "C" fn s2ix_find(
    alloc: Global,
    handle: &mut Handle,
    leaf: u64,
    place: &mut usize,
    start: &mut u64,
    limit: &mut u64,
) -> u32
    ensures { Through (λ s t. (t ≡ s) × FindsRange (leaf_numbered leaf) s result place.new start.new limit.new)
        ((result ≡ closed) × (place.new ≡ 0) × (start.new ≡ 0) × (limit.new ≡ 0)) (held_of handle.old) (held_of handle.new) }
{
    *place = 0;
    *start = 0;
    *limit = 0;
    with_store!(
        alloc,
        handle,
        |store| calls::find(&store, leaf, place, start, limit)
    )
}

/// The range at a place, counted from 0: its first leaf number, the one with which it ends, and whether no pair lies over it.
#[unsafe(no_mangle)]
pub extern "C" fn s2ix_range(
    alloc: Global,
    handle: &mut Handle,
    place: usize,
    start: &mut u64,
    limit: &mut u64,
    is_empty: &mut bool,
) -> u32
    ensures { Through (λ s t. (t ≡ s) × ReadsRange place (range_table s.bag.held) result start.new limit.new is_empty.new)
        ((result ≡ closed) × (start.new ≡ 0) × (limit.new ≡ 0) × IsTrue is_empty.new) (held_of handle.old) (held_of handle.new) }
{
    *start = 0;
    *limit = 0;
    *is_empty = true;
    with_store!(
        alloc,
        handle,
        |store| calls::range(&store, place, start, limit, is_empty)
    )
}

/// The ranges from a place on, counted from 0: as many as the buffer has room for. `number` is how many are put.
#[unsafe(no_mangle)]
pub extern "C" fn s2ix_ranges(
    alloc: Global,
    handle: &mut Handle,
    from: usize,
    out: &mut [LeafRange],
    number: &mut usize,
) -> u32
    ensures { Through (λ s t. (t ≡ s) × PutsRanges from (range_table s.bag.held) result number.new out.old out.new)
        ((result ≡ closed) × (number.new ≡ 0) × (out.new ≡ out.old)) (held_of handle.old) (held_of handle.new) }
{
    *number = 0;
    with_store!(
        alloc,
        handle,
        |store| calls::ranges(&store, from, out, number)
    )
}

/// Of the pairs over the range at a place, those whose cells begin at the leaf number `from` or later: with 0 all of them, and with the end
/// of an earlier range those that don't lie over that one. The innermost cell comes first, the labels of one cell rise. It does
/// not allocate.
#[unsafe(no_mangle)]
pub extern "C" fn s2ix_contents(
    alloc: Global,
    handle: &mut Handle,
    place: usize,
    from: u64,
    out: &mut [Row],
    number: &mut usize,
) -> u32
    ensures { Through (λ s t. (t ≡ s) × Fills (rows_of_range place from (range_table s.bag.held)) result number.new out.old out.new)
        ((result ≡ closed) × (number.new ≡ 0) × (out.new ≡ out.old)) (held_of handle.old) (held_of handle.new) }
{
    *number = 0;
    with_store!(
        alloc,
        handle,
        |store| calls::contents(&store, place, from, out, number)
    )
}

/// The place of the first range from a place on that has a pair over it.
#[unsafe(no_mangle)]
pub extern "C" fn s2ix_next_full(
    alloc: Global,
    handle: &mut Handle,
    from: usize,
    place: &mut usize,
) -> u32
    ensures { Through (λ s t. (t ≡ s) × FindsFull from (range_table s.bag.held) result place.new)
        ((result ≡ closed) × (place.new ≡ 0)) (held_of handle.old) (held_of handle.new) }
{
    *place = 0;
    with_store!(alloc, handle, |store| calls::next_full(&store, from, place))
}

/// The place of the last range before a place that has a pair over it.
#[unsafe(no_mangle)]
pub extern "C" fn s2ix_previous_full(
    alloc: Global,
    handle: &mut Handle,
    before: usize,
    place: &mut usize,
) -> u32
    ensures { Through (λ s t. (t ≡ s) × FindsFullBefore before (range_table s.bag.held) result place.new)
        ((result ≡ closed) × (place.new ≡ 0)) (held_of handle.old) (held_of handle.new) }
{
    *place = 0;
    with_store!(
        alloc,
        handle,
        |store| calls::previous_full(&store, before, place)
    )
}
