//! Unions of cells by their numbers, without a handle. A list may have its cells in any order, and repeated or not.

ghost use Rattle.std.specs.Prelude.{◌≡◌, ◌≢◌, ◌⊎◌, ◌&&◌, ◌||◌, not, []};
ghost use Rattle.s2id_core.specs.declared.cell_id.CellId.{CellId};
ghost use Rattle.s2id_union.specs.Region.{HasAllOf, Meets};
ghost use Rattle.s2ix_c.specs.CellUnions.{CountsLeaves, Decides, ListsOfTwo, ListsSpan, normal_numbers, numbers_by};
ghost use Rattle.s2ix_c_calls.specs.Lists.{ListsOf};
ghost use Rattle.s2ix_c_calls.specs.Status.{out_of_memory};

use s2id_core::CellId;
use s2id_union::{CellUnion, RangeError};
use s2ix_c_calls::status::{DONE, NO_CELL, NO_SPAN, OUT_OF_MEMORY};
use s2ix_c_calls::{check_both, normal_of, normals_of, put_cells};
use std::alloc::Global;

/// The normal list of the cells: rising, no cell within another, and no four that are all the children of one.
#[unsafe(no_mangle)]
pub extern "C" fn s2ix_union_normalise(
    alloc: Global,
    ids: &[u64],
    out: &mut [u64],
    number: &mut usize,
) -> u32
    ensures list { ListsOf normal_numbers ids.now result number.new out.old out.new }
    ensures memory { result ≡ out_of_memory → ids.now ≢ [] }
{
    *number = 0;
    if ids.is_empty() {
        return DONE; // no cells, so an empty list
    }
    match normal_of(alloc, ids, number) {
        Ok(normal) => put_cells(normal.cells(), out, number),
        Err(why) => why,
    }
}

/// The normal list of the leaves with numbers from `start` to below `limit`.
#[unsafe(no_mangle)]
pub extern "C" fn s2ix_union_from_leaves(
    alloc: Global,
    start: u64,
    limit: u64,
    out: &mut [u64],
    number: &mut usize,
) -> u32
    ensures { ListsSpan start limit result number.new out.old out.new }
{
    *number = 0;
    match CellUnion::from_leaves(alloc, start, limit) {
        Ok(union) => put_cells(union.cells(), out, number),
        Err(RangeError::BadRange) => NO_SPAN,
        Err(RangeError::OutOfMemory) if start < limit => OUT_OF_MEMORY,
        Err(RangeError::OutOfMemory) => DONE, // equal bounds, so no cells
    }
}

// Lists the union that a call makes of the unions of two lists of cells, or gives why there is none.
macro_rules! list_of_two {
    ($alloc:expr, $out:expr, $number:expr, |$first:ident, $second:ident| $call:expr) => {
        match normals_of($alloc, $first, $second, $number) {
            Ok(($first, $second)) => match $call {
                Ok(union) => put_cells(union.cells(), $out, $number),
                Err(_) => OUT_OF_MEMORY,
            },
            Err(why) => why,
        }
    };
}

/// The normal list of the leaves of either union.
#[unsafe(no_mangle)]
pub extern "C" fn s2ix_union_union(
    alloc: Global,
    first: &[u64],
    second: &[u64],
    out: &mut [u64],
    number: &mut usize,
) -> u32
    ensures list { ListsOfTwo (numbers_by (λ a b. a || b)) first.now second.now result number.new out.old out.new }
    ensures memory { result ≡ out_of_memory → (first.now ≢ []) ⊎ (second.now ≢ []) }
{
    if first.is_empty() && second.is_empty() {
        return check_both(first, second, number); // neither has a leaf
    }
    list_of_two!(
        alloc,
        out,
        number,
        |first, second| first.union(alloc, &second)
    )
}

/// The normal list of the leaves of both unions.
#[unsafe(no_mangle)]
pub extern "C" fn s2ix_union_intersection(
    alloc: Global,
    first: &[u64],
    second: &[u64],
    out: &mut [u64],
    number: &mut usize,
) -> u32
    ensures list { ListsOfTwo (numbers_by (λ a b. a && b)) first.now second.now result number.new out.old out.new }
    ensures memory { result ≡ out_of_memory → (first.now ≢ []) × (second.now ≢ []) }
{
    if first.is_empty() || second.is_empty() {
        return check_both(first, second, number); // one has no leaf
    }
    list_of_two!(
        alloc,
        out,
        number,
        |first, second| first.intersection(alloc, &second)
    )
}

/// The normal list of the leaves of the first union that are not the second's.
#[unsafe(no_mangle)]
pub extern "C" fn s2ix_union_difference(
    alloc: Global,
    first: &[u64],
    second: &[u64],
    out: &mut [u64],
    number: &mut usize,
) -> u32
    ensures list { ListsOfTwo (numbers_by (λ a b. a && not b)) first.now second.now result number.new out.old out.new }
    ensures memory { result ≡ out_of_memory → first.now ≢ [] }
{
    if first.is_empty() {
        return check_both(first, second, number); // the first has no leaf
    }
    list_of_two!(
        alloc,
        out,
        number,
        |first, second| first.difference(alloc, &second)
    )
}

/// Whether each leaf of a cell is one of the union's.
#[unsafe(no_mangle)]
pub extern "C" fn s2ix_union_contains(
    alloc: Global,
    ids: &[u64],
    cell: u64,
    answer: &mut bool,
) -> u32
    ensures { Decides HasAllOf ids.now cell result answer.new }
{
    *answer = false;
    let Some(cell) = CellId::from_raw(cell) else {
        return NO_CELL;
    };
    if ids.is_empty() {
        return DONE; // no cells, so no leaf of the cell's
    }
    let mut place = 0;
    let union = match normal_of(alloc, ids, &mut place) {
        Ok(union) => union,
        Err(why) => return why,
    };
    *answer = union.contains(cell);
    DONE
}

/// Whether some leaf of a cell is one of the union's.
#[unsafe(no_mangle)]
pub extern "C" fn s2ix_union_intersects(
    alloc: Global,
    ids: &[u64],
    cell: u64,
    answer: &mut bool,
) -> u32
    ensures { Decides Meets ids.now cell result answer.new }
{
    *answer = false;
    let Some(cell) = CellId::from_raw(cell) else {
        return NO_CELL;
    };
    if ids.is_empty() {
        return DONE; // no cells, so no shared leaf
    }
    let mut place = 0;
    let union = match normal_of(alloc, ids, &mut place) {
        Ok(union) => union,
        Err(why) => return why,
    };
    *answer = union.intersects(cell);
    DONE
}

/// How many leaves the union has.
#[unsafe(no_mangle)]
pub extern "C" fn s2ix_union_leaf_count(alloc: Global, ids: &[u64], count: &mut u64) -> u32
    ensures { CountsLeaves ids.now result count.new }
{
    *count = 0;
    if ids.is_empty() {
        return DONE; // no cells, so no leaves
    }
    let mut place = 0;
    match normal_of(alloc, ids, &mut place) {
        Ok(union) => {
            *count = union.leaf_count();
            DONE
        }
        Err(why) => why,
    }
}
