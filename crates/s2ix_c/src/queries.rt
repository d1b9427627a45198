//! Queries of the store of a handle. None changes it.
#![tactic(auto, using(crate::proofs::Through::through_open, crate::proofs::Through::through_closed))]

ghost use Rattle.std.specs.Prelude.{◌≡◌, ◌≢◌, [], length, take};
ghost use Rattle.s2ix_bag_pairs.specs.Label.{label_numbered};
ghost use Rattle.s2ix_c_calls.specs.Handle.{held_of};
ghost use Rattle.s2ix_c.specs.Calls.{Through};
ghost use Rattle.s2ix_table_queries.specs.Leaf.{leaf_numbered};
ghost use Rattle.s2ix_c_calls.specs.Asked.{NeedUnion};
ghost use Rattle.s2ix_c_calls.specs.Lists.{Fills, FillsOf, labels_met, ListsOf, PutsGathered, region_cells, rows_met, rows_met_from, rows_over};
ghost use Rattle.s2ix_c_calls.specs.Status.{closed, no_room, out_of_memory};

use crate::handles::with_store;
use s2ix_c_calls::{Handle, Row, calls};
use std::alloc::Global;

/// The pairs over a leaf, the innermost cell first, the labels of one cell rising. It does not allocate.
#[unsafe(no_mangle)]
pub extern "C" fn s2ix_at(
    alloc: Global,
    handle: &mut Handle,
    leaf: u64,
    out: &mut [Row],
    number: &mut usize,
) -> u32
    ensures { Through (λ s t. (t ≡ s) × Fills (rows_over (leaf_numbered leaf) s) result number.new out.old out.new)
        ((result ≡ closed) × (number.new ≡ 0) × (out.new ≡ out.old)) (held_of handle.old) (held_of handle.new) }
{
    *number = 0;
    with_store!(alloc, handle, |store| calls::at(&store, leaf, out, number))
}

/// The pairs that share a leaf with a union of cells, given in any order and repeated or not: each once, by first shared leaf, then
/// falling level, then rising label. At most 1,024 cells that follow one another want no memory.
#[unsafe(no_mangle)]
pub extern "C" fn s2ix_meet(
    alloc: Global,
    handle: &mut Handle,
    ids: &[u64],
    out: &mut [Row],
    number: &mut usize,
) -> u32
    ensures list { Through (λ s t. (t ≡ s) × FillsOf (λ cells. rows_met cells s) ids.now result number.new out.old out.new)
        ((result ≡ closed) × (number.new ≡ 0) × (out.new ≡ out.old)) (held_of handle.old) (held_of handle.new) }
    ensures memory { result ≡ out_of_memory → NeedUnion ids.now }
{
    *number = 0;
    with_store!(
        alloc,
        handle,
        |store| calls::meet(alloc, &store, ids, out, number)
    )
}

/// The pairs that `s2ix_meet` puts, from a place on, counted from 0: as many as the buffer has room for. It goes no further along the table.
#[unsafe(no_mangle)]
pub extern "C" fn s2ix_meet_from(
    alloc: Global,
    handle: &mut Handle,
    ids: &[u64],
    from: usize,
    out: &mut [Row],
    number: &mut usize,
) -> u32
    ensures list { Through (λ s t. (t ≡ s) × ListsOf (λ cells. rows_met_from from (length out.old) cells s) ids.now result number.new out.old out.new)
        ((result ≡ closed) × (number.new ≡ 0) × (out.new ≡ out.old)) (held_of handle.old) (held_of handle.new) }
    ensures memory { result ≡ out_of_memory → NeedUnion ids.now × (out.old ≢ []) }
    ensures room { result ≢ no_room }
{
    *number = 0;
    with_store!(
        alloc,
        handle,
        |store| calls::meet_from(alloc, &store, ids, from, out, number)
    )
}

/// The labels of the pairs that share a leaf with a union of cells: each once, rising.
#[unsafe(no_mangle)]
pub extern "C" fn s2ix_labels(
    alloc: Global,
    handle: &mut Handle,
    ids: &[u64],
    out: &mut [u32],
    number: &mut usize,
) -> u32
    ensures list { Through (λ s t. (t ≡ s) × FillsOf (λ cells. labels_met cells s) ids.now result number.new out.old out.new)
        ((result ≡ closed) × (number.new ≡ 0) × (out.new ≡ out.old)) (held_of handle.old) (held_of handle.new) }
    ensures memory { result ≡ out_of_memory → ids.now ≢ [] }
{
    *number = 0;
    with_store!(
        alloc,
        handle,
        |store| calls::labels(alloc, &store, ids, out, number)
    )
}

/// The region of a label: the normal union of the cells that are held with it, rising.
#[unsafe(no_mangle)]
pub extern "C" fn s2ix_region(
    alloc: Global,
    handle: &mut Handle,
    label: u32,
    out: &mut [u64],
    number: &mut usize,
) -> u32
    ensures { Through (λ s t. (t ≡ s) × PutsGathered (region_cells (label_numbered label) s) result number.new out.old out.new)
        ((result ≡ closed) × (number.new ≡ 0) × (out.new ≡ out.old)) (held_of handle.old) (held_of handle.new) }
{
    *number = 0;
    with_store!(
        alloc,
        handle,
        |store| calls::region(&store, label, out, number)
    )
}
