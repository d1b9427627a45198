//! What a store holds, in numbers.
#![tactic(auto, using(crate::proofs::Through::through_open, crate::proofs::Through::through_closed))]

ghost use Rattle.std.specs.Prelude.{◌≡◌, length};
ghost use Rattle.s2ix_bag_pairs.specs.Collection.{copies_in};
ghost use Rattle.s2ix_c_calls.specs.Handle.{held_of};
ghost use Rattle.s2ix_table_walk.specs.RangeList.{range_table};
ghost use Rattle.s2ix_c_calls.specs.Asked.{pair_numbered};
ghost use Rattle.s2ix_c.specs.Calls.{Tells, Through};
ghost use Rattle.s2ix_c_calls.specs.Lists.{Counts};
ghost use Rattle.s2ix_c_calls.specs.Status.{closed};

use crate::handles::with_store;
use s2ix_c_calls::status::DONE;
use s2ix_c_calls::{Handle, calls};
use std::alloc::Global;

/// How many copies of a cell are held under a label: 0 if the pair is not held.
#[unsafe(no_mangle)]
pub extern "C" fn s2ix_count(
    alloc: Global,
    handle: &mut Handle,
    cell: u64,
    label: u32,
    count: &mut u32,
) -> u32
    ensures { Through (λ s t. (t ≡ s) × Counts (pair_numbered cell label) s result count.new)
        ((result ≡ closed) × (count.new ≡ 0)) (held_of handle.old) (held_of handle.new) }
{
    *count = 0;
    with_store!(
        alloc,
        handle,
        |store| calls::count(&store, cell, label, count)
    )
}

/// How many distinct pairs are held.
#[unsafe(no_mangle)]
pub extern "C" fn s2ix_len(alloc: Global, handle: &mut Handle, number: &mut usize) -> u32
    ensures { Tells (λ s. length s.bag.held) result number.new (held_of handle.old) (held_of handle.new) }
{
    *number = 0;
    with_store!(alloc, handle, |store| {
        *number = store.bag().len();
        DONE
    })
}

/// The sum of the counts, in copies.
#[unsafe(no_mangle)]
pub extern "C" fn s2ix_copies(alloc: Global, handle: &mut Handle, copies: &mut u64) -> u32
    ensures { Tells (λ s. copies_in s.bag.held) result copies.new (held_of handle.old) (held_of handle.new) }
{
    *copies = 0;
    with_store!(alloc, handle, |store| {
        *copies = store.bag().copies();
        DONE
    })
}

/// How many ranges of leaves there are over which the same pairs lie.
#[unsafe(no_mangle)]
pub extern "C" fn s2ix_range_count(alloc: Global, handle: &mut Handle, number: &mut usize) -> u32
    ensures { Tells (λ s. length (range_table s.bag.held)) result number.new (held_of handle.old) (held_of handle.new) }
{
    *number = 0;
    with_store!(alloc, handle, |store| {
        *number = calls::range_count(&store);
        DONE
    })
}

/// How many changes can be undone.
#[unsafe(no_mangle)]
pub extern "C" fn s2ix_done_count(alloc: Global, handle: &mut Handle, number: &mut usize) -> u32
    ensures { Tells (λ s. length s.done) result number.new (held_of handle.old) (held_of handle.new) }
{
    *number = 0;
    with_store!(alloc, handle, |store| {
        *number = store.done().len();
        DONE
    })
}

/// How many changes can be redone.
#[unsafe(no_mangle)]
pub extern "C" fn s2ix_undone_count(alloc: Global, handle: &mut Handle, number: &mut usize) -> u32
    ensures { Tells (λ s. length s.undone) result number.new (held_of handle.old) (held_of handle.new) }
{
    *number = 0;
    with_store!(alloc, handle, |store| {
        *number = store.undone().len();
        DONE
    })
}

/// On how many faces, 0 to 6, the last accepted edit, list of rows, undo, redo, `s2ix_record` or `s2ix_apply` changed pairs. The number is 0
/// before the first of these, and a refused call leaves it as it was.
#[unsafe(no_mangle)]
pub extern "C" fn s2ix_faces_rebuilt(alloc: Global, handle: &mut Handle, number: &mut usize) -> u32
    ensures { Tells (λ s. s.faces_rebuilt) result number.new (held_of handle.old) (held_of handle.new) }
{
    *number = 0;
    with_store!(alloc, handle, |store| {
        *number = usize::from(store.faces_rebuilt());
        DONE
    })
}
