//! Rows that are removed from the counts of a store, over a handle.

ghost use Rattle.s2ix_c_calls.specs.Handle.{held_of};
ghost use Rattle.s2ix_c.specs.Calls.{DoesRemoval};

use crate::handles::with_store;
use s2ix_c_calls::{Handle, Row, calls, refuse_rows};
use std::alloc::Global;

/// Takes the count of each row from that of its cell under its label, as one change: rows in any order, and repeated or not. If a row's cell
/// or label is wrong, `number` is the place of the first such row. If a row takes more copies than the rows before it leave, `number` is the
/// place of the first that does.
#[tactic(auto, using(crate::proofs::Through::through_open, crate::proofs::Through::through_closed))]
#[unsafe(no_mangle)]
pub extern "C" fn s2ix_remove_all(
    alloc: Global,
    handle: &mut Handle,
    rows: &[Row],
    number: &mut usize,
) -> u32
    ensures { DoesRemoval rows.now result number.new (held_of handle.old) (held_of handle.new) }
{
    with_store!(
        alloc,
        handle,
        |store| calls::remove_all(alloc, &mut store, rows, number),
        || refuse_rows(rows, number)
    )
}
