//! Changes that a caller gives entry by entry, over a handle.

ghost use Rattle.s2ix_c_calls.specs.Handle.{held_of};
ghost use Rattle.s2ix_c.specs.Calls.{DoesChange};

use crate::handles::with_store;
use s2ix_c_calls::{EntryRow, Handle, calls, refuse_change};
use std::alloc::Global;

/// Does a change that is given by its entries, as `s2ix_change` puts them, as one step; `number` is how many pairs it has. If an entry's cell
/// or label is wrong, `number` is the place of the first such entry; else of the first that is not above the one before it; else of the
/// first whose two counts are equal; else of the first whose count before is not the one that is held.
#[tactic(auto, using(crate::proofs::Through::through_open, crate::proofs::Through::through_closed))]
#[unsafe(no_mangle)]
pub extern "C" fn s2ix_record(
    alloc: Global,
    handle: &mut Handle,
    entries: &[EntryRow],
    number: &mut usize,
) -> u32
    ensures { DoesChange entries.now result number.new (held_of handle.old) (held_of handle.new) }
{
    with_store!(
        alloc,
        handle,
        |store| calls::record(alloc, &mut store, entries, number),
        || refuse_change(entries, number)
    )
}
