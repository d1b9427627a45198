//! The changes that a store can undo, entry by entry.

ghost use Rattle.std.specs.Prelude.{◌≡◌, Some};
ghost use Rattle.s2ix_c_calls.specs.Handle.{held_of};
ghost use Rattle.s2ix_c.specs.Calls.{Through};
ghost use Rattle.s2ix_c_calls.specs.Changes.{ListsChange};
ghost use Rattle.s2ix_c_calls.specs.Status.{closed};

use crate::handles::with_store;
use s2ix_c_calls::{EntryRow, Handle, calls};
use std::alloc::Global;

/// The entries of the change with a number, counted from 1 among those that can be undone: by rising cell, then label.
#[tactic(auto, using(crate::proofs::Through::through_open, crate::proofs::Through::through_closed))]
#[unsafe(no_mangle)]
pub extern "C" fn s2ix_change(
    alloc: Global,
    handle: &mut Handle,
    change: u32,
    out: &mut [EntryRow],
    number: &mut usize,
) -> u32
    ensures { Through (λ s t. (t ≡ s) × ListsChange change s result number.new out.old out.new)
        ((result ≡ closed) × (number.new ≡ 0) × (out.new ≡ out.old)) (held_of handle.old) (held_of handle.new) }
{
    *number = 0;
    with_store!(
        alloc,
        handle,
        |store| calls::change(&store, change, out, number)
    )
}
