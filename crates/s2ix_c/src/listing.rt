//! The pairs of the store of a handle, in rising order. No call here changes it.
#![tactic(auto, using(crate::proofs::Through::through_open, crate::proofs::Through::through_closed))]

ghost use Rattle.std.specs.Prelude.{◌≡◌};
ghost use Rattle.s2ix_bag_pairs.specs.Label.{label_numbered};
ghost use Rattle.s2ix_c_calls.specs.Handle.{held_of};
ghost use Rattle.s2ix_c.specs.Calls.{Through};
ghost use Rattle.s2ix_c_calls.specs.Lists.{Puts, PutsPage, rows_with};
ghost use Rattle.s2ix_c_calls.specs.Status.{closed};

use crate::handles::with_store;
use s2ix_c_calls::{Handle, Row, calls};
use std::alloc::Global;

/// The pairs from a place on, counted from 0 in rising order: as many as the buffer has room for. `number` is how many are put.
#[unsafe(no_mangle)]
pub extern "C" fn s2ix_pairs(
    alloc: Global,
    handle: &mut Handle,
    from: usize,
    out: &mut [Row],
    number: &mut usize,
) -> u32
    ensures { Through (λ s t. (t ≡ s) × PutsPage from s result number.new out.old out.new)
        ((result ≡ closed) × (number.new ≡ 0) × (out.new ≡ out.old)) (held_of handle.old) (held_of handle.new) }
{
    *number = 0;
    with_store!(
        alloc,
        handle,
        |store| calls::pairs(&store, from, out, number)
    )
}

/// The pairs of a label, by rising cell. It does not allocate.
#[unsafe(no_mangle)]
pub extern "C" fn s2ix_of_label(
    alloc: Global,
    handle: &mut Handle,
    label: u32,
    out: &mut [Row],
    number: &mut usize,
) -> u32
    ensures { Through (λ s t. (t ≡ s) × Puts (rows_with (label_numbered label) s) result number.new out.old out.new)
        ((result ≡ closed) × (number.new ≡ 0) × (out.new ≡ out.old)) (held_of handle.old) (held_of handle.new) }
{
    *number = 0;
    with_store!(
        alloc,
        handle,
        |store| calls::of_label(&store, label, out, number)
    )
}
