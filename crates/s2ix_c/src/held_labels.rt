//! The labels that the store of a handle holds pairs of.

ghost use Rattle.std.specs.Prelude.{◌≡◌, Ok};
ghost use Rattle.s2ix_c_calls.specs.Handle.{held_of};
ghost use Rattle.s2ix_c_calls.specs.HeldLabels.{label_rows};
ghost use Rattle.s2ix_c_calls.specs.Lists.{PutsGathered};
ghost use Rattle.s2ix_c_calls.specs.Status.{closed};
ghost use Rattle.s2ix_c.specs.Calls.{Through};

use crate::handles::with_store;
use s2ix_c_calls::{Handle, LabelRow, calls};
use std::alloc::Global;

/// The labels of the held pairs, each once and rising, with how many pairs have it and how many copies these have together.
#[tactic(auto, using(crate::proofs::Through::through_open, crate::proofs::Through::through_closed))]
#[unsafe(no_mangle)]
pub extern "C" fn s2ix_held_labels(
    alloc: Global,
    handle: &mut Handle,
    out: &mut [LabelRow],
    number: &mut usize,
) -> u32
    ensures { Through (λ s t. (t ≡ s) × PutsGathered (Ok (label_rows s)) result number.new out.old out.new)
        ((result ≡ closed) × (number.new ≡ 0) × (out.new ≡ out.old)) (held_of handle.old) (held_of handle.new) }
{
    *number = 0;
    with_store!(
        alloc,
        handle,
        |store| calls::held_labels(&store, out, number)
    )
}
