//! Lists for each of many leaves or targets, of the store of a handle. No call here changes it.
#![tactic(auto, using(crate::proofs::Through::through_open, crate::proofs::Through::through_closed))]

ghost use Rattle.std.specs.Prelude.{◌≡◌, ◌≢◌, []};
ghost use Rattle.s2ix_c_calls.specs.Handle.{held_of};
ghost use Rattle.s2ix_c.specs.Calls.{Through};
ghost use Rattle.s2ix_c_calls.specs.Asked.{NeedUnion};
ghost use Rattle.s2ix_c_calls.specs.Each.{AnswersLeaves, AnswersTargets};
ghost use Rattle.s2ix_c_calls.specs.Lists.{label_of, labels_met, row_of, rows_met};
ghost use Rattle.s2ix_c_calls.specs.Status.{closed};

use crate::handles::with_store;
use s2ix_c_calls::{Handle, Row, calls};
use std::alloc::Global;

/// The pairs over each of some leaves: those that `s2ix_at` puts for the first one, then for the next, and so on. If there are thousands of
/// leaves it is quicker if it gets memory, and is never refused for want of it.
#[unsafe(no_mangle)]
pub extern "C" fn s2ix_at_each(
    alloc: Global,
    handle: &mut Handle,
    leaves: &[u64],
    ends: &mut [usize],
    rows: &mut [Row],
    answered: &mut usize,
) -> u32
    ensures { Through (λ s t. (t ≡ s)
        × AnswersLeaves row_of s.bag.held leaves.now result answered.new ends.old ends.new rows.old rows.new)
        ((result ≡ closed) × (answered.new ≡ 0) × (ends.new ≡ ends.old) × (rows.new ≡ rows.old)) (held_of handle.old) (held_of handle.new) }
{
    *answered = 0;
    with_store!(
        alloc,
        handle,
        |store| calls::at_each(alloc, &store, leaves, ends, rows, answered)
    )
}

/// The labels of the pairs that `s2ix_at_each` puts.
#[unsafe(no_mangle)]
pub extern "C" fn s2ix_labels_at_each(
    alloc: Global,
    handle: &mut Handle,
    leaves: &[u64],
    ends: &mut [usize],
    labels: &mut [u32],
    answered: &mut usize,
) -> u32
    ensures { Through (λ s t. (t ≡ s)
        × AnswersLeaves label_of s.bag.held leaves.now result answered.new ends.old ends.new labels.old labels.new)
        ((result ≡ closed) × (answered.new ≡ 0) × (ends.new ≡ ends.old) × (labels.new ≡ labels.old)) (held_of handle.old) (held_of handle.new) }
{
    *answered = 0;
    with_store!(
        alloc,
        handle,
        |store| calls::at_each(alloc, &store, leaves, ends, labels, answered)
    )
}

/// The pairs that meet each of some targets: those that `s2ix_meet` puts for the first one, then for the next, and so on.
#[unsafe(no_mangle)]
pub extern "C" fn s2ix_meet_each(
    alloc: Global,
    handle: &mut Handle,
    cells: &[u64],
    bounds: &[usize],
    ends: &mut [usize],
    rows: &mut [Row],
    answered: &mut usize,
) -> u32
    ensures { Through (λ s t. (t ≡ s)
        × AnswersTargets (λ cells. rows_met cells s) NeedUnion cells.now bounds.now result answered.new ends.old ends.new rows.old rows.new)
        ((result ≡ closed) × (answered.new ≡ 0) × (ends.new ≡ ends.old) × (rows.new ≡ rows.old)) (held_of handle.old) (held_of handle.new) }
{
    *answered = 0;
    with_store!(
        alloc,
        handle,
        |store| calls::meet_each(alloc, &store, cells, bounds, ends, rows, answered)
    )
}

/// The labels of the pairs that meet each of some targets: those that `s2ix_labels` puts for the first one, then for the next, and so on.
#[unsafe(no_mangle)]
pub extern "C" fn s2ix_labels_each(
    alloc: Global,
    handle: &mut Handle,
    cells: &[u64],
    bounds: &[usize],
    ends: &mut [usize],
    labels: &mut [u32],
    answered: &mut usize,
) -> u32
    ensures { Through (λ s t. (t ≡ s)
        × AnswersTargets (λ cells. labels_met cells s) (λ ids. ids ≢ []) cells.now bounds.now result answered.new ends.old ends.new labels.old labels.new)
        ((result ≡ closed) × (answered.new ≡ 0) × (ends.new ≡ ends.old) × (labels.new ≡ labels.old)) (held_of handle.old) (held_of handle.new) }
{
    *answered = 0;
    with_store!(
        alloc,
        handle,
        |store| calls::meet_each(alloc, &store, cells, bounds, ends, labels, answered)
    )
}
