//! Lists for each of many leaves or targets, one after the other in a buffer of the caller. No call here changes a store.

ghost use Rattle.std.specs.Prelude.{◌≤◌, length};
ghost use Rattle.s2ix_c_calls.specs.Each.{AnswersLeaves, AnswersTargets, PutsNext, RefusesRoom};

use crate::queries::{labels, meet};
use crate::rows::Row;
use crate::status::{DONE, NO_CELL, NO_ROOM, NO_SPAN};
use crate::unions::check_cells;
use s2ix_edit::Store;
use s2ix_table_queries::{EachStop, OfHeld, at_many};
use std::alloc::Global;

/// What lies over each of some leaves: what `at` puts for the first one, then for the next, and so on; of each pair all, or its
/// label. `answered` is how many leaves are answered, from the first one on, and the status says why the next one is not. If there are
/// thousands of them, it is quicker if it gets memory to put them in order, and is never refused for want of it.
pub fn at_each<R: OfHeld>(
    alloc: Global,
    store: &Store,
    leaves: &[u64],
    ends: &mut [usize],
    out: &mut [R],
    answered: &mut usize,
) -> u32
    ensures { AnswersLeaves R.of store.now.bag.held leaves.now result answered.new ends.old ends.new out.old out.new }
{
    let each = at_many(alloc, store.table(), leaves, ends, out);
    *answered = each.answered;
    match each.stop {
        EachStop::All => DONE,
        EachStop::NoLeaf => NO_CELL,
        EachStop::NoRoom => NO_ROOM,
    }
}

/// What is put for a target: the pairs that meet it, or their labels.
pub trait OfTarget: Copy {
    ghost use Rattle.std.specs.Prelude.{◌≡◌, ℕ, List};
    ghost use Rattle.s2id_core.specs.declared.cell_id.CellId.{CellId};
    ghost use Rattle.s2ix_edit_plan.specs.State.{State};
    ghost use Rattle.s2ix_c_calls.specs.Lists.{FillsOf};
    ghost use Rattle.s2ix_c_calls.specs.Status.{out_of_memory};

    // what is put for the union of these cells
    ghost list: { List CellId → State → List Self };

    // to put it for these numbers may want memory
    ghost wants: { List ℕ → Type 0 };

    /// Puts it to the front of `out` as far as there is room for it; `number` is how many items there are.
    fn put(alloc: Global, store: &Store, ids: &[u64], out: &mut [Self], number: &mut usize) -> u32
        ensures list { FillsOf (λ cells. list cells store.now) ids.now result number.new out.old out.new }
        ensures memory { result ≡ out_of_memory → wants ids.now };
}

impl OfTarget for Row {
    ghost use Rattle.s2ix_c_calls.specs.Asked.{NeedUnion};
    ghost use Rattle.s2ix_c_calls.specs.Lists.{rows_met};

    ghost list = { rows_met };

    ghost wants = { NeedUnion };

    fn put(alloc: Global, store: &Store, ids: &[u64], out: &mut [Row], number: &mut usize) -> u32 {
        meet(alloc, store, ids, out, number)
    }
}

impl OfTarget for u32 {
    ghost use Rattle.std.specs.Prelude.{◌≢◌, []};
    ghost use Rattle.s2ix_c_calls.specs.Lists.{labels_met};

    ghost list = { labels_met };

    ghost wants = { λ ids. ids ≢ [] };

    fn put(alloc: Global, store: &Store, ids: &[u64], out: &mut [u32], number: &mut usize) -> u32 {
        labels(alloc, store, ids, out, number)
    }
}

// Puts what is put for a target behind the first `count` items of a buffer, and counts it in.
fn put_next<R: OfTarget>(
    alloc: Global,
    store: &Store,
    ids: &[u64],
    out: &mut [R],
    count: &mut usize,
) -> u32
    requires { count.old ≤ length out.old }
    ensures { PutsNext (λ cells. R.list cells store.now) R.wants ids.now result count.old count.new out.old out.new }
{
    let mut number = 0;
    let status = R::put(alloc, store, ids, &mut out[*count..], &mut number);
    if status == DONE {
        *count += number;
    }
    status
}

// Why a target that has no room is not answered: a number that is no cell's comes first.
fn refuse_room(ids: &[u64]) -> u32
    ensures { RefusesRoom ids.now result }
{
    let mut place = 0;
    let status = check_cells(ids, &mut place);
    if status == DONE { NO_ROOM } else { status }
}

/// What is put for each of some targets, one after the other: a target has the cells from one bound on and before the next, so there is a
/// bound more than there are targets. Beside each target `ends` gets how many items are put for it and those before it. `answered` is how
/// many targets are answered, from the first one on, and the status says why the next one is not: wrong bounds come first, then a wrong cell.
/// It wants no memory for a target without cells, nor for the pairs that meet at most 1,024 cells that follow one another.
pub fn meet_each<R: OfTarget>(
    alloc: Global,
    store: &Store,
    cells: &[u64],
    bounds: &[usize],
    ends: &mut [usize],
    out: &mut [R],
    answered: &mut usize,
) -> u32
    ensures { AnswersTargets (λ cells. R.list cells store.now) R.wants cells.now bounds.now result answered.new ends.old ends.new out.old out.new }
{
    *answered = 0;
    let mut count = 0;
    while *answered < bounds.len().saturating_sub(1) {
        let start = bounds[*answered];
        let end = bounds[*answered + 1];
        if end < start || end > cells.len() {
            return NO_SPAN;
        }
        let ids = &cells[start..end];
        if *answered >= ends.len() {
            return refuse_room(ids);
        }
        let status = put_next(alloc, store, ids, out, &mut count);
        if status != DONE {
            return status;
        }
        ends[*answered] = count;
        *answered += 1;
    }
    DONE
}
