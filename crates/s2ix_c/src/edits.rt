//! The edits of a store, over a handle.

ghost use Rattle.std.specs.Prelude.{◌≡◌, Result};
ghost use Rattle.s2ix_edit_plan.specs.declared.edit.Edit.TheVariants.{Revert};
ghost use Rattle.s2ix_c_calls.specs.Handle.{held_of};
ghost use Rattle.s2ix_c_calls.specs.Asked.{asked_add, asked_drop, asked_grow, asked_normalise, asked_relabel, asked_remove};
ghost use Rattle.s2ix_c.specs.Calls.{DoesEdit, DoesRows, DoesUnion, Through};
ghost use Rattle.s2ix_c_calls.specs.Stores.{IsEdited};
ghost use Rattle.s2ix_c_calls.specs.Status.{closed};

use crate::handles::with_store;
use s2ix_c_calls::{
    Handle, Row, add_of, calls, drop_of, grow_of, normalise_of, refuse_rows, refuse_union,
    relabel_of, remove_of,
};
use s2ix_edit_plan::Edit;
use std::alloc::Global;

// Carries an edit out over a handle.
#[tactic(auto, using(crate::proofs::Through::through_open, crate::proofs::Through::through_closed))]
fn edit_handle(alloc: Global, handle: &mut Handle, edit: &Edit, number: &mut usize) -> u32
    ensures { Through (IsEdited edit.now result number.new) ((result ≡ closed) × (number.new ≡ 0))
        (held_of handle.old) (held_of handle.new) }
{
    *number = 0;
    with_store!(alloc, handle, |store| calls::edit(&mut store, edit, number))
}

// Carries out what is asked for.
pub(crate) fn do_edit(
    alloc: Global,
    handle: &mut Handle,
    asked: Result<Edit, u32>,
    number: &mut usize,
) -> u32
    ensures { DoesEdit asked result number.new (held_of handle.old) (held_of handle.new) }
{
    match asked {
        Ok(edit) => edit_handle(alloc, handle, &edit, number),
        Err(why) => {
            *number = 0;
            why
        }
    }
}

/// Adds copies to the count of a cell under a label.
#[unsafe(no_mangle)]
pub extern "C" fn s2ix_add(
    alloc: Global,
    handle: &mut Handle,
    cell: u64,
    label: u32,
    copies: u32,
    number: &mut usize,
) -> u32
    ensures { DoesEdit (asked_add cell label copies) result number.new (held_of handle.old) (held_of handle.new) }
{
    do_edit(alloc, handle, add_of(cell, label, copies), number)
}

/// Adds the count of each row to that of its cell under its label, as one change: rows in any order, and repeated or not. If a row's cell or
/// label is wrong, `number` is the place of the first such row.
#[tactic(auto, using(crate::proofs::Through::through_open, crate::proofs::Through::through_closed))]
#[unsafe(no_mangle)]
pub extern "C" fn s2ix_add_all(
    alloc: Global,
    handle: &mut Handle,
    rows: &[Row],
    number: &mut usize,
) -> u32
    ensures { DoesRows rows.now result number.new (held_of handle.old) (held_of handle.new) }
{
    with_store!(
        alloc,
        handle,
        |store| calls::add_all(alloc, &mut store, rows, number),
        || refuse_rows(rows, number)
    )
}

/// Takes copies from the count of a cell under a label.
#[unsafe(no_mangle)]
pub extern "C" fn s2ix_remove(
    alloc: Global,
    handle: &mut Handle,
    cell: u64,
    label: u32,
    copies: u32,
    number: &mut usize,
) -> u32
    ensures { DoesEdit (asked_remove cell label copies) result number.new (held_of handle.old) (held_of handle.new) }
{
    do_edit(alloc, handle, remove_of(cell, label, copies), number)
}

/// Adds one copy under a label for each cell of the normal form of a union of cells, in any order and repeated or not. A wrong label decides
/// first, then the first number that is no cell's, of which `number` is the place.
#[tactic(auto, using(crate::proofs::Through::through_open, crate::proofs::Through::through_closed))]
#[unsafe(no_mangle)]
pub extern "C" fn s2ix_add_union(
    alloc: Global,
    handle: &mut Handle,
    ids: &[u64],
    label: u32,
    number: &mut usize,
) -> u32
    ensures { DoesUnion ids.now label result number.new (held_of handle.old) (held_of handle.new) }
{
    with_store!(
        alloc,
        handle,
        |store| calls::add_union(alloc, &mut store, ids, label, number),
        || refuse_union(ids, label, number)
    )
}

/// Takes away all copies of a label's pairs.
#[unsafe(no_mangle)]
pub extern "C" fn s2ix_drop_label(
    alloc: Global,
    handle: &mut Handle,
    label: u32,
    number: &mut usize,
) -> u32
    ensures { DoesEdit (asked_drop label) result number.new (held_of handle.old) (held_of handle.new) }
{
    do_edit(alloc, handle, drop_of(label), number)
}

/// Moves all copies of one label to another, cell by cell.
#[unsafe(no_mangle)]
pub extern "C" fn s2ix_relabel(
    alloc: Global,
    handle: &mut Handle,
    source: u32,
    target: u32,
    number: &mut usize,
) -> u32
    ensures { DoesEdit (asked_relabel source target) result number.new (held_of handle.old) (held_of handle.new) }
{
    do_edit(alloc, handle, relabel_of(source, target), number)
}

/// Adds one copy under a label for each cell of a level that overlaps no cell of the label and shares an edge with a cell of the level that
/// overlaps one.
#[unsafe(no_mangle)]
pub extern "C" fn s2ix_grow(
    alloc: Global,
    handle: &mut Handle,
    label: u32,
    level: u8,
    number: &mut usize,
) -> u32
    ensures { DoesEdit (asked_grow label level) result number.new (held_of handle.old) (held_of handle.new) }
{
    do_edit(alloc, handle, grow_of(label, level), number)
}

/// Replaces a label's pairs by one copy at each cell of the label's region.
#[unsafe(no_mangle)]
pub extern "C" fn s2ix_normalise_label(
    alloc: Global,
    handle: &mut Handle,
    label: u32,
    number: &mut usize,
) -> u32
    ensures { DoesEdit (asked_normalise label) result number.new (held_of handle.old) (held_of handle.new) }
{
    do_edit(alloc, handle, normalise_of(label), number)
}

/// Takes back a change, and leaves those that followed it. The changes that can be undone are numbered, the oldest as 1.
#[unsafe(no_mangle)]
pub extern "C" fn s2ix_revert(
    alloc: Global,
    handle: &mut Handle,
    change: u32,
    number: &mut usize,
) -> u32
    ensures { Through (IsEdited (Revert change) result number.new) ((result ≡ closed) × (number.new ≡ 0))
        (held_of handle.old) (held_of handle.new) }
{
    edit_handle(alloc, handle, &Edit::Revert { number: change }, number)
}
