//! The edits of a store.

ghost use Rattle.s2ix_c_calls.specs.Stores.{AddsNothing, AddsRows, AddsUnion, IsAdded, IsEdited, RefusesRows, RefusesUnion};

use crate::rows::{Row, held_list, wrong_row};
use crate::status::{CLOSED, DONE, NO_LABEL, OUT_OF_MEMORY, status_of};
use crate::unions::{check_cells, normal_of};
use s2ix_bag_pairs::{Held, Label};
use s2ix_edit::Store;
use s2ix_edit_plan::{Edit, EditError};
use std::alloc::Global;

/// Carries an edit out on a store; `number` is how many pairs changed their counts.
pub fn edit(store: &mut Store, edit: &Edit, number: &mut usize) -> u32
    ensures { IsEdited edit.now result number.new store.old store.new }
{
    *number = 0;
    match store.edit(edit) {
        Ok(changed) => {
            *number = changed;
            DONE
        }
        Err(error) => status_of(error),
    }
}

// Adds pairs to the counts of a store, as one change; `number` is how many pairs gained copies.
pub(crate) fn add_held(store: &mut Store, rows: &[Held], number: &mut usize) -> u32
    ensures { IsAdded rows.now result number.new store.old store.new }
{
    *number = 0;
    match store.add_all(rows) {
        Ok(changed) => {
            *number = changed;
            DONE
        }
        Err(why) => status_of(why),
    }
}

/// Adds the count of each row to that of the pair that the row names, as one change; `number` is how many pairs gained copies. If a row is
/// wrong, the first such row decides, and `number` is its place, counted from 0. Memory is wanted only if all rows are right, and there are
/// some.
pub fn add_all(alloc: Global, store: &mut Store, rows: &[Row], number: &mut usize) -> u32
    ensures { AddsRows rows.now result number.new store.old store.new }
{
    if let Some(why) = wrong_row(rows, number) {
        return why;
    }
    match held_list(alloc, rows) {
        Ok(held) => add_held(store, held.as_slice(), number),
        Err(_) => OUT_OF_MEMORY,
    }
}

/// What a closed handle answers to rows: what is wrong with the first that names no pair, and `number` is its place, counted from 0; or that
/// it is closed. It does not allocate. O(n) for n rows.
pub fn refuse_rows(rows: &[Row], number: &mut usize) -> u32
    ensures { RefusesRows rows.now result number.new }
{
    match wrong_row(rows, number) {
        Some(why) => why,
        None => CLOSED,
    }
}

// What an edit of no copies comes to: it is refused, and does not allocate.
fn add_nothing(store: &Store, number: &mut usize) -> u32
    ensures { AddsNothing result number.new store.now store.now }
{
    *number = 0;
    if store.done().len() < store.bag().limits().changes() as usize {
        return status_of(EditError::NoChange);
    }
    status_of(EditError::JournalFull)
}

/// Adds one copy under a label for each cell of the normal form of a union, as one change; `number` is how many pairs gained a copy. A wrong
/// label decides first, then the first number that is no cell's, of which `number` is the place, counted from 0. Memory is wanted only if
/// all are right, and there are some cells.
pub fn add_union(
    alloc: Global,
    store: &mut Store,
    ids: &[u64],
    label: u32,
    number: &mut usize,
) -> u32
    ensures { AddsUnion ids.now label result number.new store.old store.new }
{
    *number = 0;
    let Some(label) = Label::new(label) else {
        return NO_LABEL;
    };
    if ids.is_empty() {
        return add_nothing(store, number);
    }
    match normal_of(alloc, ids, number) {
        Ok(union) => edit(store, &Edit::AddUnion { union, label }, number),
        Err(why) => why,
    }
}

/// What a closed handle answers to a union under a label: a wrong label decides first, then the first number that is no cell's, of which
/// `number` is the place, counted from 0; or it is closed. It does not allocate. O(n) for n numbers.
pub fn refuse_union(ids: &[u64], label: u32, number: &mut usize) -> u32
    ensures { RefusesUnion ids.now label result number.new }
{
    if Label::new(label).is_none() {
        *number = 0;
        return NO_LABEL;
    }
    let status = check_cells(ids, number);
    if status == DONE { CLOSED } else { status }
}
