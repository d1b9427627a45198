//! Rows that are removed from the counts of a store.

ghost use Rattle.std.specs.Prelude.{◌≡◌};
ghost use Rattle.s2ix_c_calls.specs.Removing.{IsRemoved, RemovesRows, remove_place, remove_status};

use crate::rows::{Row, held_list, wrong_row};
use crate::status::{DONE, JOURNAL_FULL, NO_CHANGE, NOT_HELD, OUT_OF_MEMORY};
use s2ix_bag_pairs::Held;
use s2ix_edit::Store;
use s2ix_edit_plan::RemoveError;
use std::alloc::Global;

// The status of rows that are not removed, and the place of the row that is refused, 0 if none is.
fn status_and_place(error: RemoveError) -> (u32, usize)
    ensures status { result.0 ≡ remove_status error }
    ensures place { result.1 ≡ remove_place error }
{
    match error {
        RemoveError::JournalFull => (JOURNAL_FULL, 0),
        RemoveError::NotHeld(place) => (NOT_HELD, place),
        RemoveError::NoChange => (NO_CHANGE, 0),
        RemoveError::OutOfMemory => (OUT_OF_MEMORY, 0),
    }
}

// Removes pairs from the counts of a store, as one change; `number` is how many pairs lost copies, or the place of the row that is refused.
fn remove_held(store: &mut Store, rows: &[Held], number: &mut usize) -> u32
    ensures { IsRemoved rows.now result number.new store.old store.new }
{
    match store.remove_all(rows) {
        Ok(changed) => {
            *number = changed;
            DONE
        }
        Err(why) => {
            let (status, place) = status_and_place(why);
            *number = place;
            status
        }
    }
}

/// Takes the count of each row from that of the pair that the row names, as one change; `number` is how many pairs lost copies. If a row is
/// wrong, the first such row decides, and `number` is its place, counted from 0, and so it is of the first row that takes more copies than
/// the rows before it leave. Memory is wanted only if all rows are right, and there are some.
pub fn remove_all(alloc: Global, store: &mut Store, rows: &[Row], number: &mut usize) -> u32
    ensures { RemovesRows rows.now result number.new store.old store.new }
{
    if let Some(why) = wrong_row(rows, number) {
        return why;
    }
    match held_list(alloc, rows) {
        Ok(held) => remove_held(store, held.as_slice(), number),
        Err(_) => OUT_OF_MEMORY,
    }
}
