//! Undo and redo of a store, changes that are joined, and a store that is cleared.

ghost use Rattle.s2ix_c_calls.specs.Resuming.{IsJoined};
ghost use Rattle.s2ix_c_calls.specs.Stores.{IsRedone, IsUndone, IsCleared};

use crate::status::{DONE, NOTHING_TO_REDO, NOTHING_TO_UNDO, OUT_OF_MEMORY, TOO_FEW_CHANGES};
use s2ix_edit::{JoinError, Store};
use s2ix_edit_plan::{RedoError, UndoError};
use std::alloc::Global;

/// Takes the last change of a store back; `number` is how many pairs it had.
pub fn undo(store: &mut Store, number: &mut usize) -> u32
    ensures { IsUndone result number.new store.old store.new }
{
    *number = 0;
    match store.undo() {
        Ok(changed) => {
            *number = changed;
            DONE
        }
        Err(UndoError::NothingToUndo) => NOTHING_TO_UNDO,
        Err(UndoError::OutOfMemory) => OUT_OF_MEMORY,
    }
}

/// Redoes the change of a store that was undone last; `number` is how many pairs it has.
pub fn redo(store: &mut Store, number: &mut usize) -> u32
    ensures { IsRedone result number.new store.old store.new }
{
    *number = 0;
    match store.redo() {
        Ok(changed) => {
            *number = changed;
            DONE
        }
        Err(RedoError::NothingToRedo) => NOTHING_TO_REDO,
        Err(RedoError::OutOfMemory) => OUT_OF_MEMORY,
    }
}

/// Makes one change of the last ones that a store can undo, so many of them; `number` is how many pairs it has, 0 if the changes are gone.
pub fn join(store: &mut Store, last: usize, number: &mut usize) -> u32
    ensures { IsJoined last result number.new store.old store.new }
{
    *number = 0;
    match store.join(last) {
        Ok(changed) => {
            *number = changed;
            DONE
        }
        Err(JoinError::TooFewChanges) => TOO_FEW_CHANGES,
        Err(JoinError::OutOfMemory) => OUT_OF_MEMORY,
    }
}

/// Puts the empty store in place of what a store holds.
pub fn clear(alloc: Global, store: &mut Store) -> u32
    ensures { IsCleared result store.old store.new }
{
    let Ok(empty) = Store::new(alloc, store.bag().limits()) else {
        return OUT_OF_MEMORY;
    };
    *store = empty;
    DONE
}
