//! The changes that a store can undo, entry by entry.

ghost use Rattle.std.specs.Prelude.{◌≡◌, Some, None, IfSome, IfNone, map};
ghost use Rattle.s2ix_edit_plan.specs.Edit.{numbered};
ghost use Rattle.s2ix_c_calls.specs.Changes.{ListsChange, entry_row_of};
ghost use Rattle.s2ix_c_calls.specs.Lists.{IsPut};

use crate::rows::{OfItem, put_list};
use crate::status::NO_SUCH_CHANGE;
use s2ix_bag_changes::Change;
use s2ix_bag_pairs::Entry;
use s2ix_edit::Store;

/// A pair in a change, with its counts before and after; 0 is the count of a pair that is not held.
#[repr(C)]
#[derive(Clone, Copy)]
pub struct EntryRow {
    /// The number of the cell.
    pub cell: u64,
    /// The label.
    pub label: u32,
    /// The count before the change.
    pub before: u32,
    /// The count after the change.
    pub after: u32,
}

impl OfItem<Entry> for EntryRow {
    ghost use Rattle.std.specs.Prelude.{IsTrue, true};
    ghost use Rattle.s2ix_c_calls.specs.Changes.{entry_row_of};

    ghost of = { entry_row_of };

    ghost fits = { λ _. IsTrue true };

    #[inline]
    fn of_item(entry: Entry) -> EntryRow {
        EntryRow {
            cell: entry.pair.cell.raw(),
            label: entry.pair.label.get(),
            before: entry.before,
            after: entry.after,
        }
    }
}

// Puts entries to the front of `out`, if it has room for them; `number` is how many there are.
pub(crate) fn put_entries(list: &[Entry], out: &mut [EntryRow], number: &mut usize) -> u32
    ensures { IsPut (map entry_row_of list.now) result number.new out.old out.new }
{
    put_list(list, out, number)
}

// The change with a number, counted from 1.
fn change_numbered(changes: &[Change], number: u32) -> Option<&Change>
    ensures some { IfSome result (λ change. numbered number changes.now ≡ Some change.now) }
    ensures none { IfNone result (numbered number changes.now ≡ None) }
{
    changes.get((number as usize).checked_sub(1)?)
}

/// The entries of the change with a number, counted from 1 among those that can be undone: by rising cell, then label.
pub fn change(store: &Store, change: u32, out: &mut [EntryRow], number: &mut usize) -> u32
    ensures { ListsChange change store.now result number.new out.old out.new }
{
    let Some(change) = change_numbered(store.done(), change) else {
        *number = 0;
        return NO_SUCH_CHANGE;
    };
    put_entries(change.entries(), out, number)
}
