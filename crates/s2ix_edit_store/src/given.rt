//! Changes that are given to a store: when they are refused, how they are recorded, and how a joined change takes the place of others.

ghost use Rattle.std.specs.Prelude.{◌≡◌, All, None, Some, ◌++◌, ◌<◌, ◌≤◌, ◌+◌, IfErr, OnOk, length, take, vec_capacity, vec_len};
ghost use Rattle.s2ix_bag_pairs.specs.Change.{IsChangeList};
ghost use Rattle.s2ix_bag_pairs.specs.Limits.{changes_limit};
ghost use Rattle.s2ix_bag.specs.Replay.{first_refusal, way_back, with_numbers};
ghost use Rattle.s2ix_edit_store.specs.Steps.{recorded_alone};
ghost use Rattle.s2ix_edit_store.specs.Given.{IsHistoryError, first_empty, history_refusal, record_refusal};

use crate::history_error::HistoryError;
use s2ix_bag::rewind;
use s2ix_bag_changes::{Bag, Change};
use std::alloc::Global;

// The number of the first change without entries, counted from 1. It reads each change before that, and so knows that they rise. O(k) for
// k changes.
fn first_empty_of(changes: &[Change]) -> Option<usize>
    ensures number { result ≡ first_empty changes.now }
    ensures rise { result ≡ None → All IsChangeList changes.now }
{
    for (place, change) in changes.iter().enumerate() {
        if change.entries().is_empty() {
            return Some(place + 1);
        }
    }
    None
}

// Tests that changes can be recorded if there is room for so many.
pub(crate) fn test_recordable(changes: &[Change], room: usize) -> Result<(), HistoryError>
    ensures accepted { OnOk result (record_refusal room changes.now ≡ None) }
    ensures rise { OnOk result (All IsChangeList changes.now) }
    ensures refused { IfErr result (λ error. record_refusal room changes.now ≡ Some error) }
{
    if changes.len() > room {
        return Err(HistoryError::JournalFull);
    }
    match first_empty_of(changes) {
        Some(change) => Err(HistoryError::NoChange { change }),
        None => Ok(()),
    }
}

// Tests that a store may start from a bag with these changes done.
pub(crate) fn test_history(alloc: Global, bag: &Bag, changes: &[Change]) -> Result<(), HistoryError>
    ensures accepted { OnOk result (history_refusal bag.now changes.now ≡ None) }
    ensures rise { OnOk result (All IsChangeList changes.now) }
    ensures refused { IfErr result (λ error. IsHistoryError error (history_refusal bag.now changes.now)) }
    ensures recordable { result ≡ Err HistoryError.OutOfMemory → record_refusal (changes_limit bag.now.limits) changes.now ≡ None }
    ensures last { result ≡ Err HistoryError.OutOfMemory
        → first_refusal bag.now (take 1 (way_back (with_numbers changes.now))) ≡ None }
{
    test_recordable(changes, bag.limits().changes() as usize)?;
    rewind(alloc, bag, changes)?;
    Ok(())
}

// Replaces all changes from a place on by one, or by none if that one has no entries.
pub(crate) fn replace_from(changes: &mut Vec<Change>, place: usize, joined: Change)
    requires some { 0 < length joined → place < vec_len changes.old }
    ensures { changes.new.items ≡ take place changes.old.items ++ recorded_alone joined }
{
    changes.truncate(place);
    if !joined.entries().is_empty() {
        changes.push_reserved(joined);
    }
}

// Appends changes to a list that has room for them.
pub(crate) fn append_reserved(to: &mut Vec<Change>, mut changes: Vec<Change>)
    requires room { vec_len to.old + vec_len changes ≤ vec_capacity to.old }
    ensures { to.new.items ≡ to.old.items ++ changes.items }
{
    if to.append(&mut changes).is_err() {
        unreachable!()
    }
}
