//! Changes that a caller gives entry by entry: what is wrong with them, and how a store does them.

ghost use Rattle.std.specs.Prelude.{◌≡◌, ◌≢◌, ◌==◌, [], IfOk, IfSome, IsErr, IsNone, List, position};
ghost use Rattle.s2ix_bag_lists.specs.Entries.{first_unsorted};
ghost use Rattle.s2ix_bag_pairs.specs.declared.pair.Entry.{Entry};
ghost use Rattle.s2ix_c_calls.specs.Recording.{
  AreAllEntries,
  AreChange,
  GiveChange,
  GiveEntries,
  IsDone,
  IsFirstNoEntry,
  LacksChange,
  RecordsRows,
  RefusesChange,
  entry_asked,
  record_place,
  record_status,
};

use crate::asked::pair_of;
use crate::changes::EntryRow;
use crate::status::{
    CLOSED, DONE, JOURNAL_FULL, MISMATCH, NO_CHANGE, NO_DIFFERENCE, OUT_OF_MEMORY, TOO_MANY_COPIES,
    TOO_MANY_PAIRS, UNSORTED,
};
use s2id_core::OutOfMemory;
use s2ix_bag_changes::Change;
use s2ix_bag_pairs::{Entry, Pair};
use s2ix_edit::{RecordError, Store};
use std::alloc::Global;

// The entry that a row gives; or the status of the first of its numbers that is wrong.
fn entry_for(row: EntryRow) -> Result<Entry, u32>
    ensures { result ≡ entry_asked row }
{
    match pair_of(row.cell, row.label) {
        Ok(pair) => Ok(Entry {
            pair,
            before: row.before,
            after: row.after,
        }),
        Err(why) => Err(why),
    }
}

// What is wrong with the first row that gives no entry, if there is one; then `number` is its place, counted from 0, else 0. It does not
// allocate.
#[tactic(auto, using(crate::proofs::OfEntries::first_no_entry, crate::proofs::OfEntries::all_taken))]
fn wrong_numbers(rows: &[EntryRow], number: &mut usize) -> Option<u32>
    ensures wrong { IfSome result (IsFirstNoEntry rows.now number.new) }
    ensures right { IsNone result → AreAllEntries rows.now × (number.new ≡ 0) }
{
    *number = 0;
    for (place, row) in rows.iter().enumerate() {
        if let Err(why) = entry_for(*row) {
            *number = place;
            return Some(why);
        }
    }
    None
}

// The place of the first entry that is not above the one before it. O(m).
fn unsorted_place(rows: &[EntryRow]) -> Option<usize>
    requires { AreAllEntries rows.now }
    ensures { (entries : List Entry) → GiveEntries rows.now entries → result ≡ first_unsorted entries }
{
    let mut last: Option<Pair> = None;
    for (place, row) in rows.iter().enumerate() {
        let Ok(entry) = entry_for(*row) else {
            unreachable!()
        };
        if let Some(pair) = last {
            if !pair.is_before(entry.pair) {
                return Some(place);
            }
        }
        last = Some(entry.pair);
    }
    None
}

// The place of the first entry whose two counts are equal. O(m).
fn equal_place(rows: &[EntryRow]) -> Option<usize>
    ensures { result ≡ position (λ row. row.before == row.after) rows.now }
{
    rows.iter().position(|row| row.before == row.after)
}

// Why rows give no change, if they give none; then `number` is the place of the row that is wrong, counted from 0, else 0. Each test goes
// over all rows: first that of the numbers, then that of the order, then that of the counts. It does not allocate.
fn wrong_entry(rows: &[EntryRow], number: &mut usize) -> Option<u32>
    ensures wrong { IfSome result (LacksChange rows.now number.new) }
    ensures right { IsNone result → AreChange rows.now × (number.new ≡ 0) }
{
    if let Some(why) = wrong_numbers(rows, number) {
        return Some(why);
    }
    if let Some(place) = unsorted_place(rows) {
        *number = place;
        return Some(UNSORTED);
    }
    if let Some(place) = equal_place(rows) {
        *number = place;
        return Some(NO_DIFFERENCE);
    }
    None
}

// The change that rows give. No memory is wanted if there are no rows.
fn change_of(alloc: Global, rows: &[EntryRow]) -> Result<Change, OutOfMemory>
    requires { AreChange rows.now }
    ensures change { IfOk result (GiveChange rows.now) }
    ensures memory { IsErr result → rows.now ≢ [] }
{
    let entries = entry_list(alloc, rows)?;
    Ok(Change::from_vec(entries))
}

// The entries that rows give. No memory is wanted if there are no rows.
fn entry_list(alloc: Global, rows: &[EntryRow]) -> Result<Vec<Entry>, OutOfMemory>
    requires { AreAllEntries rows.now }
    ensures entries { IfOk result (λ list. GiveEntries rows.now list.items) }
    ensures memory { IsErr result → rows.now ≢ [] }
{
    let mut list = Vec::with_capacity(alloc, rows.len())?;
    for row in rows {
        let Ok(entry) = entry_for(*row) else {
            unreachable!()
        };
        list.push(entry)?;
    }
    Ok(list)
}

// The status of a change that a store refuses, and the place of the entry that is refused, 0 if none is.
fn status_and_place(error: RecordError) -> (u32, usize)
    ensures status { result.0 ≡ record_status error }
    ensures place { result.1 ≡ record_place error }
{
    match error {
        RecordError::JournalFull => (JOURNAL_FULL, 0),
        RecordError::NoChange => (NO_CHANGE, 0),
        RecordError::Mismatch(place) => (MISMATCH, place),
        RecordError::TooManyCopies => (TOO_MANY_COPIES, 0),
        RecordError::TooManyPairs => (TOO_MANY_PAIRS, 0),
        RecordError::OutOfMemory => (OUT_OF_MEMORY, 0),
    }
}

// Does a change on a store; `number` is how many entries it has, or the place of the entry that is refused.
fn record_change(store: &mut Store, change: Change, number: &mut usize) -> u32
    ensures { IsDone change result number.new store.old store.new }
{
    match store.record(change) {
        Ok(changed) => {
            *number = changed;
            DONE
        }
        Err(why) => {
            let (status, place) = status_and_place(why);
            *number = place;
            status
        }
    }
}

/// Does the change that rows give, as one step; `number` is how many entries it has. The first row with a wrong cell or label decides before
/// all else, then the first that is not above the one before it, then the first whose counts are equal: `number` is its place, counted from
/// 0, and so it is of the first row whose count before is not the one that is held. Memory is wanted only if the rows give a change, and
/// there are some.
pub fn record(alloc: Global, store: &mut Store, rows: &[EntryRow], number: &mut usize) -> u32
    ensures { RecordsRows rows.now result number.new store.old store.new }
{
    if let Some(why) = wrong_entry(rows, number) {
        return why;
    }
    match change_of(alloc, rows) {
        Ok(change) => record_change(store, change, number),
        Err(_) => OUT_OF_MEMORY,
    }
}

/// What a closed handle answers to a change that rows give: why they give none, and `number` is the place of the row that is wrong, counted
/// from 0; or that it is closed. It does not allocate. O(m) for m rows.
pub fn refuse_change(rows: &[EntryRow], number: &mut usize) -> u32
    ensures { RefusesChange rows.now result number.new }
{
    match wrong_entry(rows, number) {
        Some(why) => why,
        None => CLOSED,
    }
}
