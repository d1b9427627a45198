//! The change that adds rows, each a pair with copies, to the counts of a bag.

ghost use Rattle.std.specs.Prelude.{◌≡◌, ◌≢◌, ◌↔◌, ◌==◌, [], ◌∷◌, ◌++◌, true, IsOk, IfOk, IfErr, OnOk, IsTrue};
ghost use Rattle.std.specs.List.Sorted.{IsNonDecreasingBy, IsPermutation};
ghost use Rattle.s2ix_bag_pairs.specs.Collection.{IsBag, copies_in};
ghost use Rattle.s2ix_bag_pairs.specs.Pair.{rank_of};
ghost use Rattle.s2ix_edit_plan.specs.Errors.{IsEditRefusal};
ghost use Rattle.s2ix_edit_plan.specs.Refusals.{has_count_above_every_limit};
ghost use Rattle.s2ix_edit_plan.specs.Rows.{IsRowsError, PlansRows, gain_of, gains_of, rows_plan_refusal, with_rows};

use crate::edits::entries::push_entry;
use crate::errors::EditError;
use s2id_core::OutOfMemory;
use s2ix_bag_changes::{Bag, Change};
use s2ix_bag_pairs::laws::pairs_compare_by_rank;
use s2ix_bag_pairs::{Entry, Held, Pair};
use std::alloc::Global;

/// The change that adds the copies of each row to the count of the row's pair: an entry for each pair that gains copies, and none if no
/// row has any. Rows come in any order, and a pair may come more than once. The bag stays as it is.
///
/// `TooManyCopies` is returned only if a sum is above 4,294,967,295; `OutOfMemory` may replace it. The bag's limits are tested only when
/// the change is applied. If no row has copies it does not allocate. O(m log m + m log n) for m rows and n pairs held. This
/// project's own.
pub fn plan_rows(alloc: Global, bag: &Bag, rows: &[Held]) -> Result<Change, EditError>
    ensures plan { IfOk result (PlansRows bag.now rows.now) }
    ensures refused { IfErr result (λ error.
        IsEditRefusal error (rows_plan_refusal bag.now rows.now)) }
    ensures planned { result ≢ Err EditError.NoChange }
    ensures pairs { result ≢ Err EditError.TooManyPairs }
    ensures copies { result ≡ Err EditError.TooManyCopies
        → has_count_above_every_limit (with_rows rows.now bag.now.held) ≡ true }
    ensures nothing { copies_in rows.now ≡ 0 → IsOk result }
{
    if have_no_copies(bag, rows) {
        return Ok(Change::from_vec(Vec::new(alloc)));
    }
    let sorted = by_pair(alloc, rows)?;
    let entries = gains(alloc, bag, sorted.as_slice())?;
    Ok(Change::from_vec(entries))
}

// Whether no row has copies, so that the bag stays as it is. It reads the bag's length, since a bag stays within its limits.
pub(crate) fn have_no_copies(bag: &Bag, rows: &[Held]) -> bool
    ensures copies { result ≡ (copies_in rows.now == 0) }
    ensures within { IsBag bag.now }
{
    let _pairs = bag.len();
    for row in rows {
        if row.count > 0 {
            return false;
        }
    }
    true
}

// The rows in the order of their pairs.
fn by_pair(alloc: Global, rows: &[Held]) -> Result<Vec<Held>, OutOfMemory>
    ensures order { IfOk result (λ sorted.
        IsNonDecreasingBy (λ row. rank_of row.pair) sorted.items) }
    ensures same { IfOk result (λ sorted. IsPermutation rows.now sorted.items) }
{
    let mut sorted = Vec::from_slice(alloc, rows)?;
    sorted.sort_unstable_by_key(|row| row.pair);
    pairs_compare_by_rank();
    Ok(sorted)
}

// The entries of rows that come in the order of their pairs.
fn gains(alloc: Global, bag: &Bag, rows: &[Held]) -> Result<Vec<Entry>, EditError>
    ensures entries { IfOk result (λ entries. entries.items ≡ gains_of bag.now.held rows.now) }
    ensures refused { IfErr result (IsRowsError bag.now.held rows.now) }
{
    let mut entries = Vec::new(alloc);
    let Some((first, rest)) = rows.split_first() else {
        return Ok(entries);
    };
    let mut pending = *first;
    for row in rest {
        if is_same(row.pair, pending.pair) {
            let Some(sum) = pending.count.checked_add(row.count) else {
                return Err(EditError::TooManyCopies);
            };
            pending.count = sum;
        } else {
            push_gain(&mut entries, bag, pending)?;
            pending = *row;
        }
    }
    push_gain(&mut entries, bag, pending)?;
    Ok(entries)
}

// Appends the entry of a row.
fn push_gain(entries: &mut Vec<Entry>, bag: &Bag, row: Held) -> Result<(), EditError>
    ensures pushed { OnOk result (entries.new.items ≡ entries.old.items ++ gain_of bag.now.held row) }
    ensures refused { IfErr result (IsRowsError bag.now.held (row ∷ [])) }
{
    let before = bag.count(row.pair);
    let Some(after) = before.checked_add(row.count) else {
        return Err(EditError::TooManyCopies);
    };
    if after != before {
        push_entry(entries, row.pair, before, after)?;
    }
    Ok(())
}

// Whether two pairs are the same.
fn is_same(one: Pair, other: Pair) -> bool
    ensures { IsTrue result ↔ (rank_of one ≡ rank_of other) }
{
    one == other
}
