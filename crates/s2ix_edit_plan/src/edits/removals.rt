//! The change that takes rows, each a pair with copies, from the counts of a bag.

ghost use Rattle.std.specs.Prelude.{◌≡◌, ◌≢◌, ◌<◌, Some, None, IfOk, IfErr, OnOk, length};
ghost use Rattle.s2ix_bag_pairs.specs.Collection.{IsBag};
ghost use Rattle.s2ix_edit_plan.specs.Removals.{AreCopies, IsRemoval, IsRemoveRefusal, TakesRows, first_not_held, removal_plan_refusal};

use crate::edits::rows::{have_no_copies, plan_rows};
use crate::errors::{EditError, RemoveError};
use s2id_core::OutOfMemory;
use s2ix_bag_changes::{Bag, Change};
use s2ix_bag_lists::RevertError;
use s2ix_bag_pairs::Held;
use std::alloc::Global;

/// The change that takes the copies of each row from the count of the row's pair: an entry for each pair that loses copies. Rows come in any
/// order, and a pair may come more than once. The bag stays as it is.
///
/// `NoChange` if no row has copies, and then it does not allocate; else `NotHeld` if some row takes more copies than the rows before it
/// leave. `OutOfMemory` if a growth is refused, also in place of `NotHeld`. O(m log m + m log n) for m rows and n pairs held; `NotHeld` takes
/// log m times as long. This project's own.
pub fn plan_removals(alloc: Global, bag: &Bag, rows: &[Held]) -> Result<Change, RemoveError>
    ensures plan { IfOk result (TakesRows bag.now rows.now) }
    ensures some { IfOk result (λ change. 0 < length change) }
    ensures accepted { OnOk result (removal_plan_refusal bag.now.held rows.now ≡ None) }
    ensures refused { IfErr result (λ error.
        IsRemoveRefusal error (removal_plan_refusal bag.now.held rows.now)) }
{
    if have_no_copies(bag, rows) {
        return Err(RemoveError::NoChange);
    }
    match removal_of(alloc, bag, rows)? {
        Some(change) => Ok(change),
        None => Err(RemoveError::NotHeld(place_not_held(alloc, bag, rows)?)),
    }
}

// The change that takes rows away, or `None` if some row takes more copies than the rows before it leave.
fn removal_of(alloc: Global, bag: &Bag, rows: &[Held]) -> Result<Option<Change>, OutOfMemory>
    requires { IsBag bag.now }
    ensures { IfOk result (IsRemoval bag.now rows.now) }
{
    let Some(copies) = copies_of(alloc, bag, rows)? else {
        return Ok(None);
    };
    match bag.reverting(alloc, &copies) {
        Ok(change) => Ok(Some(change)),
        Err(RevertError::BelowZero(_)) => Ok(None),
        Err(RevertError::TooManyCopies) => unreachable!(),
        Err(RevertError::TooManyPairs) => unreachable!(),
        Err(RevertError::OutOfMemory) => Err(OutOfMemory),
    }
}

// The change that adds rows to no pair: how many copies they have of each. `None` if they have more of one than any bag may hold.
fn copies_of(alloc: Global, bag: &Bag, rows: &[Held]) -> Result<Option<Change>, OutOfMemory>
    requires { IsBag bag.now }
    ensures { IfOk result (AreCopies bag.now rows.now) }
{
    match plan_rows(alloc, &Bag::empty(alloc, bag.limits()), rows) {
        Ok(copies) => Ok(Some(copies)),
        Err(EditError::TooManyCopies) => Ok(None),
        Err(EditError::OutOfMemory) => Err(OutOfMemory),
        Err(EditError::JournalFull) => unreachable!(),
        Err(EditError::NoSuchLabel) => unreachable!(),
        Err(EditError::NotHeld) => unreachable!(),
        Err(EditError::TooFine) => unreachable!(),
        Err(EditError::NoSuchChange) => unreachable!(),
        Err(EditError::BelowZero) => unreachable!(),
        Err(EditError::NoChange) => unreachable!(),
        Err(EditError::TooManyPairs) => unreachable!(),
    }
}

// The place of the first row that takes more copies than the rows before it leave, if there is one: the rows up to a place are tried, and
// the place found by halving.
fn place_not_held(alloc: Global, bag: &Bag, rows: &[Held]) -> Result<usize, OutOfMemory>
    requires within { IsBag bag.now }
    requires lacks { first_not_held rows.now bag.now.held ≢ None }
    ensures { IfOk result (λ place. first_not_held rows.now bag.now.held ≡ Some place) }
{
    let mut low = 0;
    let mut high = rows.len();
    while high - low > 1 {
        let middle = low + (high - low) / 2;
        if removal_of(alloc, bag, &rows[..middle])?.is_some() {
            low = middle;
        } else {
            high = middle;
        }
    }
    Ok(low)
}
