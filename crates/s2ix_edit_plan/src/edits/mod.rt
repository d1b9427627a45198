//! What each edit changes: the entries that carry it out. Each edit has a file of its own with its `plan`; `entries` has what several of
//! them need.

mod add;
mod add_union;
mod drop_label;
mod entries;
mod grow;
mod normalise;
mod relabel;
pub(crate) mod removals;
mod remove;
mod revert;
pub(crate) mod rows;

ghost use Rattle.std.specs.Prelude.{◌≡◌, ◌≢◌, true, false, IsOk, IfOk, IfErr, OnOk};
ghost use Rattle.s2ix_edit_plan.specs.Edit.{edited_by};
ghost use Rattle.s2ix_edit_plan.specs.Plan.{IsPlanRefusal, IsUnrefused, Plans};
ghost use Rattle.s2ix_edit_plan.specs.Refusals.{asks_no_copies, has_count_above_every_limit, reverts};

use crate::edit::Edit;
use crate::errors::EditError;
use s2ix_bag_changes::{Bag, Change};
use std::alloc::Global;

/// The change that carries an edit out on a bag: an entry for each pair whose count the edit changes, and none if nothing would change. The
/// bag stays as it is; [`Bag::applied`] makes the next one of the change. `changes` are those that led to the bag, the oldest first.
/// `Revert` takes one of them back; no other edit reads them.
///
/// It returns the first error of [`EditError`] that is due, but never `JournalFull`, which a store tests, nor `NoChange`. Whether counts
/// and pairs fit the bag is found when the change is applied, with two exceptions: the plan of `Revert` tests it and returns
/// `TooManyCopies` or `TooManyPairs` itself, and a sum that no `u32` holds is `TooManyCopies` here, since it is above every limit.
/// `OutOfMemory` may replace `TooManyCopies`, but for a `Revert`, and no other error. An `Add` or a `Remove` of no copies does not
/// allocate, nor does an `AddUnion` of no cells.
///
/// For n pairs held, `Add` and `Remove` take O(log n), `AddUnion` O(m log n) for m cells, `DropLabel` O(n), `Relabel`
/// O(n + m log n) and `Normalise` O(n + m log m) for m pairs of the label, and `Grow` O(n + b log b) for b cells beside those of
/// the label. That O(n) is the worst case: edits of a label read only the parts of the bag that may have it, as [`Bag::of_label`] says.
/// `Revert` takes O(m log n) for the m entries of the change that it takes back, however many stand. This project's own.
pub fn plan(alloc: Global, bag: &Bag, changes: &[Change], edit: &Edit) -> Result<Change, EditError>
    ensures plan { IfOk result (Plans bag.now changes.now edit.now) }
    ensures refused { IfErr result (IsPlanRefusal bag.now changes.now edit.now) }
    ensures planned { result ≢ Err EditError.NoChange }

    // An edit of no copies is planned without allocating. A `Revert` is planned, or asks for memory, only if nothing refuses it but that it
    // may change nothing. No other edit is refused for its pairs here, nor for its copies unless a count would be above every limit.
    ensures nothing { asks_no_copies edit.now ≡ true → IsOk result }
    ensures reverting { reverts edit.now ≡ true
        → result ≡ Err EditError.OutOfMemory
        → IsUnrefused bag.now changes.now edit.now }
    ensures fits { reverts edit.now ≡ true → OnOk result (IsUnrefused bag.now changes.now edit.now) }
    ensures pairs { reverts edit.now ≡ false → result ≢ Err EditError.TooManyPairs }
    ensures copies { reverts edit.now ≡ false
        → result ≡ Err EditError.TooManyCopies
        → has_count_above_every_limit (edited_by changes.now edit.now bag.now.held) ≡ true }
{
    match edit {
        Edit::Add { pair, copies } => add::plan(alloc, bag, *pair, *copies),
        Edit::AddUnion { union, label } => add_union::plan(alloc, bag, union, *label),
        Edit::Remove { pair, copies } => remove::plan(alloc, bag, *pair, *copies),
        Edit::DropLabel { label } => drop_label::plan(alloc, bag, *label),
        Edit::Relabel { source, target } => relabel::plan(alloc, bag, *source, *target),
        Edit::Grow { label, level } => grow::plan(alloc, bag, *label, *level),
        Edit::Normalise { label } => normalise::plan(alloc, bag, *label),
        Edit::Revert { number } => revert::plan(alloc, bag, changes, *number),
    }
}
