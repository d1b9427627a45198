ghost use Rattle.std.specs.Prelude.{◌≡◌, ◌≢◌, Some, None, IfOk, IfErr, IfSome, IfNone, OnOk};
ghost use Rattle.s2ix_edit_plan.specs.Edit.{numbered};
ghost use Rattle.s2ix_edit_plan.specs.Plan.{IsPlanRefusal, IsUnrefused, Plans};

use crate::edit::Edit;
use crate::errors::EditError;
use s2ix_bag_changes::{Bag, Change};
use std::alloc::Global;

// The change that takes back the one with the number. It is found at once, however many stand. O(m log n) for its m
// entries and n pairs held.
pub(crate) fn plan(
    alloc: Global,
    bag: &Bag,
    changes: &[Change],
    number: u32,
) -> Result<Change, EditError>
    ensures plan { IfOk result (Plans bag.now changes.now (Edit.Revert number)) }
    ensures refused { IfErr result (IsPlanRefusal bag.now changes.now (Edit.Revert number)) }
    ensures planned { result ≢ Err EditError.NoChange }
    ensures fits { OnOk result (IsUnrefused bag.now changes.now (Edit.Revert number)) }
    ensures memory { result ≡ Err EditError.OutOfMemory → IsUnrefused bag.now changes.now (Edit.Revert number) }
{
    let Some(change) = change_of_number(changes, number) else {
        return Err(EditError::NoSuchChange);
    };
    Ok(bag.reverting(alloc, change)?)
}

// The change with the number, counted from 1.
fn change_of_number(changes: &[Change], number: u32) -> Option<&Change>
    ensures some { IfSome result (λ change. numbered number changes.now ≡ Some change.now) }
    ensures none { IfNone result (numbered number changes.now ≡ None) }
{
    changes.get((number as usize).checked_sub(1)?)
}
