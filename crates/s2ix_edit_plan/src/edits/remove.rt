ghost use Rattle.std.specs.Prelude.{◌≡◌, ◌≢◌, IsOk};
ghost use Rattle.s2ix_edit_plan.specs.Plan.{AlwaysPlans, AlwaysRefuses};

use crate::edit::Edit;
use crate::edits::entries::one_pair;
use crate::errors::EditError;
use s2ix_bag_changes::{Bag, Change};
use s2ix_bag_pairs::Pair;
use std::alloc::Global;

// The change that takes copies from a pair's count. O(log n) for n pairs held.
pub(crate) fn plan(alloc: Global, bag: &Bag, pair: Pair, copies: u32) -> Result<Change, EditError>
    ensures plan { AlwaysPlans bag.now (Edit.Remove pair copies) result }
    ensures refused { AlwaysRefuses bag.now (Edit.Remove pair copies) result }
    ensures pairs { result ≢ Err EditError.TooManyPairs }
    ensures copies { result ≢ Err EditError.TooManyCopies }
    ensures planned { result ≢ Err EditError.NoChange }
    ensures nothing { copies ≡ 0 → IsOk result }
{
    let before = bag.count(pair);
    let Some(after) = before.checked_sub(copies) else {
        return Err(EditError::NotHeld);
    };
    Ok(one_pair(alloc, pair, before, after)?)
}
