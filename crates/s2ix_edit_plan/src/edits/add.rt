ghost use Rattle.std.specs.Prelude.{◌≡◌, ◌≢◌, true, IsOk};
ghost use Rattle.s2ix_edit_plan.specs.Edit.{with_more};
ghost use Rattle.s2ix_edit_plan.specs.Plan.{AlwaysPlans, AlwaysRefuses};
ghost use Rattle.s2ix_edit_plan.specs.Refusals.{has_count_above_every_limit};

use crate::edit::Edit;
use crate::edits::entries::one_pair;
use crate::errors::EditError;
use s2ix_bag_changes::{Bag, Change};
use s2ix_bag_pairs::Pair;
use std::alloc::Global;

// The change that adds copies to a pair's count. O(log n) for n pairs held.
pub(crate) fn plan(alloc: Global, bag: &Bag, pair: Pair, copies: u32) -> Result<Change, EditError>
    ensures plan { AlwaysPlans bag.now (Edit.Add pair copies) result }
    ensures refused { AlwaysRefuses bag.now (Edit.Add pair copies) result }
    ensures pairs { result ≢ Err EditError.TooManyPairs }
    ensures copies { result ≡ Err EditError.TooManyCopies
        → has_count_above_every_limit (with_more pair copies bag.now.held) ≡ true }
    ensures planned { result ≢ Err EditError.NoChange }
    ensures nothing { copies ≡ 0 → IsOk result }
{
    let before = bag.count(pair);
    let Some(after) = before.checked_add(copies) else {
        return Err(EditError::TooManyCopies);
    };
    Ok(one_pair(alloc, pair, before, after)?)
}
