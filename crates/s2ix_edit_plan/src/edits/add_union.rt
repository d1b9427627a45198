ghost use Rattle.std.specs.Prelude.{◌≡◌, ◌≢◌, true, length, IsOk};
ghost use Rattle.s2ix_edit_plan.specs.Edit.{with_each};
ghost use Rattle.s2ix_edit_plan.specs.Plan.{AlwaysPlans, AlwaysRefuses};
ghost use Rattle.s2ix_edit_plan.specs.Refusals.{has_count_above_every_limit};

use crate::edit::Edit;
use crate::edits::entries::push_entry;
use crate::errors::EditError;
use s2id_union::CellUnion;
use s2ix_bag_changes::{Bag, Change};
use s2ix_bag_pairs::{Label, Pair};
use std::alloc::Global;

// The change that gives each cell of a union one copy more under the label. A sum that no `u32` holds is above
// every limit. O(m log n) for m cells and n pairs held.
pub(crate) fn plan(
    alloc: Global,
    bag: &Bag,
    union: &CellUnion,
    label: Label,
) -> Result<Change, EditError>
    ensures plan { AlwaysPlans bag.now (Edit.AddUnion union.now label) result }
    ensures refused { AlwaysRefuses bag.now (Edit.AddUnion union.now label) result }
    ensures pairs { result ≢ Err EditError.TooManyPairs }
    ensures copies { result ≡ Err EditError.TooManyCopies
        → has_count_above_every_limit (with_each label union.now bag.now.held) ≡ true }
    ensures planned { result ≢ Err EditError.NoChange }
    ensures nothing { length union.now ≡ 0 → IsOk result }
{
    let mut entries = Vec::new(alloc);
    for cell in union.cells() {
        let pair = Pair { cell: *cell, label };
        let before = bag.count(pair);
        let Some(after) = before.checked_add(1) else {
            return Err(EditError::TooManyCopies);
        };
        push_entry(&mut entries, pair, before, after)?;
    }
    Ok(Change::from_vec(entries))
}
