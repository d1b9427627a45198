ghost use Rattle.std.specs.Prelude.{◌≡◌, ◌≢◌, map, IfOk};
ghost use Rattle.s2ix_bag_pairs.specs.Change.{removal_of};
ghost use Rattle.s2ix_bag_pairs.specs.OfLabel.{held_of};
ghost use Rattle.s2ix_edit_plan.specs.Plan.{AlwaysPlans, AlwaysRefuses};

use crate::edit::Edit;
use crate::edits::entries::{lacks_label, removal};
use crate::errors::EditError;
use s2id_core::OutOfMemory;
use s2ix_bag_changes::{Bag, Change};
use s2ix_bag_pairs::{Entry, Label};
use std::alloc::Global;

// The change that takes all pairs of a label away. O(n) for n pairs held.
pub(crate) fn plan(alloc: Global, bag: &Bag, label: Label) -> Result<Change, EditError>
    ensures plan { AlwaysPlans bag.now (Edit.DropLabel label) result }
    ensures refused { AlwaysRefuses bag.now (Edit.DropLabel label) result }
    ensures pairs { result ≢ Err EditError.TooManyPairs }
    ensures copies { result ≢ Err EditError.TooManyCopies }
    ensures planned { result ≢ Err EditError.NoChange }
{
    if lacks_label(bag, label) {
        return Err(EditError::NoSuchLabel);
    }
    Ok(Change::from_vec(removals(alloc, bag, label)?))
}

// The entries that take all pairs of a label away.
fn removals(alloc: Global, bag: &Bag, label: Label) -> Result<Vec<Entry>, OutOfMemory>
    ensures { IfOk result (λ entries. entries.items ≡ map removal_of (held_of label bag.now.held)) }
{
    Ok(bag.of_label(label).map(removal).collect(alloc)?)
}
