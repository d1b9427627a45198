ghost use Rattle.std.specs.Prelude.{◌≡◌, ◌≢◌, ◌++◌, map, IfOk, OnOk};
ghost use Rattle.s2ix_bag_pairs.specs.OfLabel.{held_of};
ghost use Rattle.s2ix_edit_plan.specs.Plan.{AlwaysPlans, AlwaysRefuses, one_copy};

use crate::edit::Edit;
use crate::edits::entries::lacks_label;
use crate::errors::EditError;
use crate::region::region_of;
use s2id_core::{CellId, OutOfMemory};
use s2ix_bag_changes::{Bag, Change, LabelIter};
use s2ix_bag_held::FlatHeld;
use s2ix_bag_pairs::{Held, Label, Pair};
use std::alloc::Global;

// The change that replaces a label's pairs by one copy at each cell of its region. O(n + m log m) for n pairs held, m of
// them with the label.
pub(crate) fn plan(alloc: Global, bag: &Bag, label: Label) -> Result<Change, EditError>
    ensures plan { AlwaysPlans bag.now (Edit.Normalise label) result }
    ensures refused { AlwaysRefuses bag.now (Edit.Normalise label) result }
    ensures pairs { result ≢ Err EditError.TooManyPairs }
    ensures copies { result ≢ Err EditError.TooManyCopies }
    ensures planned { result ≢ Err EditError.NoChange }
{
    if lacks_label(bag, label) {
        return Err(EditError::NoSuchLabel);
    }
    let region = region_of(alloc, bag, label)?;
    let old = label_pairs(alloc, bag, label)?;
    let new = one_copy_each(alloc, region.cells(), label)?;
    Ok(Change::between_lists(alloc, old.as_slice(), new.as_slice())?)
}

// The pairs that are held with a label.
fn label_pairs(alloc: Global, bag: &Bag, label: Label) -> Result<Vec<FlatHeld>, OutOfMemory>
    ensures { IfOk result (λ held. held.items ≡ held_of label bag.now.held) }
{
    let mut pairs = Vec::new(alloc);
    push_pairs(&mut pairs, bag.of_label(label))?;
    Ok(pairs)
}

// Appends the pairs that are still to come.
fn push_pairs(pairs: &mut Vec<FlatHeld>, left: LabelIter<'_>) -> Result<(), OutOfMemory>
    ensures { OnOk result (pairs.new.items ≡ pairs.old.items ++ left.entry) }
{
    for held in left {
        pairs.push(FlatHeld::new(held))?;
    }
    Ok(())
}

// The cells' pairs under a label, each held with one copy.
fn one_copy_each(
    alloc: Global,
    cells: &[CellId],
    label: Label,
) -> Result<Vec<FlatHeld>, OutOfMemory>
    ensures { IfOk result (λ held. held.items ≡ map (one_copy label) cells.now) }
{
    let one_copy = |cell: &CellId| {
        FlatHeld::new(Held {
            pair: Pair { cell: *cell, label },
            count: 1,
        })
    };
    Ok(cells.iter().map(one_copy).collect(alloc)?)
}
