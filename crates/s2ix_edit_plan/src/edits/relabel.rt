ghost use Rattle.std.specs.Prelude.{◌≡◌, ◌≢◌, ◌++◌, true, false, OnOk};
ghost use Rattle.s2ix_bag_pairs.specs.Label.{value_of};
ghost use Rattle.s2ix_bag_pairs.specs.OfLabel.{held_of};
ghost use Rattle.s2ix_edit_plan.specs.Edit.{with_all_moved};
ghost use Rattle.s2ix_edit_plan.specs.Plan.{AlwaysPlans, AlwaysRefuses, move_entries};
ghost use Rattle.s2ix_edit_plan.specs.Refusals.{has_count_above_every_limit, holds_none};

use crate::edit::Edit;
use crate::edits::entries::{lacks_label, removal};
use crate::errors::EditError;
use s2id_core::OutOfMemory;
use s2ix_bag_changes::{Bag, Change};
use s2ix_bag_pairs::{Entry, Held, Label, Pair};
use std::alloc::Global;

// The change that moves all copies of `source` to `target`. If the two are one label it is empty, and the store refuses it with `NoChange`.
// O(n + m log n) for n pairs held, m of them of `source`.
pub(crate) fn plan(
    alloc: Global,
    bag: &Bag,
    source: Label,
    target: Label,
) -> Result<Change, EditError>
    ensures plan { AlwaysPlans bag.now (Edit.Relabel source target) result }
    ensures refused { AlwaysRefuses bag.now (Edit.Relabel source target) result }
    ensures pairs { result ≢ Err EditError.TooManyPairs }
    ensures copies { result ≡ Err EditError.TooManyCopies
        → has_count_above_every_limit (with_all_moved target (held_of source bag.now.held) bag.now.held) ≡ true }
    ensures planned { result ≢ Err EditError.NoChange }
{
    if lacks_label(bag, source) {
        return Err(EditError::NoSuchLabel);
    }
    if source.get() == target.get() {
        return Ok(Change::from_vec(Vec::new(alloc)));
    }
    plan_moves(alloc, bag, source, target)
}

// The change that moves all copies of one label that is held to another. A sum that no `u32` holds is above every
// limit.
fn plan_moves(alloc: Global, bag: &Bag, source: Label, target: Label) -> Result<Change, EditError>
    requires held { holds_none source bag.now.held ≡ false }
    requires apart { value_of source ≢ value_of target }
    ensures plan { AlwaysPlans bag.now (Edit.Relabel source target) result }
    ensures refused { AlwaysRefuses bag.now (Edit.Relabel source target) result }
    ensures pairs { result ≢ Err EditError.TooManyPairs }
    ensures copies { result ≡ Err EditError.TooManyCopies
        → has_count_above_every_limit (with_all_moved target (held_of source bag.now.held) bag.now.held) ≡ true }
    ensures planned { result ≢ Err EditError.NoChange }
{
    let mut entries = Vec::new(alloc);
    for held in bag.of_label(source) {
        let pair = Pair {
            cell: held.pair.cell,
            label: target,
        };
        let before = bag.count(pair);
        let Some(after) = before.checked_add(held.count) else {
            return Err(EditError::TooManyCopies);
        };
        let gain = Entry {
            pair,
            before,
            after,
        };
        push_move(&mut entries, held, gain)?;
    }
    Ok(Change::from_vec(entries))
}

// Appends, in the order of their pairs, the entry that takes a held pair away and the one that gives its copies to
// another pair.
fn push_move(entries: &mut Vec<Entry>, held: Held, gain: Entry) -> Result<(), OutOfMemory>
    ensures { OnOk result (entries.new.items ≡ entries.old.items ++ move_entries held gain) }
{
    let (first, second) = if held.pair.label.get() < gain.pair.label.get() {
        (removal(held), gain)
    } else {
        (gain, removal(held))
    };
    entries.push(first)?;
    entries.push(second)?;
    Ok(())
}
