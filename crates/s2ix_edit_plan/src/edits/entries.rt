//! What several edits are made of.

ghost use Rattle.std.specs.Prelude.{◌≡◌, ◌∷◌, ◌++◌, [], IsOk, IfOk, OnOk};
ghost use Rattle.s2ix_bag_pairs.specs.Change.{removal_of};
ghost use Rattle.s2ix_bag_pairs.specs.Collection.{IsBag};
ghost use Rattle.s2ix_edit_plan.specs.Plan.{one_entry};
ghost use Rattle.s2ix_edit_plan.specs.Refusals.{holds_none};

use s2id_core::OutOfMemory;
use s2ix_bag_changes::{Bag, Change};
use s2ix_bag_pairs::{Entry, Held, Label, Pair};
use std::alloc::Global;

// The change of one pair's count: no entry, and no growth, if the count stays.
pub(crate) fn one_pair(
    alloc: Global,
    pair: Pair,
    before: u32,
    after: u32,
) -> Result<Change, OutOfMemory>
    ensures change { IfOk result (λ change. change ≡ one_entry pair before after) }
    ensures nothing { before ≡ after → IsOk result }
{
    let mut entries = Vec::new(alloc);
    if before != after {
        push_entry(&mut entries, pair, before, after)?;
    }
    Ok(Change::from_vec(entries))
}

// Appends the entry with the two counts of a pair.
pub(crate) fn push_entry(
    entries: &mut Vec<Entry>,
    pair: Pair,
    before: u32,
    after: u32,
) -> Result<(), OutOfMemory>
    ensures { OnOk result (entries.new.items ≡ entries.old.items ++ record { pair = pair; before = before; after = after } ∷ []) }
{
    entries.push(Entry {
        pair,
        before,
        after,
    })?;
    Ok(())
}

// Whether no pair of the label is held. O(n).
pub(crate) fn lacks_label(bag: &Bag, label: Label) -> bool
    ensures lacks { result ≡ holds_none label bag.now.held }
    ensures within { IsBag bag.now }
{
    bag.of_label(label).next().is_none()
}

// The entry that takes a held pair away.
pub(crate) fn removal(held: Held) -> Entry
    ensures { result ≡ removal_of held }
{
    Entry {
        pair: held.pair,
        before: held.count,
        after: 0,
    }
}
