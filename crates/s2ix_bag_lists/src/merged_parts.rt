//! The parts of a list once a change is applied.
ghost use Rattle.std.specs.Prelude.{◌≡◌, ◌<◌, ◌++◌, length, OnOk, IfOk};
ghost use Rattle.s2ix_bag_lists.specs.Apply.{AreBefore};
ghost use Rattle.s2ix_bag_lists.specs.Faces.{all_of};
ghost use Rattle.s2ix_bag_lists.specs.Parts.{AreFilled};
ghost use Rattle.s2ix_bag_lists.specs.View.{lists_in};
ghost use Rattle.s2ix_bag_pairs.specs.Change.{IsChangeList, changed};
ghost use Rattle.s2ix_bag_pairs.specs.Collection.{IsCollection};

use crate::apply::merge;
use crate::cut::cut;
use crate::lists_view::ListsView;
use crate::part_search::{entries_up_to_part, part_of};
use s2id_core::OutOfMemory;
use s2ix_bag_held::HeldList;
use s2ix_bag_pairs::Entry;
use std::alloc::Global;

// Whether two parts that follow each other are to be one: one of them has less than a quarter of the most, and both fit into a part.
fn is_joined(first: &HeldList, second: &HeldList, max_part_len: usize) -> bool {
    let first = first.as_slice().len();
    let second = second.as_slice().len();
    first.min(second) < max_part_len / 4 && first <= max_part_len && second <= max_part_len - first
}

// The pairs of two parts in one.
fn joined(alloc: Global, first: &HeldList, second: &HeldList) -> Result<HeldList, OutOfMemory>
    ensures { IfOk result (λ both. both ≡ first.now ++ second.now) }
{
    let first = first.as_slice();
    let second = second.as_slice();
    let mut both = Vec::with_capacity(alloc, first.len() + second.len())?;
    both.extend_from_slice(first)?;
    both.extend_from_slice(second)?;
    HeldList::with_filter(alloc, both)
}

// Appends a part, shared, or joins it with the last one.
fn add(
    alloc: Global,
    out: &mut Vec<HeldList>,
    part: &HeldList,
    max_part_len: usize,
) -> Result<(), OutOfMemory>
    requires filled { AreFilled out.old.items }
    requires some { 0 < length part.now }
    ensures made { OnOk result (all_of out.new.items ≡ all_of out.old.items ++ part.now) }
    ensures filled { OnOk result (AreFilled out.new.items) }
{
    let len = out.len();
    if len > 0 && is_joined(&out[len - 1], part, max_part_len) {
        let both = joined(alloc, &out[len - 1], part)?;
        out[len - 1] = both;
    } else {
        out.push(part.clone()?)?;
    }
    Ok(())
}

// Appends parts, each as `add` does.
fn add_all(
    alloc: Global,
    out: &mut Vec<HeldList>,
    parts: &[HeldList],
    max_part_len: usize,
) -> Result<(), OutOfMemory>
    requires filled { AreFilled out.old.items }
    requires some { AreFilled parts.now }
    ensures made { OnOk result (all_of out.new.items ≡ all_of out.old.items ++ all_of parts.now) }
    ensures filled { OnOk result (AreFilled out.new.items) }
{
    for part in parts {
        add(alloc, out, part, max_part_len)?;
    }
    Ok(())
}

// The same of some of the parts of a list, bundle by bundle.
fn add_lists(
    alloc: Global,
    out: &mut Vec<HeldList>,
    parts: ListsView<'_>,
    max_part_len: usize,
) -> Result<(), OutOfMemory>
    requires filled { AreFilled out.old.items }
    requires some { AreFilled (lists_in parts) }
    ensures made { OnOk result (all_of out.new.items ≡ all_of out.old.items ++ all_of (lists_in parts.entry)) }
    ensures filled { OnOk result (AreFilled out.new.items) }
{
    let mut rest = parts;
    while let Some((own, later)) = rest.split_bundle() {
        add_all(alloc, out, own, max_part_len)?;
        rest = later;
    }
    Ok(())
}

// Appends what entries that have the right counts before make of a part: in pieces if it is too long for one then.
fn add_changed(
    alloc: Global,
    out: &mut Vec<HeldList>,
    part: &HeldList,
    entries: &[Entry],
    max_part_len: usize,
) -> Result<(), OutOfMemory>
    requires filled { AreFilled out.old.items }
    requires held_rise { IsCollection part.now }
    requires entries_rise { IsChangeList entries.now }
    requires before { AreBefore part.now entries.now }
    ensures made { OnOk result (all_of out.new.items ≡ all_of out.old.items ++ changed part.now entries.now) }
    ensures filled { OnOk result (AreFilled out.new.items) }
{
    let held = merge(alloc, part.as_slice(), entries)?;
    if held.is_empty() || held.len() > max_part_len {
        let pieces = cut(alloc, &held, max_part_len)?;
        return add_all(alloc, out, &pieces, max_part_len);
    }
    let part = part.changed_to(alloc, held, entries)?;
    add(alloc, out, &part, max_part_len)
}

/// The parts once a change is applied that has the right counts before. Those with entries are copied, and so is one on either side of them if
/// the two are joined, as `is_joined` says; the others are shared. O(w + (v + m) log p + k) for w parts in v bundles, of a list that has p parts,
/// m entries and the k pairs of the copied parts. `OutOfMemory` if a growth is refused, or if a part is shared too often.
pub(crate) fn merged_parts(
    alloc: Global,
    parts: ListsView<'_>,
    entries: &[Entry],
    max_part_len: usize,
) -> Result<Vec<HeldList>, OutOfMemory>
    requires rises { IsCollection (all_of (lists_in parts)) }
    requires filled { AreFilled (lists_in parts) }
    requires some { 0 < length (lists_in parts) }
    requires entries_rise { IsChangeList entries.now }
    requires before { AreBefore (all_of (lists_in parts)) entries.now }
    ensures made { IfOk result (λ after. all_of after.items ≡ changed (all_of (lists_in parts.entry)) entries.now) }
    ensures filled { IfOk result (λ after. AreFilled after.items) }
{
    let mut after = Vec::with_capacity(alloc, parts.len().saturating_add(1))?;
    let mut ahead = parts;
    let mut rest = entries;
    while let Some(first) = rest.first() {
        let place = part_of(ahead, first.pair);
        let (front, _) = ahead.split_at(place);
        add_lists(alloc, &mut after, front, max_part_len)?;
        let (own, later) = rest.split_at(entries_up_to_part(ahead, place, rest));
        add_changed(alloc, &mut after, ahead.at(place), own, max_part_len)?;
        rest = later;
        (_, ahead) = ahead.split_at(place + 1);
    }
    add_lists(alloc, &mut after, ahead, max_part_len)?;
    Ok(after)
}
