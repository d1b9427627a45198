//! The labels that a bag has pairs of.

ghost use Rattle.std.specs.Prelude.{◌≡◌, ◌+◌, ◌<◌, ◌^◌, ◌≢◌, [], IfOk, IsErr, AllPairs, Contains, length, map, slice_index_or};
ghost use Rattle.s2ix_bag_pairs.specs.Label.{value_of};
ghost use Rattle.s2ix_table_walk.specs.LabelList.{label_list};
ghost use Rattle.s2ix_edit_store.specs.HeldLabels.{counted_with, held_labels, label_in, total_of};

use s2id_core::OutOfMemory;
use s2ix_bag_changes::Bag;
use s2ix_bag_pairs::{Held, Label};
use std::alloc::Global;

/// A label that is held, with what its pairs come to.
#[derive(Clone, Copy, Debug, PartialEq, Eq)]
pub struct HeldLabel {
    /// The label.
    pub label: Label,
    /// How many pairs have it: 1 to 1,000,000.
    pub pairs: usize,
    /// How many copies they have together: at least `pairs`.
    pub copies: u64,
}

// The labels that a bag has pairs of, rising, each with its totals.
pub(crate) fn held_labels_of(alloc: Global, bag: &Bag) -> Result<Vec<HeldLabel>, OutOfMemory>
    ensures list { IfOk result (λ list. list.items ≡ held_labels bag.now.held) }
    ensures memory { IsErr result → bag.now.held ≢ [] }
{
    if bag.is_empty() {
        return Ok(Vec::new(alloc));
    }
    let labels = labels_of(alloc, bag)?;
    let mut totals = none_yet(alloc, labels.as_slice())?;
    count_pairs(bag, labels.as_slice(), totals.as_mut_slice());
    Ok(totals)
}

// The labels of a bag's pairs, each once and rising. O(n log n) for n pairs.
fn labels_of(alloc: Global, bag: &Bag) -> Result<Vec<Label>, OutOfMemory>
    ensures { IfOk result (λ labels. labels.items ≡ label_list bag.now.held) }
{
    let mut labels = pair_labels(alloc, bag)?;
    labels.sort_unstable();
    labels.dedup();
    Ok(labels)
}

// The label of each pair.
fn pair_labels(alloc: Global, bag: &Bag) -> Result<Vec<Label>, OutOfMemory>
    ensures { IfOk result (λ labels. labels.items ≡ map label_in bag.now.held) }
{
    Ok(bag.iter().map(label_of).collect(alloc)?)
}

// The label of a held pair.
fn label_of(held: Held) -> Label
    ensures { result ≡ held.pair.label }
{
    held.pair.label
}

// Each label before a pair of it is counted.
fn none_yet(alloc: Global, labels: &[Label]) -> Result<Vec<HeldLabel>, OutOfMemory>
    ensures { IfOk result (λ totals. totals.items ≡ map (total_of []) labels.now) }
{
    Ok(labels.iter().map(without_pairs).collect(alloc)?)
}

// A label without pairs.
fn without_pairs(label: &Label) -> HeldLabel
    ensures { result ≡ total_of [] label.now }
{
    HeldLabel {
        label: *label,
        pairs: 0,
        copies: 0,
    }
}

// Counts each pair of a bag for its label. O(n log m) for n pairs of m labels.
fn count_pairs(bag: &Bag, labels: &[Label], totals: &mut [HeldLabel])
    requires labels { labels.now ≡ label_list bag.now.held }
    requires none { totals.old ≡ map (total_of []) labels.now }
    ensures { totals.new ≡ held_labels bag.now.held }
{
    for held in bag.iter() {
        let place = place_of(labels, held.pair.label);
        totals[place] = with_pair(totals[place], held);
    }
}

// The place of a label in a rising list that has it.
fn place_of(labels: &[Label], label: Label) -> usize
    requires rise { AllPairs (λ l m. value_of l < value_of m) labels.now }
    requires held { Contains labels.now label }
    ensures within { result < length labels.now }
    ensures found { slice_index_or labels.now result label ≡ label }
{
    match labels.binary_search(&label) {
        Ok(place) => place,
        Err(_) => unreachable!(),
    }
}

// The totals of a label with a pair more.
fn with_pair(total: HeldLabel, held: Held) -> HeldLabel
    requires pairs { total.pairs + 1 < 2 ^ 64 }
    requires copies { total.copies + held.count < 2 ^ 64 }
    ensures { result ≡ counted_with total held }
{
    HeldLabel {
        label: total.label,
        pairs: total.pairs + 1,
        copies: total.copies + u64::from(held.count),
    }
}
