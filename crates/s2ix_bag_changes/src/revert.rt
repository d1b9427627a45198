//! Taking changes back. Costs are for m entries and n pairs held.
ghost use Rattle.std.specs.Prelude.{◌≡◌, ◌==◌, ◌+◌, ◌-◌, nat_lt, None, length, count_by, IfOk};
ghost use Rattle.std.specs.List.{list_any};
ghost use Rattle.s2ix_bag_lists.specs.Revert.{revert_refusal};
ghost use Rattle.s2ix_bag_pairs.specs.Change.{IsChangeList};
ghost use Rattle.s2ix_bag_pairs.specs.Collection.{count_in};
ghost use Rattle.s2ix_bag_pairs.specs.Limits.{count_limit};
ghost use Rattle.s2ix_bag_pairs.specs.TakenBack.{count_back, first_below_zero, change_back, taken_back};

use crate::bag::Bag;
use s2id_core::OutOfMemory;
use s2ix_bag_lists::RevertError;
use s2ix_bag_pairs::{Entry, Limits};
use std::alloc::Global;

// A count plus an entry's count before; the count after is subtracted from it.
fn with_before(count: u32, entry: &Entry) -> u64
    ensures { result ≡ count + entry.now.before }
{
    u64::from(count) + u64::from(entry.before)
}

// A count less an entry's difference, and 0 if that is below 0.
fn less_difference(count: u32, entry: &Entry) -> u64
    ensures { result ≡ count + entry.now.before - entry.now.after }
{
    with_before(count, entry).saturating_sub(u64::from(entry.after))
}

// The place of the first entry at which the count would be below 0. O(m log n).
fn below_zero(bag: &Bag, entries: &[Entry]) -> Option<usize>
    ensures { result ≡ first_below_zero bag.now.held entries.now }
{
    entries
        .iter()
        .position(|e| with_before(bag.count(e.pair), e) < u64::from(e.after))
}

// Whether a count would be above the limit. O(m log n).
fn has_count_above(bag: &Bag, entries: &[Entry]) -> bool
    ensures { result ≡ list_any (λ e. nat_lt (count_limit bag.now.limits) (count_back bag.now.held e)) entries.now }
{
    let limit = u64::from(bag.limits().count());
    entries
        .iter()
        .any(|e| limit < less_difference(bag.count(e.pair), e))
}

// How many entries have a pair that is not held now. O(m log n).
fn gains(bag: &Bag, entries: &[Entry]) -> usize
    ensures { result ≡ count_by (λ e. count_in bag.now.held e.pair == 0) entries.now }
{
    entries.iter().filter(|e| bag.count(e.pair) == 0).count()
}

// How many entries have a pair that would be held no more. O(m log n).
fn losses(bag: &Bag, entries: &[Entry]) -> usize
    ensures { result ≡ count_by (λ e. count_back bag.now.held e == 0) entries.now }
{
    entries
        .iter()
        .filter(|e| less_difference(bag.count(e.pair), e) == 0)
        .count()
}

// How many pairs would be held. O(m log n).
fn length_back(bag: &Bag, entries: &[Entry]) -> usize
    requires entries_rise { IsChangeList entries.now }
    requires above { first_below_zero bag.now.held entries.now ≡ None }
    ensures { result ≡ length (taken_back bag.now.held entries.now) }
{
    bag.len() + gains(bag, entries) - losses(bag, entries)
}

// Why a change is not taken back by a bag with these limits, memory aside: each test goes over all entries, in the order of the errors.
// O(m log n).
pub(crate) fn refusal(bag: &Bag, limits: Limits, entries: &[Entry]) -> Option<RevertError>
    requires own { limits ≡ bag.now.limits }
    requires rises { IsChangeList entries.now }
    ensures { result ≡ revert_refusal bag.now entries.now }
{
    if let Some(place) = below_zero(bag, entries) {
        return Some(RevertError::BelowZero(place));
    }
    if has_count_above(bag, entries) {
        return Some(RevertError::TooManyCopies);
    }
    if length_back(bag, entries) > limits.pairs() as usize {
        return Some(RevertError::TooManyPairs);
    }
    None
}

// The entries that take a change back that isn't refused. O(m log n).
pub(crate) fn entries_back(
    alloc: Global,
    bag: &Bag,
    entries: &[Entry],
) -> Result<Vec<Entry>, OutOfMemory>
    requires { revert_refusal bag.now entries.now ≡ None }
    ensures { IfOk result (λ back. back.items ≡ change_back bag.now.held entries.now) }
{
    let mut back = Vec::with_capacity(alloc, entries.len())?;
    for entry in entries {
        let before = bag.count(entry.pair);
        back.push(Entry {
            pair: entry.pair,
            before,
            after: less_difference(before, entry) as u32,
        })?;
    }
    Ok(back)
}
