//! Why a bag refuses to take a change back, found before anything grows. Costs are for m entries and n pairs held.
ghost use Rattle.std.specs.Prelude.{◌≡◌, ◌==◌, not, nat_lt, length, position};
ghost use Rattle.std.specs.List.{list_any};
ghost use Rattle.s2ix_bag_lists.specs.Apply.{AreBefore, apply_refusal};
ghost use Rattle.s2ix_bag_pairs.specs.Change.{IsChangeList, changed, inverse_of};
ghost use Rattle.s2ix_bag_pairs.specs.Collection.{count_in};

use s2ix_bag_changes::{Bag, Change};
use s2ix_bag_lists::{ApplyError, gains, losses};
use s2ix_bag_pairs::Entry;

// The place of the first entry whose count after is not the bag's. O(m log n).
fn mismatch_back(bag: &Bag, entries: &[Entry]) -> Option<usize>
    ensures { result ≡ position (λ e. not (e.after == count_in bag.now.held e.pair)) entries.now }
{
    entries.iter().position(|e| e.after != bag.count(e.pair))
}

// Whether an entry's count before is above the limit. O(m).
fn has_count_above(entries: &[Entry], limit: u32) -> bool
    ensures { result ≡ list_any (λ e. nat_lt limit e.before) entries.now }
{
    entries.iter().any(|e| limit < e.before)
}

// How many pairs are held once the inverse of a change is applied that has the right counts. O(m).
fn length_back(bag: &Bag, entries: &[Entry]) -> usize
    requires rises { IsChangeList entries.now }
    requires before { AreBefore bag.now.held (inverse_of entries.now) }
    ensures { result ≡ length (changed bag.now.held (inverse_of entries.now)) }
{
    bag.len() + losses(entries) - gains(entries)
}

// Why a bag refuses the inverse of a change, memory aside: each test goes over all entries, in the order of the errors. O(m log n).
#[tactic(auto, using(crate::proofs::Inverted::refusal_of_inverse))]
pub(crate) fn refusal_back(bag: &Bag, change: &Change) -> Option<ApplyError>
    ensures { result ≡ apply_refusal bag.now (inverse_of change.now) }
{
    let entries = change.entries();
    if let Some(place) = mismatch_back(bag, entries) {
        return Some(ApplyError::Mismatch(place));
    }
    if has_count_above(entries, bag.limits().count()) {
        return Some(ApplyError::TooManyCopies);
    }
    if length_back(bag, entries) > bag.limits().pairs() as usize {
        return Some(ApplyError::TooManyPairs);
    }
    None
}
