//! A bag on the way through changes. Costs are for n pairs held and m entries.
ghost use Rattle.std.specs.Prelude.{◌≡◌, ◌==◌, not, None, length, position, IfOk, OnOk};
ghost use Rattle.s2ix_bag_lists.specs.Apply.{AreBefore, apply_refusal};
ghost use Rattle.s2ix_bag_pairs.specs.Change.{IsChangeList, change_between, changed};
ghost use Rattle.s2ix_bag_pairs.specs.Collection.{Collection, IsCollection, count_in};
ghost use Rattle.s2ix_bag.specs.Reached.{with_counts};
ghost use Rattle.s2ix_bag.specs.Replay.{after_change};

use s2id_core::OutOfMemory;
use s2ix_bag_changes::{Bag, Change};
use s2ix_bag_lists::{ApplyError, gains, has_count_above, losses};
use s2ix_bag_pairs::{Entry, Pair};
use std::alloc::Global;
use std::collections::BTreeMap;
use std::marker::Model;

// How many pairs are copied in the time in which one is looked up and its count set.
const PAIRS_COPIED: usize = 128;

// The bag that changes have led to: one that some of them have led to, and the counts that the others have set since. So a change of few
// entries copies no list of a face. Contracts see the bag that it stands for.
#[derive(Drop)]
pub(crate) struct Reached {
    bag: Bag,
    counts: BTreeMap<Pair, u32>,
    len: usize,
}

impl Model for Reached {
    ghost use Rattle.s2ix_bag_pairs.specs.Collection.{LimitedCollection};
    ghost use Rattle.s2ix_bag.specs.Reached.{IsReached, with_counts};

    ghost Value = { LimitedCollection };

    ghost view = { λ r. record { limits = r.bag.limits; held = with_counts r.bag.held r.counts.entries } };

    ghost invariant = { λ r. IsReached r.bag (record { limits = r.bag.limits; held = with_counts r.bag.held r.counts.entries }) r.len };
}

// Sets the count of each entry's pair to the count after. O(m log k) for the greater number k of counts before and after.
fn set_counts(counts: &mut BTreeMap<Pair, u32>, entries: &[Entry]) -> Result<(), OutOfMemory>
    ensures { OnOk result ((hs : Collection) → IsCollection hs
        → with_counts hs counts.new.entries ≡ changed (with_counts hs counts.old.entries) entries.now) }
{
    for entry in entries {
        counts.insert(entry.pair, entry.after)?;
    }
    Ok(())
}

// What differs between a bag and the one with these counts set. O(k log n) for k counts.
fn entries_of_counts(
    alloc: Global,
    bag: &Bag,
    counts: &BTreeMap<Pair, u32>,
) -> Result<Vec<Entry>, OutOfMemory>
    requires { IsCollection bag.now.held }
    ensures { IfOk result (λ v. v.items ≡ change_between bag.now.held (with_counts bag.now.held counts.now.entries)) }
{
    let mut out = Vec::with_capacity(alloc, counts.len())?;
    for (pair, count) in counts {
        let before = bag.count(*pair);
        if before != *count {
            out.push(Entry {
                pair: *pair,
                before,
                after: *count,
            })?;
        }
    }
    Ok(out)
}

impl Reached {
    // A bag that no change has led on yet.
    pub(crate) fn new(alloc: Global, bag: Bag) -> Reached
        ensures { result ≡ bag }
    {
        let len = bag.len();
        Reached {
            bag,
            counts: BTreeMap::new(alloc),
            len,
        }
    }

    // The bag itself. O(n + k log n) for k counts that were set. `OutOfMemory` if a growth is refused.
    pub(crate) fn bag(&self, alloc: Global) -> Result<Bag, OutOfMemory>
        ensures { IfOk result (λ bag. bag ≡ self.now) }
    {
        let change = Change::from_vec(entries_of_counts(alloc, &self.bag, &self.counts)?);
        match self.bag.applied(alloc, &change) {
            Ok(bag) => Ok(bag),
            Err(_) => Err(OutOfMemory),
        }
    }

    // The count of a pair: 0 if it is not held. O(log n).
    fn count_so_far(&self, pair: Pair) -> u32
        ensures { result ≡ count_in self.now.held pair }
    {
        match self.counts.get(&pair) {
            Some(count) => *count,
            None => self.bag.count(pair),
        }
    }

    // The place of the first entry whose count before is not the bag's. O(m log n).
    fn first_misfit(&self, entries: &[Entry]) -> Option<usize>
        ensures { result ≡ position (λ e. not (e.before == count_in self.now.held e.pair)) entries.now }
    {
        entries
            .iter()
            .position(|e| e.before != self.count_so_far(e.pair))
    }

    // How many pairs are held once a change is applied that has the right counts before. O(m).
    fn len_with(&self, entries: &[Entry]) -> usize
        requires entries_rise { IsChangeList entries.now }
        requires before { AreBefore self.now.held entries.now }
        ensures { result ≡ length (changed self.now.held entries.now) }
    {
        self.len + gains(entries) - losses(entries)
    }

    // Why a change is refused, memory aside: each test goes over all entries, in the order of the errors. O(m log n).
    pub(crate) fn refusal_so_far(&self, change: &Change) -> Option<ApplyError>
        ensures { result ≡ apply_refusal self.now change.now }
    {
        let entries = change.entries();
        let limits = self.bag.limits();
        if let Some(place) = self.first_misfit(entries) {
            return Some(ApplyError::Mismatch(place));
        }
        if has_count_above(entries, limits.count()) {
            return Some(ApplyError::TooManyCopies);
        }
        if self.len_with(entries) > limits.pairs() as usize {
            return Some(ApplyError::TooManyPairs);
        }
        None
    }

    // The bag after a change that isn't refused. O(m log n). `OutOfMemory` if a growth is refused.
    pub(crate) fn led_on(self, change: &Change) -> Result<Reached, OutOfMemory>
        requires { apply_refusal self change.now ≡ None }
        ensures { IfOk result (λ next. next ≡ after_change self change.now) }
    {
        let entries = change.entries();
        let len = self.len_with(entries);
        let Reached {
            bag,
            mut counts,
            ..
        } = self;
        set_counts(&mut counts, entries)?;
        Ok(Reached { bag, counts, len })
    }

    // Whether a change has so many entries that a copy of the lists of faces is quicker than to look each pair up. One entry never is.
    pub(crate) fn is_quicker_copied(&self, change: &Change) -> bool {
        change.entries().len() > 1 + self.bag.len() / PAIRS_COPIED
    }
}
