ghost use Rattle.std.specs.Prelude.{◌≡◌, ℕ, ◌<◌, Some, None, IfOk, IfErr, OnOk, take};
ghost use Rattle.std.specs.Option.{option_map};
ghost use Rattle.s2ix_bag_lists.specs.Apply.{apply_refusal};
ghost use Rattle.s2ix_bag.specs.declared.replay_error.ReplayError.TheVariants.{OutOfMemory};
ghost use Rattle.s2ix_bag.specs.Replay.{IsReplayError, after_change, first_refusal, with_numbers, refusal_numbered, replay_refusal, replayed, rewind_refusal, rewound, way_back};

use crate::reached::Reached;
use crate::replay_error::ReplayError;
use crate::replay_refusal::refusal_back;
use s2ix_bag_changes::{Bag, Change};
use s2ix_bag_lists::ApplyError;
use std::alloc::Global;

// A refusal with the number of its change, and the number of an entry counted from 1. The change has so many entries.
fn numbered(number: usize, entries: usize, refusal: ApplyError) -> ReplayError
    requires { (place : ℕ) → refusal ≡ ApplyError.Mismatch place → place < entries }
    ensures { result ≡ refusal_numbered number refusal }
{
    match refusal {
        ApplyError::Mismatch(place) => ReplayError::Mismatch {
            change: number,
            entry: place + 1,
        },
        ApplyError::TooManyCopies => ReplayError::TooManyCopies { change: number },
        ApplyError::TooManyPairs => ReplayError::TooManyPairs { change: number },
        ApplyError::OutOfMemory => ReplayError::OutOfMemory,
    }
}

// The bag after one more change, or why that is refused under its number.
fn next_bag(alloc: Global, bag: &Bag, change: &Change, number: usize) -> Result<Bag, ReplayError>
    ensures bag { IfOk result (λ next. next ≡ after_change bag.now change.now) }
    ensures accepted { OnOk result (apply_refusal bag.now change.now ≡ None) }
    ensures refused { IfErr result (λ error. IsReplayError error (option_map (refusal_numbered number) (apply_refusal bag.now change.now))) }
    ensures memory { result ≡ Err OutOfMemory → apply_refusal bag.now change.now ≡ None }
{
    match bag.applied(alloc, change) {
        Ok(next) => Ok(next),
        Err(refusal) => Err(numbered(number, change.entries().len(), refusal)),
    }
}

// The same for a bag on the way: a change of many entries is applied to the bag itself, one of few to the counts beside it.
fn next_reached(
    alloc: Global,
    reached: Reached,
    change: &Change,
    number: usize,
) -> Result<Reached, ReplayError>
    ensures bag { IfOk result (λ next. next ≡ after_change reached change.now) }
    ensures accepted { OnOk result (apply_refusal reached change.now ≡ None) }
    ensures refused { IfErr result (λ error. IsReplayError error (option_map (refusal_numbered number) (apply_refusal reached change.now))) }
{
    if reached.is_quicker_copied(change) {
        let bag = reached.bag(alloc)?;
        return Ok(Reached::new(alloc, next_bag(alloc, &bag, change, number)?));
    }
    match reached.refusal_so_far(change) {
        Some(refusal) => Err(numbered(number, change.entries().len(), refusal)),
        None => Ok(reached.led_on(change)?),
    }
}

/// The bag after these changes, with the bag's limits: each is applied to what the changes before it made. The first change that is refused
/// decides, and the error has its number, counted from 1.
///
/// `OutOfMemory` if a growth is refused; it may come in place of the refusal of any change but the first. O(n + m log n) for m entries in
/// all changes, and n pairs that the bag holds or an entry has.
#[tactic(auto, using(crate::proofs::Forth::limits_stay))]
pub fn replay(alloc: Global, bag: &Bag, changes: &[Change]) -> Result<Bag, ReplayError>
    ensures limits { IfOk result (λ after. after.limits ≡ bag.now.limits) }
    ensures bag { IfOk result (λ after. after ≡ replayed bag.now changes.now) }
    ensures accepted { OnOk result (replay_refusal bag.now changes.now ≡ None) }
    ensures refused { IfErr result (λ error. IsReplayError error (replay_refusal bag.now changes.now)) }
    ensures first { result ≡ Err OutOfMemory → first_refusal bag.now (take 1 (with_numbers changes.now)) ≡ None }
{
    let Some((first, rest)) = changes.split_first() else {
        return Ok(bag.copied(alloc)?);
    };
    let mut reached = Reached::new(alloc, next_bag(alloc, bag, first, 1)?);
    for (place, change) in rest.iter().enumerate() {
        reached = next_reached(alloc, reached, change, place + 2)?;
    }
    Ok(reached.bag(alloc)?)
}

// Tests whether a bag takes the inverse of the last change, before anything grows. O(m log n) for its m entries and n pairs held.
fn test_last(bag: &Bag, changes: &[Change]) -> Result<(), ReplayError>
    ensures taken { OnOk result (first_refusal bag.now (take 1 (way_back (with_numbers changes.now))) ≡ None) }
    ensures refused { IfErr result (λ error. first_refusal bag.now (take 1 (way_back (with_numbers changes.now))) ≡ Some error) }
{
    let Some((last, _)) = changes.split_last() else {
        return Ok(());
    };
    match refusal_back(bag, last) {
        Some(refusal) => Err(numbered(changes.len(), last.entries().len(), refusal)),
        None => Ok(()),
    }
}

/// The bag before these changes, with the bag's limits: the inverse of each is done. It goes from the last change to the first and stops
/// at the first one it refuses; the error has that change's number in the list, counted from 1.
///
/// `OutOfMemory` if a growth is refused; it may come in place of the refusal of any change but the last. O(n + m log n) for m entries in
/// all changes, and n pairs that the bag holds or an entry has.
#[tactic(auto, using(crate::proofs::Forth::limits_stay))]
pub fn rewind(alloc: Global, bag: &Bag, changes: &[Change]) -> Result<Bag, ReplayError>
    ensures limits { IfOk result (λ before. before.limits ≡ bag.now.limits) }
    ensures bag { IfOk result (λ before. before ≡ rewound bag.now changes.now) }
    ensures accepted { OnOk result (rewind_refusal bag.now changes.now ≡ None) }
    ensures refused { IfErr result (λ error. IsReplayError error (rewind_refusal bag.now changes.now)) }
    ensures last { result ≡ Err OutOfMemory → first_refusal bag.now (take 1 (way_back (with_numbers changes.now))) ≡ None }
{
    test_last(bag, changes)?;
    let mut reached = Reached::new(alloc, bag.copied(alloc)?);
    for place in (0..changes.len()).rev() {
        let inverse = changes[place].inverse(alloc)?;
        reached = next_reached(alloc, reached, &inverse, place + 1)?;
    }
    Ok(reached.bag(alloc)?)
}
