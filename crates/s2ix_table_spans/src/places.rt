//! Places of ranges in a table.
ghost use Rattle.std.specs.Prelude.{◌≡◌, ◌↔◌, ℕ, ◌-◌, ◌%◌, ◌<◌, ◌≤◌, IsTrue, drop, length, slice_index_or, AllPairs};
ghost use Rattle.s2ix_table_walk.specs.Stretches.{IsSample};
ghost use Rattle.s2ix_table_spans.specs.Starts.{IsAmong, IsFirstAfter, IsLastStart};

use s2ix_table_walk::{SAMPLE_STEP, Window};

// Of more starts than this, so many lie in the sample that a search of it is quicker than counting.
const FAR: usize = 4096;

// The last of rising starts that is not after a leaf. Of few starts it counts those of the sample that are not after it, and then those of
// one group: that takes fewer steps that wait for one another than halving. O(log n). It is not inlined, so that a caller's iterator is.
#[inline(never)]
pub(crate) fn last_start(starts: &[u64], sample: &[u64], leaf: u64) -> usize
    requires some { 0 < length starts.now }
    requires rises { AllPairs (λ a b. a < b) starts.now }
    requires first { slice_index_or starts.now 0 0 ≤ leaf }
    requires sample { IsSample (length starts.now - 2) (drop 1 starts.now) sample.now }
    ensures { IsLastStart starts.now leaf result }
{
    if starts.len() > FAR {
        return last_of_sampled(starts, sample, leaf);
    }
    let reached = first_after(sample, leaf, 0, sample.len());
    let group = group_of(starts, sample, leaf, reached);
    first_after(starts, leaf, group.first, group.first + group.size) - 1
}

// The first of rising starts that is after a leaf, if it is among those at the places from `from` on up to `end`, else `end`. It counts those
// that are not after it: no branch depends on a start, and none is read later than another. O(n) for n of these.
#[inline(always)]
fn first_after(starts: &[u64], leaf: u64, from: usize, end: usize) -> usize
    requires rises { AllPairs (λ a b. a < b) starts.now }
    requires order { from ≤ end }
    requires within { end ≤ length starts.now }
    ensures { IsFirstAfter starts.now leaf from end result }
{
    let mut after = from;
    let mut place = from;
    while place < end {
        if starts[place] <= leaf {
            after += 1;
        }
        place += 1;
    }
    after
}

// The last of rising starts that is not after a leaf, as `last_start` gives it. It reads the sample first: that takes fewer lines of the
// processor's cache, and a few steps more. O(log n).
#[inline(never)]
pub(crate) fn last_of_sampled(starts: &[u64], sample: &[u64], leaf: u64) -> usize
    requires some { 0 < length starts.now }
    requires rises { AllPairs (λ a b. a < b) starts.now }
    requires first { slice_index_or starts.now 0 0 ≤ leaf }
    requires sample { IsSample (length starts.now - 2) (drop 1 starts.now) sample.now }
    ensures { IsLastStart starts.now leaf result }
{
    let among = sampled(starts, sample, leaf);
    far_last(starts, leaf, among)
}

// The starts among which it is, by a search of the sample.
#[inline(always)]
fn sampled(starts: &[u64], sample: &[u64], leaf: u64) -> Window
    requires some { 0 < length starts.now }
    requires rises { AllPairs (λ a b. a < b) starts.now }
    requires first { slice_index_or starts.now 0 0 ≤ leaf }
    requires sample { IsSample (length starts.now - 2) (drop 1 starts.now) sample.now }
    ensures { IsAmong starts.now leaf result.first result.size }
{
    if sample.is_empty() || leaf < sample[0] {
        return group_of(starts, sample, leaf, 0);
    }
    let all = Window {
        first: 0,
        size: sample.len(),
    };
    let last = far_last(sample, leaf, all);
    group_of(starts, sample, leaf, last + 1)
}

// The starts among which it is, by how many of the sample are not after the leaf: all if there is no sample, else a group of 16; the last
// group may have one more, or fewer.
#[inline(always)]
fn group_of(starts: &[u64], sample: &[u64], leaf: u64, reached: usize) -> Window
    requires some { 0 < length starts.now }
    requires first { slice_index_or starts.now 0 0 ≤ leaf }
    requires sample { IsSample (length starts.now - 2) (drop 1 starts.now) sample.now }
    requires reached { IsFirstAfter sample.now leaf 0 (length sample.now) reached }
    ensures { IsAmong starts.now leaf result.first result.size }
{
    let first = SAMPLE_STEP * reached;
    if reached < sample.len() {
        let size = SAMPLE_STEP;
        Window { first, size }
    } else {
        let size = starts.len() - first;
        Window { first, size }
    }
}

// The last of rising starts that is not after a leaf, if it is among some of them. Each step branches on a start, so that the processor asks
// for the next one before it has this one: they are out of its cache.
#[inline(always)]
fn far_last(starts: &[u64], leaf: u64, among: Window) -> usize
    requires rises { AllPairs (λ a b. a < b) starts.now }
    requires among { IsAmong starts.now leaf among.first among.size }
    ensures { IsLastStart starts.now leaf result }
{
    let mut first = among.first;
    let mut size = among.size;
    while size > 1 {
        let half = size / 2;
        if starts[first + half] <= leaf {
            first += half;
        }
        size -= half;
    }
    first
}

// The last of rising starts that is not after a leaf, searched from the place `from`, whose start isn't after it either. It tries those that
// are 1, 3, 7 and so on farther ahead, and then looks between the last two. O(log d) for one that is d places ahead.
#[inline(always)]
pub(crate) fn last_ahead(starts: &[u64], leaf: u64, from: usize) -> usize
    requires rises { AllPairs (λ a b. a < b) starts.now }
    requires odd { (k : ℕ) → k < length starts.now → slice_index_or starts.now k 0 % 2 ≡ 1 }
    requires within { from < length starts.now }
    requires by { slice_index_or starts.now from 0 ≤ leaf }
    ensures { IsLastStart starts.now leaf result }
{
    let mut first = from;
    let mut step = 1;
    while step < starts.len() - first && starts[first + step] <= leaf {
        first += step;
        step *= 2;
    }
    let size = step.min(starts.len() - first);
    last_among(starts, leaf, Window { first, size })
}

// The last of rising starts that is not after a leaf, if it is among some of them. No branch depends on a start: they are in the
// processor's cache.
#[inline(always)]
fn last_among(starts: &[u64], leaf: u64, among: Window) -> usize
    requires rises { AllPairs (λ a b. a < b) starts.now }
    requires odd { (k : ℕ) → k < length starts.now → slice_index_or starts.now k 0 % 2 ≡ 1 }
    requires among { IsAmong starts.now leaf among.first among.size }
    ensures { IsLastStart starts.now leaf result }
{
    let mut first = among.first;
    let mut size = among.size;
    while size > 1 {
        let half = size / 2;
        first += half * reached(starts[first + half], leaf);
        size -= half;
    }
    first
}

/// One step of a search among rising starts for the last one that is not after a leaf: it goes on from a place by 0 to 3 times
/// `4^digit` places, as far as the starts there are not after the leaf. Any place and any digit are accepted: a place past the end reads the
/// last start, and without starts it stays. If there are no more than `4^d` starts, the steps from place 0 by the digits d - 1, d - 2 and so
/// on to 0 find it, or end past the last start if that is it. No clause says so, since a caller looks at the place that it finds. No branch
/// depends on a start, so the processor can take steps of many searches at once. O(1).
#[inline(always)]
pub fn step_ahead(starts: &[u64], leaf: u64, from: usize, digit: u32) -> usize {
    if starts.is_empty() {
        return from;
    }
    let shift = digit.wrapping_mul(2);
    let step = 1usize.wrapping_shl(shift);
    let last = starts.len() - 1;
    let first = from.wrapping_add(step);
    let second = first.wrapping_add(step);
    let third = second.wrapping_add(step);
    let steps = usize::from(starts[first.min(last)] <= leaf)
        + usize::from(starts[second.min(last)] <= leaf)
        + usize::from(starts[third.min(last)] <= leaf);
    // A shift: of a product the compiler makes a branch.
    from.wrapping_add(steps.wrapping_shl(shift))
}

/// Whether the start at a place is the last one that is not after a leaf. Any place is accepted. O(1).
#[inline(always)]
pub fn is_last_start(starts: &[u64], leaf: u64, place: usize) -> bool
    ensures { IsTrue result ↔ IsLastStart starts.now leaf place }
{
    let next = place.wrapping_add(1);
    place < starts.len() && starts[place] <= leaf && (next == starts.len() || leaf < starts[next])
}

// 1 if an odd start is not after a leaf, else 0, as the sign of what lies between them.
#[inline(always)]
fn reached(start: u64, leaf: u64) -> usize
    ensures by { start % 2 ≡ 1 → start ≤ leaf → result ≡ 1 }
    ensures after { start % 2 ≡ 1 → leaf < start → result ≡ 0 }
    ensures at_most { result ≤ 1 }
{
    let above = leaf - leaf / 2;
    let between = (start / 2).wrapping_sub(above);
    (between >> 63) as usize
}
