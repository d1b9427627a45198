ghost use Rattle.std.specs.Prelude.{◌≡◌, ◌<◌, ◌≤◌, ◌↔◌, IsTrue, length, take, drop};
ghost use Rattle.s2ix_bag_pairs.specs.Collection.{IsCollection, IsCollectionFrom, AreBelow, count_in, past};
ghost use Rattle.s2ix_bag_pairs.specs.Pair.{rank_of};

use s2ix_bag_held::FlatHeld;
use s2ix_bag_pairs::Pair;

// Whether two pairs are the same.
pub(crate) fn is_same(one: Pair, other: Pair) -> bool
    ensures { IsTrue result ↔ (rank_of one ≡ rank_of other) }
{
    one == other
}

// How many of the held pairs come before `pair`. O(log n).
pub(crate) fn first_from(held: &[FlatHeld], pair: Pair) -> usize
    requires { IsCollection held.now }
    ensures within { result ≤ length held.now }
    ensures below { AreBelow (rank_of pair) (take result held.now) }
    ensures rest { IsCollectionFrom (rank_of pair) (drop result held.now) }
{
    held.partition_point(|h| h.pair().is_before(pair))
}

// How many of the held pairs come before `pair`, searched from the front in growing steps: O(log k) for the
// answer k.
pub(crate) fn next_from(held: &[FlatHeld], pair: Pair) -> usize
    requires { IsCollection held.now }
    ensures within { result ≤ length held.now }
    ensures below { AreBelow (rank_of pair) (take result held.now) }
    ensures rest { IsCollectionFrom (rank_of pair) (drop result held.now) }
{
    let mut high = 1;
    while high < held.len() && held[high - 1].pair().is_before(pair) {
        high *= 2;
    }
    let (front, _) = held.split_at(high.min(held.len()));
    first_from(front, pair)
}

// The count of a pair before which none is held: only the first can be it.
pub(crate) fn count_first(held: &[FlatHeld], pair: Pair) -> u32
    requires { IsCollectionFrom (rank_of pair) held.now }
    ensures { result ≡ count_in held.now pair }
{
    match held.first() {
        Some(first) if is_same(first.pair(), pair) => first.count(),
        _ => 0,
    }
}

/// The count of a pair: 0 if it is not held. O(log n).
pub fn count_of(held: &[FlatHeld], pair: Pair) -> u32
    requires { IsCollection held.now }
    ensures { result ≡ count_in held.now pair }
{
    let (_, rest) = held.split_at(first_from(held, pair));
    count_first(rest, pair)
}

// The held pairs without `pair`, if that is the first of them; else all of them.
pub(crate) fn past_pair(held: &[FlatHeld], pair: Pair) -> &[FlatHeld]
    ensures { result.now ≡ past held.now (rank_of pair) }
{
    match held.first() {
        Some(first) if is_same(first.pair(), pair) => &held[1..],
        _ => held,
    }
}
