//! Which bundle has a list, or the lists between which a pair would go.
ghost use Rattle.std.specs.Prelude.{◌≡◌, ◌+◌, ◌-◌, ◌<◌, ◌≤◌, [], Some, length, take, drop, slice_get, slice_index_or, All};
ghost use Rattle.s2ix_bag_lists.specs.Bundles.{HasList, IsBundleAt, IsSpan, bundle_starts, lists_between, lists_of};
ghost use Rattle.s2ix_bag_lists.specs.Faces.{all_of};
ghost use Rattle.s2ix_bag_lists.specs.Parts.{AreFilled};
ghost use Rattle.s2ix_bag_pairs.specs.Collection.{IsCollection, IsCollectionFrom, AreBelow};
ghost use Rattle.s2ix_bag_pairs.specs.Pair.{rank_of};

use crate::bundle::Bundle;
use crate::part_search::last_start;
use s2ix_bag_pairs::{Held, Pair};

// Neighbouring lists of one bundle: the bundle's number, and the numbers that the first of them and the list behind them have among all lists.
#[derive(Clone, Copy, Debug)]
pub(crate) struct BundleSpan {
    pub(crate) bundle: usize,
    pub(crate) first: usize,
    pub(crate) end: usize,
}

// The bundle that has the list at a place, and how many lists come before it. O(log b) for b bundles.
pub(crate) fn bundle_at(bundles: &[Bundle], starts: &[usize], place: usize) -> (usize, usize)
    requires counted { starts.now ≡ bundle_starts 0 bundles.now }
    requires within { place < length (lists_of bundles.now) }
    ensures { IsBundleAt bundles.now place result.0 result.1 }
{
    let bundle = last_start(starts, place);
    let before = starts[bundle];
    (bundle, before)
}

// The first pair of the first list of a bundle, with its count.
fn first_held(bundle: &Bundle) -> Held
    requires list { HasList bundle.now }
    requires pair { 0 < length (slice_index_or bundle.now 0 []) }
    ensures { slice_get (slice_index_or bundle.now 0 []) 0 ≡ Some result }
{
    bundle.as_slice()[0].at(0)
}

// Of the lists from the number `first` on and before `end`, which rise: those in the bundle that a pair is in, or would go into. O(log b) for
// b bundles.
pub(crate) fn bundle_of(
    bundles: &[Bundle],
    starts: &[usize],
    first: usize,
    end: usize,
    pair: Pair,
) -> BundleSpan
    requires some_lists { All HasList bundles.now }
    requires counted { starts.now ≡ bundle_starts 0 bundles.now }
    requires some { first < end }
    requires within { end ≤ length (lists_of bundles.now) }
    requires rises { IsCollection (all_of (lists_between first end (lists_of bundles.now))) }
    requires filled { AreFilled (lists_between first end (lists_of bundles.now)) }
    ensures span { IsSpan bundles.now result.bundle result.first result.end }
    ensures from { first ≤ result.first }
    ensures up_to { result.end ≤ end }
    ensures below { AreBelow (rank_of pair) (all_of (take (result.first - first) (lists_between first end (lists_of bundles.now)))) }
    ensures rest { IsCollectionFrom (rank_of pair + 1) (all_of (drop (result.end - first) (lists_between first end (lists_of bundles.now)))) }
{
    let (mut bundle, _) = bundle_at(bundles, starts, first);
    let (last, _) = bundle_at(bundles, starts, end - 1);
    let mut behind = last + 1;
    let mut low = first;
    let mut high = end;
    while behind - bundle > 1 {
        let middle = bundle + (behind - bundle) / 2;
        let start = starts[middle];
        if pair.is_before(first_held(&bundles[middle]).pair) {
            behind = middle;
            high = start;
        } else {
            bundle = middle;
            low = start;
        }
    }
    BundleSpan {
        bundle,
        first: low,
        end: high,
    }
}
