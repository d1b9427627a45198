//! Lists of held pairs in bundles, so that two lists of lists share all bundles but those in which they differ.
ghost use Rattle.std.specs.Prelude.{◌≡◌, ◌+◌, ◌++◌, ◌<◌, ◌≤◌, [], length, take, drop, slice_index_or, reverse, All, IfOk, OnOk};
ghost use Rattle.s2ix_bag_lists.specs.Bundles.{HasList, bundle_starts, lists_between, lists_of};
ghost use Rattle.s2ix_bag_lists.specs.Faces.{all_of};
ghost use Rattle.s2ix_bag_lists.specs.Parts.{AreAround, AreFilled};
ghost use Rattle.s2ix_bag_pairs.specs.Collection.{IsCollection};
ghost use Rattle.s2ix_bag_pairs.specs.Pair.{rank_of};

use crate::bundle::Bundle;
use crate::bundle_search::{bundle_at, bundle_of};
use s2id_core::OutOfMemory;
use s2ix_bag_held::HeldList;
use s2ix_bag_pairs::Pair;
use std::alloc::Global;
use std::marker::Model;

// The most lists of a bundle.
const MAX_BUNDLE_LEN: usize = 64;

/// Lists of held pairs, at most 1,000,000, in bundles of at most 64. Contracts see the lists. If others take the place of some of them, the
/// bundles of these are copied, and the other bundles are shared.
#[derive(Debug, Drop)]
pub struct SharedLists {
    bundles: Vec<Bundle>,
    // how many lists come before each bundle
    starts: Vec<usize>,
    len: usize,
}

impl Model for SharedLists {
    ghost use Rattle.std.specs.Prelude.{List};
    ghost use Rattle.s2ix_bag_lists.specs.Bundles.{AreBundles, lists_of};
    ghost use Rattle.s2ix_bag_pairs.specs.Collection.{Collection};

    ghost Value = { List Collection };

    ghost view = { λ s. lists_of s.bundles.items };

    ghost invariant = { λ s. AreBundles s.bundles.items s.starts.items s.len };
}

// Appends lists, each shared once more. O(k) for k lists.
fn share_lists(out: &mut Vec<HeldList>, lists: &[HeldList]) -> Result<(), OutOfMemory>
    ensures { OnOk result (out.new.items ≡ out.old.items ++ lists.now) }
{
    for list in lists {
        out.push(list.clone()?)?;
    }
    Ok(())
}

// Appends bundles, each shared once more. O(b) for b bundles.
fn share_bundles(out: &mut Vec<Bundle>, bundles: &[Bundle]) -> Result<(), OutOfMemory>
    ensures { OnOk result (out.new.items ≡ out.old.items ++ bundles.now) }
{
    for bundle in bundles {
        out.push(bundle.clone()?)?;
    }
    Ok(())
}

// Lists with others before and behind them, each of which is shared once more. O(k) for k lists in all.
fn between(
    alloc: Global,
    before: &[HeldList],
    lists: Vec<HeldList>,
    behind: &[HeldList],
) -> Result<Vec<HeldList>, OutOfMemory>
    ensures { IfOk result (λ all. all.items ≡ before.now ++ (lists.items ++ behind.now)) }
{
    let shared = before.len().saturating_add(behind.len());
    let mut all = Vec::with_capacity(alloc, lists.len().saturating_add(shared))?;
    let mut own = lists;
    share_lists(&mut all, before)?;
    all.append(&mut own)?;
    share_lists(&mut all, behind)?;
    Ok(all)
}

// How many lists the next bundle takes if `len` are left: all of them if they fit into one bundle; else half of them, but at most three quarters
// of what a bundle may have, so that it has room to grow.
fn bundle_len(len: usize) -> usize
    requires { 0 < len }
    ensures some { 0 < result }
    ensures within { result ≤ len }
{
    if len <= MAX_BUNDLE_LEN {
        len
    } else {
        (len / 2).min(MAX_BUNDLE_LEN - MAX_BUNDLE_LEN / 4)
    }
}

// Lists in bundles, from the last bundle to the first. O(k) for k lists.
fn cut_from_end(alloc: Global, lists: Vec<HeldList>) -> Result<Vec<Bundle>, OutOfMemory>
    ensures lists { IfOk result (λ cut. lists_of (reverse cut.items) ≡ lists.items) }
    ensures filled { IfOk result (λ cut. All HasList cut.items) }
{
    let mut rest = lists;
    let mut cut = Vec::new(alloc);
    while !rest.is_empty() {
        let own = rest.split_off(rest.len() - bundle_len(rest.len()))?;
        cut.push(Bundle::new(alloc, own)?)?;
    }
    Ok(cut)
}

// Appends lists in bundles. O(k) for k lists.
fn push_cut(
    alloc: Global,
    bundles: &mut Vec<Bundle>,
    lists: Vec<HeldList>,
) -> Result<(), OutOfMemory>
    requires filled { All HasList bundles.old.items }
    ensures lists { OnOk result (lists_of bundles.new.items ≡ lists_of bundles.old.items ++ lists.items) }
    ensures filled { OnOk result (All HasList bundles.new.items) }
{
    let mut cut = cut_from_end(alloc, lists)?;
    while let Some(bundle) = cut.pop() {
        bundles.push(bundle)?;
    }
    Ok(())
}

// Appends lists in bundles: as one bundle, if they fit into one.
fn push_bundles(
    alloc: Global,
    bundles: &mut Vec<Bundle>,
    lists: Vec<HeldList>,
) -> Result<(), OutOfMemory>
    requires filled { All HasList bundles.old.items }
    ensures lists { OnOk result (lists_of bundles.new.items ≡ lists_of bundles.old.items ++ lists.items) }
    ensures filled { OnOk result (All HasList bundles.new.items) }
{
    if lists.is_empty() || lists.len() > MAX_BUNDLE_LEN {
        return push_cut(alloc, bundles, lists);
    }
    bundles.push(Bundle::new(alloc, lists)?)?;
    Ok(())
}

// How many lists come before each bundle, and how many the bundles have in all. O(b) for b bundles. `OutOfMemory` if a growth is refused.
fn bundle_starts_of(alloc: Global, bundles: &[Bundle]) -> Result<(Vec<usize>, usize), OutOfMemory>
    requires { length (lists_of bundles.now) ≤ 1000000 }
    ensures starts { IfOk result (λ counted. counted.0.items ≡ bundle_starts 0 bundles.now) }
    ensures len { IfOk result (λ counted. counted.1 ≡ length (lists_of bundles.now)) }
{
    let mut starts = Vec::with_capacity(alloc, bundles.len())?;
    let mut before = 0;
    let mut rest = bundles;
    while let Some((bundle, later)) = rest.split_first() {
        starts.push(before)?;
        before += bundle.as_slice().len();
        rest = later;
    }
    Ok((starts, before))
}

impl SharedLists {
    /// These lists. O(k) for k lists. `OutOfMemory` if a growth is refused.
    pub fn new(alloc: Global, lists: Vec<HeldList>) -> Result<SharedLists, OutOfMemory>
        requires within_limit { length lists.items ≤ 1000000 }
        ensures { IfOk result (λ all. all ≡ lists.items) }
    {
        let mut bundles = Vec::new(alloc);
        push_bundles(alloc, &mut bundles, lists)?;
        SharedLists::of_bundles(alloc, bundles)
    }

    // The lists of these bundles. O(b) for b bundles. `OutOfMemory` if a growth is refused.
    fn of_bundles(alloc: Global, bundles: Vec<Bundle>) -> Result<SharedLists, OutOfMemory>
        requires filled { All HasList bundles.items }
        requires within_limit { length (lists_of bundles.items) ≤ 1000000 }
        ensures { IfOk result (λ all. all ≡ lists_of bundles.items) }
    {
        let (starts, len) = bundle_starts_of(alloc, &bundles)?;
        Ok(SharedLists {
            bundles,
            starts,
            len,
        })
    }

    /// How many lists there are. O(1).
    pub fn len(&self) -> usize
        ensures number { result ≡ length self.now }
        ensures within_limit { result ≤ 1000000 }
    {
        self.len
    }

    /// The list at a place, counted from 0. O(log b) for b bundles.
    pub fn at(&self, place: usize) -> &HeldList
        requires { place < length self.now }
        ensures { result.now ≡ slice_index_or self.now place [] }
    {
        let (bundle, before) = bundle_at(&self.bundles, &self.starts, place);
        let lists = self.bundles[bundle].as_slice();
        &lists[place - before]
    }

    // The lists from the number `first` on that are in one bundle with it and come before the number `end`. O(log b) for b bundles.
    pub(crate) fn bundle_from(&self, first: usize, end: usize) -> &[HeldList]
        requires some { first < end }
        requires within { end ≤ length self.now }
        ensures some { 0 < length result.now }
        ensures within { first + length result.now ≤ end }
        ensures own { result.now ≡ take (length result.now) (drop first self.now) }
    {
        let (bundle, before) = bundle_at(&self.bundles, &self.starts, first);
        let (_, rest) = self.bundles[bundle].as_slice().split_at(first - before);
        let (own, _) = rest.split_at(rest.len().min(end - first));
        own
    }

    // Of the lists from the number `first` on and before `end`, which rise: those in the bundle that a pair is in, or would go into, and how
    // many of the lists from `first` on come before them. O(log b) for b bundles.
    pub(crate) fn bundle_of(&self, first: usize, end: usize, pair: Pair) -> (usize, &[HeldList])
        requires some { first < end }
        requires within { end ≤ length self.now }
        requires rises { IsCollection (all_of (lists_between first end self.now)) }
        requires filled { AreFilled (lists_between first end self.now) }
        ensures { AreAround (lists_between first end self.now) (rank_of pair) result.0 result.1.now }
    {
        let span = bundle_of(&self.bundles, &self.starts, first, end, pair);
        let start = self.starts[span.bundle];
        let (up_to, _) = self.bundles[span.bundle]
            .as_slice()
            .split_at(span.end - start);
        let (_, own) = up_to.split_at(span.first - start);
        (span.first - first, own)
    }

    /// The lists once others take the place of those from the number `first` on and before `end`. The bundles of these are copied, the other
    /// bundles are shared: O(b + k) for b bundles and the k lists that are new or in copied bundles. `OutOfMemory` if a growth is refused, or
    /// if a list or a bundle is shared too often.
    pub fn spliced(
        &self,
        alloc: Global,
        first: usize,
        end: usize,
        lists: Vec<HeldList>,
    ) -> Result<SharedLists, OutOfMemory>
        requires some { first < end }
        requires within { end ≤ length self.now }
        requires within_limit { length (take first self.now ++ (lists.items ++ drop end self.now)) ≤ 1000000 }
        ensures { IfOk result (λ all. all ≡ take first self.now ++ (lists.items ++ drop end self.now)) }
    {
        let (front, front_start) = bundle_at(&self.bundles, &self.starts, first);
        let (back, back_start) = bundle_at(&self.bundles, &self.starts, end - 1);
        let (before, _) = self.bundles[front].as_slice().split_at(first - front_start);
        let (_, behind) = self.bundles[back].as_slice().split_at(end - back_start);
        let middle = between(alloc, before, lists, behind)?;
        let (earlier, _) = self.bundles.split_at(front);
        let (_, later) = self.bundles.split_at(back + 1);
        let mut bundles = Vec::with_capacity(alloc, self.bundles.len().saturating_add(1))?;
        share_bundles(&mut bundles, earlier)?;
        push_bundles(alloc, &mut bundles, middle)?;
        share_bundles(&mut bundles, later)?;
        SharedLists::of_bundles(alloc, bundles)
    }
}
