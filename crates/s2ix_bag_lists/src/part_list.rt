ghost use Rattle.std.specs.Prelude.{◌≡◌, ◌+◌, ◌++◌, ◌<◌, ◌≤◌, [], None, length, take, drop, IfOk, IfSome, OnOk};
ghost use Rattle.s2ix_bag_lists.specs.Apply.{AreBefore};
ghost use Rattle.s2ix_bag_lists.specs.Faces.{all_of};
ghost use Rattle.s2ix_bag_lists.specs.Parts.{AreFilled, IsPartAt, starts_from};
ghost use Rattle.s2ix_bag_lists.specs.View.{lists_in};
ghost use Rattle.s2ix_bag_pairs.specs.Change.{IsChangeList, changed};
ghost use Rattle.s2ix_bag_pairs.specs.Collection.{IsCollection, count_in};

use crate::lists_view::ListsView;
use crate::merged_parts::merged_parts;
use crate::part_search::{last_start, part_of};
use crate::search::count_of;
use crate::shared_lists::SharedLists;
use crate::window::window;
use s2id_core::OutOfMemory;
use s2ix_bag_held::HeldList;
use s2ix_bag_pairs::{Entry, Pair};
use std::alloc::Global;
use std::marker::Model;

// Held pairs, at least one and at most 1,000,000, in parts. Contracts see the one list that they make up.
#[derive(Debug, Drop)]
pub(crate) struct PartList {
    parts: SharedLists,
    // how many pairs come before each part
    starts: Vec<usize>,
    len: usize,
}

impl Model for PartList {
    ghost use Rattle.s2ix_bag_lists.specs.Faces.{all_of};
    ghost use Rattle.s2ix_bag_lists.specs.Parts.{AreParts};
    ghost use Rattle.s2ix_bag_pairs.specs.Collection.{Collection};

    ghost Value = { Collection };

    ghost view = { λ s. all_of s.parts };

    ghost invariant = { λ s. AreParts s.parts s.starts.items s.len };
}

// Appends for each of these parts how many pairs come before it, if `before` come before the first. Returns how many come before what follows
// the last. O(p) for p parts.
fn push_starts(
    starts: &mut Vec<usize>,
    parts: &[HeldList],
    before: usize,
) -> Result<usize, OutOfMemory>
    requires { before + length (all_of parts.now) ≤ 1000000 }
    ensures starts { OnOk result (starts.new.items ≡ starts.old.items ++ starts_from before parts.now) }
    ensures end { IfOk result (λ end. end ≡ before + length (all_of parts.now)) }
{
    let mut start = before;
    let mut rest = parts;
    while let Some((part, later)) = rest.split_first() {
        starts.push(start)?;
        start += part.as_slice().len();
        rest = later;
    }
    Ok(start)
}

// Appends for each part from the number `end` on how many pairs come before it, once those before the number `end` have changed: `was` pairs
// came before that number, as the `starts` say, and `now` pairs do. O(p) for p parts, of which it reads none.
fn push_later_starts(
    all: &mut Vec<usize>,
    parts: ListsView<'_>,
    starts: &[usize],
    end: usize,
    was: usize,
    now: usize,
) -> Result<(), OutOfMemory>
    requires counted { starts.now ≡ starts_from 0 (lists_in parts) }
    requires within { end ≤ length (lists_in parts) }
    requires was { was ≡ length (all_of (take end (lists_in parts))) }
    requires within_limit { now + length (all_of (drop end (lists_in parts))) ≤ 1000000 }
    ensures { OnOk result (all.new.items ≡ all.old.items ++ starts_from now (drop end (lists_in parts.entry))) }
{
    let mut part = end;
    while part < parts.len() {
        all.push(starts[part] - was + now)?;
        part += 1;
    }
    Ok(())
}

// How many pairs come before the part of a number, by the `starts`; all pairs, if no part has the number.
fn pairs_before(parts: ListsView<'_>, starts: &[usize], len: usize, part: usize) -> usize
    requires counted { starts.now ≡ starts_from 0 (lists_in parts) }
    requires whole { len ≡ length (all_of (lists_in parts)) }
    requires within { part ≤ length (lists_in parts) }
    ensures { result ≡ length (all_of (take part (lists_in parts.entry))) }
{
    if part < starts.len() {
        starts[part]
    } else {
        len
    }
}

// How many pairs come before each part, and how many the parts have in all, once others take the place of those from the number `replaced.0`
// on and before `replaced.1`; `starts` and `len` say so of the parts as they are. O(p) for p parts, of which it reads only the new ones.
// `OutOfMemory` if a growth is refused.
fn starts_with(
    alloc: Global,
    parts: ListsView<'_>,
    starts: &[usize],
    len: usize,
    replaced: (usize, usize),
    made: &[HeldList],
) -> Result<(Vec<usize>, usize), OutOfMemory>
    requires counted { starts.now ≡ starts_from 0 (lists_in parts) }
    requires whole { len ≡ length (all_of (lists_in parts)) }
    requires some { replaced.0 < replaced.1 }
    requires within { replaced.1 ≤ length (lists_in parts) }
    requires within_limit { length (all_of (take replaced.0 (lists_in parts) ++ (made.now ++ drop replaced.1 (lists_in parts)))) ≤ 1000000 }
    ensures starts { IfOk result (λ counted. counted.0.items
        ≡ starts_from 0 (take replaced.0 (lists_in parts.entry) ++ (made.now ++ drop replaced.1 (lists_in parts.entry)))) }
    ensures len { IfOk result (λ counted. counted.1
        ≡ length (all_of (take replaced.0 (lists_in parts.entry) ++ (made.now ++ drop replaced.1 (lists_in parts.entry))))) }
{
    let (first, end) = replaced;
    let (front, _) = starts.split_at(first);
    let mut all = Vec::with_capacity(alloc, starts.len().saturating_add(made.len()))?;
    all.extend_from_slice(front)?;
    let now = push_starts(&mut all, made, starts[first])?;
    let was = pairs_before(parts, starts, len, end);
    push_later_starts(&mut all, parts, starts, end, was, now)?;
    Ok((all, len - was + now))
}

impl PartList {
    // What these parts hold. O(p) for p parts. `OutOfMemory` if a growth is refused.
    pub(crate) fn new(alloc: Global, parts: Vec<HeldList>) -> Result<PartList, OutOfMemory>
        requires some { 0 < length parts.items }
        requires rises { IsCollection (all_of parts.items) }
        requires filled { AreFilled parts.items }
        requires within_limit { length (all_of parts.items) ≤ 1000000 }
        ensures { IfOk result (λ list. list ≡ all_of parts.items) }
    {
        let mut starts = Vec::with_capacity(alloc, parts.len())?;
        let len = push_starts(&mut starts, &parts, 0)?;
        let parts = SharedLists::new(alloc, parts)?;
        Ok(PartList { parts, starts, len })
    }

    // How many pairs are held. O(1).
    pub(crate) fn len(&self) -> usize
        ensures number { result ≡ length self.now }
        ensures rises { IsCollection self.now }
        ensures within_limit { result ≤ 1000000 }
    {
        self.len
    }

    // The parts, in rising order of their pairs; none is empty. O(1).
    pub(crate) fn parts(&self) -> ListsView<'_>
        ensures list { all_of (lists_in result) ≡ self.now }
        ensures filled { AreFilled (lists_in result) }
        ensures some { 0 < length (lists_in result) }
        ensures rises { IsCollection self.now }
    {
        ListsView::all(&self.parts)
    }

    // O(log p) for p parts.
    pub(crate) fn part_at(&self, place: usize) -> (usize, &HeldList)
        requires { place < length self.now }
        ensures { IsPartAt place self.now result.0 result.1.now }
    {
        let part = last_start(&self.starts, place);
        (self.starts[part], self.parts.at(part))
    }

    // O(log n) for n pairs: a search among the bundles, one among the parts of a bundle, and one in a part.
    pub(crate) fn count(&self, pair: Pair) -> u32
        ensures { result ≡ count_in self.now pair }
    {
        let parts = self.parts();
        let part = part_of(parts, pair);
        count_of(parts.at(part).as_slice(), pair)
    }

    // What a change that has the right counts before makes of the pairs; `None` if no pair is left. Bundles without a part near its entries are
    // shared as one. O(b + w + (v + m) log p + k) for b bundles, the w parts from the first entry's to the last entry's and their v bundles, m
    // entries and the k pairs of the copied parts; and O(p) to write a number for each of the p parts. `OutOfMemory` if a growth is refused, or
    // if a part or a bundle is shared too often.
    pub(crate) fn after(
        &self,
        alloc: Global,
        entries: &[Entry],
        max_part_len: usize,
    ) -> Result<Option<PartList>, OutOfMemory>
        requires some { 0 < length entries.now }
        requires entries_rise { IsChangeList entries.now }
        requires before { AreBefore self.now entries.now }
        requires within_limit { length (changed self.now entries.now) ≤ 1000000 }
        ensures some { IfOk result (λ after. IfSome after (λ list. list ≡ changed self.now entries.now)) }
        ensures none { IfOk result (λ after. after ≡ None → changed self.now entries.now ≡ []) }
    {
        let parts = ListsView::all(&self.parts);
        let (first, end) = window(parts, entries);
        let (up_to, _) = parts.split_at(end);
        let (_, own) = up_to.split_at(first);
        let made = merged_parts(alloc, own, entries, max_part_len)?;
        let (starts, len) = starts_with(alloc, parts, &self.starts, self.len, (first, end), &made)?;
        let parts = self.parts.spliced(alloc, first, end, made)?;
        if parts.len() == 0 {
            return Ok(None);
        }
        Ok(Some(PartList { parts, starts, len }))
    }
}
