ghost use Rattle.std.specs.Prelude.{◌≡◌, ◌==◌, ◌++◌, ◌<◌, ◌≤◌, not, [], Some, length, position, slice_get, IfOk, OnOk};
ghost use Rattle.s2ix_bag_lists.specs.Apply.{AreBefore};
ghost use Rattle.s2ix_bag_lists.specs.Faces.{all_of};
ghost use Rattle.s2ix_bag_lists.specs.Parts.{AreFilled, IsPartAt};
ghost use Rattle.s2ix_bag_lists.specs.View.{lists_in};
ghost use Rattle.s2ix_bag_pairs.specs.Change.{IsChangeList, changed};
ghost use Rattle.s2ix_bag_pairs.specs.Collection.{IsCollection, count_in};

use crate::apply::{first_mismatch, merge};
use crate::cut::{cut, pieces};
use crate::lists_view::ListsView;
use crate::part_list::PartList;
use crate::parts_mismatch::mismatch_in_parts;
use s2id_core::OutOfMemory;
use s2ix_bag_held::{FlatHeld, HeldList};
use s2ix_bag_pairs::{Entry, Held, Pair};
use std::alloc::{AllocError, Global};
use std::marker::Model;
use std::sync::Arc;

/// The most pairs that a part has, if its list says nothing else.
pub(crate) const MAX_PART_LEN: usize = 512;

/// Held pairs, mostly those of one face, at most 1,000,000, in parts. A change copies the parts on which it has entries, and shares the
/// others, most of them in bundles. Contracts see the one list that the parts make up, in rising order. A list without pairs does not allocate.
#[derive(Debug, Drop)]
pub struct HeldParts {
    shared: Option<Arc<PartList>>,
    max_part_len: usize,
}

impl Model for HeldParts {
    ghost use Rattle.std.specs.Prelude.{[], Some, None};
    ghost use Rattle.s2ix_bag_pairs.specs.Collection.{Collection};

    ghost Value = { Collection };

    ghost view = { λ list. elim list.shared [ None ↦ [] | Some shared ↦ shared.value ] };
}

impl HeldParts {
    /// The list without pairs.
    pub fn empty() -> HeldParts
        ensures { result ≡ [] }
    {
        HeldParts::in_parts_of(MAX_PART_LEN)
    }

    /// The list without pairs. As it grows, it is cut into parts of at most `max_part_len` pairs each, but at least one.
    pub fn in_parts_of(max_part_len: usize) -> HeldParts
        ensures { result ≡ [] }
    {
        HeldParts {
            shared: None,
            max_part_len,
        }
    }

    /// These pairs: as one part, without a copy, if they fit into it, else copied into parts. O(n) for n pairs. `OutOfMemory` if a growth
    /// is refused.
    pub fn new(alloc: Global, held: Vec<FlatHeld>) -> Result<HeldParts, OutOfMemory>
        requires rises { IsCollection held.items }
        requires within_limit { length held.items ≤ 1000000 }
        ensures { IfOk result (λ list. list ≡ held.items) }
    {
        HeldParts::new_in_parts_of(alloc, held, MAX_PART_LEN)
    }

    /// The same in parts of at most `max_part_len` pairs each, but at least one, to which it keeps as it grows.
    pub fn new_in_parts_of(
        alloc: Global,
        held: Vec<FlatHeld>,
        max_part_len: usize,
    ) -> Result<HeldParts, OutOfMemory>
        requires rises { IsCollection held.items }
        requires within_limit { length held.items ≤ 1000000 }
        ensures { IfOk result (λ list. list ≡ held.items) }
    {
        let parts = pieces(alloc, held, max_part_len)?;
        HeldParts::from_parts(alloc, parts, max_part_len)
    }

    // A copy of these pairs, cut into parts. O(n) for n pairs. `OutOfMemory` if a growth is refused.
    pub(crate) fn copied(alloc: Global, held: &[FlatHeld]) -> Result<HeldParts, OutOfMemory>
        requires rises { IsCollection held.now }
        requires within_limit { length held.now ≤ 1000000 }
        ensures { IfOk result (λ list. list ≡ held.now) }
    {
        let parts = if held.len() > MAX_PART_LEN {
            cut(alloc, held, MAX_PART_LEN)?
        } else {
            pieces(alloc, Vec::from_slice(alloc, held)?, MAX_PART_LEN)?
        };
        HeldParts::from_parts(alloc, parts, MAX_PART_LEN)
    }

    // What these parts hold.
    fn from_parts(
        alloc: Global,
        parts: Vec<HeldList>,
        max_part_len: usize,
    ) -> Result<HeldParts, OutOfMemory>
        requires rises { IsCollection (all_of parts.items) }
        requires filled { AreFilled parts.items }
        requires within_limit { length (all_of parts.items) ≤ 1000000 }
        ensures { IfOk result (λ list. list ≡ all_of parts.items) }
    {
        if parts.is_empty() {
            return Ok(HeldParts::in_parts_of(max_part_len));
        }
        HeldParts::sharing(alloc, PartList::new(alloc, parts)?, max_part_len)
    }

    // What a list of parts holds. `OutOfMemory` if a growth is refused.
    fn sharing(alloc: Global, list: PartList, max_part_len: usize) -> Result<HeldParts, OutOfMemory>
        ensures { IfOk result (λ held. held ≡ list) }
    {
        let shared = Arc::new(alloc, list)?;
        Ok(HeldParts {
            shared: Some(shared),
            max_part_len,
        })
    }

    /// The most pairs that a part has. No clause says so, as it concerns costs only. O(1).
    pub fn max_part_len(&self) -> usize {
        self.max_part_len
    }

    /// How many distinct pairs are held. O(1).
    pub fn len(&self) -> usize
        ensures number { result ≡ length self.now }
        ensures rises { IsCollection self.now }
        ensures within_limit { result ≤ 1000000 }
    {
        match &self.shared {
            Some(shared) => shared.len(),
            None => 0,
        }
    }

    /// The parts, in rising order of their pairs; none is empty. O(1).
    pub fn parts(&self) -> ListsView<'_>
        ensures list { all_of (lists_in result) ≡ self.now }
        ensures filled { AreFilled (lists_in result) }
        ensures rises { IsCollection self.now }
    {
        match &self.shared {
            Some(shared) => shared.parts(),
            None => ListsView::none(),
        }
    }

    /// For a place in rising order, counted from 0: how many pairs come before the part that has it, and that part. O(log p) for p parts.
    pub fn part_at(&self, place: usize) -> (usize, &HeldList)
        requires { place < length self.now }
        ensures { IsPartAt place self.now result.0 result.1.now }
    {
        match &self.shared {
            Some(shared) => shared.part_at(place),
            None => unreachable!(),
        }
    }

    /// The pair at a place in rising order, counted from 0, with its count. O(log p) for p parts.
    pub fn at(&self, place: usize) -> Held
        requires { place < length self.now }
        ensures { slice_get self.now place ≡ Some result }
    {
        let (before, part) = self.part_at(place);
        part.at(place - before)
    }

    /// The count of a pair: 0 if it is not held. O(log n) for n pairs.
    pub fn count(&self, pair: Pair) -> u32
        ensures { result ≡ count_in self.now pair }
    {
        match &self.shared {
            Some(shared) => shared.count(pair),
            None => 0,
        }
    }

    // The place of the first entry whose count before is not that of the held pairs. O(m log n) for m entries and n pairs, and never above
    // O(n + m).
    pub(crate) fn first_mismatch(&self, entries: &[Entry]) -> Option<usize>
        requires { IsChangeList entries.now }
        ensures { result ≡ position (λ e. not (e.before == count_in self.now e.pair)) entries.now }
    {
        let parts = self.parts();
        if parts.len() == 0 {
            first_mismatch(&[], entries)
        } else {
            mismatch_in_parts(parts, entries)
        }
    }

    /// A copy of all pairs in one list. O(n) for n pairs. `OutOfMemory` if a growth is refused.
    pub fn flat(&self, alloc: Global) -> Result<Vec<FlatHeld>, OutOfMemory>
        ensures { IfOk result (λ all. all.items ≡ self.now) }
    {
        let mut all = Vec::with_capacity(alloc, self.len())?;
        append_parts(&mut all, self.parts())?;
        Ok(all)
    }

    /// What a change that has the right counts before makes of the pairs. Without an entry the list is shared. Else the parts with entries are
    /// copied, and so is a part on either side of one if the two are joined, as short ones are; the other parts are shared. For p parts in b
    /// bundles, m entries and the k pairs of the copied parts it takes O(p + b log b + m log p + k). It counts one more owner only of each bundle
    /// of parts, and of the parts from the first entry's to the last entry's, with those in the same bundles. `OutOfMemory` if a growth is
    /// refused, or if the list, a part or a bundle is shared too often.
    pub fn after(&self, alloc: Global, entries: &[Entry]) -> Result<HeldParts, OutOfMemory>
        requires entries_rise { IsChangeList entries.now }
        requires before { AreBefore self.now entries.now }
        requires within_limit { length (changed self.now entries.now) ≤ 1000000 }
        ensures { IfOk result (λ list. list ≡ changed self.now entries.now) }
    {
        if entries.is_empty() {
            return Ok(self.clone()?);
        }
        match &self.shared {
            Some(shared) => match shared.after(alloc, entries, self.max_part_len)? {
                Some(list) => HeldParts::sharing(alloc, list, self.max_part_len),
                None => Ok(HeldParts::in_parts_of(self.max_part_len)),
            },
            None => {
                let held = merge(alloc, &[], entries)?;
                HeldParts::new_in_parts_of(alloc, held, self.max_part_len)
            }
        }
    }
}

// Appends the pairs of some parts, one after the other. O(n) for n pairs.
fn append_pairs(all: &mut Vec<FlatHeld>, parts: &[HeldList]) -> Result<(), OutOfMemory>
    ensures { OnOk result (all.new.items ≡ all.old.items ++ all_of parts.now) }
{
    for part in parts {
        all.extend_from_slice(part.as_slice())?;
    }
    Ok(())
}

/// Appends the pairs of all parts, one after the other. O(n) for n pairs. `OutOfMemory` if a growth is refused.
pub(crate) fn append_parts(all: &mut Vec<FlatHeld>, parts: ListsView<'_>) -> Result<(), OutOfMemory>
    ensures { OnOk result (all.new.items ≡ all.old.items ++ all_of (lists_in parts.entry)) }
{
    let mut rest = parts;
    while let Some((own, later)) = rest.split_bundle() {
        append_pairs(all, own)?;
        rest = later;
    }
    Ok(())
}

/// The same list, shared once more. O(1).
impl Clone for HeldParts {
    ghost is_clone = { λ list copy. copy ≡ list };

    fn clone(&self) -> Result<HeldParts, AllocError> {
        match &self.shared {
            Some(shared) => Ok(HeldParts {
                shared: Some(shared.clone()?),
                max_part_len: self.max_part_len,
            }),
            None => Ok(HeldParts::in_parts_of(self.max_part_len)),
        }
    }
}
