ghost use Rattle.std.specs.Prelude.{◌≡◌, ◌==◌, ◌<◌, ◌≤◌, [], ◌∷◌, Some, not, length, slice_get, position, IfOk};
ghost use Rattle.s2ix_bag_lists.specs.Faces.{IsFaceAt};
ghost use Rattle.s2ix_bag_lists.specs.Parts.{IsPartAt};
ghost use Rattle.s2ix_bag_lists.specs.Apply.{AreBefore, apply_refusal};
ghost use Rattle.s2ix_bag_pairs.specs.Change.{IsChangeList, changed};
ghost use Rattle.s2ix_bag_pairs.specs.Collection.{IsCollection, count_in};

use crate::apply::{gains, has_count_above, losses};
use crate::errors::ApplyError;
use crate::face_ends::{entries_up_to, held_up_to};
use crate::held_iter::HeldIter;
use crate::held_parts::{HeldParts, MAX_PART_LEN, append_parts};
use s2id_core::{FACES, OutOfMemory};
use s2ix_bag_held::{FlatHeld, HeldList};
use s2ix_bag_pairs::{Entry, Held, Limits, Pair};
use std::alloc::{AllocError, Global};
use std::marker::Model;

/// Held pairs, at most 1,000,000, in one list of parts for each face. Contracts see the one list that they make up, in rising order of
/// pairs.
#[derive(Debug, Drop)]
pub struct FaceLists {
    lists: [HeldParts; FACES],
    len: usize,
}

impl Model for FaceLists {
    ghost use Rattle.s2ix_bag_lists.specs.Faces.{AreFaces, all_of};
    ghost use Rattle.s2ix_bag_pairs.specs.Collection.{Collection};

    ghost Value = { Collection };

    ghost view = { λ s. all_of s.lists };

    ghost invariant = { λ s. AreFaces s.lists s.len };
}

// Six lists without pairs, to be cut into parts of at most `max_part_len` pairs each.
fn empty_lists(max_part_len: usize) -> [HeldParts; FACES]
    ensures { result ≡ [] ∷ [] ∷ [] ∷ [] ∷ [] ∷ [] ∷ [] }
{
    [
        HeldParts::in_parts_of(max_part_len),
        HeldParts::in_parts_of(max_part_len),
        HeldParts::in_parts_of(max_part_len),
        HeldParts::in_parts_of(max_part_len),
        HeldParts::in_parts_of(max_part_len),
        HeldParts::in_parts_of(max_part_len),
    ]
}

impl FaceLists {
    /// The lists that hold no pair. They do not allocate.
    pub fn empty() -> FaceLists
        ensures { result ≡ [] }
    {
        FaceLists::in_parts_of(MAX_PART_LEN)
    }

    /// The lists that hold no pair. As they grow, each is cut into parts of at most `max_part_len` pairs, but at least one. They do not allocate.
    pub fn in_parts_of(max_part_len: usize) -> FaceLists
        ensures { result ≡ [] }
    {
        FaceLists {
            lists: empty_lists(max_part_len),
            len: 0,
        }
    }

    /// The lists that hold these pairs with these counts. O(n) for n pairs. `OutOfMemory` if a growth is refused.
    pub fn from_held(alloc: Global, held: &[FlatHeld]) -> Result<FaceLists, OutOfMemory>
        requires rises { IsCollection held.now }
        requires within_limit { length held.now ≤ 1000000 }
        ensures { IfOk result (λ lists. lists ≡ held.now) }
    {
        let mut lists = empty_lists(MAX_PART_LEN);
        let mut rest = held;
        for face in 0..FACES {
            let (own, later) = rest.split_at(held_up_to(rest, face));
            lists[face] = HeldParts::copied(alloc, own)?;
            rest = later;
        }
        Ok(FaceLists {
            lists,
            len: held.len(),
        })
    }

    /// The count of a pair: 0 if it is not held. O(log n) for n pairs.
    pub fn count(&self, pair: Pair) -> u32
        ensures { result ≡ count_in self.now pair }
    {
        self.lists[usize::from(pair.cell.face())].count(pair)
    }

    /// How many distinct pairs are held.
    pub fn len(&self) -> usize
        ensures number { result ≡ length self.now }
        ensures rises { IsCollection self.now }
        ensures within_limit { result ≤ 1000000 }
    {
        self.len
    }

    /// The pair at a place in rising order, counted from 0, with its count. O(log p) for p parts.
    pub fn held(&self, place: usize) -> Held
        requires { place < length self.now }
        ensures { slice_get self.now place ≡ Some result }
    {
        let (before, part) = self.part_at(place);
        part.at(place - before)
    }

    /// For a place in rising order, counted from 0: how many pairs come before the part that has it, and that part. O(log p) for p parts.
    pub fn part_at(&self, place: usize) -> (usize, &HeldList)
        requires { place < length self.now }
        ensures { IsPartAt place self.now result.0 result.1.now }
    {
        let (before_face, list) = self.face_at(place);
        let (before, part) = list.part_at(place - before_face);
        (before_face + before, part)
    }

    /// For a place in rising order, counted from 0: how many pairs come before the face of the pair there, and all pairs held on that face.
    /// O(1).
    pub fn face_at(&self, place: usize) -> (usize, &HeldParts)
        requires { place < length self.now }
        ensures { IsFaceAt place self.now result.0 result.1.now }
    {
        let mut before = 0;
        for list in &self.lists {
            let len = list.len();
            if place - before < len {
                return (before, list);
            }
            before += len;
        }
        unreachable!()
    }

    /// The held pairs with their counts, in rising order. O(n) from the first to the end, for n pairs.
    pub fn iter(&self) -> HeldIter<'_>
        ensures { result ≡ self.now }
    {
        HeldIter::new(&self.lists)
    }

    /// A copy of all pairs in one list. O(n) for n pairs. `OutOfMemory` if a growth is refused.
    pub fn flat(&self, alloc: Global) -> Result<Vec<FlatHeld>, OutOfMemory>
        ensures { IfOk result (λ all. all.items ≡ self.now) }
    {
        let mut all = Vec::with_capacity(alloc, self.len)?;
        for list in &self.lists {
            append_parts(&mut all, list.parts())?;
        }
        Ok(all)
    }

    /// Why a change is refused, memory aside: each test goes over all entries, in the order of the errors. O(m log n)
    /// for m entries and n pairs.
    pub fn refusal(&self, limits: Limits, entries: &[Entry]) -> Option<ApplyError>
        requires { IsChangeList entries.now }
        ensures { result ≡ apply_refusal (record { limits = limits; held = self.now }) entries.now }
    {
        if let Some(place) = self.mismatch(entries) {
            return Some(ApplyError::Mismatch(place));
        }
        if has_count_above(entries, limits.count()) {
            return Some(ApplyError::TooManyCopies);
        }
        if self.len_after(entries) > limits.pairs() as usize {
            return Some(ApplyError::TooManyPairs);
        }
        None
    }

    // The place of the first entry whose count before is not that of the held pairs. O(m log n) for m entries and n pairs.
    fn mismatch(&self, entries: &[Entry]) -> Option<usize>
        requires { IsChangeList entries.now }
        ensures { result ≡ position (λ e. not (e.before == count_in self.now e.pair)) entries.now }
    {
        let mut rest = entries;
        let mut passed = 0;
        for face in 0..FACES {
            let (own, later) = rest.split_at(entries_up_to(rest, face));
            if let Some(place) = self.lists[face].first_mismatch(own) {
                return Some(passed + place);
            }
            passed += own.len();
            rest = later;
        }
        None
    }

    // How many pairs are held once a change is applied that has the right counts before. O(m) for m entries.
    fn len_after(&self, entries: &[Entry]) -> usize
        requires entries_rise { IsChangeList entries.now }
        requires before { AreBefore self.now entries.now }
        ensures { result ≡ length (changed self.now entries.now) }
    {
        self.len + gains(entries) - losses(entries)
    }

    /// What a change that has the right counts before makes of the pairs. The parts with entries are copied, and so is a part on either side of
    /// one if the two are joined, as short ones are; the other parts are shared: O(p + b log b + k + m log p) for m entries, the p parts and b
    /// bundles of their faces, and the k pairs of the copied parts. `OutOfMemory` if a growth is refused, or if a list, a bundle or a part is
    /// shared too often.
    pub fn after(&self, alloc: Global, entries: &[Entry]) -> Result<FaceLists, OutOfMemory>
        requires entries_rise { IsChangeList entries.now }
        requires before { AreBefore self.now entries.now }
        requires within_limit { length (changed self.now entries.now) ≤ 1000000 }
        ensures { IfOk result (λ lists. lists ≡ changed self.now entries.now) }
    {
        let len = self.len_after(entries);
        let mut lists = self.lists.clone()?;
        let mut rest = entries;
        for face in 0..FACES {
            let (own, later) = rest.split_at(entries_up_to(rest, face));
            lists[face] = lists[face].after(alloc, own)?;
            rest = later;
        }
        Ok(FaceLists { lists, len })
    }
}

/// The same lists, shared once more. O(1).
impl Clone for FaceLists {
    ghost is_clone = { λ lists copy. copy ≡ lists };

    fn clone(&self) -> Result<FaceLists, AllocError> {
        Ok(FaceLists {
            lists: self.lists.clone()?,
            len: self.len,
        })
    }
}
