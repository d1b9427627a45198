ghost use Rattle.std.specs.Prelude.{◌≡◌, ◌==◌, ℕ, ◌<◌, ◌≤◌, [], length, slice_get, Some, None, IfOk, IfErr, OnOk};
ghost use Rattle.s2ix_bag_lists.specs.Faces.{IsFaceAt};
ghost use Rattle.s2ix_bag_lists.specs.Parts.{IsPartAt};
ghost use Rattle.s2ix_bag_lists.specs.Apply.{apply_refusal, IsApplyRefusal};
ghost use Rattle.s2ix_bag_lists.specs.Revert.{revert_refusal, IsRevertRefusal};
ghost use Rattle.s2ix_bag_pairs.specs.Change.{changed, IsChangeList};
ghost use Rattle.s2ix_bag_pairs.specs.Collection.{LimitedCollection, IsBag, copies_in, count_in};
ghost use Rattle.s2ix_bag_pairs.specs.OfLabel.{held_of};
ghost use Rattle.s2ix_bag_pairs.specs.TakenBack.{change_back, taken_back};

use crate::change::Change;
use crate::label_iter::LabelIter;
use crate::revert::{entries_back, refusal};
use s2id_core::OutOfMemory;
use s2ix_bag_held::{FlatHeld, HeldList};
use s2ix_bag_lists::{ApplyError, FaceLists, HeldIter, HeldParts, RevertError};
use s2ix_bag_pairs::{Held, Label, Limits, Pair};
use std::alloc::{AllocError, Global};
use std::marker::Model;

/// A finite map from pairs to counts above 0, within its limits. Contracts see a bag as its limits and the list
/// of what it holds, in rising order of pairs. S2 keeps a list with repeated pairs.
#[derive(Debug, Drop)]
pub struct Bag {
    limits: Limits,
    lists: FaceLists,
}

impl Model for Bag {
    ghost use Rattle.s2ix_bag_pairs.specs.Collection.{LimitedCollection, IsBag};

    ghost Value = { LimitedCollection };

    ghost view = { λ b. record { limits = b.limits; held = b.lists } };

    ghost invariant = { λ b. IsBag (record { limits = b.limits; held = b.lists }) };
}

impl Bag {
    /// The bag that holds no pair. It does not allocate.
    pub fn empty(_alloc: Global, limits: Limits) -> Bag
        ensures { result ≡ record { limits = limits; held = [] } }
    {
        Bag {
            limits,
            lists: FaceLists::empty(),
        }
    }

    /// The bag that holds no pair. As it grows, it is cut into parts of at most `max_part_len` pairs each, but at least one; other bags have
    /// parts of at most 512. In shorter parts a change copies fewer pairs, but more parts are to be counted and searched. It does not
    /// allocate.
    pub fn in_parts_of(limits: Limits, max_part_len: usize) -> Bag
        ensures { result ≡ record { limits = limits; held = [] } }
    {
        let lists = FaceLists::in_parts_of(max_part_len);
        Bag { limits, lists }
    }

    /// The bag with these limits that holds these pairs with these counts. O(n) for n pairs. `OutOfMemory` if a growth is refused.
    pub fn from_held(alloc: Global, limits: Limits, held: &[FlatHeld]) -> Result<Bag, OutOfMemory>
        requires { IsBag (record { limits = limits; held = held.now }) }
        ensures { IfOk result (λ bag. bag ≡ record { limits = limits; held = held.now }) }
    {
        let lists = FaceLists::from_held(alloc, held)?;
        Ok(Bag { limits, lists })
    }

    /// The limits that the bag stays within.
    pub fn limits(&self) -> Limits
        ensures { result ≡ self.now.limits }
    {
        self.limits
    }

    /// The count of a pair: 0 if it is not held. O(log n) for n pairs.
    pub fn count(&self, pair: Pair) -> u32
        ensures count { result ≡ count_in self.now.held pair }
        ensures within { IsBag self.now }
    {
        self.lists.count(pair)
    }

    /// How many distinct pairs are held, at most 1,000,000.
    pub fn len(&self) -> usize
        ensures number { result ≡ length self.now.held }
        ensures within { IsBag self.now }
    {
        self.lists.len()
    }

    /// Whether no pair is held.
    pub fn is_empty(&self) -> bool
        ensures { result ≡ (length self.now.held == 0) }
    {
        self.lists.len() == 0
    }

    /// The sum of the counts, in copies. It fits: limits allow at most 1,000,000 pairs of 4,294,967,295 copies each. O(n) for n pairs.
    pub fn copies(&self) -> u64
        ensures { result ≡ copies_in self.now.held }
    {
        let mut copies = 0;
        for held in self.iter() {
            copies += u64::from(held.count);
        }
        copies
    }

    /// The pair at a place in rising order, counted from 0, with its count. O(log p) for p parts.
    pub fn held(&self, k: usize) -> Held
        requires { k < length self.now.held }
        ensures { slice_get self.now.held k ≡ Some result }
    {
        self.lists.held(k)
    }

    /// For a place in rising order, counted from 0: how many pairs come before the part of the bag that has it, and that part, which can be
    /// shared. O(log p) for p parts.
    pub fn part_at(&self, k: usize) -> (usize, &HeldList)
        requires { k < length self.now.held }
        ensures { IsPartAt k self.now.held result.0 result.1.now }
    {
        self.lists.part_at(k)
    }

    /// For the pair at a place, counted from 0: the number of pairs on earlier faces, and the pairs held on its own face, with their
    /// counts, in rising order: the bag's own list, which can be shared. O(1).
    pub fn face_at(&self, k: usize) -> (usize, &HeldParts)
        requires { k < length self.now.held }
        ensures { IsFaceAt k self.now.held result.0 result.1.now }
    {
        self.lists.face_at(k)
    }

    /// The pairs held with a label, with their counts, by rising cell. To go through all of them takes O(p + b log b + k) for p parts in b
    /// bundles of at most 64 parts, and the k pairs of those parts whose filters let the label through. Of the parts that don't have the label,
    /// these are about one in 100 if a part has 64 labels, one in 7 if it has 256, and half of them if it has 512.
    pub fn of_label(&self, label: Label) -> LabelIter<'_>
        ensures list { result ≡ held_of label self.now.held }
        ensures within { IsBag self.now }
    {
        LabelIter::new(label, self.lists.iter())
    }

    /// The held pairs with their counts, in rising order. O(n) from the first to the end, for n pairs.
    pub fn iter(&self) -> HeldIter<'_>
        ensures list { result ≡ self.now.held }
        ensures within { IsBag self.now }
    {
        self.lists.iter()
    }

    // The lists of the faces.
    pub(crate) fn lists(&self) -> &FaceLists
        ensures { result.now ≡ self.now.held }
    {
        &self.lists
    }

    /// A copy of the held pairs with their counts, in rising order. O(n) for n pairs. `OutOfMemory` if a growth is refused.
    pub fn flat(&self, alloc: Global) -> Result<Vec<FlatHeld>, OutOfMemory>
        ensures list { IfOk result (λ flat. flat.items ≡ self.now.held) }
        ensures within { IsBag self.now }
    {
        self.lists.flat(alloc)
    }

    /// A copy of the bag. The two share their pairs. O(1). `OutOfMemory` if they are shared too often.
    pub fn copied(&self, _alloc: Global) -> Result<Bag, OutOfMemory>
        ensures { IfOk result (λ bag. bag ≡ self.now) }
    {
        Ok(self.clone()?)
    }

    /// The bag that a change makes of this one: each pair of the change has its count after, and no other count differs. Before it
    /// allocates, it tests the three refusals in their order, each over all entries. `OutOfMemory` if a growth is refused, or if a list, a
    /// bundle or a part is shared too often. The parts with entries are copied, and so is a part on either side of one if the two are joined,
    /// as short ones are; the other parts are shared: O(p + b log b + k + m log n) for m entries, n pairs in p parts and b bundles, and the k
    /// pairs of the copied parts.
    pub fn applied(&self, alloc: Global, change: &Change) -> Result<Bag, ApplyError>
        ensures limits { IfOk result (λ bag. bag.limits ≡ self.now.limits) }
        ensures held { IfOk result (λ bag. bag.held ≡ changed self.now.held change.now) }
        ensures within { IfOk result IsBag }
        ensures accepted { OnOk result (apply_refusal self.now change.now ≡ None) }
        ensures refused { IfErr result (λ error. IsApplyRefusal error (apply_refusal self.now change.now)) }
    {
        let entries = change.entries();
        if let Some(error) = self.lists.refusal(self.limits, entries) {
            return Err(error);
        }
        let lists = self.lists.after(alloc, entries)?;
        Ok(Bag {
            limits: self.limits,
            lists,
        })
    }

    /// The change that takes another one back from this bag, however long ago that was made. For each pair of the other change it has the
    /// count that the bag has now, and that count less the difference (the count after less the count before). Before it allocates, it
    /// tests the three refusals in their order, each over all entries. `OutOfMemory` if a growth is refused. The clauses `within` and
    /// `rises` only restate what always holds of `self` and of `change`. O(m log n) for m entries and n pairs. S2 has no such call.
    pub fn reverting(&self, alloc: Global, change: &Change) -> Result<Change, RevertError>
        ensures entries { IfOk result (λ back. back ≡ change_back self.now.held change.now) }
        ensures accepted { OnOk result (revert_refusal self.now change.now ≡ None) }
        ensures refused { IfErr result (λ error. IsRevertRefusal error (revert_refusal self.now change.now)) }
        ensures within { IsBag self.now }
        ensures rises { IsChangeList change.now }
    {
        let entries = change.entries();
        if let Some(error) = refusal(self, self.limits, entries) {
            return Err(error);
        }
        Ok(Change::from_vec(entries_back(alloc, self, entries)?))
    }

    /// The bag with a change taken back: the difference (the count after less the count before) is subtracted from the count of each of its
    /// pairs, and no other count differs. It refuses what [`Bag::reverting`] refuses, and returns `OutOfMemory` if a growth is refused, or if
    /// a list, a bundle or a part is shared too often. The parts with entries are copied, and so is a part on either side of one if the two are
    /// joined, as short ones are; the other parts are shared: O(p + b log b + k + m log n) for m entries, n pairs in p parts and b bundles, and
    /// the k pairs of the copied parts.
    pub fn reverted(&self, alloc: Global, change: &Change) -> Result<Bag, RevertError>
        ensures limits { IfOk result (λ bag. bag.limits ≡ self.now.limits) }
        ensures held { IfOk result (λ bag. bag.held ≡ taken_back self.now.held change.now) }
        ensures within { IfOk result IsBag }
        ensures accepted { OnOk result (revert_refusal self.now change.now ≡ None) }
        ensures refused { IfErr result (λ error. IsRevertRefusal error (revert_refusal self.now change.now)) }
    {
        let back = self.reverting(alloc, change)?;
        let lists = self.lists.after(alloc, back.entries())?;
        Ok(Bag {
            limits: self.limits,
            lists,
        })
    }
}

/// A copy of the bag. The two share their pairs. O(1).
impl Clone for Bag {
    ghost is_clone = { λ bag copy. copy ≡ bag };

    fn clone(&self) -> Result<Bag, AllocError> {
        let lists = self.lists.clone()?;
        Ok(Bag {
            limits: self.limits,
            lists,
        })
    }
}
