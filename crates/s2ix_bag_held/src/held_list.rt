ghost use Rattle.std.specs.Prelude.{◌≡◌, ◌<◌, [], Some, false, length, slice_get, IfOk};
ghost use Rattle.s2ix_bag_pairs.specs.Change.{changed};
ghost use Rattle.s2ix_bag_pairs.specs.OfLabel.{held_of};

use crate::filtered_held::FilteredHeld;
use crate::flat::FlatHeld;
use s2id_core::OutOfMemory;
use s2ix_bag_pairs::{Entry, Held, Label};
use std::alloc::{AllocError, Global};
use std::marker::Model;
use std::sync::Arc;

/// A list of held pairs that several owners share, such as a part of a bag and of its range table. A list without pairs does not allocate.
/// Contracts see the pairs.
#[derive(Debug, Drop)]
pub struct HeldList {
    shared: Option<Arc<FilteredHeld>>,
}

impl Model for HeldList {
    ghost use Rattle.std.specs.Prelude.{[], Some, None};
    ghost use Rattle.s2ix_bag_pairs.specs.Collection.{Collection};

    ghost Value = { Collection };

    ghost view = { λ list. elim list.shared [ None ↦ [] | Some shared ↦ shared.value ] };
}

impl HeldList {
    /// The list without pairs.
    pub fn empty() -> HeldList
        ensures { result ≡ [] }
    {
        HeldList { shared: None }
    }

    /// These pairs, to be shared, with a filter that lets all labels through: for lists in which nobody looks for a label's pairs. O(1).
    /// `OutOfMemory` if a growth is refused.
    pub fn new(alloc: Global, held: Vec<FlatHeld>) -> Result<HeldList, OutOfMemory>
        ensures { IfOk result (λ list. list ≡ held.items) }
    {
        HeldList::sharing(alloc, FilteredHeld::without_filter(held))
    }

    /// These pairs, to be shared, with a filter of their labels. O(n) for n pairs. `OutOfMemory` if a growth is refused.
    pub fn with_filter(alloc: Global, held: Vec<FlatHeld>) -> Result<HeldList, OutOfMemory>
        ensures { IfOk result (λ list. list ≡ held.items) }
    {
        HeldList::sharing(alloc, FilteredHeld::new(held))
    }

    /// What entries make of these pairs, which the caller has made already, with a filter of their labels. O(m) for m entries, but O(n) for
    /// n pairs once many entries have come. `OutOfMemory` if a growth is refused.
    pub fn changed_to(
        &self,
        alloc: Global,
        held: Vec<FlatHeld>,
        entries: &[Entry],
    ) -> Result<HeldList, OutOfMemory>
        requires { held.items ≡ changed self.now entries.now }
        ensures { IfOk result (λ list. list ≡ held.items) }
    {
        match &self.shared {
            Some(shared) => HeldList::sharing(alloc, shared.changed_to(held, entries)),
            None => HeldList::with_filter(alloc, held),
        }
    }

    fn sharing(alloc: Global, held: FilteredHeld) -> Result<HeldList, OutOfMemory>
        ensures { IfOk result (λ list. list ≡ held) }
    {
        if held.as_slice().is_empty() {
            return Ok(HeldList::empty());
        }
        let shared = Arc::new(alloc, held)?;
        Ok(HeldList {
            shared: Some(shared),
        })
    }

    /// The pairs.
    pub fn as_slice(&self) -> &[FlatHeld]
        ensures { result.now ≡ self.now }
    {
        match &self.shared {
            Some(shared) => shared.as_slice(),
            None => &[],
        }
    }

    /// The pair at a place, counted from 0, with its count. O(1).
    #[inline]
    pub fn at(&self, place: usize) -> Held
        requires { place < length self.now }
        ensures { slice_get self.now place ≡ Some result }
    {
        match &self.shared {
            Some(shared) => shared.as_slice()[place].held(),
            None => unreachable!(),
        }
    }

    /// Whether one of the pairs may have a label. If not, none has. O(1).
    #[inline]
    pub fn may_have(&self, label: Label) -> bool
        ensures { result ≡ false → held_of label self.now ≡ [] }
    {
        match &self.shared {
            Some(shared) => shared.may_have(label),
            None => false,
        }
    }
}

/// The same list, shared once more. O(1).
impl Clone for HeldList {
    ghost is_clone = { λ list copy. copy ≡ list };

    fn clone(&self) -> Result<HeldList, AllocError> {
        match &self.shared {
            Some(shared) => Ok(HeldList {
                shared: Some(shared.clone()?),
            }),
            None => Ok(HeldList::empty()),
        }
    }
}
