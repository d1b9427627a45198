ghost use Rattle.std.specs.Prelude.{◌≡◌, [], false};
ghost use Rattle.s2ix_bag_pairs.specs.Change.{changed};
ghost use Rattle.s2ix_bag_pairs.specs.OfLabel.{held_of};

use crate::flat::FlatHeld;
use crate::label_filter::LabelFilter;
use s2ix_bag_pairs::{Entry, Label};
use std::marker::Model;

// After how many entries a filter is made anew, so that it forgets labels that have gone.
const MAX_ADDED: usize = 64;

/// Held pairs beside a filter of their labels. Contracts see the pairs.
#[derive(Debug, Drop)]
pub(crate) struct FilteredHeld {
    held: Vec<FlatHeld>,
    labels: LabelFilter,
    // how many entries' labels the filter was given since it was made
    added: usize,
}

impl Model for FilteredHeld {
    ghost use Rattle.s2ix_bag_held.specs.LabelFilter.{LetsThroughAll};
    ghost use Rattle.s2ix_bag_pairs.specs.Collection.{Collection};

    ghost Value = { Collection };

    ghost view = { λ s. s.held.items };

    ghost invariant = { λ s. LetsThroughAll s.labels s.held.items };
}

impl FilteredHeld {
    /// Pairs whose labels nobody looks for: the filter lets all labels through. O(1).
    pub(crate) fn without_filter(held: Vec<FlatHeld>) -> FilteredHeld
        ensures { result ≡ held.items }
    {
        FilteredHeld {
            held,
            labels: LabelFilter::all(),
            added: 0,
        }
    }

    /// Pairs with the filter of their labels. O(n) for n pairs.
    pub(crate) fn new(held: Vec<FlatHeld>) -> FilteredHeld
        ensures { result ≡ held.items }
    {
        let labels = LabelFilter::of_pairs(&held);
        FilteredHeld {
            held,
            labels,
            added: 0,
        }
    }

    /// What entries make of the pairs, which the caller has made already. The filter is the same, and lets the labels of the entries through
    /// too. O(m) for m entries; once more than 64 entries have come since it was made, it is made anew, in O(n) for n pairs.
    pub(crate) fn changed_to(&self, held: Vec<FlatHeld>, entries: &[Entry]) -> FilteredHeld
        requires { held.items ≡ changed self.now entries.now }
        ensures { result ≡ held.items }
    {
        let added = self.added.saturating_add(entries.len());
        if added > MAX_ADDED {
            return FilteredHeld::new(held);
        }
        let mut labels = self.labels;
        labels.add_entries(entries);
        FilteredHeld {
            held,
            labels,
            added,
        }
    }

    /// The pairs.
    pub(crate) fn as_slice(&self) -> &[FlatHeld]
        ensures { result.now ≡ self.now }
    {
        &self.held
    }

    /// Whether one of the pairs may have a label. If not, none has. O(1).
    #[inline]
    pub(crate) fn may_have(&self, label: Label) -> bool
        ensures { result ≡ false → held_of label self.now ≡ [] }
    {
        self.labels.lets_through(label)
    }
}
