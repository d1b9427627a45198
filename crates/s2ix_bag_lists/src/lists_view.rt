use crate::shared_lists::SharedLists;
use s2ix_bag_held::HeldList;
use s2ix_bag_pairs::Pair;

/// Some lists of a [`SharedLists`] that follow one another, as a slice is some elements of a vector.
#[derive(Clone, Copy, Debug)]
pub struct ListsView<'a> {
    // the view shows those of these lists that come from the number `first` on and before `end`; without them it shows no list
    whole: Option<&'a SharedLists>,
    first: usize,
    end: usize,
}

impl<'a> ListsView<'a> {
    ghost use Rattle.std.specs.Prelude.{◌≡◌, ◌+◌, ◌++◌, ◌<◌, ◌≤◌, [], ◌∷◌, None, length, take, drop, slice_index_or, IfSome};
    ghost use Rattle.s2ix_bag_lists.specs.Faces.{all_of};
    ghost use Rattle.s2ix_bag_lists.specs.Parts.{AreAround, AreFilled};
    ghost use Rattle.s2ix_bag_lists.specs.View.{lists_in};
    ghost use Rattle.s2ix_bag_pairs.specs.Collection.{IsCollection};
    ghost use Rattle.s2ix_bag_pairs.specs.Pair.{rank_of};

    /// No list. O(1).
    pub fn none() -> ListsView<'a>
        ensures { lists_in result ≡ [] }
    {
        ListsView {
            whole: None,
            first: 0,
            end: 0,
        }
    }

    /// All lists. O(1).
    pub fn all(lists: &'a SharedLists) -> ListsView<'a>
        ensures { lists_in result ≡ lists.now }
    {
        ListsView {
            whole: Some(lists),
            first: 0,
            end: lists.len(),
        }
    }

    /// How many lists there are. O(1).
    pub fn len(self) -> usize
        ensures number { result ≡ length (lists_in self.entry) }
        ensures within_limit { result ≤ 1000000 }
    {
        match self.whole {
            Some(whole) => self.end.min(whole.len()).saturating_sub(self.first),
            None => 0,
        }
    }

    /// The list at a place, counted from 0. O(log b) for b bundles.
    pub fn at(self, place: usize) -> &'a HeldList
        requires { place < length (lists_in self) }
        ensures { result.now ≡ slice_index_or (lists_in self.entry) place [] }
    {
        match self.whole {
            Some(whole) => whole.at(self.first + place),
            None => unreachable!(),
        }
    }

    /// The lists before a place, and those from it on. O(1).
    pub fn split_at(self, place: usize) -> (ListsView<'a>, ListsView<'a>)
        requires { place ≤ length (lists_in self) }
        ensures front { lists_in result.0 ≡ take place (lists_in self.entry) }
        ensures back { lists_in result.1 ≡ drop place (lists_in self.entry) }
    {
        let middle = self.first + place;
        let front = ListsView {
            whole: self.whole,
            first: self.first,
            end: middle,
        };
        let back = ListsView {
            whole: self.whole,
            first: middle,
            end: self.end,
        };
        (front, back)
    }

    /// The first list and those that follow it, or `None` if there is no list. O(log b) for b bundles.
    pub fn split_first(self) -> Option<(&'a HeldList, ListsView<'a>)>
        ensures some { IfSome result (λ both. lists_in self.entry ≡ both.0.now ∷ lists_in both.1) }
        ensures none { result ≡ None → lists_in self.entry ≡ [] }
    {
        let whole = self.whole?;
        if self.first >= self.end || self.first >= whole.len() {
            return None;
        }
        let later = ListsView {
            whole: self.whole,
            first: self.first + 1,
            end: self.end,
        };
        Some((whole.at(self.first), later))
    }

    // Of these lists, which rise: those in the bundle that a pair is in, or would go into, and how many of these lists come before them.
    // O(log b) for b bundles.
    pub(crate) fn bundle_of(self, pair: Pair) -> (usize, &'a [HeldList])
        requires rises { IsCollection (all_of (lists_in self)) }
        requires filled { AreFilled (lists_in self) }
        requires some { 0 < length (lists_in self) }
        ensures around { AreAround (lists_in self.entry) (rank_of pair) result.0 result.1.now }
        ensures within_limit { result.0 + length result.1.now ≤ 1000000 }
    {
        match self.whole {
            Some(whole) => whole.bundle_of(self.first, self.end.min(whole.len()), pair),
            None => unreachable!(),
        }
    }

    // The lists of the first bundle, as far as they are among these, and those that follow them; `None` if there is no list. O(log b) for b
    // bundles.
    pub(crate) fn split_bundle(self) -> Option<(&'a [HeldList], ListsView<'a>)>
        ensures whole { IfSome result (λ both. lists_in self.entry ≡ both.0.now ++ lists_in both.1) }
        ensures some { IfSome result (λ both. 0 < length both.0.now) }
        ensures none { result ≡ None → lists_in self.entry ≡ [] }
    {
        let whole = self.whole?;
        let end = self.end.min(whole.len());
        if self.first >= end {
            return None;
        }
        let own = whole.bundle_from(self.first, end);
        let later = ListsView {
            whole: self.whole,
            first: self.first + own.len(),
            end: self.end,
        };
        Some((own, later))
    }
}
