ghost use Rattle.std.specs.Prelude.{◌≡◌, ◌++◌, ◌<◌, ◌≤◌, [], ◌∷◌, None, length, take, IfSome};
ghost use Rattle.std.specs.Iterator.{YieldsFirst, item_count};
ghost use Rattle.s2ix_bag_lists.specs.Faces.{all_of};
ghost use Rattle.s2ix_bag_lists.specs.Parts.{AreFilled};
ghost use Rattle.s2ix_bag_lists.specs.View.{held_from, lists_in};
ghost use Rattle.s2ix_bag_pairs.specs.OfLabel.{held_of};

use crate::held_parts::HeldParts;
use crate::lists_view::ListsView;
use s2ix_bag_held::{FlatHeld, HeldList};
use s2ix_bag_pairs::{Held, Label};
use std::marker::Model;

/// The held pairs of a [`FaceLists`](crate::FaceLists) with their counts, in rising order. Contracts see the list of those still to come.
#[derive(Clone, Debug, Drop)]
pub struct HeldIter<'a> {
    rest: &'a [FlatHeld],
    // the next parts of the bundle at hand
    parts: &'a [HeldList],
    // the parts behind them of the list at hand
    bundles: ListsView<'a>,
    later: &'a [HeldParts],
}

impl<'a> Model for HeldIter<'a> {
    ghost use Rattle.std.specs.Prelude.{◌++◌};
    ghost use Rattle.s2ix_bag_lists.specs.Faces.{all_of};
    ghost use Rattle.s2ix_bag_lists.specs.Parts.{AreFilled};
    ghost use Rattle.s2ix_bag_lists.specs.View.{held_from, lists_in};
    ghost use Rattle.s2ix_bag_pairs.specs.Collection.{Collection};

    ghost Value = { Collection };

    ghost view = { λ s. s.rest.now ++ (all_of s.parts.now ++ held_from s.bundles s.later.now) };

    ghost invariant = { λ s. AreFilled s.parts.now × AreFilled (lists_in s.bundles) };
}

impl<'a> HeldIter<'a> {
    // What some lists hold, one after the other.
    pub(crate) fn new(lists: &'a [HeldParts]) -> HeldIter<'a>
        ensures { result ≡ all_of lists.now }
    {
        HeldIter {
            rest: &[],
            parts: &[],
            bundles: ListsView::none(),
            later: lists,
        }
    }

    /// The next pair with a label; those before it are passed over. A part is read only if the filter of its labels lets the label through.
    /// To go through all of them takes O(p + b log b + k): for p parts, whose filters are asked, b bundles, each of which is found by a search,
    /// and the k pairs of the parts that are read.
    pub fn next_of(&mut self, label: Label) -> Option<Held>
        ensures { YieldsFirst (λ rest. held_of label rest) self.old result self.new }
    {
        loop {
            let found = first_of(&mut self.rest, label);
            if found.is_some() {
                return found;
            }
            self.rest = next_pairs_with(label, &mut self.parts, &mut self.bundles, &mut self.later);
            if self.rest.is_empty() {
                return None;
            }
        }
    }
}

// The parts of the next bundle, taken from those of the list at hand or of the next list that has one.
fn next_bundle<'a>(
    bundles: &mut ListsView<'a>,
    later: &mut &'a [HeldParts],
) -> Option<&'a [HeldList]>
    requires { AreFilled (lists_in bundles.old) }
    ensures next { IfSome result (λ parts. held_from bundles.old later.old.now ≡ all_of parts.now ++ held_from bundles.new later.new.now) }
    ensures some { IfSome result (λ parts. 0 < length parts.now) }
    ensures parts_filled { IfSome result (λ parts. AreFilled parts.now) }
    ensures filled { AreFilled (lists_in bundles.new) }
    ensures none { result ≡ None → held_from bundles.old later.old.now ≡ [] }
    ensures last { result ≡ None → held_from bundles.new later.new.now ≡ [] }
{
    while bundles.len() == 0 {
        let (list, lists) = later.split_first()?;
        *bundles = list.parts();
        *later = lists;
    }
    let (parts, others) = bundles.split_bundle()?;
    *bundles = others;
    Some(parts)
}

// The next part, taken from those of the list at hand or of the next list that has one.
fn next_part<'a>(
    parts: &mut &'a [HeldList],
    bundles: &mut ListsView<'a>,
    later: &mut &'a [HeldParts],
) -> Option<&'a HeldList>
    requires parts_filled { AreFilled parts.old.now }
    requires filled { AreFilled (lists_in bundles.old) }
    ensures next { IfSome result (λ part. all_of parts.old.now ++ held_from bundles.old later.old.now
        ≡ part.now ++ (all_of parts.new.now ++ held_from bundles.new later.new.now)) }
    ensures some { IfSome result (λ part. 0 < length part.now) }
    ensures parts_filled { AreFilled parts.new.now }
    ensures filled { AreFilled (lists_in bundles.new) }
    ensures none { result ≡ None → all_of parts.old.now ++ held_from bundles.old later.old.now ≡ [] }
    ensures last { result ≡ None → all_of parts.new.now ++ held_from bundles.new later.new.now ≡ [] }
{
    if parts.is_empty() {
        *parts = next_bundle(bundles, later)?;
    }
    let (part, others) = parts.split_first()?;
    *parts = others;
    Some(part)
}

// The pairs of the next part; no pairs if there is none.
#[inline(never)]
fn next_pairs<'a>(
    parts: &mut &'a [HeldList],
    bundles: &mut ListsView<'a>,
    later: &mut &'a [HeldParts],
) -> &'a [FlatHeld]
    requires parts_filled { AreFilled parts.old.now }
    requires filled { AreFilled (lists_in bundles.old) }
    ensures whole { result.now ++ (all_of parts.new.now ++ held_from bundles.new later.new.now) ≡ all_of parts.old.now ++ held_from bundles.old later.old.now }
    ensures parts_filled { AreFilled parts.new.now }
    ensures filled { AreFilled (lists_in bundles.new) }
    ensures last { result.now ≡ [] → all_of parts.new.now ++ held_from bundles.new later.new.now ≡ [] }
{
    match next_part(parts, bundles, later) {
        Some(part) => part.as_slice(),
        None => &[],
    }
}

// How many parts come before the first that may have a label. O(k) for the answer k.
fn parts_without(parts: &[HeldList], label: Label) -> usize
    ensures within { result ≤ length parts.now }
    ensures without { held_of label (all_of (take result parts.now)) ≡ [] }
{
    let mut count = 0;
    while count < parts.len() && !parts[count].may_have(label) {
        count += 1;
    }
    count
}

// The pairs of the next part that may have a label, past those that have none with it; no pairs if there is none.
fn next_pairs_with<'a>(
    label: Label,
    parts: &mut &'a [HeldList],
    bundles: &mut ListsView<'a>,
    later: &mut &'a [HeldParts],
) -> &'a [FlatHeld]
    requires parts_filled { AreFilled parts.old.now }
    requires filled { AreFilled (lists_in bundles.old) }
    ensures whole { held_of label (result.now ++ (all_of parts.new.now ++ held_from bundles.new later.new.now))
        ≡ held_of label (all_of parts.old.now ++ held_from bundles.old later.old.now) }
    ensures parts_filled { AreFilled parts.new.now }
    ensures filled { AreFilled (lists_in bundles.new) }
    ensures last { result.now ≡ [] → all_of parts.new.now ++ held_from bundles.new later.new.now ≡ [] }
    ensures shorter { length (result.now ++ (all_of parts.new.now ++ held_from bundles.new later.new.now))
        ≤ length (all_of parts.old.now ++ held_from bundles.old later.old.now) }
{
    loop {
        let (_, rest) = parts.split_at(parts_without(parts, label));
        if let Some((part, others)) = rest.split_first() {
            *parts = others;
            return part.as_slice();
        }
        *parts = rest;
        match next_bundle(bundles, later) {
            Some(next) => *parts = next,
            None => return &[],
        }
    }
}

// The first of some pairs with a label, past those before it.
fn first_of<'a>(rest: &mut &'a [FlatHeld], label: Label) -> Option<Held>
    ensures found { IfSome result (λ held. held_of label rest.old.now ≡ held ∷ held_of label rest.new.now) }
    ensures none { result ≡ None → held_of label rest.old.now ≡ [] }
    ensures passed { result ≡ None → rest.new.now ≡ [] }
{
    while let Some((first, others)) = rest.split_first() {
        *rest = others;
        if first.pair().label == label {
            return Some(first.held());
        }
    }
    None
}

impl<'a> Iterator for HeldIter<'a> {
    type Item = Held;

    ghost next_gives = { YieldsFirst (λ rest. rest) };

    ghost remaining = { item_count (λ rest. rest) };

    #[inline]
    fn next(&mut self) -> Option<Held> {
        if self.rest.is_empty() {
            self.rest = next_pairs(&mut self.parts, &mut self.bundles, &mut self.later);
        }
        let (first, rest) = self.rest.split_first()?;
        self.rest = rest;
        Some(first.held())
    }
}
