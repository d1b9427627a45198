ghost use Rattle.std.specs.Prelude.{◌≡◌};
ghost use Rattle.std.specs.Iterator.{YieldsFirst, item_count};
ghost use Rattle.s2ix_bag_pairs.specs.OfLabel.{held_of};

use s2ix_bag_lists::HeldIter;
use s2ix_bag_pairs::{Held, Label};
use std::marker::Model;

/// The pairs that a bag holds with one label, with their counts, by rising cell; made by [`Bag::of_label`](crate::Bag::of_label). Contracts
/// see the list of those still to come. `of_label` says what it costs to go through all of them.
#[derive(Clone, Debug, Drop)]
pub struct LabelIter<'a> {
    label: Label,
    rest: HeldIter<'a>,
}

impl<'a> Model for LabelIter<'a> {
    ghost use Rattle.s2ix_bag_pairs.specs.Collection.{Collection};
    ghost use Rattle.s2ix_bag_pairs.specs.OfLabel.{held_of};

    ghost Value = { Collection };

    ghost view = { λ s. held_of s.label s.rest };
}

impl<'a> LabelIter<'a> {
    // Those of the held pairs that have the label.
    pub(crate) fn new(label: Label, held: HeldIter<'a>) -> LabelIter<'a>
        ensures { result ≡ held_of label held.entry }
    {
        LabelIter { label, rest: held }
    }
}

impl<'a> Iterator for LabelIter<'a> {
    type Item = Held;

    ghost next_gives = { YieldsFirst (λ rest. rest) };

    ghost remaining = { item_count (λ rest. rest) };

    fn next(&mut self) -> Option<Held> {
        self.rest.next_of(self.label)
    }
}
