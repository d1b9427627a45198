//! Filters of labels, by which a search for a label's pairs passes over lists that have none.
ghost use Rattle.std.specs.Prelude.{◌≡◌, ◌↔◌, ◌<◌, ℕ, IsTrue};
ghost use Rattle.s2ix_bag_held.specs.LabelFilter.{LetsThrough, LetsThroughAll, LetsThroughEntries, bits_of as bits_in, spread as spread_of, word_of as word_in};
ghost use Rattle.s2ix_bag_pairs.specs.Label.{value_of};

use crate::flat::FlatHeld;
use s2ix_bag_pairs::{Entry, Label};
use std::marker::Model;

// How many words of 64 bits a filter has.
const WORDS: usize = 16;

/// A set of labels that may be larger than what was put into it: each label has at most three bits of one word, which others may have too.
/// Contracts see the words.
#[derive(Clone, Copy, Debug)]
pub(crate) struct LabelFilter {
    words: [u64; WORDS],
}

impl Model for LabelFilter {
    ghost use Rattle.std.specs.Prelude.{ℕ, List};

    ghost Value = { List ℕ };

    ghost view = { λ filter. filter.words };

    ghost inverse = { λ words. record { words = words } };
}

// The label's number, one higher so that 0 has several bits too, spread over 64 bits.
fn spread(label: Label) -> u64
    ensures { result ≡ spread_of (value_of label) }
{
    (u64::from(label.get()) + 1).wrapping_mul(0x9e37_79b9_7f4a_7c15)
}

// Which word has the label's bits.
fn word_of(label: Label) -> usize
    ensures word { result ≡ word_in (value_of label) }
    ensures within { result < 16 }
{
    (spread(label) >> 60) as usize
}

// The label's bits in that word.
fn bits_of(label: Label) -> u64
    ensures { result ≡ bits_in (value_of label) }
{
    let spread = spread(label);
    1 << (spread >> 54) % 64 | 1 << (spread >> 48) % 64 | 1 << (spread >> 42) % 64
}

impl LabelFilter {
    /// The filter that lets no label through.
    pub(crate) fn none() -> LabelFilter {
        LabelFilter { words: [0; WORDS] }
    }

    /// The filter that lets all labels through.
    pub(crate) fn all() -> LabelFilter
        ensures { (label : ℕ) → LetsThrough result label }
    {
        LabelFilter {
            words: [u64::MAX; WORDS],
        }
    }

    /// The filter that lets the labels of some pairs through. O(n) for n pairs.
    pub(crate) fn of_pairs(held: &[FlatHeld]) -> LabelFilter
        ensures { LetsThroughAll result held.now }
    {
        let mut filter = LabelFilter::none();
        for held in held {
            filter.add(held.pair().label);
        }
        filter
    }

    /// Lets a label through from now on.
    #[inline]
    pub(crate) fn add(&mut self, label: Label)
        ensures own { LetsThrough self.new (value_of label) }
        ensures others { (other : ℕ) → LetsThrough self.old other → LetsThrough self.new other }
    {
        self.words[word_of(label)] |= bits_of(label);
    }

    /// Lets the labels of some entries through from now on. O(m) for m entries.
    pub(crate) fn add_entries(&mut self, entries: &[Entry])
        ensures own { LetsThroughEntries self.new entries.now }
        ensures others { (other : ℕ) → LetsThrough self.old other → LetsThrough self.new other }
    {
        for entry in entries {
            self.add(entry.pair.label);
        }
    }

    /// Whether a label is let through. O(1).
    #[inline]
    pub(crate) fn lets_through(&self, label: Label) -> bool
        ensures { IsTrue result ↔ LetsThrough self.now (value_of label) }
    {
        let word = self.words[word_of(label)];
        word | bits_of(label) == word
    }
}
