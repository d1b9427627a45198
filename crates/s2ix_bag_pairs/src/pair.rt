ghost use Rattle.std.specs.Prelude.{◌↔◌, ◌<◌, IsTrue};
ghost use Rattle.s2ix_bag_pairs.specs.Pair.{rank_of};

use crate::label::Label;
use s2id_core::CellId;

/// A cell under a label: what a collection counts (S2's `LabelledCell`). Pairs are ordered by cell, then by label.
#[derive(Clone, Copy, Debug, PartialEq, Eq, PartialOrd, Ord, Hash)]
pub struct Pair {
    /// The cell, of any level.
    pub cell: CellId,
    /// The label, 0 to 2147483647.
    pub label: Label,
}

impl Pair {
    /// Whether this pair comes before another: by cell, then by label, as `<` says.
    pub fn is_before(self, other: Pair) -> bool
        ensures { IsTrue result ↔ (rank_of self < rank_of other) }
    {
        self < other
    }
}

/// A pair that a collection holds, with its count. S2 gives each copy of a pair by itself.
#[derive(Clone, Copy, Debug, PartialEq, Eq, Hash)]
pub struct Held {
    /// The pair.
    pub pair: Pair,
    /// How many copies of it are held: at least 1, and in a bag at most the limit.
    pub count: u32,
}

/// A pair in a change, with its counts before and after; 0 is the count of a pair that is not held.
#[derive(Clone, Copy, Debug, PartialEq, Eq, Hash)]
pub struct Entry {
    /// The pair.
    pub pair: Pair,
    /// Its count before the change, in copies.
    pub before: u32,
    /// Its count after the change, in copies. In a change it differs from `before`.
    pub after: u32,
}
