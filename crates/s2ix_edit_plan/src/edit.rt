use s2id_union::CellUnion;
use s2ix_bag_pairs::{Label, Pair};

/// A step that changes a store's collection.
#[derive(Clone, Debug, Drop, PartialEq, Eq)]
pub enum Edit {
    /// Adds copies to the pair's count.
    Add { pair: Pair, copies: u32 },
    /// Adds one copy under the label for each cell of the union.
    AddUnion { union: CellUnion, label: Label },
    /// Takes copies from the pair's count.
    Remove { pair: Pair, copies: u32 },
    /// Takes away all copies of the label's pairs.
    DropLabel { label: Label },
    /// Moves all copies of `source` to `target`, cell by cell. If the two are one label that is held, nothing would change, and a store
    /// refuses that with `NoChange`.
    Relabel { source: Label, target: Label },
    /// Adds a ring around the label: one copy under it for each cell of the level that overlaps no cell of the label, but shares an edge
    /// with a cell of the level that overlaps one.
    Grow { label: Label, level: u8 },
    /// Replaces the label's pairs by one copy at each cell of the label's region.
    Normalise { label: Label },
    /// Takes back the change with the number, counted from 1 among those that can be undone: at each of its pairs it subtracts the
    /// difference (the count after less the count before). The changes that followed it stay.
    Revert { number: u32 },
}
