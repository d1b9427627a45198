/// A range's span of leaves, over which the same pairs lie (S2's `RangeNode`).
#[derive(Clone, Copy, Debug, PartialEq, Eq, Hash)]
pub struct RangeRow {
    /// The number of the first leaf.
    pub start: u64,
    /// The leaf number after that of the last leaf.
    pub limit: u64,
}
