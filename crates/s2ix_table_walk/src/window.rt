/// Consecutive items of a list, such as ranges of a table or its borders: `size` of them, from `first` on.
#[derive(Clone, Copy, Debug, PartialEq, Eq)]
pub struct Window {
    /// The place of the first one.
    pub first: usize,
    /// How many there are.
    pub size: usize,
}

/// Where a table has a leaf, and the leaves after it.
#[derive(Clone, Copy, Debug)]
pub struct LeafWindow {
    /// Neighbouring ranges: one of them has the leaf.
    pub ranges: Window,
    /// The borders inside of these ranges, as a window of the borders. The first range is in the part that begins at the border before them.
    pub borders: Window,
    /// Each leaf from that one on and before this number is in one of these ranges too.
    pub until: u64,
}
