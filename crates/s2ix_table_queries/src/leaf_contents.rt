ghost use Rattle.std.specs.Prelude.{◌≤◌, ◌<◌, IsTrue};

use crate::bookmark::Bookmark;
use s2ix_bag_held::FlatHeld;

/// What lies over each leaf of a span, innermost first: a chain in two lists, from the pair at the place `innermost` on, and then the chain
/// from the place `rest` of the table.
#[derive(Debug, Drop)]
pub struct LeafContents<'a, P: Copy> {
    /// The number of the first leaf of the span.
    pub start: u64,
    /// The leaves of the span have numbers below this one.
    pub limit: u64,
    /// The first list: pairs, those of other chains too.
    pub held: &'a [FlatHeld],
    /// The second list: for each pair the place of the next one outwards; `held.len()` or more if it is the last of its chain in the lists.
    pub outers: &'a [u32],
    /// The place in the lists of the innermost pair; `held.len()` or more if it isn't there.
    pub innermost: u32,
    /// The place in the table from which the chain goes on after the lists, or `None` if it ends there.
    pub rest: Option<P>,
    /// Where the table keeps their range.
    pub bookmark: Bookmark,
}

impl<P: Copy> LeafContents<'_, P> {
    /// Whether the leaf of a number lies in the span of these contents. O(1).
    #[inline]
    pub fn has_leaf(&self, number: u64) -> bool
        ensures from { IsTrue result → self.now.start ≤ number }
        ensures limit { IsTrue result → number < self.now.limit }
        ensures over { self.now.start ≤ number → number < self.now.limit → IsTrue result }
    {
        // a number before the start wraps to a great one
        number.wrapping_sub(self.start) < self.limit.saturating_sub(self.start)
    }
}
