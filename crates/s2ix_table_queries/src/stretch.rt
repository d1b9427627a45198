ghost use Rattle.std.specs.Prelude.{List};
ghost use Rattle.s2ix_table_walk.specs.Table.{Range};
ghost use Rattle.s2ix_table_walk.specs.Stretches.{IsSample, IsStretch};

use crate::bookmark::Bookmark;

/// Consecutive ranges of a table, with a list of where each begins: `count` of them, from `first` on. A search among them reads this list.
#[derive(Clone, Copy, Debug)]
pub struct Stretch<'a> {
    /// The place of the first one.
    pub first: usize,
    /// How many there are.
    pub count: usize,
    /// Where each begins, and after the last one where it ends.
    pub starts: &'a [u64],
    /// Every 16th of the starts: the 16th, the 32nd and so on. Empty if the table keeps no such list.
    pub sample: &'a [u64],
    /// Where the first one is: [`read_near`](crate::RangeTable::read_near) is quick from there.
    pub bookmark: Bookmark,
}

impl Stretch<'_> {
    /// The stretch that has no range.
    pub fn none() -> Stretch<'static>
        ensures stretch { (ranges : List Range) → IsStretch ranges result.first result.count result.starts.now }
        ensures sample { IsSample result.count result.starts.now result.sample.now }
    {
        Stretch {
            first: 0,
            count: 0,
            starts: &[],
            sample: &[],
            bookmark: Bookmark::none(),
        }
    }
}
