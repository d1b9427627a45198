ghost use Rattle.std.specs.Prelude.{◌≡◌, ◌≤◌, None, IfSome};
ghost use Rattle.std.specs.Iterator.{YieldsFirst, item_count};
ghost use Rattle.s2id_union.specs.Covers.{FollowOneAnother};
ghost use Rattle.s2ix_table_walk.specs.Meeting.{first_shared, meeting_of};
ghost use Rattle.s2ix_table_walk.specs.Costs.{no_cost, ranges_met, ranges_met_by, IsWalkCost};
ghost use Rattle.s2ix_table_walk.specs.Walking.{IsWalk, HasPaid};

use crate::along_ranges::next_met;
use crate::reader::Reader;
use crate::walk_state::{KnownWindow, WalkState};
use s2id_core::CellId;
use s2id_union::CellUnion;
use s2ix_bag_pairs::Held;

/// An iterator over the meeting list of a target: the held pairs whose cells share a leaf with the target, each once. When the next pair is
/// asked for, it reads the table on as far as that pair, and no farther. Over every kind of table, what meets a union is found by it. It does not
/// allocate. To go through all k pairs takes O(k + r + t log n), if the target has t cells, and these meet r of the table's n ranges.
pub struct Meeting<'a, R: Reader> {
    reader: &'a mut R,
    cells: &'a [CellId],
    walk: WalkState<R::Place>,
    ghost follow: { FollowOneAnother cells.now },
    ghost walks: { IsWalk (R.shown reader.now) cells.now walk },
    ghost paid: { HasPaid (R.shown reader.now) cells.now walk (R.spent reader.now) },
}

impl<'a, R: Reader> Meeting<'a, R> {
    ghost use Rattle.s2ix_table_walk.specs.Meetings.{reader_in, target_in, left_in, given_in};

    /// The meeting list of a target, over a reader that has read nothing.
    pub fn new(reader: &'a mut R, target: &'a CellUnion) -> Meeting<'a, R>
        requires { R.spent reader.old ≡ no_cost }
        ensures reference { (reader_in result).ghost_name ≡ reader.entry.ghost_name }
        ensures shown { R.shown (reader_in result).now ≡ R.shown reader.old }
        ensures cells { target_in result ≡ target.now }
        ensures left { left_in result ≡ meeting_of target.now (R.shown reader.old).pairs }
    {
        Meeting::of_cells(reader, target.cells())
    }

    /// The meeting list of a target that is given by its cells, over a reader that has read nothing. The cells follow one another along the
    /// curve, none within another, and need not be normal: four of them may be all the children of one.
    pub fn of_cells(reader: &'a mut R, cells: &'a [CellId]) -> Meeting<'a, R>
        requires unread { R.spent reader.old ≡ no_cost }
        requires follow { FollowOneAnother cells.now }
        ensures reference { (reader_in result).ghost_name ≡ reader.entry.ghost_name }
        ensures shown { R.shown (reader_in result).now ≡ R.shown reader.old }
        ensures cells { target_in result ≡ cells.now }
        ensures left { left_in result ≡ meeting_of cells.now (R.shown reader.old).pairs }
    {
        let walk = WalkState {
            cell: 0,
            range: 0,
            seen: 1,
            from: 1,
            place: None,
            known: KnownWindow::none(),
        };
        Meeting {
            reader,
            cells,
            walk,
        }
    }

    /// The next pair, or `None` after the last one. After each call the reader has counted at most as much as a [`walk`] that has given as
    /// many pairs. If there is a pair, it has counted at least one probe for each range that the target meets up to the first leaf that it
    /// shares with the pair; after `None`, one for each range that it meets.
    ///
    /// [`walk`]: crate::walk
    #[inline(always)]
    pub fn advance(&mut self) -> Option<Held>
        ensures reference { (reader_in self.new).ghost_name ≡ (reader_in self.old).ghost_name }
        ensures shown { R.shown (reader_in self.new).now ≡ R.shown (reader_in self.old).now }
        ensures cells { target_in self.new ≡ target_in self.old }
        ensures yields { YieldsFirst left_in self.old result self.new }
        ensures cost { IsWalkCost
            (target_in self.new)
            (R.shown (reader_in self.new).now).pairs
            (R.shown (reader_in self.new).now).ranges
            (given_in self.new)
            (R.spent (reader_in self.new).now) }
        ensures least_probes { IfSome result (λ held. ranges_met_by (target_in self.new) (R.shown (reader_in self.new).now).ranges
            (first_shared (target_in self.new) held.pair.cell) ≤ (R.spent (reader_in self.new).now).probes) }
        ensures whole_probes { result ≡ None
            → ranges_met (target_in self.new) (R.shown (reader_in self.new).now).ranges ≤ (R.spent (reader_in self.new).now).probes }
    {
        next_met(self.reader, self.cells, &mut self.walk)
    }
}

impl<'a, R: Reader> Drop for Meeting<'a, R> {
    fn drop(self)
        ensures { self.exit.0.now ≡ self.entry.reader.now }
    {
        let Self {
            reader: _,
            cells: _,
            walk: _,
        } = self;
    }
}

impl<R: Reader> Iterator for Meeting<'_, R> {
    ghost use Rattle.s2ix_table_walk.specs.Meetings.{left_in};

    type Item = Held;

    ghost next_gives = { YieldsFirst left_in };

    ghost remaining = { item_count left_in };

    fn next(&mut self) -> Option<Held> {
        self.advance()
    }
}
