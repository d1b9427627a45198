ghost use Rattle.std.specs.Prelude.{◌≡◌};
ghost use Rattle.s2ix_table_walk.specs.Costs.{no_cost};
ghost use Rattle.s2ix_table_walk.specs.Stretches.{IsSample, IsStretch};

use crate::bookmark::Bookmark;
use crate::stretch::Stretch;
use crate::table::RangeTable;
use s2ix_bag_pairs::Held;
use s2ix_table_walk::{Cost, LeafWindow, RangeRow, Reader, SAMPLE_STEP};

/// A reader of a table that counts what is read of it. It keeps two things at hand: the stretch of the part that it last went to, in
/// which a search reads where ranges begin, and the bookmark of the range that it read last.
#[derive(Debug, Drop)]
pub struct Meter<'a, T: RangeTable> {
    table: &'a T,
    cost: Cost,
    // the stretch of the part at hand
    near: Stretch<'a>,
    // where the table was read last
    last: Bookmark,
    pub ghost near_is: { IsStretch (T.ranges table.now) near.first near.count near.starts.now },
    pub ghost sample_is: { IsSample near.count near.starts.now near.sample.now },
}

impl<'a, T: RangeTable> Meter<'a, T> {
    /// A reader of a table that has read nothing. O(1).
    pub fn new(table: &'a T) -> Meter<'a, T>
        ensures shown { ⟦<Meter<'a, T> as Reader>⟧.shown result
            ≡ record { pairs = T.pairs table.now; ranges = T.ranges table.now; chain = T.chain table.now; borders = T.borders table.now } }
        ensures unread { ⟦<Meter<'a, T> as Reader>⟧.spent result ≡ no_cost }
    {
        Meter {
            table,
            cost: Cost::none(),
            near: Stretch::none(),
            last: Bookmark::none(),
        }
    }
}

impl<T: RangeTable> Reader for Meter<'_, T> {
    type Place = T::Place;

    ghost shown = { λ meter. record { pairs = T.pairs meter.table.now; ranges = T.ranges meter.table.now; chain = T.chain meter.table.now; borders = T.borders meter.table.now } };

    ghost spent = { λ meter. meter.cost };

    ghost is_shown = { λ meter. record { is_collection = T.is_collection meter.table.now; is_table = T.is_table meter.table.now; within_limit = T.within_limit meter.table.now; are_borders = T.are_borders meter.table.now } };

    fn range_count(&self) -> usize {
        self.table.range_count()
    }

    fn window(&mut self, leaf: u64) -> LeafWindow {
        self.cost.add_probe();
        self.table.window(leaf)
    }

    fn first(&self, k: usize) -> Option<T::Place> {
        self.table.first(k)
    }

    fn outer(&self, place: T::Place) -> Option<T::Place> {
        self.table.outer(place)
    }

    fn row(&mut self, k: usize) -> RangeRow {
        self.cost.add_probe();
        self.table.range(k)
    }

    fn start(&mut self, k: usize) -> u64 {
        self.cost.add_probe();
        let own = k.wrapping_sub(self.near.first);
        if own < self.near.count {
            return self.near.starts[own];
        }
        // without a bookmark, so that the compiler keeps the reading near one out of a search's loop
        self.table.read_near(k, Bookmark::none()).0.start
    }

    // The sample of the stretch at hand has every 16th range after the one before the stretch.
    fn sampled_by(&self, k: usize) -> usize {
        let after = k.wrapping_sub(self.near.first).wrapping_add(1);
        k.saturating_sub(after % SAMPLE_STEP)
    }

    fn sampled_start(&mut self, k: usize) -> u64 {
        let own = k.wrapping_sub(self.near.first);
        if own % SAMPLE_STEP == SAMPLE_STEP - 1 && own / SAMPLE_STEP < self.near.sample.len() {
            self.cost.add_probe();
            return self.near.sample[own / SAMPLE_STEP];
        }
        self.start(k)
    }

    fn border(&self, m: usize) -> usize {
        self.table.border(m)
    }

    fn border_start(&mut self, m: usize) -> u64 {
        self.cost.add_probe();
        self.table.border_start(m)
    }

    fn go_to(&mut self, m: usize) {
        self.near = self.table.stretch(m);
        self.last = self.near.bookmark;
    }

    fn row_and_first(&mut self, k: usize) -> (RangeRow, Option<T::Place>) {
        self.cost.add_probe();
        let (row, first, bookmark) = self.table.read_near(k, self.last);
        self.last = bookmark;
        (row, first)
    }

    fn node(&mut self, place: T::Place) -> Held {
        self.cost.add_look();
        self.table.held_at(place)
    }

    fn cost(&self) -> Cost {
        self.cost
    }
}
