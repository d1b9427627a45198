ghost use Rattle.std.specs.Prelude.{◌≡◌, ◌≤◌, ◌+◌, ◌*◌, IfOk, OnErr, OnOk};
ghost use Rattle.s2ix_bag_pairs.specs.Change.{changed};
ghost use Rattle.s2ix_table_kept.specs.Faces.{changed_count, faces_of};
ghost use Rattle.s2ix_table_kept.specs.Reading.{two_searches};

use crate::pair_reader::PairReader;
use s2id_core::OutOfMemory;
use s2ix_bag_changes::Change;
use s2ix_table_queries::RangeTable;
use std::alloc::Global;
use std::fmt::Debug;

/// What a store asks of its range table: to follow the changes of its collection.
pub trait KeptTable: RangeTable + Debug + Drop {
    /// Makes this table that of its pairs after a change: `bag` reads the pairs that the change has made of them. With q pairs on the f
    /// faces on which the change has entries and n in all it reads q to q + 2 * f * digits(n + 1) pairs, for the binary digits of n + 1.
    /// `OutOfMemory` if a growth is refused, or what stays is shared too often: then the table shows the same pairs, and it has read at most
    /// so many.
    fn rebuild<B: PairReader>(
        &mut self,
        alloc: Global,
        bag: &mut B,
        change: &Change,
    ) -> Result<(), OutOfMemory>
        requires unread { B.spent bag.old ≡ 0 }
        requires made { changed (Self.pairs self.old) change.now ≡ B.shown bag.old }
        ensures pairs { OnOk result (Self.pairs self.new ≡ B.shown bag.old) }
        ensures stays { OnErr result (Self.pairs self.new ≡ Self.pairs self.old) }
        ensures same { B.shown bag.new ≡ B.shown bag.old }
        ensures reads_all { OnOk result (changed_count change.now (B.shown bag.old) ≤ B.spent bag.new) }
        ensures reads_few { B.spent bag.new ≤ changed_count change.now (B.shown bag.old) + faces_of change.now * two_searches (B.shown bag.old) };

    /// The table after a change, as [`rebuild`](KeptTable::rebuild) makes it, beside this one: the two may share what stays. `OutOfMemory`
    /// if a growth is refused, or what they share is shared too often.
    fn rebuilt<B: PairReader>(
        &self,
        alloc: Global,
        bag: &mut B,
        change: &Change,
    ) -> Result<Self, OutOfMemory>
        requires unread { B.spent bag.old ≡ 0 }
        requires made { changed (Self.pairs self.now) change.now ≡ B.shown bag.old }
        ensures pairs { IfOk result (λ table. Self.pairs table ≡ B.shown bag.old) }
        ensures same { B.shown bag.new ≡ B.shown bag.old }
        ensures reads_all { OnOk result (changed_count change.now (B.shown bag.old) ≤ B.spent bag.new) }
        ensures reads_few { B.spent bag.new ≤ changed_count change.now (B.shown bag.old) + faces_of change.now * two_searches (B.shown bag.old) };
}
