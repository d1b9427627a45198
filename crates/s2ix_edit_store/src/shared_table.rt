//! A range table that a store shares with its copies.

ghost use Rattle.std.specs.Prelude.{◌≡◌, ◌≤◌, ◌+◌, ◌*◌, IfOk, OnErr, OnOk};
ghost use Rattle.s2ix_bag_pairs.specs.Change.{changed};
ghost use Rattle.s2ix_table_kept.specs.Faces.{changed_count, faces_of};
ghost use Rattle.s2ix_table_kept.specs.Reading.{two_searches};
ghost use Rattle.s2ix_table_walk.specs.Table.{IsRangeTable};

use s2id_core::OutOfMemory;
use s2ix_bag_changes::{Bag, Change};
use s2ix_table_kept::{KeptTable, PairReader};
use std::alloc::Global;
use std::marker::Model;
use std::sync::Arc;

// The range table of a store. It counts the stores that share it. Contracts see its pairs.
#[derive(Debug, Drop)]
pub(crate) struct SharedTable<T: KeptTable> {
    shared: Arc<T>,
}

impl<T: KeptTable> Model for SharedTable<T> {
    ghost use Rattle.s2ix_bag_pairs.specs.Collection.{Collection};

    ghost Value = { Collection };

    ghost view = { λ table. T.pairs table.shared.value };
}

impl<T: KeptTable> SharedTable<T> {
    // The range table of a bag. `OutOfMemory` if a growth is refused.
    pub(crate) fn build(alloc: Global, bag: &Bag) -> Result<SharedTable<T>, OutOfMemory>
        ensures { IfOk result (λ table. table ≡ bag.now.held) }
    {
        let shared = Arc::new(alloc, T::build(alloc, bag)?)?;
        Ok(SharedTable { shared })
    }

    // The same table, shared once more. O(1). `OutOfMemory` if it is shared too often.
    pub(crate) fn copied(&self) -> Result<SharedTable<T>, OutOfMemory>
        ensures { IfOk result (λ table. table ≡ self.now) }
    {
        Ok(SharedTable {
            shared: self.shared.clone()?,
        })
    }

    // The table.
    pub(crate) fn table(&self) -> &T
        ensures pairs { T.pairs result.now ≡ self.now }
        ensures table { IsRangeTable self.now (T.ranges result.now) }
    {
        &self.shared
    }

    // Makes this the table after a change: `bag` reads the pairs that the change has made. If no other store shares the table, it is changed
    // in place, at the cost of its `rebuild`. Otherwise it stays for the others, and a new one is made beside it, at the cost of `rebuilt`: for
    // a `FacedTable` of p parts O(p) more, since the new table shares the parts that stay. With `OutOfMemory` the table stays.
    pub(crate) fn rebuild<B: PairReader>(
        &mut self,
        alloc: Global,
        bag: &mut B,
        change: &Change,
    ) -> Result<(), OutOfMemory>
        requires unread { B.spent bag.old ≡ 0 }
        requires made { changed self.old change.now ≡ B.shown bag.old }
        ensures pairs { OnOk result (self.new ≡ B.shown bag.old) }
        ensures unchanged { OnErr result (self.new ≡ self.old) }
        ensures reads_all { OnOk result (changed_count change.now (B.shown bag.old) ≤ B.spent bag.new) }
        ensures reads_few { B.spent bag.new ≤ changed_count change.now (B.shown bag.old) + faces_of change.now * two_searches (B.shown bag.old) }
    {
        match Arc::get_mut(&mut self.shared) {
            Some(table) => table.rebuild(alloc, bag, change),
            None => {
                let table = self.shared.rebuilt(alloc, bag, change)?;
                self.shared = Arc::new(alloc, table)?;
                Ok(())
            }
        }
    }
}
