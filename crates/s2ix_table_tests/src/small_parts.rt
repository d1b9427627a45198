//! A bag in short parts and its table, which take the same changes.
ghost use Rattle.std.specs.Prelude.{◌≡◌};

use crate::samples::{are_same, union_of};
use s2id_samples::cell_of;
use s2ix_bag::{Bag, Change};
use s2ix_bag_samples::{WIDEST, limits_of};
use s2ix_table::{BagReader, ChainTable, FacedPlace, FacedTable, RangeTable};
use std::alloc::Global;
use std::mem::replace;

// A bag in short parts, and its table.
#[derive(Drop)]
pub(crate) struct Both {
    pub(crate) bag: Bag,
    pub(crate) table: FacedTable,
    ghost same: { ⟦<FacedTable as RangeTable>⟧.pairs table ≡ bag.held },
}

impl Both {
    // No pairs, in parts of at most so many.
    pub(crate) fn empty(alloc: Global, most: usize) -> Option<Both> {
        let bag = Bag::in_parts_of(limits_of(WIDEST)?, most);
        let table = FacedTable::build(alloc, &bag).ok()?;
        Some(Both { bag, table })
    }

    // Makes a change of the bag, and of its table in place.
    pub(crate) fn take(&mut self, alloc: Global, change: &Change) -> Option<()> {
        let next = self.bag.applied(alloc, change).ok()?;
        let mut reader = BagReader::new(&next);
        self.table.rebuild(alloc, &mut reader, change).ok()?;
        self.bag = next;
        Some(())
    }

    // Makes a change that gives a new bag and, beside the table, a new one. Hands out those from before.
    pub(crate) fn take_beside(&mut self, alloc: Global, change: &Change) -> Option<Both> {
        let bag = self.bag.applied(alloc, change).ok()?;
        let mut reader = BagReader::new(&bag);
        let table = self.table.rebuilt(alloc, &mut reader, change).ok()?;
        Some(replace(self, Both { bag, table }))
    }

    // Whether the table has the same ranges as a table of the bag that has no parts, with the same pairs over them, and the same pairs meet
    // the cells that some tokens name.
    pub(crate) fn is_whole(&self, alloc: Global, tokens: &str) -> Option<bool> {
        let plain = ChainTable::build(alloc, &self.bag).ok()?;
        let target = union_of(alloc, tokens)?;
        let met = self.table.meeting(alloc, &target).ok()?;
        let right = plain.meeting(alloc, &target).ok()?;
        Some(met.as_slice() == right.as_slice() && are_same(&self.table, &plain))
    }

    // Whether the innermost pair over a leaf is heavy.
    pub(crate) fn is_heavy_over(&self, token: &str) -> bool {
        match cell_of(token) {
            Some(leaf) if leaf.level() == 30 => {
                matches!(self.table.first_over(leaf), Some(FacedPlace::Heavy(_)))
            }
            _ => false,
        }
    }

    // Whether the two innermost pairs over a leaf are heavy, and each is the first of its chunk. Only what is printed of a place says where in
    // a chunk it is.
    pub(crate) fn has_chunks_of_one_over(&self, alloc: Global, token: &str) -> Option<bool> {
        let leaf = cell_of(token)?;
        if leaf.level() != 30 {
            return None;
        }
        let first = self.table.first_over(leaf)?;
        let second = self.table.outer(first)?;
        let printed = format!(in alloc; "{first:?} {second:?}").ok()?;
        let are_heavy = matches!(
            (first, second),
            (FacedPlace::Heavy(_), FacedPlace::Heavy(_))
        );
        Some(are_heavy && !printed.contains("node: 1"))
    }
}
