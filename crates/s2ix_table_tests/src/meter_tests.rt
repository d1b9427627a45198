//! What a visit says that it read, beside what it asked its table. No clause compares the two.
use crate::samples::union_of;
use crate::table_tests::visit_all;
use s2id_core::{CellId, OutOfMemory};
use s2id_samples::SET_UP;
use s2id_union::CellUnion;
use s2ix_bag::{Bag, Held};
use s2ix_bag_samples::{WIDEST, change_of, limits_of};
use s2ix_table::{ChainTable, Cost, FacedTable, LeafWindow, RangeRow, RangeTable};
use std::alloc::Global;
use std::cell::Cell;

// A table that counts what is asked of it.
#[derive(Drop)]
struct Counted<T: RangeTable + Drop> {
    table: T,
    looks: Cell<u64>,
    probes: Cell<u64>,
}

// Counts one more.
fn count(number: &Cell<u64>) {
    number.set(number.get().saturating_add(1));
}

impl<T: RangeTable + Drop> RangeTable for Counted<T> {
    type Place = T::Place;

    ghost pairs = { λ t. T.pairs t.table };

    ghost ranges = { λ t. T.ranges t.table };

    ghost borders = { λ t. T.borders t.table };

    ghost chain = { λ t p. T.chain t.table p };

    ghost is_collection = { λ t. T.is_collection t.table };

    ghost is_table = { λ t. T.is_table t.table };

    ghost are_borders = { λ t. T.are_borders t.table };

    ghost within_limit = { λ t. T.within_limit t.table };

    fn build(alloc: Global, bag: &Bag) -> Result<Self, OutOfMemory> {
        let table = T::build(alloc, bag)?;
        Ok(Counted {
            table,
            looks: Cell::new(0),
            probes: Cell::new(0),
        })
    }

    fn range_count(&self) -> usize {
        self.table.range_count()
    }

    fn range(&self, k: usize) -> RangeRow {
        count(&self.probes);
        self.table.range(k)
    }

    fn window(&self, leaf: u64) -> LeafWindow {
        count(&self.probes);
        self.table.window(leaf)
    }

    fn border(&self, m: usize) -> usize {
        self.table.border(m)
    }

    fn first(&self, k: usize) -> Option<T::Place> {
        self.table.first(k)
    }

    fn held_at(&self, place: T::Place) -> Held {
        count(&self.looks);
        self.table.held_at(place)
    }

    fn outer(&self, place: T::Place) -> Option<T::Place> {
        self.table.outer(place)
    }

    fn find(&self, leaf: CellId) -> usize {
        self.table.find(leaf)
    }
}

// Pairs over each other and beside each other, in several parts if these have at most two.
const PAIRS: &str =
    "01:1:0:1 03:1:0:1 05:1:0:1 09:1:0:1 0b:1:0:1 0d:1:0:1 11:1:0:1 15:2:0:1 19:1:0:1 24:1:0:1 3:1:0:1";

// A bag of these pairs in such parts.
fn bag(alloc: Global) -> Option<Bag> {
    let change = change_of(alloc, PAIRS)?;
    Bag::in_parts_of(limits_of(WIDEST)?, 2)
        .applied(alloc, &change)
        .ok()
}

// Whether a kind of table of a bag was asked for as much as the visit of a target says. Whatever it asks for without a visit isn't counted.
fn is_told<T: RangeTable + Drop>(alloc: Global, bag: &Bag, target: &CellUnion) -> Option<bool> {
    let table = Counted::<T>::build(alloc, bag).ok()?;
    let visit = visit_all(&table, target, &mut |_| true);
    let asked = Cost {
        looks: table.looks.get(),
        probes: table.probes.get(),
    };
    Some(visit.whole && visit.cost == asked && asked.looks > 5 && asked.probes > 5)
}

#[test]
fn a_visit_tells_what_it_read(rt: HostRuntime) {
    let bag = bag(rt.alloc()).expect(&rt, SET_UP);
    let target = union_of(rt.alloc(), "03 0c 1 24").expect(&rt, SET_UP);
    assert!(rt; is_told::<ChainTable>(rt.alloc(), &bag, &target) == Some(true));
    assert!(rt; is_told::<FacedTable>(rt.alloc(), &bag, &target) == Some(true));
}
