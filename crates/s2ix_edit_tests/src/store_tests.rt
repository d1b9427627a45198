//! Rows that are added or removed at once, a change that is taken back, and regions.
use s2id_samples::are_cells;
use s2ix_bag::Limits;
use s2ix_bag_samples::{
    LimitRow, WIDEST, are_changes, bag_of, holds_pairs, label_of, list_of, pair_of,
};
use s2ix_edit::{Edit, HeldLabel, RemoveError, Store, UndoError};
use s2ix_table::RangeTable;
use std::alloc::Global;

#[test]
fn rows_are_added_as_one_change(rt: HostRuntime) {
    let mut store = Store::new(rt.alloc(), Limits::default()).expect(&rt, "a store");
    let rows = list_of(rt.alloc(), "3:9:1 04:9:2 3:9:4 04:7:0").expect(&rt, "rows");
    assert!(rt; store.add_all(&rows) == Ok(2));
    assert!(rt; holds_pairs(store.bag(), "04:9:2 3:9:5"));
    assert!(rt; are_changes(store.done(), &["04:9:0:2 3:9:0:5"]));
    assert!(rt; store.undo() == Ok(2) && store.bag().is_empty());
}

// A store of three pairs.
fn three(alloc: Global, limits: LimitRow) -> Option<Store> {
    Store::from_bag(alloc, bag_of(alloc, limits, "04:9:2 3:9:5 5:9:1")?).ok()
}

#[test]
fn rows_are_removed_as_one_change(rt: HostRuntime) {
    let mut store = three(rt.alloc(), WIDEST).expect(&rt, "a store");
    let rows = list_of(rt.alloc(), "3:9:1 04:9:2 3:9:3 04:7:0").expect(&rt, "rows");
    assert!(rt; store.remove_all(&rows) == Ok(2) && store.faces_rebuilt() == 2);
    assert!(rt; holds_pairs(store.bag(), "3:9:1 5:9:1"));
    assert!(rt; are_changes(store.done(), &["04:9:2:0 3:9:5:1"]));
    assert!(rt; store.undo() == Ok(2) && holds_pairs(store.bag(), "04:9:2 3:9:5 5:9:1"));
}

// Why a store of three pairs doesn't remove rows; if it doesn't, it must stay as it is.
fn not_removed(alloc: Global, limits: LimitRow, rows: &str) -> Option<RemoveError> {
    let mut store = three(alloc, limits)?;
    let error = store.remove_all(&list_of(alloc, rows)?).err()?;
    if holds_pairs(store.bag(), "04:9:2 3:9:5 5:9:1") && store.done().is_empty() {
        Some(error)
    } else {
        None
    }
}

#[test]
fn the_first_row_that_is_not_held_is_told(rt: HostRuntime) {
    let place = |rows: &str| match not_removed(rt.alloc(), WIDEST, rows) {
        Some(RemoveError::NotHeld(place)) => Some(place),
        _ => None,
    };
    assert!(rt; place("04:9:3") == Some(0) && place("04:7:1") == Some(0));
    assert!(rt; place("3:9:3 04:9:1 3:9:2 04:9:2 5:9:9") == Some(3));
    assert!(rt; place("5:9:1 04:9:1 3:9:2 04:7:0 3:9:4") == Some(4));
    assert!(rt; place("3:9:4294967295 3:9:4294967295") == Some(0));
    assert!(rt; place("3:9:5 3:9:4294967295") == Some(1));
}

#[test]
fn rows_without_copies_remove_nothing(rt: HostRuntime) {
    assert!(rt; not_removed(rt.alloc(), WIDEST, "") == Some(RemoveError::NoChange));
    assert!(rt; not_removed(rt.alloc(), WIDEST, "3:9:0 04:7:0") == Some(RemoveError::NoChange));
    let mut store = three(rt.alloc(), (3, 5, 1)).expect(&rt, "a store");
    let rows = list_of(rt.alloc(), "3:9:1").expect(&rt, "rows");
    assert!(rt; store.remove_all(&rows) == Ok(1) && holds_pairs(store.bag(), "04:9:2 3:9:4 5:9:1"));
    assert!(rt; store.remove_all(&rows) == Err(RemoveError::JournalFull));
    let none = list_of(rt.alloc(), "").expect(&rt, "rows");
    assert!(rt; store.remove_all(&none) == Err(RemoveError::JournalFull));
}

#[test]
fn a_change_is_taken_back_and_all_forgotten(rt: HostRuntime) {
    let mut store = Store::new(rt.alloc(), Limits::default()).expect(&rt, "a store");
    let pair = pair_of("04:9").expect(&rt, "a pair");
    assert!(rt; store.edit(&Edit::Add { pair, copies: 2 }) == Ok(1));
    assert!(rt; store.edit(&Edit::Add { pair, copies: 3 }) == Ok(1));
    assert!(rt; store.edit(&Edit::Revert { number: 1 }) == Ok(1));
    assert!(rt; are_changes(store.done(), &["04:9:0:2", "04:9:2:5", "04:9:5:3"]));
    store.forget();
    assert!(rt; holds_pairs(store.bag(), "04:9:3"));
    assert!(rt; store.undo() == Err(UndoError::NothingToUndo));
}

#[test]
fn a_copy_is_edited_by_itself(rt: HostRuntime) {
    let mut store = Store::new(rt.alloc(), Limits::default()).expect(&rt, "a store");
    let pair = pair_of("04:9").expect(&rt, "a pair");
    assert!(rt; store.edit(&Edit::Add { pair, copies: 2 }) == Ok(1));
    let mut copy = store.copied().expect(&rt, "a copy");
    assert!(rt; holds_pairs(copy.bag(), "04:9:2") && copy.done().is_empty());
    assert!(rt; copy.table().range_count() == store.table().range_count());
    assert!(rt; copy.undo() == Err(UndoError::NothingToUndo));
    assert!(rt; copy.edit(&Edit::Add { pair, copies: 3 }) == Ok(1));
    assert!(rt; holds_pairs(copy.bag(), "04:9:5") && holds_pairs(store.bag(), "04:9:2"));
    assert!(rt; store.undo() == Ok(1) && holds_pairs(copy.bag(), "04:9:5"));
}

// Two sets of four siblings under the label 9, at two levels, and a cell of another label.
const TWO_SETS: &str = "01:9:1 03:9:2 05:9:1 07:9:1 0c:7:1 24:9:1 2c:9:1 34:9:3 3c:9:1";

// Whether a label's region has these cells, rising.
fn has_region(store: &Store, label: &str, tokens: &str) -> Option<bool> {
    let region = store.region(label_of(label)?).ok()?;
    Some(are_cells(region.cells(), tokens))
}

#[test]
fn a_region_has_the_fewest_cells(rt: HostRuntime) {
    let bag = bag_of(rt.alloc(), WIDEST, TWO_SETS).expect(&rt, "a bag");
    let store = Store::from_bag(rt.alloc(), bag).expect(&rt, "a store");
    assert!(rt; has_region(&store, "9", "04 3") == Some(true));
    assert!(rt; has_region(&store, "8", "") == Some(true));
}

#[test]
fn held_labels_have_their_totals(rt: HostRuntime) {
    let bag = bag_of(rt.alloc(), WIDEST, TWO_SETS).expect(&rt, "a bag");
    let store = Store::from_bag(rt.alloc(), bag).expect(&rt, "a store");
    let labels = store.held_labels().expect(&rt, "the labels");
    let wanted = [
        HeldLabel {
            label: label_of("7").expect(&rt, "a label"),
            pairs: 1,
            copies: 1,
        },
        HeldLabel {
            label: label_of("9").expect(&rt, "a label"),
            pairs: 8,
            copies: 11,
        },
    ];
    assert!(rt; &*labels == wanted.as_slice());
}
