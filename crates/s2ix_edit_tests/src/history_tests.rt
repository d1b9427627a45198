//! Histories that are cut short, taken up again, joined and passed on to another store.
use s2ix_bag::{Bag, Limits};
use s2ix_bag_samples::{
    LimitRow, WIDEST, are_changes, bag_of, change_of, changes_of, holds_pairs, limits_of, pair_of,
};
use s2ix_edit::{
    Edit, EditError, HistoryError, JoinError, RecordError, RedoError, Store, UndoError,
};
use std::alloc::Global;

// A store that was given 2, then 3, then 4 copies of a pair, and took the last back.
fn edited(alloc: Global, limits: Limits) -> Option<Store> {
    let mut store = Store::new(alloc, limits).ok()?;
    let pair = pair_of("04:9")?;
    for copies in [2, 3, 4] {
        store.edit(&Edit::Add { pair, copies }).ok()?;
    }
    store.undo().ok()?;
    Some(store)
}

// A store of these pairs to which these changes led, under limits.
fn led_within(
    alloc: Global,
    limits: LimitRow,
    pairs: &str,
    texts: &[&str],
) -> Option<Result<Store, HistoryError>> {
    let bag: Bag = bag_of(alloc, limits, pairs)?;
    Some(Store::with_history(alloc, bag, changes_of(alloc, texts)?))
}

// The same under the widest limits.
fn led(alloc: Global, pairs: &str, texts: &[&str]) -> Option<Result<Store, HistoryError>> {
    led_within(alloc, WIDEST, pairs, texts)
}

#[test]
fn older_changes_are_forgotten(rt: HostRuntime) {
    let mut store = edited(rt.alloc(), Limits::default()).expect(&rt, "a store");
    store.forget_older(2);
    assert!(rt; are_changes(store.done(), &["04:9:0:2", "04:9:2:5"]));
    store.forget_older(1);
    assert!(rt;
        are_changes(store.done(), &["04:9:2:5"]) && are_changes(store.undone(), &["04:9:5:9"])
    );
    assert!(rt; holds_pairs(store.bag(), "04:9:5"));
    assert!(rt; store.redo() == Ok(1) && store.undo() == Ok(1) && store.undo() == Ok(1));
    assert!(rt;
        holds_pairs(store.bag(), "04:9:2") && store.undo() == Err(UndoError::NothingToUndo)
    );
    store.forget_older(0);
    assert!(rt; store.redo() == Ok(1) && holds_pairs(store.bag(), "04:9:5"));
}

#[test]
fn a_history_is_taken_up_again(rt: HostRuntime) {
    let mut store = led(rt.alloc(), "04:9:5", &["04:9:0:2", "04:9:2:5"])
        .expect(&rt, "a list")
        .expect(&rt, "a store");
    assert!(rt; are_changes(store.done(), &["04:9:0:2", "04:9:2:5"]) && store.undone().is_empty());
    assert!(rt; holds_pairs(store.bag(), "04:9:5") && store.faces_rebuilt() == 0);
    assert!(rt; store.undo() == Ok(1) && store.undo() == Ok(1) && store.bag().is_empty());
    assert!(rt; store.redo() == Ok(1) && holds_pairs(store.bag(), "04:9:2"));
}

#[test]
fn a_history_must_lead_to_its_bag(rt: HostRuntime) {
    let refusal = |pairs: &str, texts: &[&str]| led(rt.alloc(), pairs, texts).map(
        |made| made.err(),
    );
    assert!(rt;
        refusal("04:9:5", &["04:9:0:2", "04:9:2:4"])
            == Some(Some(HistoryError::Mismatch {
                change: 2,
                entry: 1
            }))
    );
    assert!(rt;
        refusal("04:9:5", &["04:9:0:1", "04:9:2:5"])
            == Some(Some(HistoryError::Mismatch {
                change: 1,
                entry: 1
            }))
    );
    assert!(rt;
        refusal("04:9:5", &["04:9:0:2", "", "04:9:2:4"])
            == Some(Some(HistoryError::NoChange { change: 2 }))
    );
}

#[test]
fn a_history_stays_within_the_limits(rt: HostRuntime) {
    let refusal = |pairs: &str, texts: &[&str]| led_within(rt.alloc(), (2, 5, 9), pairs, texts).map(
        |made| made.err(),
    );
    assert!(rt;
        refusal("04:9:3 1:3:1", &["0c:7:1:0"])
            == Some(Some(HistoryError::TooManyPairs { change: 1 }))
    );
    assert!(rt;
        refusal("04:9:3 1:3:1", &["0c:7:1:0", "04:9:2:3"])
            == Some(Some(HistoryError::TooManyPairs { change: 1 }))
    );
    assert!(rt;
        refusal("04:9:5", &["04:9:6:5"]) == Some(Some(HistoryError::TooManyCopies { change: 1 }))
    );
    assert!(rt;
        refusal("04:9:5", &["04:9:6:4", "04:9:4:5"])
            == Some(Some(HistoryError::TooManyCopies { change: 1 }))
    );
}

#[test]
fn a_full_journal_is_redone(rt: HostRuntime) {
    let limits = limits_of((2, 5, 1)).expect(&rt, "limits");
    let mut store = Store::new(rt.alloc(), limits).expect(&rt, "a store");
    let pair = pair_of("04:9").expect(&rt, "a pair");
    assert!(rt; store.edit(&Edit::Add { pair, copies: 2 }) == Ok(1));
    assert!(rt; store.undo() == Ok(1) && store.redo() == Ok(1));
    assert!(rt; store.edit(&Edit::Add { pair, copies: 2 }) == Err(EditError::JournalFull));
}

#[test]
fn the_last_changes_are_joined(rt: HostRuntime) {
    let mut store = edited(rt.alloc(), Limits::default()).expect(&rt, "a store");
    assert!(rt; store.join(3) == Err(JoinError::TooFewChanges));
    assert!(rt; store.join(0) == Ok(0) && store.join(1) == Ok(1));
    assert!(rt; are_changes(store.done(), &["04:9:0:2", "04:9:2:5"]));
    assert!(rt; store.join(2) == Ok(1) && are_changes(store.done(), &["04:9:0:5"]));
    assert!(rt; are_changes(store.undone(), &["04:9:5:9"]) && holds_pairs(store.bag(), "04:9:5"));
    assert!(rt; store.redo() == Ok(1) && store.undo() == Ok(1) && store.undo() == Ok(1));
    assert!(rt;
        store.bag().is_empty() && store.redo() == Ok(1) && holds_pairs(store.bag(), "04:9:5")
    );
}

// Two pairs go and come back, one grows twice, and one comes last.
const FIRST: &str = "04:9:0:5 1:2:0:3 3:7:0:1";

const SECOND: &str = "04:9:5:0 3:7:1:2";

const THIRD: &str = "1:2:3:0";

const FOURTH: &str = "04:9:0:5 3:7:2:4";

const FIFTH: &str = "1:2:0:3 5:2:0:6";

const ALL: &[&str] = &[FIRST, SECOND, THIRD, FOURTH, FIFTH];

const LATER: &[&str] = &[SECOND, THIRD, FOURTH, FIFTH];

#[test]
fn many_changes_are_joined(rt: HostRuntime) {
    let mut store = led(rt.alloc(), "04:9:5 1:2:3 3:7:4 5:2:6", ALL)
        .expect(&rt, "a list")
        .expect(&rt, "a store");
    assert!(rt; store.join(1) == Ok(2) && are_changes(store.done(), ALL));
    assert!(rt; store.join(4) == Ok(2) && are_changes(store.done(), &[FIRST, "3:7:1:4 5:2:0:6"]));
    assert!(rt; store.undo() == Ok(2) && holds_pairs(store.bag(), "04:9:5 1:2:3 3:7:1"));
    assert!(rt; store.redo() == Ok(2) && store.join(2) == Ok(4));
    assert!(rt; are_changes(store.done(), &["04:9:0:5 1:2:0:3 3:7:0:4 5:2:0:6"]));
    assert!(rt; store.undo() == Ok(4) && store.bag().is_empty());
}

#[test]
fn changes_that_cancel_out_are_gone(rt: HostRuntime) {
    let mut store = edited(rt.alloc(), Limits::default()).expect(&rt, "a store");
    let pair = pair_of("3:7").expect(&rt, "a pair");
    assert!(rt; store.edit(&Edit::Add { pair, copies: 1 }) == Ok(1));
    assert!(rt; store.edit(&Edit::Remove { pair, copies: 1 }) == Ok(1));
    assert!(rt; store.join(2) == Ok(0) && are_changes(store.done(), &["04:9:0:2", "04:9:2:5"]));
    assert!(rt; store.undo() == Ok(1) && holds_pairs(store.bag(), "04:9:2"));
}

#[test]
fn changes_of_another_store_are_done(rt: HostRuntime) {
    let mut store = Store::new(rt.alloc(), Limits::default()).expect(&rt, "a store");
    let changes = changes_of(rt.alloc(), &["04:9:0:2 3:7:0:1", "04:9:2:5"]).expect(&rt, "changes");
    assert!(rt; store.apply(changes) == Ok(2) && store.faces_rebuilt() == 2);
    assert!(rt;
        are_changes(store.done(), &["04:9:0:2 3:7:0:1", "04:9:2:5"])
            && holds_pairs(store.bag(), "04:9:5 3:7:1")
    );
    assert!(rt; store.undo() == Ok(1) && holds_pairs(store.bag(), "04:9:2 3:7:1"));
    assert!(rt;
        store.apply(Vec::new(rt.alloc())) == Ok(0) && store.redo() == Ok(1) && store.undo() == Ok(1)
    );
    let late = changes_of(rt.alloc(), &["3:7:1:0", "04:9:5:6"]).expect(&rt, "changes");
    assert!(rt;
        store.apply(late)
            == Err(HistoryError::Mismatch {
                change: 2,
                entry: 1
            })
    );
    assert!(rt; holds_pairs(store.bag(), "04:9:2 3:7:1") && store.redo() == Ok(1));
    let more = changes_of(rt.alloc(), &["3:7:1:0"]).expect(&rt, "changes");
    assert!(rt;
        store.undo() == Ok(1)
            && store.apply(more) == Ok(1)
            && store.redo() == Err(RedoError::NothingToRedo)
    );
}

#[test]
fn given_changes_count_together(rt: HostRuntime) {
    let bag: Bag = bag_of(rt.alloc(), WIDEST, "04:9:5 1:2:3 3:7:1").expect(&rt, "a bag");
    let mut store = Store::from_bag(rt.alloc(), bag).expect(&rt, "a store");
    let changes = changes_of(rt.alloc(), LATER).expect(&rt, "changes");
    assert!(rt; store.apply(changes) == Ok(2) && store.faces_rebuilt() == 2);
    assert!(rt;
        are_changes(store.done(), LATER) && holds_pairs(store.bag(), "04:9:5 1:2:3 3:7:4 5:2:6")
    );
    let back = changes_of(rt.alloc(), &["5:2:6:7", "5:2:7:6"]).expect(&rt, "changes");
    assert!(rt; store.apply(back) == Ok(0) && store.faces_rebuilt() == 0);
    assert!(rt; store.join(2) == Ok(0) && are_changes(store.done(), LATER));
}

// Why a store of 5 copies of a pair, the most of each of at most two pairs, doesn't do these changes.
fn not_applied(alloc: Global, texts: &[&str]) -> Option<HistoryError> {
    let mut store = Store::from_bag(alloc, bag_of(alloc, (2, 5, 9), "04:9:5")?).ok()?;
    let error = store.apply(changes_of(alloc, texts)?).err()?;
    if holds_pairs(store.bag(), "04:9:5") && store.done().is_empty() {
        Some(error)
    } else {
        None
    }
}

#[test]
fn given_changes_stay_within_the_limits(rt: HostRuntime) {
    assert!(rt;
        not_applied(rt.alloc(), &["04:9:5:6"]) == Some(HistoryError::TooManyCopies { change: 1 })
    );
    assert!(rt;
        not_applied(rt.alloc(), &["04:9:5:4", "04:9:4:6"])
            == Some(HistoryError::TooManyCopies { change: 2 })
    );
    assert!(rt;
        not_applied(rt.alloc(), &["3:7:0:1", "1:2:0:1"])
            == Some(HistoryError::TooManyPairs { change: 2 })
    );
}

#[test]
fn a_given_change_is_one_step(rt: HostRuntime) {
    let mut store = edited(rt.alloc(), Limits::default()).expect(&rt, "a store");
    let change = change_of(rt.alloc(), "04:9:5:6 3:7:0:1").expect(&rt, "a change");
    assert!(rt; store.record(change) == Ok(2) && store.faces_rebuilt() == 2);
    assert!(rt;
        are_changes(store.done(), &["04:9:0:2", "04:9:2:5", "04:9:5:6 3:7:0:1"])
            && store.undone().is_empty()
    );
    assert!(rt; holds_pairs(store.bag(), "04:9:6 3:7:1"));
    assert!(rt; store.undo() == Ok(2) && holds_pairs(store.bag(), "04:9:5"));
    assert!(rt; store.redo() == Ok(2) && holds_pairs(store.bag(), "04:9:6 3:7:1"));
}

// Why a store of 5 copies of a pair, with these limits, doesn't do a change.
fn refused(alloc: Global, limits: LimitRow, entries: &str) -> Option<RecordError> {
    let mut store = Store::from_bag(alloc, bag_of(alloc, limits, "04:9:5")?).ok()?;
    let error = store.record(change_of(alloc, entries)?).err()?;
    if holds_pairs(store.bag(), "04:9:5") && store.done().is_empty() {
        Some(error)
    } else {
        None
    }
}

#[test]
fn a_given_change_must_fit(rt: HostRuntime) {
    assert!(rt; refused(rt.alloc(), WIDEST, "") == Some(RecordError::NoChange));
    assert!(rt;
        refused(rt.alloc(), (1, 5, 1), "04:9:5:6 3:7:1:9") == Some(RecordError::Mismatch(1))
    );
    assert!(rt;
        refused(rt.alloc(), (1, 5, 1), "04:9:5:6 3:7:0:1") == Some(RecordError::TooManyCopies)
    );
    assert!(rt; refused(rt.alloc(), (1, 5, 1), "3:7:0:1") == Some(RecordError::TooManyPairs));
    let bag: Bag = bag_of(rt.alloc(), (1, 5, 1), "04:9:5").expect(&rt, "a bag");
    let mut store = Store::from_bag(rt.alloc(), bag).expect(&rt, "a store");
    let first = change_of(rt.alloc(), "04:9:5:0").expect(&rt, "a change");
    let none = change_of(rt.alloc(), "").expect(&rt, "a change");
    assert!(rt; store.record(first) == Ok(1) && store.bag().is_empty());
    assert!(rt; store.record(none) == Err(RecordError::JournalFull));
}
