//! Stores, step by step.
use s2id_samples::{SET_UP, TOLD, answer, tell};
use s2ix_bag::{Bag, Change, Held, Label, Limits, Pair};
use s2ix_bag_samples::{
    WIDEST, are_changes, bag_of, change_of, changes_of, holds_pairs, label_of, list_of, pair_of,
};
use s2ix_edit::{Edit, EditError, RemoveError, Store};
use s2ix_table::RangeTable;
use std::alloc::Global;
use std::process::Abort;

// All that can be asked of a store: its pairs, the entries of the changes that can be undone and redone, how many faces its last step
// built again, and how many ranges its table has.
#[derive(Clone, Copy)]
struct Seen {
    pairs: &'static str,
    done: &'static [&'static str],
    undone: &'static [&'static str],
    faces: u8,
    ranges: usize,
}

const ALL_FACES: &str = "1:4:1 3:4:1 5:4:1 7:4:1 9:4:1 b:4:1";

const BACK_PAIRS: &str = "1:4:1 3:4:1 5:4:1 9:4:1 b:4:1";

const FIRST_ENTRIES: &str = "1:4:0:1";

const SECOND_ENTRIES: &str = "3:4:0:1 5:4:0:1 9:4:0:1 b:4:0:1";

const LAST_ENTRIES: &str = "7:4:0:1";

// What is seen of a store without a pair.
static EMPTY: Seen = Seen {
    pairs: "",
    done: &[],
    undone: &[],
    faces: 0,
    ranges: 1,
};

// A face that grew over all faces.
static GROWN: Seen = Seen {
    pairs: ALL_FACES,
    done: &[FIRST_ENTRIES, SECOND_ENTRIES, LAST_ENTRIES],
    undone: &[],
    faces: 1,
    ranges: 6,
};

// The same before it reached the last face.
static BACK: Seen = Seen {
    pairs: BACK_PAIRS,
    done: &[FIRST_ENTRIES, SECOND_ENTRIES],
    undone: &[LAST_ENTRIES],
    faces: 1,
    ranges: 6,
};

// The same before it grew.
static FIRST: Seen = Seen {
    pairs: "1:4:1",
    done: &[FIRST_ENTRIES],
    undone: &[LAST_ENTRIES, SECOND_ENTRIES],
    faces: 4,
    ranges: 2,
};

// Grown once more, by a step that is made again.
static GROWN_ONCE: Seen = Seen {
    pairs: BACK_PAIRS,
    done: &[FIRST_ENTRIES, SECOND_ENTRIES],
    undone: &[LAST_ENTRIES],
    faces: 4,
    ranges: 6,
};

const SECOND_BACK: &str = "3:4:1:0 5:4:1:0 9:4:1:0 b:4:1:0";

// Not grown, by a change that takes the growth back.
static REVERTED: Seen = Seen {
    pairs: "1:4:1",
    done: &[FIRST_ENTRIES, SECOND_ENTRIES, SECOND_BACK],
    undone: &[],
    faces: 4,
    ranges: 2,
};

// The grown store without its changes.
static FORGOTTEN: Seen = Seen {
    pairs: ALL_FACES,
    done: &[],
    undone: &[],
    faces: 1,
    ranges: 6,
};

// The grown store with its last change alone.
static OLDER_FORGOTTEN: Seen = Seen {
    pairs: ALL_FACES,
    done: &[LAST_ENTRIES],
    undone: &[],
    faces: 1,
    ranges: 6,
};

// A store that starts with all faces.
static STARTED: Seen = Seen {
    pairs: ALL_FACES,
    done: &[],
    undone: &[],
    faces: 0,
    ranges: 6,
};

// The grown store as it comes back from its bag and its changes.
static LED: Seen = Seen {
    pairs: ALL_FACES,
    done: &[FIRST_ENTRIES, SECOND_ENTRIES, LAST_ENTRIES],
    undone: &[],
    faces: 0,
    ranges: 6,
};

// The store before it reached the last face, its two changes joined.
static JOINED: Seen = Seen {
    pairs: BACK_PAIRS,
    done: &["1:4:0:1 3:4:0:1 5:4:0:1 9:4:0:1 b:4:0:1"],
    undone: &[LAST_ENTRIES],
    faces: 1,
    ranges: 6,
};

// The grown store, its three changes joined.
static ALL_JOINED: Seen = Seen {
    pairs: ALL_FACES,
    done: &["1:4:0:1 3:4:0:1 5:4:0:1 7:4:0:1 9:4:0:1 b:4:0:1"],
    undone: &[],
    faces: 1,
    ranges: 6,
};

// The store before it grew, and then what it had undone done by changes that are given.
static GIVEN: Seen = Seen {
    pairs: ALL_FACES,
    done: &[FIRST_ENTRIES, SECOND_ENTRIES, LAST_ENTRIES],
    undone: &[],
    faces: 5,
    ranges: 6,
};

// Whether a store has its changes done and undone, and its last step built so many faces again.
fn has_history(store: &Store, seen: &Seen) -> bool {
    are_changes(store.done(), seen.done)
        && are_changes(store.undone(), seen.undone)
        && store.faces_rebuilt() == seen.faces
}

// Whether a table of six ranges, which are the faces here, has a pair over face 3 exactly if the bag holds one there.
fn has_face_3(store: &Store, pair: Pair) -> bool {
    let table = store.table();
    if table.range_count() != 6 {
        return true;
    }
    table.first(3).is_some() == (store.bag().count(pair) > 0)
}

fn check_seen(rt: &impl Abort, store: &Store, seen: &Seen) {
    assert!(rt; holds_pairs(store.bag(), seen.pairs));
    assert!(rt; has_history(store, seen));
    assert!(rt; store.table().range_count() == seen.ranges);
    assert!(rt; has_face_3(store, pair_of("7:4").expect(rt, "a pair")));
}

fn label(rt: &impl Abort) -> Label {
    label_of("4").expect(rt, "a label")
}

// To grow by whole faces.
fn growing(rt: &impl Abort) -> Edit {
    let label = label(rt);
    Edit::Grow { label, level: 0 }
}

// The store of a face that grew over all faces.
fn grown(rt: &impl Abort, alloc: Global) -> Store {
    let mut store = Store::new(alloc, Limits::default()).expect(rt, SET_UP);
    let pair = pair_of("1:4").expect(rt, "a pair");
    let grow = growing(rt);
    store
        .edit(&Edit::Add { pair, copies: 1 })
        .expect(rt, SET_UP);
    store.edit(&grow).expect(rt, SET_UP);
    store.edit(&grow).expect(rt, SET_UP);
    store
}

// Looks at what a step left: each entry of its change lies on a face of its own.
fn check_after(rt: &impl Abort, store: &Store, number: usize, after: &Seen) {
    assert!(rt; number == usize::from(store.faces_rebuilt()));
    check_seen(rt, store, after);
}

fn check_undo(rt: &(impl Abort + Print), store: &mut Store, before: &Seen, after: &Seen) {
    let number = answer!(rt, store.undo(), check_seen(rt, store, before));
    check_after(rt, store, number, after);
}

fn check_redo(rt: &(impl Abort + Print), store: &mut Store, before: &Seen, after: &Seen) {
    let number = answer!(rt, store.redo(), check_seen(rt, store, before));
    check_after(rt, store, number, after);
}

fn check_edit(
    rt: &(impl Abort + Print),
    store: &mut Store,
    edit: &Edit,
    before: &Seen,
    after: &Seen,
) {
    let number = answer!(rt, store.edit(edit), check_seen(rt, store, before));
    check_after(rt, store, number, after);
}

#[test]
fn refused_steps(rt: HostRuntime) {
    let mut store = grown(&rt, rt.alloc());
    check_undo(&rt, &mut store, &GROWN, &BACK);
    check_undo(&rt, &mut store, &BACK, &FIRST);
    check_redo(&rt, &mut store, &FIRST, &GROWN_ONCE);
    check_redo(&rt, &mut store, &GROWN_ONCE, &GROWN);
    check_undo(&rt, &mut store, &GROWN, &BACK);
    check_edit(&rt, &mut store, &growing(&rt), &BACK, &GROWN);
}

// A step makes a table of its own if a copy of the store shares the table: the copy's stays, also if the step gives up.
#[test]
fn refused_steps_beside_a_copy(rt: HostRuntime) {
    let mut store = grown(&rt, rt.alloc());
    let copy = store.copied().expect(&rt, SET_UP);
    check_undo(&rt, &mut store, &GROWN, &BACK);
    check_seen(&rt, &copy, &STARTED);
    check_redo(&rt, &mut store, &BACK, &GROWN);
    check_seen(&rt, &copy, &STARTED);
}

// Takes the growth back that is left of an undone one.
fn check_revert(rt: &(impl Abort + Print), store: &mut Store) {
    let revert = Edit::Revert { number: 2 };
    check_edit(rt, store, &revert, &BACK, &REVERTED);
}

// Looks that a change is not taken back for this reason, and that all stays.
fn check_no_revert(
    rt: &impl Abort,
    store: &mut Store,
    number: u32,
    error: EditError,
    state: &Seen,
) {
    let told = store.edit(&Edit::Revert { number }).err();
    assert!(rt; told == Some(error));
    check_seen(rt, store, state);
}

// Want of memory never comes in place of a number that no change has, or of a count below zero.
#[test]
fn refused_reverts(rt: HostRuntime) {
    let mut store = grown(&rt, rt.alloc());
    check_undo(&rt, &mut store, &GROWN, &BACK);
    check_no_revert(&rt, &mut store, 3, EditError::NoSuchChange, &BACK);
    check_revert(&rt, &mut store);
    check_no_revert(&rt, &mut store, 2, EditError::BelowZero, &REVERTED);
}

fn check_region(rt: &(impl Abort + Print), store: &Store, seen: &Seen) {
    let label = label(rt);
    let region = answer!(rt, store.region(label));
    assert!(rt; region.cells().len() == 6);
    check_seen(rt, store, seen);
}

#[test]
fn refused_regions(rt: HostRuntime) {
    let store = grown(&rt, rt.alloc());
    check_region(&rt, &store, &GROWN);
}

// The list of labels gets by with less room at first: one refused growth doesn't make it give up.
#[test]
fn refused_questions_of_labels(rt: HostRuntime) {
    let store = grown(&rt, rt.alloc());
    check_region(&rt, &store, &GROWN);
    let labels = answer!(&rt, store.held_labels());
    assert!(rt; labels.len() == 1 && labels[0].pairs == 6 && labels[0].copies == 6);
    check_seen(&rt, &store, &GROWN);
}

// A forget before it takes no memory: `tests/hostile` looks that this test asks for as many growths as `refused_regions`.
#[test]
fn refused_regions_after_a_forget(rt: HostRuntime) {
    let mut store = grown(&rt, rt.alloc());
    store.forget();
    check_region(&rt, &store, &FORGOTTEN);
}

// Nor do older changes take any that are forgotten.
#[test]
fn refused_regions_after_older_are_forgotten(rt: HostRuntime) {
    let mut store = grown(&rt, rt.alloc());
    store.forget_older(1);
    check_region(&rt, &store, &OLDER_FORGOTTEN);
}

fn check_new(rt: &(impl Abort + Print), alloc: Global) {
    let store = answer!(rt, Store::new(alloc, Limits::default()));
    check_seen(rt, &store, &EMPTY);
}

fn all_faces(rt: &impl Abort, alloc: Global) -> Bag {
    bag_of(alloc, WIDEST, ALL_FACES).expect(rt, SET_UP)
}

// The store that starts from a bag; if it gave up and let the bag go, from an equal one.
fn started(rt: &(impl Abort + Print), alloc: Global, bag: Bag, equal: Bag) -> Store {
    match Store::from_bag(alloc, bag) {
        Ok(store) => store,
        Err(error) => {
            tell(rt, &error).expect(rt, TOLD);
            Store::from_bag(alloc, equal).expect(rt, "the call made again")
        }
    }
}

#[test]
fn refused_stores(rt: HostRuntime) {
    check_new(&rt, rt.alloc());
    let bag = all_faces(&rt, rt.alloc());
    let equal = all_faces(&rt, rt.alloc());
    let store = started(&rt, rt.alloc(), bag, equal);
    check_seen(&rt, &store, &STARTED);
    let copy = answer!(&rt, store.copied());
    check_seen(&rt, &copy, &STARTED);
}

fn given(rt: &impl Abort, alloc: Global, texts: &[&str]) -> Vec<Change> {
    changes_of(alloc, texts).expect(rt, SET_UP)
}

// The store of a bag and its changes; if it gave up and let them go, of equal ones.
fn led(
    rt: &(impl Abort + Print),
    alloc: Global,
    changes: Vec<Change>,
    equal: Vec<Change>,
) -> Store {
    match Store::with_history(alloc, all_faces(rt, alloc), changes) {
        Ok(store) => store,
        Err(error) => {
            tell(rt, &error).expect(rt, TOLD);
            let bag = all_faces(rt, alloc);
            Store::with_history(alloc, bag, equal).expect(rt, "the call made again")
        }
    }
}

#[test]
fn refused_histories(rt: HostRuntime) {
    let changes = given(&rt, rt.alloc(), LED.done);
    let equal = given(&rt, rt.alloc(), LED.done);
    let mut store = led(&rt, rt.alloc(), changes, equal);
    check_seen(&rt, &store, &LED);
    check_undo(&rt, &mut store, &LED, &BACK);
}

#[test]
fn refused_joins(rt: HostRuntime) {
    let mut store = grown(&rt, rt.alloc());
    store.undo().expect(&rt, SET_UP);
    assert!(rt; store.join(0) == Ok(0) && store.join(1) == Ok(4));
    let number = answer!(&rt, store.join(2), check_seen(&rt, &store, &BACK));
    assert!(rt; number == 5);
    check_seen(&rt, &store, &JOINED);
}

#[test]
fn refused_joins_of_all(rt: HostRuntime) {
    let mut store = grown(&rt, rt.alloc());
    let number = answer!(&rt, store.join(3), check_seen(&rt, &store, &GROWN));
    assert!(rt; number == 6);
    check_seen(&rt, &store, &ALL_JOINED);
}

// How many pairs the changes change; if the store gave up and let them go, equal ones.
fn done_again(
    rt: &(impl Abort + Print),
    store: &mut Store,
    changes: Vec<Change>,
    equal: Vec<Change>,
) -> usize {
    match store.apply(changes) {
        Ok(number) => number,
        Err(error) => {
            tell(rt, &error).expect(rt, TOLD);
            check_seen(rt, store, &FIRST);
            store.apply(equal).expect(rt, "the call made again")
        }
    }
}

#[test]
fn refused_given_changes(rt: HostRuntime) {
    let mut store = grown(&rt, rt.alloc());
    store.undo().expect(&rt, SET_UP);
    store.undo().expect(&rt, SET_UP);
    let changes = given(&rt, rt.alloc(), &[SECOND_ENTRIES, LAST_ENTRIES]);
    let equal = given(&rt, rt.alloc(), &[SECOND_ENTRIES, LAST_ENTRIES]);
    let number = done_again(&rt, &mut store, changes, equal);
    check_after(&rt, &store, number, &GIVEN);
}

// How many pairs a change changes; if the store gave up and let it go, an equal one.
fn recorded(rt: &(impl Abort + Print), store: &mut Store, change: Change, equal: Change) -> usize {
    match store.record(change) {
        Ok(number) => number,
        Err(error) => {
            tell(rt, &error).expect(rt, TOLD);
            check_seen(rt, store, &BACK);
            store.record(equal).expect(rt, "the call made again")
        }
    }
}

#[test]
fn refused_given_change(rt: HostRuntime) {
    let mut store = grown(&rt, rt.alloc());
    store.undo().expect(&rt, SET_UP);
    let change = change_of(rt.alloc(), SECOND_BACK).expect(&rt, SET_UP);
    let equal = change_of(rt.alloc(), SECOND_BACK).expect(&rt, SET_UP);
    let number = recorded(&rt, &mut store, change, equal);
    check_after(&rt, &store, number, &REVERTED);
}

#[test]
fn refused_removals(rt: HostRuntime) {
    let mut store = grown(&rt, rt.alloc());
    store.undo().expect(&rt, SET_UP);
    let rows = list_of(rt.alloc(), "b:4:1 3:4:1 9:4:1 5:4:1").expect(&rt, SET_UP);
    let number = answer!(&rt, store.remove_all(&rows), check_seen(&rt, &store, &BACK));
    check_after(&rt, &store, number, &REVERTED);
}

// The place of the row that is not held, or `None` if memory was wanted.
fn place_not_held(rt: &(impl Abort + Print), store: &mut Store, rows: &[Held]) -> Option<usize> {
    match store.remove_all(rows) {
        Err(RemoveError::NotHeld(place)) => Some(place),
        Err(error) => {
            tell(rt, &error).expect(rt, TOLD);
            None
        }
        Ok(_) => None,
    }
}

// Memory is wanted to find which row is not held.
#[test]
fn refused_rows_not_held(rt: HostRuntime) {
    let mut store = grown(&rt, rt.alloc());
    store.undo().expect(&rt, SET_UP);
    let rows = list_of(rt.alloc(), "b:4:1 3:4:1 3:4:1 9:4:1 7:4:1").expect(&rt, SET_UP);
    let first = place_not_held(&rt, &mut store, &rows);
    check_seen(&rt, &store, &BACK);
    assert!(rt; first == Some(2) || place_not_held(&rt, &mut store, &rows) == Some(2));
    check_seen(&rt, &store, &BACK);
}
