//! Steps of a store of more than 1,000 pairs.
use s2id_samples::{SET_UP, TOLD, answer, tell};
use s2ix_bag::Limits;
use s2ix_bag_samples::{label_of, pair_of};
use s2ix_edit::{Edit, Store};
use std::process::Abort;

// How much a store holds, and how many of its changes are done and undone.
fn sizes(store: &Store) -> [usize; 3] {
    [store.bag().len(), store.done().len(), store.undone().len()]
}

// Makes an edit, and looks how many pairs change their counts; if it gives up, all stays.
fn check_edit(rt: &(impl Abort + Print), store: &mut Store, edit: &Edit, changed: usize) {
    let before = sizes(store);
    let number = answer!(rt, store.edit(edit), assert!(rt; sizes(store) == before));
    assert_eq!(rt; number, changed, "wrong at {edit:?}");
}

// The same for an undo.
fn check_undo(rt: &(impl Abort + Print), store: &mut Store, changed: usize) {
    let before = sizes(store);
    let number = answer!(rt, store.undo(), assert!(rt; sizes(store) == before));
    assert_eq!(rt; number, changed);
}

// The same for a redo.
fn check_redo(rt: &(impl Abort + Print), store: &mut Store, changed: usize) {
    let before = sizes(store);
    let number = answer!(rt, store.redo(), assert!(rt; sizes(store) == before));
    assert_eq!(rt; number, changed);
}

#[test]
fn refused_steps_of_a_large_store(rt: HostRuntime) {
    let mut store = Store::new(rt.alloc(), Limits::default()).expect(&rt, SET_UP);
    let pair = pair_of("5:7").expect(&rt, "a pair");
    let label = pair.label;
    let target = label_of("9").expect(&rt, "a label");
    let relabel = Edit::Relabel {
        source: label,
        target,
    };
    check_edit(&rt, &mut store, &Edit::Add { pair, copies: 1 }, 1);
    check_edit(&rt, &mut store, &Edit::Grow { label, level: 8 }, 1024);
    check_edit(&rt, &mut store, &Edit::Grow { label, level: 8 }, 1024);
    check_undo(&rt, &mut store, 1024);
    check_redo(&rt, &mut store, 1024);
    check_edit(&rt, &mut store, &relabel, 4098);
    check_edit(&rt, &mut store, &Edit::Revert { number: 4 }, 4098);
    check_edit(&rt, &mut store, &Edit::DropLabel { label }, 2049);
    check_undo(&rt, &mut store, 2049);
    check_edit(&rt, &mut store, &Edit::Normalise { label }, 2560);
    assert!(rt; store.bag().len() == 513);
}
