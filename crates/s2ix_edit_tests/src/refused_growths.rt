//! Steps of stores whose growths are counted, as `tests/hostile` counts them: of a test that makes a step, and of one that makes all that
//! comes before it. A step on one face asks for as many beside five other faces as without them.
use s2id_samples::SET_UP;
use s2ix_bag_samples::{WIDEST, bag_of, holds_pairs, pair_of};
use s2ix_edit::{Edit, Store};
use std::alloc::Global;
use std::process::Abort;

// Pairs on face 2, and on the other faces too.
const FACE: &str = "5:3:1 54:3:1";

const FACES: &str = "1:3:1 3:3:1 5:3:1 54:3:1 7:3:1 9:3:1 b:3:1";

// The same with a pair more on face 2.
const FACE_AND_PAIR: &str = "5:3:1 54:3:1 5c:3:1";

const FACES_AND_PAIR: &str = "1:3:1 3:3:1 5:3:1 54:3:1 5c:3:1 7:3:1 9:3:1 b:3:1";

fn store(rt: &impl Abort, alloc: Global, pairs: &str) -> Store {
    let bag = bag_of(alloc, WIDEST, pairs).expect(rt, SET_UP);
    Store::from_bag(alloc, bag).expect(rt, SET_UP)
}

// Adds a pair on face 2.
fn add(rt: &impl Abort, store: &mut Store) {
    let pair = pair_of("5c:3").expect(rt, "a pair");
    store
        .edit(&Edit::Add { pair, copies: 1 })
        .expect(rt, SET_UP);
}

// The store of these pairs and one more on face 2.
fn edited(rt: &impl Abort, alloc: Global, pairs: &str) -> Store {
    let mut store = store(rt, alloc, pairs);
    add(rt, &mut store);
    store
}

// The store of these pairs, to which one more was added and taken back.
fn undone(rt: &impl Abort, alloc: Global, pairs: &str) -> Store {
    let mut store = edited(rt, alloc, pairs);
    store.undo().expect(rt, SET_UP);
    store
}

// The store of these pairs and one more on face 2, which was taken back and done again.
fn redone(rt: &impl Abort, alloc: Global, pairs: &str) -> Store {
    let mut store = undone(rt, alloc, pairs);
    store.redo().expect(rt, SET_UP);
    store
}

#[test]
fn a_store_of_a_face(rt: HostRuntime) {
    let store = store(&rt, rt.alloc(), FACE);
    assert!(rt; holds_pairs(store.bag(), FACE));
}

#[test]
fn an_edit_of_a_face(rt: HostRuntime) {
    let store = edited(&rt, rt.alloc(), FACE);
    assert!(rt; holds_pairs(store.bag(), FACE_AND_PAIR));
}

#[test]
fn an_undo_of_a_face(rt: HostRuntime) {
    let store = undone(&rt, rt.alloc(), FACE);
    assert!(rt; holds_pairs(store.bag(), FACE));
}

#[test]
fn a_redo_of_a_face(rt: HostRuntime) {
    let store = redone(&rt, rt.alloc(), FACE);
    assert!(rt; holds_pairs(store.bag(), FACE_AND_PAIR));
}

#[test]
fn a_store_of_six_faces(rt: HostRuntime) {
    let store = store(&rt, rt.alloc(), FACES);
    assert!(rt; holds_pairs(store.bag(), FACES));
}

#[test]
fn a_copied_store_of_six_faces(rt: HostRuntime) {
    let store = store(&rt, rt.alloc(), FACES);
    let copy = store.copied().expect(&rt, SET_UP);
    assert!(rt; holds_pairs(store.bag(), FACES) && holds_pairs(copy.bag(), FACES));
}

#[test]
fn an_edit_beside_a_copy(rt: HostRuntime) {
    let mut store = store(&rt, rt.alloc(), FACES);
    let copy = store.copied().expect(&rt, SET_UP);
    add(&rt, &mut store);
    assert!(rt; holds_pairs(store.bag(), FACES_AND_PAIR) && holds_pairs(copy.bag(), FACES));
}

#[test]
fn an_edit_after_a_copy(rt: HostRuntime) {
    let mut store = store(&rt, rt.alloc(), FACES);
    drop(store.copied().expect(&rt, SET_UP));
    add(&rt, &mut store);
    assert!(rt; holds_pairs(store.bag(), FACES_AND_PAIR));
}

#[test]
fn an_edit_beside_five_faces(rt: HostRuntime) {
    let store = edited(&rt, rt.alloc(), FACES);
    assert!(rt; holds_pairs(store.bag(), FACES_AND_PAIR));
}

#[test]
fn an_undo_beside_five_faces(rt: HostRuntime) {
    let store = undone(&rt, rt.alloc(), FACES);
    assert!(rt; holds_pairs(store.bag(), FACES));
}

#[test]
fn a_redo_beside_five_faces(rt: HostRuntime) {
    let store = redone(&rt, rt.alloc(), FACES);
    assert!(rt; holds_pairs(store.bag(), FACES_AND_PAIR));
}
