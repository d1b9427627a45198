//! Each edit: done, undone and done again.
use s2id_samples::cells_of;
use s2id_union::CellUnion;
use s2ix_bag_samples::{WIDEST, bag_of, holds_pairs, label_of, pair_of};
use s2ix_edit::{Edit, Store};
use std::alloc::Global;
use std::process::Abort;

// What each store starts from: the four children of a face under the label 9, with a pair of 3 beside the first and
// one of 7 within the last.
const BEFORE: &str = "04:3:1 04:9:2 0c:9:1 14:9:1 1c:9:3 1d:7:2";

// Whether an edit changes so many counts and leads to these pairs, its undo back, and a redo there again.
fn leads_there(alloc: Global, edit: &Edit, changed: usize, after: &str) -> Option<bool> {
    let mut store = Store::from_bag(alloc, bag_of(alloc, WIDEST, BEFORE)?).ok()?;
    let is_done = store.edit(edit).ok()? == changed && holds_pairs(store.bag(), after);
    let is_undone = store.undo().ok()? == changed && holds_pairs(store.bag(), BEFORE);
    let is_redone = store.redo().ok()? == changed && holds_pairs(store.bag(), after);
    Some(is_done && is_undone && is_redone)
}

fn check_edit(rt: &impl Abort, alloc: Global, edit: &Edit, changed: usize, after: &str) {
    let leads = leads_there(alloc, edit, changed, after);
    assert!(rt; leads == Some(true), "wrong at {edit:?}");
}

// A copy of each of two cells under the label 9.
fn adding(alloc: Global) -> Option<Edit> {
    let cells = cells_of(alloc, "04 3")?;
    let union = CellUnion::normalise(alloc, &cells).ok()?;
    let label = label_of("9")?;
    Some(Edit::AddUnion { union, label })
}

#[test]
fn unions_are_added_and_copies_removed(rt: HostRuntime) {
    let add = adding(rt.alloc()).expect(&rt, "an edit");
    let pair = pair_of("04:9").expect(&rt, "a pair");
    let remove = Edit::Remove { pair, copies: 2 };
    let added = "04:3:1 04:9:3 0c:9:1 14:9:1 1c:9:3 1d:7:2 3:9:1";
    check_edit(&rt, rt.alloc(), &add, 2, added);
    let left = "04:3:1 0c:9:1 14:9:1 1c:9:3 1d:7:2";
    check_edit(&rt, rt.alloc(), &remove, 1, left);
}

#[test]
fn labels_are_dropped_and_moved_to_another(rt: HostRuntime) {
    let label = label_of("9").expect(&rt, "a label");
    let target = label_of("3").expect(&rt, "a label");
    let drop = Edit::DropLabel { label };
    check_edit(&rt, rt.alloc(), &drop, 4, "04:3:1 1d:7:2");
    let relabel = Edit::Relabel {
        source: label,
        target,
    };
    let moved = "04:3:3 0c:3:1 14:3:1 1c:3:3 1d:7:2";
    check_edit(&rt, rt.alloc(), &relabel, 8, moved);
}

#[test]
fn labels_grow_and_take_their_fewest_cells(rt: HostRuntime) {
    let label = label_of("7").expect(&rt, "a label");
    let grow = Edit::Grow { label, level: 1 };
    let grown = "04:3:1 04:7:1 04:9:2 0c:9:1 14:7:1 14:9:1 1c:9:3 1d:7:2 24:7:1 b4:7:1";
    check_edit(&rt, rt.alloc(), &grow, 4, grown);
    let label = label_of("9").expect(&rt, "a label");
    let normalise = Edit::Normalise { label };
    check_edit(&rt, rt.alloc(), &normalise, 5, "04:3:1 1:9:1 1d:7:2");
}

#[test]
fn an_edit_is_equal_to_its_clone(rt: HostRuntime) {
    let edit = adding(rt.alloc()).expect(&rt, "an edit");
    let copy = edit.clone().expect(&rt, "memory");
    assert!(rt; copy == edit);
    let label = label_of("9").expect(&rt, "a label");
    assert!(rt; copy != Edit::DropLabel { label });
}
