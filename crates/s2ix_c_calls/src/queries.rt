//! Queries of a store. None changes it.

ghost use Rattle.std.specs.Prelude.{◌≡◌, ◌≢◌, ◌↔◌, [], Some, IsTrue, length};
ghost use Rattle.s2ix_bag_pairs.specs.Label.{label_numbered};
ghost use Rattle.s2ix_bag_pairs.specs.OfLabel.{held_of as held_with};
ghost use Rattle.s2ix_table_queries.specs.Leaf.{leaf_numbered};
ghost use Rattle.s2ix_c_calls.specs.Asked.{NeedUnion};
ghost use Rattle.s2ix_c_calls.specs.Lists.{Fills, FillsOf, labels_met, ListsOf, PutsGathered, region_cells, rows_met, rows_met_from, rows_over};
ghost use Rattle.s2ix_c_calls.specs.Status.{no_room, out_of_memory};

use crate::chains::{put_over, put_over_from};
use crate::meetings::{LabelsMet, Met, MetFrom};
use crate::question::ask;
use crate::rows::{Row, put_cells};
use crate::status::{DONE, NO_CELL, NO_LABEL, OUT_OF_MEMORY};
use crate::unions::{check_cells, one_leaf};
use s2ix_bag_pairs::Label;
use s2ix_edit::Store;
use s2ix_table_queries::{RangeTable, leaf_of};
use std::alloc::Global;

/// The pairs over a leaf, the innermost cell first, the labels of one cell rising. It does not allocate.
pub fn at(store: &Store, leaf: u64, out: &mut [Row], number: &mut usize) -> u32
    ensures { Fills (rows_over (leaf_numbered leaf) store.now) result number.new out.old out.new }
{
    let Some(leaf) = leaf_of(leaf) else {
        *number = 0;
        return NO_CELL;
    };
    put_over(store.table(), leaf, out, number)
}

/// The pairs that share a leaf with a union of cells, given in any order and repeated or not: each once, by first shared leaf, then
/// falling level, then rising label. Only a union is gathered, and none is made of at most 1,024 cells that follow one another.
pub fn meet(alloc: Global, store: &Store, ids: &[u64], out: &mut [Row], number: &mut usize) -> u32
    ensures list { FillsOf (λ cells. rows_met cells store.now) ids.now result number.new out.old out.new }
    ensures memory { result ≡ out_of_memory → NeedUnion ids.now }
{
    *number = 0;
    if ids.is_empty() {
        return DONE; // no cells, so no pairs
    }
    if let Some(leaf) = one_leaf(ids) {
        return put_over(store.table(), leaf, out, number);
    }
    ask(&Met, alloc, store, ids, out, number)
}

/// The pairs that `meet` puts, from a place on, counted from 0: as many as the buffer has room for. It goes no further along the table.
pub fn meet_from(
    alloc: Global,
    store: &Store,
    ids: &[u64],
    from: usize,
    out: &mut [Row],
    number: &mut usize,
) -> u32
    ensures list { ListsOf (λ cells. rows_met_from from (length out.old) cells store.now) ids.now result number.new out.old out.new }
    ensures memory { result ≡ out_of_memory → NeedUnion ids.now × (out.old ≢ []) }
    ensures room { result ≢ no_room }
{
    *number = 0;
    if ids.is_empty() {
        return DONE; // no cells, so an empty page
    }
    if out.is_empty() {
        return check_cells(ids, number);
    }
    if let Some(leaf) = one_leaf(ids) {
        *number = put_over_from(store.table(), leaf, from, out);
        return DONE;
    }
    ask(&MetFrom { from }, alloc, store, ids, out, number)
}

/// The labels of the pairs that share a leaf with a union of cells: each once, rising.
pub fn labels(alloc: Global, store: &Store, ids: &[u64], out: &mut [u32], number: &mut usize) -> u32
    ensures list { FillsOf (λ cells. labels_met cells store.now) ids.now result number.new out.old out.new }
    ensures memory { result ≡ out_of_memory → ids.now ≢ [] }
{
    *number = 0;
    if ids.is_empty() {
        return DONE; // no cells, so no labels
    }
    ask(&LabelsMet, alloc, store, ids, out, number)
}

// Whether no pair has a label. O(n) at worst for all n pairs; it does not allocate.
fn lacks_label(store: &Store, label: Label) -> bool
    ensures { IsTrue result ↔ (held_with label store.now.bag.held ≡ []) }
{
    store.bag().of_label(label).next().is_none()
}

// The region of a label, put to the front of `out`, if it has room for it; `number` is how many cells it has.
#[tactic(auto, using(crate::proofs::NoCells::puts_no_region, crate::proofs::NoCells::gathers_region))]
fn put_region(store: &Store, label: Label, out: &mut [u64], number: &mut usize) -> u32
    ensures { PutsGathered (region_cells (Some label) store.now) result number.new out.old out.new }
{
    *number = 0;
    if lacks_label(store, label) {
        return DONE; // no pair, so no cells
    }
    match store.region(label) {
        Ok(region) => put_cells(region.cells(), out, number),
        Err(_) => OUT_OF_MEMORY,
    }
}

/// The region of a label: the normal union of the cells that are held with it, rising. If none is, no memory is wanted.
pub fn region(store: &Store, label: u32, out: &mut [u64], number: &mut usize) -> u32
    ensures { PutsGathered (region_cells (label_numbered label) store.now) result number.new out.old out.new }
{
    match Label::new(label) {
        Some(label) => put_region(store, label, out, number),
        None => {
            *number = 0;
            NO_LABEL
        }
    }
}
