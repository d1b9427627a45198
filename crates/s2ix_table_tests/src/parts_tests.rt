//! The parts of a table, compared with one table over all leaves.
ghost use Rattle.std.specs.Prelude.{◌≡◌, ◌<◌, IfSome, length};
ghost use Rattle.s2ix_bag_lists.specs.Faces.{all_of};
ghost use Rattle.s2ix_table_parts.specs.FaceSpans.{tables_of};
ghost use Rattle.s2ix_table_parts.specs.Neighbours.{AreNeighbours, held_in};
ghost use Rattle.s2ix_table_walk.specs.Table.{leaf_end};

use s2id_core::{CellId, LEAF_END};
use s2id_samples::SET_UP;
use s2ix_bag::{Bag, FlatHeld, Held, HeldList, ListsView, SharedLists};
use s2ix_bag_samples::{WIDEST, bag_of, change_of};
use s2ix_table::{ChainTable, RangeTable, SpanTable, chain_at};
use s2ix_table_parts::{NewParts, changed_tables, parts_over};
use std::alloc::Global;
use std::sync::Arc;

// Pairs, how many of them a list has, and how many parts they make.
type PartsRow = (&'static str, usize, usize);

const PARTS: [PartsRow; 5] = [
    ("", 1, 1),
    ("04:1:1 0c:1:1 14:1:1 1c:1:1 3:2:1 b:3:1", 1, 6),
    ("04:1:1 0c:1:1 14:1:1 1c:1:1 3:2:1 b:3:1", 4, 2),
    // the face of the first four has a pair too
    ("04:1:1 0c:1:1 1:9:1 14:1:1 1c:1:1 3:2:1", 1, 2),
    // the two pairs of one cell
    ("04:1:1 04:2:1 0c:1:1", 1, 2),
];

// Pairs, the entries of a change of them, how many pairs a list has, and how many parts they make then.
type ChangeRow = (&'static str, &'static str, usize, usize);

const CHANGES: [ChangeRow; 6] = [
    ("04:1:1 0c:1:1 14:1:1 1c:1:1 3:2:1 b:3:1", "14:1:1:2", 1, 6),
    // a cell over four parts comes, and goes
    ("04:1:1 0c:1:1 14:1:1 1c:1:1 3:2:1 b:3:1", "1:9:0:1", 1, 3),
    ("04:1:1 0c:1:1 1:9:1 14:1:1 1c:1:1 3:2:1", "1:9:1:0", 1, 5),
    // the last part loses its pair
    ("04:1:1 0c:1:1 14:1:1 1c:1:1 3:2:1 b:3:1", "b:3:1:0", 1, 6),
    // the lists have other ends then
    ("04:1:1 0c:1:1 14:1:1 1c:1:1", "04:1:1:0", 2, 2),
    ("", "3:2:0:1", 1, 1),
];

// Pairs in lists of so many.
fn lists_of(alloc: Global, held: &[FlatHeld], size: usize) -> Option<SharedLists>
    requires { 0 < size }
    ensures { IfSome result (λ lists. all_of lists ≡ held.now) }
{
    let mut lists = Vec::new(alloc);
    let mut rest = held;
    while !rest.is_empty() {
        let (own, later) = rest.split_at(size.min(rest.len()));
        lists
            .push(HeldList::new(alloc, Vec::from_slice(alloc, own).ok()?).ok()?)
            .ok()?;
        rest = later;
    }
    if lists.len() > 1000 {
        return None;
    }
    SharedLists::new(alloc, lists).ok()
}

// The parts of what a bag holds.
fn parts_of(alloc: Global, bag: &Bag, size: usize) -> Option<Vec<Arc<SpanTable>>>
    requires { 0 < size }
    ensures neighbours { IfSome result (λ parts. AreNeighbours 1 (tables_of parts.items) leaf_end) }
    ensures pairs { IfSome result (λ parts. held_in (tables_of parts.items) ≡ bag.now.held) }
{
    let held = bag.flat(alloc).ok()?;
    let lists = lists_of(alloc, held.as_slice(), size)?;
    parts_over(alloc, ListsView::all(&lists), 1, LEAF_END).ok()
}

// A pair, the next one outwards, and whether there are more.
type FirstTwo = (Option<Held>, Option<Held>, bool);

// The innermost pairs over a range.
fn first_two(part: &SpanTable, k: usize) -> FirstTwo
    requires { k < length part.now.ranges }
{
    let Some(first) = part.first(k) else {
        return (None, None, false);
    };
    let inner = part.held_at(first);
    let Some(next) = part.outer(first) else {
        return (Some(inner), None, false);
    };
    let has_more = part.outer(next).is_some();
    (Some(inner), Some(part.held_at(next)), has_more)
}

// The innermost pairs over the leaf with a number.
fn two_over(table: &ChainTable, number: u64) -> FirstTwo {
    match CellId::from_raw(number) {
        Some(leaf) if leaf.level() == 30 => {
            let mut chain = chain_at(table, leaf);
            (chain.next(), chain.next(), chain.next().is_some())
        }
        _ => (None, None, true),
    }
}

// The leaf number up to which parts follow one another from a number on, with what a table has over each of their ranges.
fn agrees_up_to(parts: &[Arc<SpanTable>], from: u64, table: &ChainTable) -> u64 {
    let mut end = from;
    for part in parts {
        for k in 0..part.range_count() {
            let row = part.range(k);
            if row.start != end || first_two(part, k) != two_over(table, end) {
                return 0;
            }
            end = row.limit;
        }
    }
    end
}

// The parts once new ones have taken their places.
fn all_with(
    alloc: Global,
    before: &[Arc<SpanTable>],
    new: NewParts,
) -> Option<Vec<Arc<SpanTable>>> {
    let NewParts { first, end, parts } = new;
    let mut all = Vec::new(alloc);
    for part in before.get(..first)? {
        all.push(part.clone().ok()?).ok()?;
    }
    for part in parts {
        all.push(part).ok()?;
    }
    for part in before.get(end..)? {
        all.push(part.clone().ok()?).ok()?;
    }
    Some(all)
}

// Whether so many parts go over all leaves and show what a table of a bag shows.
fn show_bag(alloc: Global, parts: &[Arc<SpanTable>], bag: &Bag, count: usize) -> Option<bool> {
    let table = ChainTable::build(alloc, bag).ok()?;
    Some(parts.len() == count && agrees_up_to(parts, 1, &table) == LEAF_END)
}

// Whether pairs, in lists of so many, make so many parts that show them.
fn has_parts(alloc: Global, row: PartsRow) -> Option<bool> {
    let (pairs, size, count) = row;
    if size == 0 {
        return None;
    }
    let bag = bag_of(alloc, WIDEST, pairs)?;
    let parts = parts_of(alloc, &bag, size)?;
    show_bag(alloc, &parts, &bag, count)
}

// Whether the parts of pairs become, by a change of them, so many parts that show what it makes of the pairs.
fn has_changed_tables(alloc: Global, row: ChangeRow) -> Option<bool> {
    let (pairs, entries, size, count) = row;
    if size == 0 {
        return None;
    }
    let bag = bag_of(alloc, WIDEST, pairs)?;
    let parts = parts_of(alloc, &bag, size)?;
    let change = change_of(alloc, entries)?;
    let next = bag.applied(alloc, &change).ok()?;
    let held = next.flat(alloc).ok()?;
    let lists = lists_of(alloc, held.as_slice(), size)?;
    let new = changed_tables(
        alloc,
        &parts,
        ListsView::all(&lists),
        change.entries(),
        1,
        LEAF_END,
    )
    .ok()?;
    let after = all_with(alloc, &parts, new)?;
    show_bag(alloc, &after, &next, count)
}

#[test]
fn parts_over_show_one_table(rt: HostRuntime) {
    for &row in &PARTS {
        assert!(rt; has_parts(rt.alloc(), row).expect(&rt, SET_UP));
    }
}

#[test]
fn changed_tables_show_one_table(rt: HostRuntime) {
    for &row in &CHANGES {
        assert!(rt; has_changed_tables(rt.alloc(), row).expect(&rt, SET_UP));
    }
}
