//! Tables of heavy pairs: nested cells, of which a leaf and a face have several chunks each.
ghost use Rattle.std.specs.Prelude.{◌≡◌, Some};
ghost use Rattle.s2ix_table_walk.specs.Places.{IsPlace};
ghost use Rattle.s2ix_table_heavy.specs.HeavyChains.{heavy_chain};
ghost use Rattle.s2ix_table_heavy.specs.declared.heavy_place.HeavyPlace.{HeavyPlace};

use s2id_core::LEAF_END;
use s2id_samples::cell_of;
use s2ix_bag_samples::{WIDEST, are_flat_pairs, bag_of, change_of, held_of};
use s2ix_table_heavy::laws::{
    chunks_are_in_order, cloned_heavy_places_are_the_same, equal_heavy_places_are_one,
    heavy_pairs_have_one_place,
};
use s2ix_table_heavy::{HeavyPlace, HeavyTable, cut_into_chunks};
use std::alloc::Global;

// The first leaf of face 2 has three labels, and the face itself four. Cut into chunks of two pairs each.
const PAIRS: &str =
    "4000000000000001:1:1 4000000000000001:2:1 4000000000000001:3:2 44:6:1 5:3:1 5:4:2 5:5:1 5:7:1";

const CHUNKS: [&str; 5] = [
    "4000000000000001:1:1 4000000000000001:2:1",
    "4000000000000001:3:2",
    "44:6:1",
    "5:3:1 5:4:2",
    "5:5:1 5:7:1",
];

// A leaf number, the pairs over it, innermost first, and up to where they are the same.
const OVER: [(u64, &str, u64); 6] = [
    (1, "", 0x4000000000000001),
    (
        0x4000000000000001,
        "4000000000000001:1:1 4000000000000001:2:1 4000000000000001:3:2 44:6:1 5:3:1 5:4:2 5:5:1 5:7:1",
        0x4000000000000003,
    ),
    (
        0x4000000000000003,
        "44:6:1 5:3:1 5:4:2 5:5:1 5:7:1",
        0x4800000000000001,
    ),
    (
        0x47ffffffffffffff,
        "44:6:1 5:3:1 5:4:2 5:5:1 5:7:1",
        0x4800000000000001,
    ),
    (
        0x4800000000000001,
        "5:3:1 5:4:2 5:5:1 5:7:1",
        0x6000000000000001,
    ),
    (0x6000000000000001, "", LEAF_END),
];

// The table of some pairs, in chunks of at most so many.
fn table_of(alloc: Global, pairs: &str, most: usize) -> Option<HeavyTable> {
    let held = bag_of(alloc, WIDEST, pairs)?.flat(alloc).ok()?;
    let chunks = cut_into_chunks(alloc, &held, most).ok()?;
    HeavyTable::over(alloc, chunks).ok()
}

// Whether the chain from a place on has these pairs and no others.
fn has_chain(table: &HeavyTable, first: Option<HeavyPlace>, pairs: &str) -> bool
    requires { (p : HeavyPlace) → first ≡ Some p → IsPlace (heavy_chain table.now) p }
{
    let mut place = first;
    for text in pairs.split_ascii_whitespace() {
        let Some(here) = place else {
            return false;
        };
        if held_of(text) != Some(table.held_at(here)) {
            return false;
        }
        place = table.outer(here);
    }
    place.is_none()
}

// Whether these pairs lie over a leaf, and over all leaves from there up to a number.
fn lie_over(table: &HeavyTable, leaf: u64, pairs: &str, until: u64) -> bool {
    if leaf % 2 != 1 || leaf >= LEAF_END {
        return false;
    }
    let (first, end) = table.first_over(leaf);
    end == until && has_chain(table, first, pairs)
}

// Whether a table has these chunks.
fn has_chunks(table: &HeavyTable, chunks: &[&str]) -> bool {
    let found = table.chunks();
    for (k, &pairs) in chunks.iter().enumerate() {
        if k >= found.len() || !are_flat_pairs(found[k].as_slice(), pairs) {
            return false;
        }
    }
    found.len() == chunks.len()
}

// Whether a table has pairs of these cells, each one.
fn has_cells(table: &HeavyTable, tokens: &str) -> bool {
    for token in tokens.split_ascii_whitespace() {
        match cell_of(token) {
            Some(cell) if table.has_cell(cell) => {}
            _ => return false,
        }
    }
    true
}

// Whether a table has no pair of a cell.
fn lacks_cell(table: &HeavyTable, token: &str) -> bool {
    match cell_of(token) {
        Some(cell) => !table.has_cell(cell),
        None => false,
    }
}

#[test]
fn heavy_pairs_over_leaves(rt: HostRuntime) {
    let table = table_of(rt.alloc(), PAIRS, 2).expect(&rt, "a table");
    assert!(rt; has_chunks(&table, &CHUNKS));
    for &(leaf, pairs, until) in &OVER {
        assert!(rt; lie_over(&table, leaf, pairs, until));
    }
    chunks_are_in_order(&table);
    heavy_pairs_have_one_place(&table);
    equal_heavy_places_are_one();
    cloned_heavy_places_are_the_same();
}

#[test]
fn cells_of_heavy_pairs(rt: HostRuntime) {
    let table = table_of(rt.alloc(), PAIRS, 1).expect(&rt, "a table");
    assert!(rt; table.chunks().len() == 8);
    assert!(rt; has_cells(&table, "4000000000000001 44 5"));
    for &token in &["1", "3", "4000000000000003", "4c", "54", "b"] {
        assert!(rt; lacks_cell(&table, token));
    }
}

#[test]
fn no_heavy_pairs(rt: HostRuntime) {
    let table = table_of(rt.alloc(), "", 512).expect(&rt, "a table");
    assert!(rt; table.chunks().is_empty());
    assert!(rt; lie_over(&table, 1, "", LEAF_END));
    assert!(rt; lacks_cell(&table, "5"));
}

// Entries of a change, how long a chunk may be, and the number of the chunk into which they all fall, if it keeps a pair and isn't too long.
const FALLS: [(&str, usize, Option<usize>); 10] = [
    ("4000000000000001:1:1:5", 2, Some(0)),
    ("4000000000000001:3:2:1", 2, Some(1)),
    ("44:5:0:1", 2, Some(2)),
    ("5:6:0:1", 2, None),
    ("5:6:0:1", 3, Some(4)),
    ("5:5:1:0 5:9:0:1", 2, Some(4)),
    ("5:3:1:0 5:4:2:0", 2, None),
    ("5:3:1:2 5:5:1:2", 2, None),
    ("44:6:1:0", 2, None),
    ("04:1:0:1", 2, None),
];

// The number of the chunk that a table exchanges for a change, if it makes one.
fn chunk_for(
    alloc: Global,
    table: &HeavyTable,
    entries: &str,
    most: usize,
) -> Option<Option<usize>> {
    let change = change_of(alloc, entries)?;
    let made = table.changed_chunk(alloc, change.entries(), most).ok()?;
    Some(made.map(|chunk| chunk.number))
}

#[test]
fn changes_fall_into_chunks(rt: HostRuntime) {
    let table = table_of(rt.alloc(), PAIRS, 2).expect(&rt, "a table");
    for &(entries, most, number) in &FALLS {
        assert!(rt; chunk_for(rt.alloc(), &table, entries, most) == Some(number));
    }
}
