//! Tables that take changes over short parts, so that cells of few pairs are heavy: changes split parts and join them, and cells become
//! heavy and go.
use crate::samples::{Row, has_ranges};
use crate::small_parts::Both;
use s2id_samples::SET_UP;
use s2ix_bag::{Change, Entry, Pair};
use s2ix_bag_samples::{change_of, pair_of};
use std::alloc::Global;

// In rising order the pairs of cells of five levels that lie in each other, some under many labels, and of another face.
const PAIRS: &str =
    "01:1 01:2 021:1 023:1 03:1 03:2 04:1 04:2 04:3 04:4 04:5 04:6 04:7 05:1 07:1 09:1 0b:1 0b:2 0c:1 0c:2 0c:3 0d:1 0f:1 1:1 1:2 1:3 1:4 1:5 1:6 1:7 11:1 13:1 15:1 17:1 19:1 1b:1 1c:1 1c:2 1d:1 1f:1 21:1 23:1 24:1 24:2 24:3 24:4 24:5 25:1 27:1 3:1 3:2 3:3";

// How many they are.
const NUMBER: u64 = 52;

// Cells that tables are asked for: of all pairs, of one face, within others, and leaves.
const TARGETS: [&str; 4] = ["1 3", "021 17", "04 24", "0000000000000001 3"];

// Leaves under nested cells that have many labels.
const LEAVES: &str = "0000000000000001 07ffffffffffffff 1fffffffffffffff 2000000000000001";

// For so many steps most pairs come, and for as many most go.
const TIDE: u64 = 64;

// The next of a row of numbers that looks random.
fn next_number(seed: u64) -> u64 {
    let seed = seed ^ (seed << 13);
    let seed = seed ^ (seed >> 7);
    seed ^ (seed << 17)
}

// One of the pairs.
fn pair_at(place: u64) -> Option<Pair> {
    pair_of(
        PAIRS
            .split_ascii_whitespace()
            .nth((place % NUMBER) as usize)?,
    )
}

// A pair's next count by a random number.
fn count_at(random: u64, is_flood: bool) -> u32 {
    let count = (random % 8) as u32;
    if is_flood { count % 3 } else { count / 7 }
}

// A change of one to four pairs.
fn change_at(alloc: Global, both: &Both, seed: u64, is_flood: bool) -> Option<Change> {
    let mut entries = Vec::new(alloc);
    let mut place = (seed >> 4) % NUMBER;
    let mut random = seed >> 16;
    for _ in 0..1 + seed % 4 {
        let pair = pair_at(place)?;
        let before = both.bag.count(pair);
        let after = count_at(random, is_flood);
        if place < NUMBER && before != after {
            entries
                .push(Entry {
                    pair,
                    before,
                    after,
                })
                .ok()?;
        }
        place = place.saturating_add(1 + (random >> 3) % 16);
        random >>= 8;
    }
    Change::from_entries(alloc, &entries).ok()
}

// Makes a change of a bag and its table: now of the table in place, now beside it. Whether each table shows its bag then.
fn is_taken(alloc: Global, both: &mut Both, change: &Change, step: u64) -> Option<bool> {
    let tokens = TARGETS[(step % 4) as usize];
    if step % 3 > 0 {
        both.take(alloc, change)?;
        return both.is_whole(alloc, tokens);
    }
    let before = both.take_beside(alloc, change)?;
    Some(before.is_whole(alloc, tokens)? && both.is_whole(alloc, tokens)?)
}

// How many of the leaves have a heavy pair as their innermost one.
fn heavy_leaves(both: &Both) -> usize {
    let mut number = 0usize;
    for leaf in LEAVES.split_ascii_whitespace() {
        if both.is_heavy_over(leaf) {
            number = number.saturating_add(1);
        }
    }
    number
}

// Makes so many changes of a bag in parts of at most so many pairs, and of its table. How often the number of leaves under heavy pairs
// changes; `None` if a table doesn't show its bag.
fn turns(alloc: Global, most: usize, steps: u64) -> Option<usize> {
    let mut both = Both::empty(alloc, most)?;
    let mut seed = 88_172_645_463_325_252u64;
    let mut heavy = 0;
    let mut turns = 0usize;
    for step in 0..steps {
        seed = next_number(seed);
        let change = change_at(alloc, &both, seed, step / TIDE % 2 == 0)?;
        if is_taken(alloc, &mut both, &change, step) != Some(true) {
            return None;
        }
        let next = heavy_leaves(&both);
        if next != heavy {
            turns = turns.saturating_add(1);
        }
        heavy = next;
    }
    Some(turns)
}

#[test]
fn a_table_in_short_parts_is_that_of_its_bag(rt: HostRuntime) {
    for &most in &[1, 4, 8] {
        let turns = turns(rt.alloc(), most, 512).expect(&rt, "whole tables");
        assert!(rt; turns >= 5);
    }
}

// Nine labels of a cell, within one that has a label too, and over another.
const COME: &str =
    "01:1:0:1 04:1:0:1 04:2:0:1 04:3:0:1 04:4:0:1 04:5:0:1 04:6:0:1 04:7:0:1 04:8:0:1 04:9:0:1 1:3:0:2";

const HEAVY: [Row; 4] = [
    (
        0x0200000000000001,
        "01:1:1 04:1:1 04:2:1 04:3:1 04:4:1 04:5:1 04:6:1 04:7:1 04:8:1 04:9:1 1:3:2",
    ),
    (
        0x0800000000000001,
        "04:1:1 04:2:1 04:3:1 04:4:1 04:5:1 04:6:1 04:7:1 04:8:1 04:9:1 1:3:2",
    ),
    (0x2000000000000001, "1:3:2"),
    (0xc000000000000001, ""),
];

// They go. The cell around them stays heavy.
const GO: &str = "04:1:1:0 04:2:1:0 04:3:1:0 04:4:1:0 04:5:1:0 04:6:1:0 04:7:1:0 04:8:1:0 04:9:1:0";

const LEFT: [Row; 3] = [
    (0x0200000000000001, "01:1:1 1:3:2"),
    (0x2000000000000001, "1:3:2"),
    (0xc000000000000001, ""),
];

// Makes a change, and looks whether the table has these ranges then, and whether what lies over the last leaf of the cell is heavy.
fn leads_to(alloc: Global, both: &mut Both, entries: &str, rows: &[Row], is_heavy: bool) -> bool {
    let Some(change) = change_of(alloc, entries) else {
        return false;
    };
    both.take(alloc, &change).is_some()
        && has_ranges(&both.table, rows)
        && both.is_heavy_over("07ffffffffffffff") == is_heavy
}

#[test]
fn many_labels_of_a_cell_are_heavy(rt: HostRuntime) {
    let mut both = Both::empty(rt.alloc(), 4).expect(&rt, SET_UP);
    assert!(rt; leads_to(rt.alloc(), &mut both, COME, &HEAVY, true));
    assert!(rt; leads_to(rt.alloc(), &mut both, GO, &LEFT, true));
}

#[test]
fn a_chunk_has_no_more_pairs_than_a_part(rt: HostRuntime) {
    let mut both = Both::empty(rt.alloc(), 1).expect(&rt, SET_UP);
    assert!(rt; leads_to(rt.alloc(), &mut both, COME, &HEAVY, true));
    assert!(rt; both.has_chunks_of_one_over(rt.alloc(), "07ffffffffffffff") == Some(true));
}

// Cells in several parts. More pairs lie within one of them than a part should have, but few enough for it to be light.
const SPREAD: &str =
    "01:1:0:1 01:2:0:1 03:1:0:1 04:1:0:1 05:1:0:1 09:1:0:1 0b:1:0:1 0d:1:0:1 0f:1:0:1 11:1:0:1 13:1:0:1 15:1:0:1 17:1:0:1 19:1:0:1";

// Labels over the face that they lie on and over some of the parts. They come, and they go.
const OVER: &str = "0c:2:0:1 1:9:0:1";

const AWAY: &str = "0c:2:1:0 1:9:1:0";

// Makes a change. Whether the table shows its bag then, and what lies over leaves in a light cell and beside all light cells is light or
// heavy.
fn spreads(alloc: Global, both: &mut Both, entries: &str, is_heavy: bool) -> bool {
    let Some(change) = change_of(alloc, entries) else {
        return false;
    };
    both.take(alloc, &change).is_some()
        && both.is_whole(alloc, "1 3") == Some(true)
        && !both.is_heavy_over("07ffffffffffffff")
        && both.is_heavy_over("1fffffffffffffff") == is_heavy
}

#[test]
fn a_label_over_many_parts_makes_no_light_cell_heavy(rt: HostRuntime) {
    let mut both = Both::empty(rt.alloc(), 4).expect(&rt, SET_UP);
    assert!(rt; spreads(rt.alloc(), &mut both, SPREAD, false));
    for _ in 0..2 {
        assert!(rt; spreads(rt.alloc(), &mut both, OVER, true));
        assert!(rt; spreads(rt.alloc(), &mut both, AWAY, false));
    }
}
