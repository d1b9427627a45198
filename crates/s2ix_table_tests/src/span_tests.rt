//! A table over the leaves of one face.
ghost use Rattle.std.specs.Prelude.{◌≡◌, ◌<◌, nat_lt, length, IfSome};
ghost use Rattle.std.specs.List.{list_any};
ghost use Rattle.s2id_core.specs.CellId.{first_of, end_of};

use s2id_core::CellId;
use s2ix_bag::{FlatHeld, Held, HeldList};
use s2ix_bag_samples::{WIDEST, bag_of, held_of};
use s2ix_table::laws::spans::ranges_are_those_of_the_span;
use s2ix_table::{RangeRow, SpanTable};
use std::alloc::Global;

// The leaf numbers at which face 2 begins and ends.
const FROM: u64 = 0x4000000000000001;

const TO: u64 = 0x6000000000000001;

// Where each range ends, the innermost pair over it, and the next one outwards.
const RANGES: [(u64, &str, &str); 3] = [
    (0x4800000000000001, "44:6:1", "5:3:1"),
    (0x5000000000000001, "4c:1:1", "5:3:1"),
    (TO, "5:3:1", ""),
];

// Whether a held cell begins before a leaf number.
fn begins_before(held: &[FlatHeld], from: u64) -> bool
    ensures { result ≡ list_any (λ h. nat_lt (first_of h.pair.cell) from) held.now }
{
    held.iter().any(|h| h.cell().span_start() < from)
}

// Whether a held cell ends after a leaf number.
fn ends_past(held: &[FlatHeld], to: u64) -> bool
    ensures { result ≡ list_any (λ h. nat_lt to (end_of h.pair.cell)) held.now }
{
    held.iter().any(|h| to < h.cell().span_end())
}

// The table of pairs that lie on face 2.
fn face_table(alloc: Global, pairs: &str) -> Option<SpanTable>
    ensures begins { IfSome result (λ table. table.from ≡ 4611686018427387905) }
    ensures ends { IfSome result (λ table. table.to ≡ 6917529027641081857) }
{
    let held = bag_of(alloc, WIDEST, pairs)?.flat(alloc).ok()?;
    if begins_before(held.as_slice(), FROM) || ends_past(held.as_slice(), TO) {
        return None;
    }
    let list = HeldList::new(alloc, held).ok()?;
    SpanTable::over(alloc, list, FROM, TO).ok()
}

// A range's innermost pair, the next one outwards, and whether more lie over it.
fn first_two(table: &SpanTable, k: usize) -> (Option<Held>, Option<Held>, bool)
    requires { k < length table.now.ranges }
{
    let Some(first) = table.first(k) else {
        return (None, None, false);
    };
    let inner = table.held_at(first);
    let Some(next) = table.outer(first) else {
        return (Some(inner), None, false);
    };
    let has_more = table.outer(next).is_some();
    (Some(inner), Some(table.held_at(next)), has_more)
}

// Whether the range at a place is this one, and these pairs alone lie over it.
fn has_range(table: &SpanTable, k: usize, range: RangeRow, inner: &str, outer: &str) -> bool {
    k < table.range_count()
        && table.range(k) == range
        && table.start(k) == range.start
        && first_two(table, k) == (held_of(inner), held_of(outer), false)
}

// Whether a leaf of the face is found in its range.
fn finds(table: &SpanTable, number: u64, k: usize) -> bool
    requires begins { table.now.from ≡ 4611686018427387905 }
    requires ends { table.now.to ≡ 6917529027641081857 }
{
    match CellId::from_raw(number) {
        Some(leaf) if leaf.raw() >= FROM && leaf.raw() < TO => table.find(leaf) == k,
        _ => false,
    }
}

// Whether a table has the rows' ranges over the face, and the first and the last leaf of each lead to it.
fn has_rows(table: &SpanTable) -> bool
    requires begins { table.now.from ≡ 4611686018427387905 }
    requires ends { table.now.to ≡ 6917529027641081857 }
{
    let mut start = FROM;
    for (k, &(limit, inner, outer)) in RANGES.iter().enumerate() {
        let is_found = finds(table, start, k) && finds(table, limit.wrapping_sub(2), k);
        if !is_found || !has_range(table, k, RangeRow { start, limit }, inner, outer) {
            return false;
        }
        start = limit;
    }
    table.range_count() == RANGES.len()
}

#[test]
fn table_of_a_face(rt: HostRuntime) {
    let table = face_table(rt.alloc(), "44:6:1 4c:1:1 5:3:1").expect(&rt, "a table");
    assert!(rt; table.pair_count() == 3);
    assert!(rt; table.held().len() == 3);
    assert!(rt; table.held().first().map(|h| h.held()) == held_of("44:6:1"));
    assert!(rt; has_rows(&table));
    ranges_are_those_of_the_span(&table);
}
