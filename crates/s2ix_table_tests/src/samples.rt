//! Targets from plain texts, and the ranges and pairs of tables compared with plain texts.
ghost use Rattle.std.specs.Prelude.{◌≡◌};
ghost use Rattle.s2id_core.specs.CellId.{level_of};

use s2id_core::CellId;
use s2id_samples::{cell_of, cells_of};
use s2id_union::CellUnion;
use s2ix_bag_samples::held_of;
use s2ix_table::{ChainIter, RangeRow, RangeTable, chain_at, contents, ranges};
use std::alloc::Global;

// Where a range ends, and the pairs over it from the innermost cell outwards.
pub(crate) type Row = (u64, &'static str);

// The union of the cells that some tokens name.
pub(crate) fn union_of(alloc: Global, tokens: &str) -> Option<CellUnion> {
    let cells = cells_of(alloc, tokens)?;
    CellUnion::normalise(alloc, &cells).ok()
}

// Whether a chain gives these pairs.
fn gives<T: RangeTable>(mut chain: ChainIter<'_, T>, pairs: &str) -> bool {
    for text in pairs.split_ascii_whitespace() {
        match chain.next() {
            Some(held) if held_of(text) == Some(held) => {}
            _ => return false,
        }
    }
    chain.next().is_none()
}

// Whether this is the k-th range of a table, and these pairs lie over it.
fn is_range<T: RangeTable>(table: &T, k: usize, range: RangeRow, pairs: &str) -> bool {
    k < table.range_count() && table.range(k) == range && gives(contents(table, k), pairs)
}

// Whether a table has these ranges and no others, from the first leaf on, each from where the one before it ends.
pub(crate) fn has_ranges<T: RangeTable>(table: &T, rows: &[Row]) -> bool {
    let mut given = ranges(table);
    let mut start = 1;
    for (k, &(limit, pairs)) in rows.iter().enumerate() {
        let range = RangeRow { start, limit };
        if given.next() != Some((k, range)) || !is_range(table, k, range, pairs) {
            return false;
        }
        start = limit;
    }
    given.next().is_none()
}

// Whether a leaf leads to the k-th range of a table, by its place and by an iterator, and to these pairs.
fn leads_to<T: RangeTable>(table: &T, leaf: CellId, k: usize, pairs: &str) -> bool
    requires { level_of leaf ≡ 30 }
{
    let mut rows = ranges(table);
    rows.seek(leaf);
    let found = table.find(leaf);
    found == k
        && rows.next() == Some((found, table.range(found)))
        && gives(chain_at(table, leaf), pairs)
}

// Whether the leaf that a token names leads to the k-th range of a table, and these pairs lie over it.
pub(crate) fn finds<T: RangeTable>(table: &T, token: &str, k: usize, pairs: &str) -> bool {
    match cell_of(token) {
        Some(leaf) if leaf.level() == 30 => leads_to(table, leaf, k, pairs),
        _ => false,
    }
}

// Whether two tables have the same ranges, with the same pairs over them.
pub(crate) fn are_same<T: RangeTable, U: RangeTable>(one: &T, other: &U) -> bool {
    let mut left = ranges(other);
    for (k, row) in ranges(one) {
        if left.next() != Some((k, row)) || one.range_count() <= k || other.range_count() <= k {
            return false;
        }
        if !contents(one, k).eq(contents(other, k)) {
            return false;
        }
    }
    left.next().is_none()
}
