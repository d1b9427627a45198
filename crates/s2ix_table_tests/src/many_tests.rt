//! Tables of very many ranges on a face, and the parts that they are kept in.
use s2id_core::{CellId, FACE_NUMBERS, LEAF_END};
use s2id_union::CellUnion;
use s2ix_bag::{Bag, Change, Entry, Held, Label, Limits, Pair};
use s2ix_table::{
    BagReader, Bookmark, ChainTable, Each, EachStop, FacedTable, PairReader, RangeTable, at_each,
    at_many,
};
use std::alloc::Global;

// The number of the first cell of level 9 on face 5.
const FIRST: u64 = 0xa000040000000000;

// The k-th of the cells of level 9 on face 5 that are 13 apart.
fn cell_at(k: u64) -> Option<CellId> {
    CellId::from_raw(FIRST.wrapping_add(k.wrapping_mul(13 << 43)))
}

// The pair of the k-th cell, under the label 7.
fn pair_at(k: u64) -> Option<Pair> {
    Some(Pair {
        cell: cell_at(k)?,
        label: Label::new(7)?,
    })
}

// The bag of 20,000 such pairs: there are more than 40,000 ranges.
fn wide_bag(alloc: Global) -> Option<Bag> {
    let mut entries = Vec::new(alloc);
    for k in 0..20_000u64 {
        let entry = Entry {
            pair: pair_at(k)?,
            before: 0,
            after: 1,
        };
        entries.push(entry).ok()?;
    }
    let change = Change::from_entries(alloc, &entries).ok()?;
    Bag::empty(alloc, Limits::default())
        .applied(alloc, &change)
        .ok()
}

// Whether a table lists the k-th pair alone for its cell.
fn lists_pair<T: RangeTable>(alloc: Global, table: &T, k: u64) -> Option<bool> {
    let pair = pair_at(k)?;
    let target = CellUnion::normalise(alloc, &[pair.cell]).ok()?;
    let met = table.meeting(alloc, &target).ok()?;
    Some(met.as_slice() == [Held { pair, count: 1 }].as_slice())
}

// Whether a kind of table of a bag finds the first cell, the last and some between them.
fn finds_cells<T: RangeTable + Drop>(alloc: Global, bag: &Bag) -> Option<bool> {
    let table = T::build(alloc, bag).ok()?;
    for k in [0, 1, 7, 8, 9_999, 12_345, 19_998, 19_999] {
        if !lists_pair(alloc, &table, k)? {
            return Some(false);
        }
    }
    Some(true)
}

// The first leaves of some cells, each with the first leaf of face 0 behind it, which is in none of them.
fn leaves_of(alloc: Global, cells: &[u64]) -> Option<Vec<u64>> {
    let mut leaves = Vec::new(alloc);
    for k in cells {
        leaves.push(cell_at(*k)?.span_start()).ok()?;
        leaves.push(1).ok()?;
    }
    Some(leaves)
}

// That bag, and the label 9 over all of face 5: a table in parts keeps this pair beside its parts.
fn bag_under_a_face(alloc: Global) -> Option<Bag> {
    let pair = Pair {
        cell: CellId::from_raw(0xb000000000000000)?,
        label: Label::new(9)?,
    };
    let entry = Entry {
        pair,
        before: 0,
        after: 1,
    };
    let change = Change::from_entries(alloc, &[entry]).ok()?;
    wide_bag(alloc)?.applied(alloc, &change).ok()
}

// Whether a kind of table of a bag answers those leaves at once: over each first one of two lie these labels.
fn table_answers<T: RangeTable + Drop>(
    alloc: Global,
    bag: &Bag,
    leaves: &[u64],
    over: &[u32],
) -> Option<bool> {
    let table = T::build(alloc, bag).ok()?;
    let many = leaves.len();
    let found = (many / 2).checked_mul(over.len())?;
    let mut ends = Vec::from_elem(alloc, 0usize, many).ok()?;
    let mut labels = Vec::from_elem(alloc, 0u32, found).ok()?;
    let each = at_each(&table, leaves, &mut ends, &mut labels);
    let is_whole = each
        == Each {
            answered: many,
            stop: EachStop::All,
        };
    let are_counted = ends
        .iter()
        .enumerate()
        .all(|(k, end)| *end == (k / 2 + 1).wrapping_mul(over.len()));
    let are_put = labels.chunks(over.len().max(1)).all(|row| row == over);
    Some(is_whole && are_counted && are_put)
}

// Whether each kind of table does.
fn both_tables_answer(alloc: Global, bag: &Bag, cells: &[u64], over: &[u32]) -> Option<bool> {
    let leaves = leaves_of(alloc, cells)?;
    let chain = table_answers::<ChainTable>(alloc, bag, &leaves, over)?;
    let faced = table_answers::<FacedTable>(alloc, bag, &leaves, over)?;
    Some(chain && faced)
}

#[test]
fn many_leaves_are_answered_at_once(rt: HostRuntime) {
    let mut cells = [0; 100];
    for k in 0..100u64 {
        cells[k as usize] = k * 7_919 % 20_000;
    }
    let bag = wide_bag(rt.alloc()).expect(&rt, "a bag");
    assert!(rt; both_tables_answer(rt.alloc(), &bag, &cells, &[7]) == Some(true));
    let bag = bag_under_a_face(rt.alloc()).expect(&rt, "a bag");
    assert!(rt; both_tables_answer(rt.alloc(), &bag, &cells, &[7, 9]) == Some(true));
}

// Whether a kind of table of a bag answers rising leaves at once, the first ones of the first 200 cells: over each lies the label 7.
fn answers_rising<T: RangeTable + Drop>(alloc: Global, bag: &Bag) -> Option<bool> {
    let table = T::build(alloc, bag).ok()?;
    let mut leaves = Vec::new(alloc);
    for k in 0..200u64 {
        leaves.push(cell_at(k)?.span_start()).ok()?;
    }
    let mut ends = Vec::from_elem(alloc, 0usize, 200).ok()?;
    let mut labels = Vec::from_elem(alloc, 0u32, 200).ok()?;
    let each = at_each(&table, &leaves, &mut ends, &mut labels);
    let are_counted = ends.iter().enumerate().all(|(k, end)| *end == k + 1);
    Some(each.answered == 200 && are_counted && labels.iter().all(|label| *label == 7))
}

#[test]
fn rising_leaves_are_answered_at_once(rt: HostRuntime) {
    let bag = wide_bag(rt.alloc()).expect(&rt, "a bag");
    assert!(rt; answers_rising::<FacedTable>(rt.alloc(), &bag) == Some(true));
    assert!(rt; answers_rising::<ChainTable>(rt.alloc(), &bag) == Some(true));
}

// Whether leaves in no order get the same answers from `at_many` as from `at_each`, if there is room for so many labels. The one at the place
// `wrong` is no leaf's number.
fn many_are_answered_alike(alloc: Global, bag: &Bag, wrong: u64, room: usize) -> Option<bool> {
    let table = FacedTable::build(alloc, bag).ok()?;
    let mut leaves = Vec::new(alloc);
    for k in 0..9_000u64 {
        let leaf = cell_at(k * 7_919 % 20_000)?.span_start();
        leaves.push(if k == wrong { 2 } else { leaf }).ok()?;
    }
    let mut ends = Vec::from_elem(alloc, 0usize, 9_000).ok()?;
    let mut labels = Vec::from_elem(alloc, 0u32, room).ok()?;
    let each = at_each(&table, &leaves, &mut ends, &mut labels);
    let mut many_ends = Vec::from_elem(alloc, 0usize, 9_000).ok()?;
    let mut many_labels = Vec::from_elem(alloc, 0u32, room).ok()?;
    let many = at_many(alloc, &table, &leaves, &mut many_ends, &mut many_labels);
    let ends = ends.get(..each.answered)?;
    let end = ends.last().copied().unwrap_or(0);
    let are_alike = many_ends.get(..each.answered)? == ends
        && many_labels.get(..end)? == labels.get(..end)?;
    Some(many == each && are_alike)
}

#[test]
fn many_leaves_in_no_order_are_answered(rt: HostRuntime) {
    let bag = bag_under_a_face(rt.alloc()).expect(&rt, "a bag");
    for wrong in [5, 4_999, 8_999, 9_000] {
        assert!(rt; many_are_answered_alike(rt.alloc(), &bag, wrong, 18_000) == Some(true));
    }
    for room in [0, 1, 5_000, 17_999] {
        assert!(rt; many_are_answered_alike(rt.alloc(), &bag, 9_000, room) == Some(true));
    }
}

// Whether a table answers as many of eight leaves as there is room for ends: room for fewer than eight.
fn answers_in_little_room(alloc: Global, bag: &Bag, room: usize) -> Option<bool> {
    let table = FacedTable::build(alloc, bag).ok()?;
    let leaves = leaves_of(alloc, &[19_999, 3, 12_345, 3])?;
    let mut ends = Vec::from_elem(alloc, 0usize, room).ok()?;
    let mut labels = Vec::from_elem(alloc, 0u32, 4).ok()?;
    let each = at_each(&table, &leaves, &mut ends, &mut labels);
    let stop = EachStop::NoRoom;
    Some(
        each == Each {
            answered: room,
            stop,
        },
    )
}

#[test]
fn leaves_are_answered_as_far_as_there_is_room(rt: HostRuntime) {
    let bag = wide_bag(rt.alloc()).expect(&rt, "a bag");
    for room in [0, 1, 2, 7] {
        assert!(rt; answers_in_little_room(rt.alloc(), &bag, room) == Some(true));
    }
}

// Whether a table looks for these leaves, 40 of them, and finds each by its bookmark, which then stays the same.
fn looks_for(table: &FacedTable, leaves: &[CellId]) -> bool {
    let mut bookmarks = [Bookmark::none(); 40];
    table.look_for(leaves, &mut bookmarks)
        && leaves.iter().zip(bookmarks.iter()).all(|(leaf, bookmark)| leaf.is_leaf()
            && table.contents_near(*leaf, *bookmark).bookmark == *bookmark)
}

// Whether a table looks for the last leaves of 40 neighbouring cells, given from the last cell to the first, but not for 40 leaves that rise.
fn looks_side_by_side(alloc: Global, bag: &Bag, first: u64) -> Option<bool> {
    let table = FacedTable::build(alloc, bag).ok()?;
    let mut rising = Vec::new(alloc);
    let mut falling = Vec::new(alloc);
    for k in 0..40u64 {
        rising
            .push(cell_at(first.wrapping_add(k))?.range_min())
            .ok()?;
        falling
            .push(cell_at(first.wrapping_add(39 - k))?.range_max())
            .ok()?;
    }
    let mut bookmarks = [Bookmark::none(); 40];
    Some(looks_for(&table, &falling) && !table.look_for(&rising, &mut bookmarks))
}

#[test]
fn leaves_are_found_side_by_side(rt: HostRuntime) {
    let bag = wide_bag(rt.alloc()).expect(&rt, "a bag");
    for first in [0u64, 500, 511, 512, 7_000, 19_960] {
        assert!(rt; looks_side_by_side(rt.alloc(), &bag, first) == Some(true));
    }
}

#[test]
fn a_cell_is_found_among_many_ranges(rt: HostRuntime) {
    let bag = wide_bag(rt.alloc()).expect(&rt, "a bag");
    assert!(rt; finds_cells::<ChainTable>(rt.alloc(), &bag) == Some(true));
    assert!(rt; finds_cells::<FacedTable>(rt.alloc(), &bag) == Some(true));
}

#[test]
fn a_face_is_kept_in_parts(rt: HostRuntime) {
    let bag = wide_bag(rt.alloc()).expect(&rt, "a bag");
    let table = FacedTable::build(rt.alloc(), &bag).expect(&rt, "memory");
    let first = table.window(5 * FACE_NUMBERS + 1);
    let last = table.window(LEAF_END - 2);
    assert!(rt; first.borders.first.saturating_add(38) <= last.borders.first);
    assert!(rt; last.until == LEAF_END);
    assert!(rt; table.window(1).borders.size == 0);
}

// How many pairs are read when one of these pairs gets another count.
fn reads_of_a_change(alloc: Global) -> Option<u64> {
    let bag = wide_bag(alloc)?;
    let entry = Entry {
        pair: pair_at(7)?,
        before: 1,
        after: 2,
    };
    let change = Change::from_entries(alloc, &[entry]).ok()?;
    let next = bag.applied(alloc, &change).ok()?;
    let mut table = FacedTable::build(alloc, &bag).ok()?;
    let mut reader = BagReader::new(&next);
    table.rebuild(alloc, &mut reader, &change).ok()?;
    Some(reader.reads())
}

// All 20,000 pairs of the face are handed on. A bag knows where its faces begin and end, so at most twelve reads find this one.
#[test]
fn a_long_face_is_found_by_few_reads(rt: HostRuntime) {
    let reads = reads_of_a_change(rt.alloc()).expect(&rt, "a table");
    assert!(rt; 20_000 <= reads && reads <= 20_012);
}
