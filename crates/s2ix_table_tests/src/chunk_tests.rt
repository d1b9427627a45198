//! Tables that take changes of one chunk of heavy pairs, and changes that leave no such chunk.
use crate::small_parts::Both;
use s2id_samples::SET_UP;
use s2ix_bag_samples::change_of;
use std::alloc::Global;

// Six labels of a face, in chunks of four pairs and of two if a chunk has at most four, over cells in several parts; and some labels of a
// cell within it.
const DENSE: &str =
    "01:1:0:1 03:1:0:1 05:1:0:1 09:1:0:1 0b:1:0:1 0d:1:0:1 1:10:0:1 1:20:0:1 1:30:0:1 1:40:0:1 1:50:0:1 1:60:0:1 14:1:0:1 14:2:0:1 14:3:0:1 14:4:0:1 14:5:0:1 3:1:0:1";

// Within one chunk: another count, one that goes, a pair between two chunks, one before all, one behind all, two that go and one that comes.
const WITHIN: [&str; 7] = [
    "1:20:1:3",
    "1:40:1:0",
    "1:45:0:1",
    "1:70:0:2",
    "1:10:1:0 1:30:1:0",
    "1:5:0:1 1:20:3:4 1:45:1:0",
    "14:2:1:7",
];

// Not within one: too many pairs for a chunk, all of a chunk's, in two chunks, of another cell, of a light cell too, and on two faces.
const BEYOND: [&str; 7] = [
    "1:6:0:1 1:7:0:1 1:8:0:1",
    "1:50:1:0 1:60:1:0 1:70:2:0",
    "1:5:1:2 14:1:1:2",
    "17:1:0:1",
    "01:1:1:2 1:6:1:2",
    "1:6:2:3 3:1:1:2",
    "14:1:2:0 14:2:7:0 14:3:1:0 14:4:1:0 14:5:1:0",
];

// Makes changes of a table in place, or beside it. Whether it shows its bag after each, and the table from before still does.
fn follows(alloc: Global, both: &mut Both, changes: &[&str], beside: bool) -> Option<bool> {
    for text in changes {
        let change = change_of(alloc, text)?;
        if beside {
            let before = both.take_beside(alloc, &change)?;
            if !before.is_whole(alloc, "1 3")? {
                return Some(false);
            }
        } else {
            both.take(alloc, &change)?;
        }
        if !both.is_whole(alloc, "1 3")? || !both.is_heavy_over("1fffffffffffffff") {
            return Some(false);
        }
    }
    Some(true)
}

#[test]
fn a_table_is_that_of_its_bag_after_changes_of_one_chunk(rt: HostRuntime) {
    for &beside in &[false, true] {
        let mut both = Both::empty(rt.alloc(), 4).expect(&rt, SET_UP);
        assert!(rt; follows(rt.alloc(), &mut both, &[DENSE], false) == Some(true));
        assert!(rt; follows(rt.alloc(), &mut both, &WITHIN, beside) == Some(true));
        assert!(rt; follows(rt.alloc(), &mut both, &BEYOND, beside) == Some(true));
    }
}
